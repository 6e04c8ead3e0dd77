#![tactic(auto)]

ghost use Rattle.std.specs.Prelude.{◌≡◌, Some};
ghost use Rattle.refusals.specs.Figures.{number, layer, place};
ghost use Rattle.refusals.specs.Texts.{layer_text, refusal_text};

pub mod reading;

use std::error::Error;
use std::fmt;

// Why a call is turned down. A refusal that speaks of a place in a message or of a number holds it.
#[derive(Clone, Copy, PartialEq, Eq, Debug)]
pub enum Refusal {
    // A list has another length than when its table was opened.
    ListResized,
    // The authority is above 63.
    AuthorityTooHigh,
    // The message has no bytes.
    MessageEmpty,
    // The message has more than 65,535 bytes.
    MessageTooLong,
    // An item is cut short, not shortest, of the wrong type or count, or left over.
    Malformed(usize),
    // A field, key, index, algorithm, listed authority or extension is unknown, repeated or not rising.
    Unknown(usize),
    // A number, code, length or count is outside its limit.
    OutOfLimits(usize),
    // A holder is empty, or lacks a part that it must have.
    Missing(usize),
    // The policy does not permit the offered claim of this number.
    NotPermitted(usize),
    // Evidence lines and additions pass the capacity for lines.
    LinesFull,
    // The new triples pass the capacity for triples.
    TriplesFull,
    // The number asked for is not below this count.
    NoSuchNumber(usize),
}

// Who turned the call down: the check of the caller's arguments, of an item, of a record, or of the table.
#[derive(Clone, Copy, PartialEq, Eq, Debug)]
pub enum Layer {
    Caller,
    Item,
    Record,
    Table,
}

impl Refusal {
    // The refusal's number, 1 to 12, in the order of checking. A method and no `From`, as a refusal has two numbers, its own and its place.
    pub fn number(self) -> u8
        ensures { result ≡ number self }
    {
        match self {
            Refusal::ListResized => 1,
            Refusal::AuthorityTooHigh => 2,
            Refusal::MessageEmpty => 3,
            Refusal::MessageTooLong => 4,
            Refusal::Malformed(_) => 5,
            Refusal::Unknown(_) => 6,
            Refusal::OutOfLimits(_) => 7,
            Refusal::Missing(_) => 8,
            Refusal::NotPermitted(_) => 9,
            Refusal::LinesFull => 10,
            Refusal::TriplesFull => 11,
            Refusal::NoSuchNumber(_) => 12,
        }
    }

    // The layer that refuses.
    pub fn layer(self) -> Layer
        ensures { result ≡ layer self }
    {
        match self {
            Refusal::ListResized
            | Refusal::AuthorityTooHigh
            | Refusal::MessageEmpty
            | Refusal::MessageTooLong
            | Refusal::NoSuchNumber(_) => Layer::Caller,
            Refusal::Malformed(_) => Layer::Item,
            Refusal::Unknown(_) | Refusal::OutOfLimits(_) | Refusal::Missing(_) => Layer::Record,
            Refusal::NotPermitted(_) | Refusal::LinesFull | Refusal::TriplesFull => Layer::Table,
        }
    }

    // The offset or the number that the refusal speaks of, else 0.
    pub fn place(self) -> usize
        ensures { result ≡ place self }
    {
        match self {
            Refusal::Malformed(at)
            | Refusal::Unknown(at)
            | Refusal::OutOfLimits(at)
            | Refusal::Missing(at)
            | Refusal::NotPermitted(at)
            | Refusal::NoSuchNumber(at) => at,
            Refusal::ListResized
            | Refusal::AuthorityTooHigh
            | Refusal::MessageEmpty
            | Refusal::MessageTooLong
            | Refusal::LinesFull
            | Refusal::TriplesFull => 0,
        }
    }
}

impl fmt::Display for Layer {
    ghost output = { λ layer. Some (layer_text layer) };

    fn fmt<W: fmt::Write>(&self, f: &mut fmt::Formatter<W>) -> fmt::Result {
        f.write_str(match self {
            Layer::Caller => "caller",
            Layer::Item => "item",
            Layer::Record => "record",
            Layer::Table => "table",
        })
    }
}

// What a refusal says: its number, its layer and its place.
impl fmt::Display for Refusal {
    ghost output = { λ refusal. Some (refusal_text refusal) };

    fn fmt<W: fmt::Write>(&self, f: &mut fmt::Formatter<W>) -> fmt::Result {
        let number = self.number();
        let layer = self.layer();
        let place = self.place();
        write!(f, "refused: {number} {layer} at {place}")
    }
}

impl Error for Refusal {}
