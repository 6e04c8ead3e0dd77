ghost use Rattle.std.specs.Prelude.{◌≡◌, ℕ, ◌<◌, ◌≤◌, length, IfSome};
ghost use Rattle.std.specs.Option.{option_map};
ghost use Rattle.refusals.specs.Reading.{keeps};
ghost use Rattle.parts.specs.Parts.{piece};
ghost use Rattle.der.specs.Items.{shape, shape_of, taken, item_of};
ghost use Rattle.der.specs.Kinds.{content_of, is_octets, is_identifier, is_sequence, IsTakenAs, truth, after_boolean};

use crate::heads::head_of;
use crate::kinds::{Held, Item, Kind, Taken};
use parts::kinds::Part;
use refusals::Refusal;

// An item by its tag: the one place where a tag of an item is a number.
fn item_of(tag: u8, content: Part<'_>) -> Item<'_>
    ensures { shape result ≡ shape_of tag (piece content.entry) }
{
    match tag {
        0x01 => Item::Boolean(content),
        0x04 => Item::Octets(content),
        0x06 => Item::Identifier(content),
        0x30 => Item::Sequence(content),
        _ => Item::Field(tag, content),
    }
}

// The first item of a part, where a whole one stands there, and what follows it.
pub fn take_item(part: Part<'_>) -> Option<Taken<'_>>
    ensures value { option_map taken result ≡ item_of (piece part.entry) }
    ensures shorter { IfSome result (λ t. length (piece t.rest).bytes < length (piece part.entry).bytes) }
{
    let head = head_of(part.bytes())?;
    let content = part.after(head.header).front(head.size);
    Some(Taken {
        item: item_of(head.tag, content),
        rest: part.after(head.header + head.size),
    })
}

impl<'a> Item<'a> {
    // The content, if the item is of a kind.
    fn content_of(self, kind: Kind) -> Option<Part<'a>>
        ensures { option_map piece result ≡ content_of kind (shape self.entry) }
    {
        match (kind, self) {
            (Kind::Boolean, Item::Boolean(content))
            | (Kind::Octets, Item::Octets(content))
            | (Kind::Identifier, Item::Identifier(content))
            | (Kind::Sequence, Item::Sequence(content)) => Some(content),
            _ => None,
        }
    }
}

// An item of a kind, with which a part must begin.
fn take_kind(part: Part<'_>, kind: Kind) -> Result<Held<'_>, Refusal>
    ensures { IsTakenAs (content_of kind) (piece part.entry) result }
{
    let at = part.place();
    let taken = take_item(part).ok_or(Refusal::Malformed(at))?;
    let content = taken.item.content_of(kind);
    Ok(Held {
        at,
        content: content.ok_or(Refusal::Malformed(at))?,
        rest: taken.rest,
    })
}

// A SEQUENCE, with which a part must begin.
pub fn take_sequence(part: Part<'_>) -> Result<Held<'_>, Refusal>
    ensures { IsTakenAs is_sequence (piece part.entry) result }
{
    take_kind(part, Kind::Sequence)
}

// An OCTET STRING, with which a part must begin.
pub fn take_octets(part: Part<'_>) -> Result<Held<'_>, Refusal>
    ensures { IsTakenAs is_octets (piece part.entry) result }
{
    take_kind(part, Kind::Octets)
}

// An object identifier, with which a part must begin.
pub fn take_identifier(part: Part<'_>) -> Result<Held<'_>, Refusal>
    ensures { IsTakenAs is_identifier (piece part.entry) result }
{
    take_kind(part, Kind::Identifier)
}

// Whether the content of a BOOLEAN is 00 or FF.
fn is_truth(content: &[u8]) -> bool
    ensures { result ≡ truth content.now }
{
    matches!(content, [0x00] | [0xFF])
}

// What follows a BOOLEAN, if the part begins with one; any other item stays where it is.
pub fn skip_boolean(part: Part<'_>) -> Result<Part<'_>, Refusal>
    ensures { keeps result piece ≡ after_boolean (piece part.entry) }
{
    let at = part.place();
    let taken = take_item(part).ok_or(Refusal::Malformed(at))?;
    let Item::Boolean(content) = taken.item else {
        return Ok(part);
    };
    if !is_truth(content.bytes()) {
        return Err(Refusal::OutOfLimits(at));
    }
    Ok(taken.rest)
}
