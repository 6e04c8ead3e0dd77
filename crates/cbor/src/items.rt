ghost use Rattle.std.specs.Prelude.{◌≡◌, ◌<◌, Option, length, IfSome};
ghost use Rattle.parts.specs.Parts.{Piece, piece};
ghost use Rattle.std.specs.Option.{option_map, ok_or};
ghost use Rattle.refusals.specs.declared.Refusal.TheVariants.{Malformed};
ghost use Rattle.parts.specs.Reads.{IsWithin, TakenFrom};
ghost use Rattle.cbor.specs.Heads.{StandsIn};
ghost use Rattle.cbor.specs.Items.{Shape, Holds, ChosenFrom, shape, taken, string_of, item_of, is_unsigned, is_bytes, is_text, is_array, is_map, is_tag, is_truth};

use crate::heads::head_of;
use crate::kinds::{Head, Item, Taken};
use parts::kinds::{Part, Read};
use refusals::Refusal;

impl<'a> Item<'a> {
    // What an item holds, if it is of a kind. One for each kind, as a call cannot name a case.

    pub fn unsigned(self) -> Option<u64>
        ensures { result ≡ is_unsigned (shape self.entry) }
    {
        match self {
            Item::Unsigned(number) => Some(number),
            _ => None,
        }
    }

    pub fn bytes(self) -> Option<Part<'a>>
        ensures { option_map piece result ≡ is_bytes (shape self.entry) }
    {
        match self {
            Item::Bytes(content) => Some(content),
            _ => None,
        }
    }

    pub fn text(self) -> Option<Part<'a>>
        ensures { option_map piece result ≡ is_text (shape self.entry) }
    {
        match self {
            Item::Text(content) => Some(content),
            _ => None,
        }
    }

    pub fn array(self) -> Option<u64>
        ensures { result ≡ is_array (shape self.entry) }
    {
        match self {
            Item::Array(count) => Some(count),
            _ => None,
        }
    }

    pub fn map(self) -> Option<u64>
        ensures { result ≡ is_map (shape self.entry) }
    {
        match self {
            Item::Map(count) => Some(count),
            _ => None,
        }
    }

    pub fn tag(self) -> Option<u64>
        ensures { result ≡ is_tag (shape self.entry) }
    {
        match self {
            Item::Tag(tag) => Some(tag),
            _ => None,
        }
    }

    pub fn truth(self) -> Option<bool>
        ensures { result ≡ is_truth (shape self.entry) }
    {
        match self {
            Item::Truth(truth) => Some(truth),
            _ => None,
        }
    }
}

// A string behind its head, where all its content stands there, and what follows it.
fn take_string<'a, F: FnOnce(Part<'a>) -> Item<'a>>(
    part: Part<'a>,
    head: Head,
    kind: F,
) -> Option<Taken<'a>>
    requires callable { F.IsAlwaysCallable kind }
    requires head { StandsIn (piece part).bytes head }
    ensures value { (held : Piece → Shape) → Holds (F.post kind) held → option_map taken result ≡ string_of held head (piece part.entry) }
    ensures shorter { IfSome result (λ t. length (piece t.rest).bytes < length (piece part.entry).bytes) }
{
    let rest = part.after(head.size);
    if head.argument > rest.bytes().len() as u64 {
        return None;
    }
    let size = head.argument as usize;
    Some(Taken {
        item: kind(rest.front(size)),
        rest: part.after(head.size + size),
    })
}

// The first item of a part, where a whole one stands there, and what follows it. That this is shorter ties it to the part, which no type of
// the result alone can say.
pub fn take_item(part: Part<'_>) -> Option<Taken<'_>>
    ensures value { option_map taken result ≡ item_of (piece part.entry) }
    ensures shorter { IfSome result (λ t. length (piece t.rest).bytes < length (piece part.entry).bytes) }
{
    let head = head_of(part.bytes())?;
    let rest = part.after(head.size);
    let number = head.argument;
    let item = match head.major {
        0 => Item::Unsigned(number),
        2 => return take_string(part, head, Item::Bytes),
        3 => return take_string(part, head, Item::Text),
        4 => Item::Array(number),
        5 => Item::Map(number),
        6 => Item::Tag(number),
        7 if number == 20 => Item::Truth(false),
        7 if number == 21 => Item::Truth(true),
        _ => return None,
    };
    Some(Taken { item, rest })
}

// The first item of a part, if it is of a kind: what it holds, and how many bytes it has.
pub fn take_as<'a, T, F: FnOnce(Item<'a>) -> Option<T>>(part: Part<'a>, kind: F) -> Option<Read<T>>
    requires { F.IsAlwaysCallable kind }
    ensures value { ChosenFrom (F.post kind) (piece part.entry) result }
    ensures within { IfSome result (IsWithin (piece part.entry)) }
{
    let taken = take_item(part)?;
    let item = Read {
        value: taken.item,
        size: part.before(taken.rest),
    };
    item.try_map(kind)
}

// What the first item of a part holds, if it is of a kind; any other is refused at its place.
pub fn read_as<'a, T, F: FnOnce(Item<'a>) -> Option<T>>(
    part: Part<'a>,
    kind: F,
) -> Result<Read<T>, Refusal>
    requires { F.IsAlwaysCallable kind }
    ensures value { (taken : Option (Read T)) × ChosenFrom (F.post kind) (piece part.entry) taken × (result ≡ ok_or taken (Malformed (piece part.entry).at)) }
    ensures within { TakenFrom (piece part.entry) result }
{
    take_as(part, kind).ok_or(Refusal::Malformed(part.place()))
}
