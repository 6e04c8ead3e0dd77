use cbor::kinds::Item;

// The item that some bytes begin with: a string by its length, a holder by the number of its elements.
#[derive(Clone, Copy, PartialEq, Eq, Debug)]
pub enum Expected {
    Unsigned(u64),
    Bytes(usize),
    Text(usize),
    Array(u64),
    Map(u64),
    Tag(u64),
    Truth(bool),
}

// An item as the cases tell it.
impl From<Item<'_>> for Expected {
    ghost use Rattle.std.specs.Prelude.{◌≡◌};
    ghost use Rattle.cbor.specs.Items.{shape};
    ghost use Rattle.vectors.specs.Told.{told};

    ghost from_gives = { λ item expected. expected ≡ told (shape item) };

    fn from(item: Item<'_>) -> Expected {
        match item {
            Item::Unsigned(n) => Expected::Unsigned(n),
            Item::Bytes(content) => Expected::Bytes(content.bytes().len()),
            Item::Text(content) => Expected::Text(content.bytes().len()),
            Item::Array(n) => Expected::Array(n),
            Item::Map(n) => Expected::Map(n),
            Item::Tag(n) => Expected::Tag(n),
            Item::Truth(truth) => Expected::Truth(truth),
        }
    }
}
