use parts::kinds::Part;

// The first byte's major type, the number that goes with it, and how many bytes they have. The type is a number here, as it stands in the
// message; `Item` is the kind.
#[derive(Clone, Copy)]
pub struct Head {
    pub major: u8,
    pub argument: u64,
    pub size: usize,
}

// An item by its kind: a string with its content, a holder with the number of its elements.
#[derive(Clone, Copy)]
pub enum Item<'a> {
    Unsigned(u64),
    Bytes(Part<'a>),
    Text(Part<'a>),
    Array(u64),
    Map(u64),
    Tag(u64),
    Truth(bool),
}

// The first item of a part, and what follows it. Its own and not one over the kind of item (`Taken<'a, Item<'a>>`), which at each use would
// be longer than these two fields.
#[derive(Clone, Copy)]
pub struct Taken<'a> {
    pub item: Item<'a>,
    pub rest: Part<'a>,
}

// The fields of a map so far, and the last key.
#[derive(Clone, Copy)]
pub struct Keyed<F> {
    pub last: Option<u64>,
    pub fields: F,
}
