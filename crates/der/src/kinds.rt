use parts::kinds::Part;

// The tag of an item by its first byte, how many bytes its tag and length have, and how many its content has. The tag is a number here, as it
// stands in the message; `Item` is the kind.
#[derive(Clone, Copy)]
pub struct Head {
    pub tag: u8,
    pub header: usize,
    pub size: usize,
}

// The length of an item: in how many bytes it is written, and how many bytes of content it says.
#[derive(Clone, Copy)]
pub struct Size {
    pub width: usize,
    pub size: usize,
}

// An item by its kind, with its content; any other than these is known by its tag.
#[derive(Clone, Copy)]
pub enum Item<'a> {
    Boolean(Part<'a>),
    Octets(Part<'a>),
    Identifier(Part<'a>),
    Sequence(Part<'a>),
    Field(u8, Part<'a>),
}

// A kind of item that is known by its content alone. An enum and no closure for each, as one match says all of them.
#[derive(Clone, Copy, PartialEq, Eq, Debug)]
pub enum Kind {
    Boolean,
    Octets,
    Identifier,
    Sequence,
}

// The first item of a part, and what follows it. Its own and not one over the kind of item (`Taken<'a, Item<'a>>`), which at each use would
// be longer than these two fields.
#[derive(Clone, Copy)]
pub struct Taken<'a> {
    pub item: Item<'a>,
    pub rest: Part<'a>,
}

// An item that holds something: its place, its content, and what follows it.
#[derive(Clone, Copy)]
pub struct Held<'a> {
    pub at: usize,
    pub content: Part<'a>,
    pub rest: Part<'a>,
}
