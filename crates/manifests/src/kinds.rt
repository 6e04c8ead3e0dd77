use claims::kinds::{Claim, Environment};
use conditions::kinds::Condition;
use records::kinds::Few;

// What a triple says: that evidence like this is known, or that claims are added where conditions are met.
#[derive(Clone, Copy, PartialEq, Eq, Debug)]
pub enum Sort {
    Reference,
    Endorsement,
}

// One statement of a manifest, under its signer.
#[derive(Clone, Copy)]
pub struct Triple {
    pub signer: u64,
    pub sort: Sort,
    pub conditions: Few<Condition>,
    pub additions: Few<Claim>,
}

// What the elements of the array under a key of a manifest are.
#[derive(Clone, Copy, PartialEq, Eq, Debug)]
pub enum Section {
    // Records, each of whose measurement maps is a reference by itself.
    References,
    // Records that are endorsements on their environment alone.
    Endorsements,
    // Pairs of conditions and additions.
    Conditionals,
}

// Where a walk over the triples of a message stands: how many bytes are behind it, how many entries, elements and measurement maps are
// still to come, and what those before them said that these need.
#[derive(Clone, Copy)]
pub struct Cursor {
    pub(crate) signer: u64,
    pub(crate) used: usize,
    pub(crate) entries: u64,
    pub(crate) last: Option<u64>,
    pub(crate) section: Section,
    pub(crate) elements: u64,
    pub(crate) environment: Environment,
    pub(crate) maps: u64,
}

// A walk over the triples of a message: the message, and where the walk stands. Whoever holds a cursor may go on from it in any message.
#[derive(Clone, Copy)]
pub struct Walk<'a> {
    pub message: &'a [u8],
    pub cursor: Cursor,
}

// The next triple, and where the walk stands behind it.
#[derive(Clone, Copy)]
pub struct Step {
    pub triple: Triple,
    pub cursor: Cursor,
}
