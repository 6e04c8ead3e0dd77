use claims::kinds::{Bytes, Claim, Digests};

// A reader of boot records.
#[derive(Clone, Copy)]
pub struct Dice;

// A field of DiceTcbInfo.
#[derive(Clone, Copy, PartialEq, Eq, Debug)]
pub enum Field {
    Vendor,
    Model,
    Version,
    Svn,
    Layer,
    Index,
    Digests,
    Flags,
    Raw,
    Class,
}

// A tag that is none of a field's.
#[derive(Clone, Copy, PartialEq, Eq, Debug)]
pub struct UnknownTag(pub u8);

// What an extension holds, by its object identifier.
#[derive(Clone, Copy)]
pub enum Extension {
    TcbInfo,
    Ueid,
    Other,
}

// The digests so far. A type of its own, as a type has one rule for its elements.
#[derive(Clone, Copy)]
pub struct Gathered {
    pub digests: Digests,
}

// The fields of DiceTcbInfo so far, as a claim, and the number of the last tag.
#[derive(Clone, Copy)]
pub struct Fields {
    pub last: Option<u64>,
    pub claim: Claim,
}

// What the extensions held so far: DiceTcbInfo as a claim, and the instance of DiceUeid.
#[derive(Clone, Copy)]
pub struct Extensions {
    pub info: Option<Claim>,
    pub instance: Option<Bytes<33>>,
}
