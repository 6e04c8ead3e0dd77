// A byte string of at most N bytes, kept by value. The places past its length hold 0, so equal bytes are kept alike.
// A length beside an array, as a claim lives in fixed memory and is copied into a table.
#[derive(Clone, Copy, PartialEq, Eq)]
pub struct Bytes<const N: usize> {
    pub(crate) len: usize,
    pub(crate) places: [u8; N],
}

// A hash algorithm.
#[derive(Clone, Copy, PartialEq, Eq, Debug)]
pub enum Algorithm {
    Sha256,
    Sha384,
    Sha512,
}

// A number that names no hash algorithm.
#[derive(Clone, Copy, PartialEq, Eq, Debug)]
pub struct UnknownAlgorithm(pub u64);

// A set of digests, at most one for each algorithm.
#[derive(Clone, Copy, PartialEq, Eq)]
pub struct Digests {
    pub sha256: Option<Bytes<32>>,
    pub sha384: Option<Bytes<48>>,
    pub sha512: Option<Bytes<64>>,
}

impl Digests {
    pub const NONE: Digests = Digests {
        sha256: None,
        sha384: None,
        sha512: None,
    };
}

// Flags 0 to 9, each missing, false or true.
#[derive(Clone, Copy, PartialEq, Eq)]
pub struct Flags {
    pub states: [Option<bool>; 10],
}

impl Flags {
    pub const NONE: Flags = Flags { states: [None; 10] };
}

// What a claim speaks of. Any field may be missing, but not all.
#[derive(Clone, Copy, PartialEq, Eq)]
pub struct Environment {
    pub class: Option<Bytes<32>>,
    pub vendor: Option<Bytes<32>>,
    pub model: Option<Bytes<32>>,
    pub layer: Option<u16>,
    pub index: Option<u16>,
    pub instance: Option<Bytes<33>>,
}

impl Environment {
    pub const NONE: Environment = Environment {
        class: None,
        vendor: None,
        model: None,
        layer: None,
        index: None,
        instance: None,
    };
}

// What is claimed: at least one value.
#[derive(Clone, Copy, PartialEq, Eq)]
pub struct Values {
    pub version: Option<Bytes<32>>,
    pub svn: Option<u64>,
    pub digests: Digests,
    pub flags: Flags,
    pub raw: Option<Bytes<64>>,
}

impl Values {
    pub const NONE: Values = Values {
        version: None,
        svn: None,
        digests: Digests::NONE,
        flags: Flags::NONE,
        raw: None,
    };
}

// A claim: an environment, perhaps the key of one of its elements, and values.
#[derive(Clone, Copy, PartialEq, Eq)]
pub struct Claim {
    pub environment: Environment,
    pub key: Option<u16>,
    pub values: Values,
}

impl Claim {
    pub const NONE: Claim = Claim {
        environment: Environment::NONE,
        key: None,
        values: Values::NONE,
    };
}
