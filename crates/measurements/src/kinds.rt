use authorities::kinds::Authorities;
use claims::kinds::{Bytes, Digests, Environment, Flags};
use conditions::kinds::Wanted;

// What a measurement map may carry only where it is a condition: listed authorities, and a minimum in place of an svn.
// Two truth values, as these are two permissions, and a holder may give either without the other.
#[derive(Clone, Copy)]
pub struct Allowed {
    pub authorities: bool,
    pub minimum: bool,
}

impl Allowed {
    // A condition may carry both.
    pub const IN_CONDITION: Allowed = Allowed {
        authorities: true,
        minimum: true,
    };

    // An addition may carry neither.
    pub const IN_ADDITION: Allowed = Allowed {
        authorities: false,
        minimum: false,
    };
}

// An svn as it is written: a number that is meant exactly, or a minimum.
#[derive(Clone, Copy)]
pub enum Svn {
    Exact(u64),
    Minimum(u64),
}

// The In.. types hold what was read so far of a map or an array. Each map has its own, since a type has one rule for its fields.

#[derive(Clone, Copy)]
pub struct InClass {
    pub environment: Environment,
}

#[derive(Clone, Copy)]
pub struct InEnvironment {
    pub environment: Environment,
}

#[derive(Clone, Copy)]
pub struct InVersion {
    pub text: Option<Bytes<32>>,
}

#[derive(Clone, Copy)]
pub struct InDigests {
    pub digests: Digests,
}

#[derive(Clone, Copy)]
pub struct InFlags {
    pub flags: Flags,
}

#[derive(Clone, Copy)]
pub struct InAuthorities {
    pub last: Option<u64>,
    pub listed: Authorities,
}

// `minimum` is a permission with no value beside it.
#[derive(Clone, Copy)]
pub struct InValues {
    pub minimum: bool,
    pub wanted: Wanted,
}

#[derive(Clone, Copy)]
pub struct InMeasurement {
    pub allowed: Allowed,
    pub wanted: Wanted,
}
