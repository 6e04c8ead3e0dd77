use authorities::kinds::Authorities;
use claims::kinds::{Environment, Values};

// What a condition asks of a line besides its environment: the element key, values, a least svn, and authorities that stand on it.
#[derive(Clone, Copy)]
pub struct Wanted {
    pub key: Option<u16>,
    pub values: Values,
    pub minimum: Option<u64>,
    pub authorities: Authorities,
}

impl Wanted {
    pub const NONE: Wanted = Wanted {
        key: None,
        values: Values::NONE,
        minimum: None,
        authorities: Authorities::NONE,
    };
}

// A condition on a line; one that wants nothing more is an environment alone.
#[derive(Clone, Copy)]
pub struct Condition {
    pub environment: Environment,
    pub wanted: Option<Wanted>,
}

impl Condition {
    pub const NONE: Condition = Condition {
        environment: Environment::NONE,
        wanted: None,
    };
}
