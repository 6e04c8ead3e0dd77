// A set of authorities: authority n, 0 to 63, is in it where bit n is set.
#[derive(Clone, Copy)]
pub struct Authorities {
    pub bits: u64,
}

impl Authorities {
    pub const NONE: Authorities = Authorities { bits: 0 };
}
