ghost use Rattle.claims.specs.Limits.{Holds};

use claims::kinds::{Algorithm, Bytes, Claim};
use parts::kinds::Pick;

// What a reader is set up with: the class that its claims speak of, and the algorithm of their digests.
#[derive(Clone, Copy)]
pub struct Setup {
    pub class: Bytes<32>,
    pub algorithm: Algorithm,
}

// A reader of measurement blocks.
#[derive(Clone, Copy)]
pub struct Spdm {
    pub(crate) setup: Setup,
    ghost ok: { Holds 1 setup.class },
}

// A measurement block, taken apart; its value is a part of the message. Its type is a number here, as it stands in the message.
#[derive(Clone, Copy)]
pub struct BlockRef<'a> {
    pub index: u8,
    pub specification: u8,
    pub kind: u8,
    pub value: &'a [u8],
}

// What a block gives: its index, how many bytes it has, and its claim.
#[derive(Clone, Copy)]
pub struct Entry {
    pub index: u64,
    pub size: usize,
    pub claim: Claim,
}

// The blocks so far: the index of the last one, how many claims came by, and the one of the number `wanted`, once it came.
#[derive(Clone, Copy)]
pub struct Row {
    pub setup: Setup,
    pub wanted: usize,
    pub last: Option<u64>,
    pub pick: Pick<Claim>,
}
