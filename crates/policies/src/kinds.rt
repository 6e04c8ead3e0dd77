use authorities::kinds::Authorities;
use claims::kinds::Bytes;

// What a mark is put on: a claim that evidence, a reference or an endorsement brings.
#[derive(Clone, Copy, PartialEq, Eq, Debug)]
pub enum Use {
    Evidence,
    Reference,
    Endorsement,
}

// A set of authorities for each use.
#[derive(Clone, Copy)]
pub struct Register {
    pub evidence: Authorities,
    pub reference: Authorities,
    pub endorsement: Authorities,
}

// An authority may sign for a use where the class identifier begins so.
#[derive(Clone, Copy)]
pub struct Grant {
    pub(crate) authority: u64,
    pub(crate) usage: Use,
    pub(crate) beginning: Bytes<32>,
}

// A list of grants.
#[derive(Clone, Copy)]
pub struct Grants<'a> {
    pub grants: &'a [Grant],
}

// A question to a policy: may the authority sign for the use, where the class identifier is this?
#[derive(Clone, Copy)]
pub struct Question<'a> {
    pub authority: u64,
    pub usage: Use,
    pub class: &'a [u8],
}

// A policy with some authorities struck from it.
#[derive(Clone, Copy)]
pub struct Strike<P> {
    pub below: P,
    pub struck: Authorities,
}
