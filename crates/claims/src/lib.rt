#![tactic(auto)]

pub mod bytes;
pub mod claim;
pub mod digests;
pub mod environment;
pub mod flags;
pub mod kinds;
pub mod values;
