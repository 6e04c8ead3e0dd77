#![tactic(auto)]

mod digests;
pub mod environments;
mod flags;
pub mod kinds;
mod listed;
pub mod measurements;
mod svns;
mod values;
