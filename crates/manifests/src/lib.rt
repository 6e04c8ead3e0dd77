#![tactic(auto)]

pub mod kinds;
pub mod reader;
mod triples;
pub mod walks;
