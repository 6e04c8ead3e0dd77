#![tactic(auto)]

pub mod asking;
pub mod distinct;
mod examples;
pub mod finding;
pub mod once;
pub mod stored;
