#![tactic(auto)]

mod digests;
pub mod examples;
mod extensions;
mod fields;
mod flags;
pub mod kinds;
mod names;
pub mod reader;
