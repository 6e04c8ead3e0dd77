#![tactic(auto)]

mod blocks;
pub mod examples;
pub mod kinds;
pub mod reader;
