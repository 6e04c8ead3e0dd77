#![tactic(auto)]

pub mod additions;
pub mod few;
pub mod kinds;
pub mod records;
