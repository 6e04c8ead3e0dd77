#![tactic(auto)]

pub mod contents;
mod heads;
pub mod items;
pub mod kinds;
