#![tactic(auto)]

pub mod kinds;
pub mod sets;
