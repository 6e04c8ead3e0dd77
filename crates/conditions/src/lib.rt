#![tactic(auto)]

pub mod kinds;
