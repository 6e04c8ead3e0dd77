#![tactic(auto)]

pub mod claim;
pub mod refusal;
