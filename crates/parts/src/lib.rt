#![tactic(auto)]

pub mod holders;
pub mod kinds;
pub mod numbers;
pub mod parts;
pub mod picks;
pub mod reads;
