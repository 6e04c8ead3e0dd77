#![tactic(auto)]

pub mod commands;
pub mod complaints;
pub mod hex;
pub mod kinds;
pub mod numbers;
mod reader;
pub mod words;
