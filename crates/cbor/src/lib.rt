#![tactic(auto)]

mod heads;
pub mod holders;
pub mod items;
pub mod kinds;
pub mod scalars;
