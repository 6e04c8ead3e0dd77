#![tactic(auto)]

pub mod classes;
pub mod grants;
pub mod kinds;
pub mod policy;
pub mod register;
pub mod strike;
pub mod uses;
