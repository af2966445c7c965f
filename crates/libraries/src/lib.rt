#![tactic(auto)]

pub mod binding;
pub mod index;
pub mod laws;
pub mod page;
mod raises;
