#![tactic(auto)]

pub mod allowance;
pub mod chart;
pub mod fault;
pub mod laws;
pub mod pair;
