#![tactic(auto)]

pub mod around;
pub mod effect;
pub mod faults;
pub mod ranges;
