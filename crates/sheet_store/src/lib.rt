#![tactic(auto)]

pub mod stored;
