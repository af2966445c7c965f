#![tactic(auto)]

pub mod answers;
pub mod entry;
pub mod laws;
pub mod parties;
pub mod value;
