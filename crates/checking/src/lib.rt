#![tactic(auto)]

pub mod check;
pub mod checked;
mod coding;
mod method;
