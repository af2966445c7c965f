#![tactic(auto)]

pub mod faults;
pub mod fields;
pub mod instruction;
pub mod location;
pub mod op;
pub mod records;
pub mod unknown;
