#![tactic(auto)]

mod line;
pub mod lines;
pub mod number;
mod output;
pub mod read_sheet;
pub mod reading;
mod writing;
