// What `vet` tells people about a sheet.
#![tactic(auto)]

mod check_explanation;
mod columns;
mod explanation;
mod lines;
mod number_fault;
mod own_method;
mod quoted;
mod refusal_line;
pub mod report;
mod summary;
mod words;
mod written;
