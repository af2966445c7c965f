// Tests of the sheet library on texts that are too large for a table of cases.
#![tactic(auto)]

#[cfg(test)]
mod reading_tests;
#[cfg(test)]
mod writing_tests;
