// Tests of libraries and policies at the edges of their ranges.
#![tactic(auto)]

#[cfg(test)]
mod asking;
#[cfg(test)]
mod index_tests;
#[cfg(test)]
mod page_tests;
#[cfg(test)]
mod policy_tests;
