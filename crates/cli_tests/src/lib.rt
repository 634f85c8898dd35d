//! Tests of the crates above those of `low_tests`: runs of the command line, and calls that no run makes.
//!
//! They stand in a crate of their own, since a crate with tests is proved a second time with them.
#![tactic(auto)]

#[cfg(test)]
mod answer_tests;
#[cfg(test)]
mod call_tests;
#[cfg(test)]
mod run_tests;
