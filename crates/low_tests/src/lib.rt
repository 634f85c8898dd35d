//! Tests of the crates that stand on few others: those that no script of files can show.
//!
//! They stand in a crate of their own, since a crate with tests is proved a second time with them. The tests of each
//! crate are a module that is named after it.
#![tactic(auto)]

#[cfg(test)]
mod checks;
#[cfg(test)]
mod command_words_tests;
#[cfg(test)]
mod dec_fix_tests;
#[cfg(test)]
mod edit_script_tests;
#[cfg(test)]
mod gathering_tests;
#[cfg(test)]
mod generated_script_tests;
#[cfg(test)]
mod lane_scan_tests;
#[cfg(test)]
mod map_tests;
#[cfg(test)]
mod name_path_tests;
#[cfg(test)]
mod ref_graph_tests;
#[cfg(test)]
mod ring_tests;
#[cfg(test)]
mod tk_io_tests;
