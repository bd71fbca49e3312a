//! Tests of studies and of the whole program by calls: worked runs, failing reads and writes, gates, probes, large studies.
#![tactic(auto)]

mod bundles;

pub use bundles::{EMPTY_RUN, TWO_WATCHERS};

#[cfg(test)]
mod facts;
#[cfg(test)]
mod fault_bundles;
#[cfg(test)]
mod fault_examples;
#[cfg(test)]
mod fault_runs;
#[cfg(test)]
mod large;
#[cfg(test)]
mod large_lines_tests;
#[cfg(test)]
mod large_study_tests;
#[cfg(test)]
mod many_rows;
#[cfg(test)]
mod meeting;
#[cfg(test)]
mod probes;
#[cfg(test)]
mod rewinds;
#[cfg(test)]
mod runs;
#[cfg(test)]
mod series_file_tests;
#[cfg(test)]
mod study_accept_tests;
#[cfg(test)]
mod study_file_tests;
#[cfg(test)]
mod tables;
#[cfg(test)]
mod worked_examples;
