//! A table of a study: a row a branch, with the values of its probes.
#![tactic(auto)]

mod branch_row;
pub mod branch_worked;
mod chains;
mod difference;
pub mod laws;
mod lines;
mod packed_difference;
mod packed_run;
mod parts;
mod row;
mod same;
mod tables;
pub mod worked;
mod writing;

pub use difference::first_difference;
pub use row::TableRow;
pub use tables::study_table;
pub use writing::table;
