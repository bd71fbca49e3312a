//! The series of a stock's fundamental value, from which traders make their estimates.
//!
//! A series is made of a rule, by which the value is drawn back to a mean and takes a random shock at
//! each step, or of rows of a file. The random words are draws of the study's key that are addressed
//! by the stock and the step, so that a value depends on nothing but the time that is asked for.
//! Contracts see a series as what it was made of.
#![tactic(auto)]

mod rows;
mod rule;
mod series;
mod table;
pub mod worked;

pub use rule::{SeriesRow, SeriesRule, with_offset};
pub use series::{Series, series_by_rule, series_from_rows};
