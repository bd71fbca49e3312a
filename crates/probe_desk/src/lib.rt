//! Probes: boxed objects that fold numbers over the records of a branch, one column of a table each.
#![tactic(auto)]

mod column;
mod fees;
pub mod laws;
mod price_range;
mod probe;
mod removal;
mod spread_sum;
mod summed;
mod sums;
mod volume;
mod watching;
pub mod worked;

pub use column::Column;
pub use fees::Fees;
pub use price_range::Range;
pub use probe::Probe;
pub use spread_sum::SpreadSum;
pub use summed::{Summed, sums_of_parts};
pub use sums::Sums;
pub use volume::Volume;
pub use watching::{restart_all, see_all, values, values_by_sums, watch, watch_packed};
