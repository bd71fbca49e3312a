//! Rows of a table.

use branch_tree::Name;
use market_types::{End, Sequence};

/// A row of a table: a branch beside its parent.
#[derive(Drop)]
pub struct TableRow {
    /// The branch's name.
    pub name: Name,
    /// The name of the branch that it leaves; the root leaves none.
    pub parent: Option<Name>,
    /// The event number at which it leaves; where it leaves at a time, the number of events by which that time was reached.
    pub stop: u32,
    /// How many events its run has.
    pub events: u32,
    /// What ended its run.
    pub end: End,
    /// The first event number at which its records and its parent's differ; 0 where there is none.
    pub difference: u32,
    /// The number of each probe.
    pub values: Sequence<i128>,
}
