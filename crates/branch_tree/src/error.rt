//! Why branches are no tree.

use thiserror::Error;

/// Why branches are no tree. Where several reasons stand, the earlier of this list is named, and of one reason the
/// least index, from 0.
#[derive(Clone, Copy, PartialEq, Eq, Debug, Error)]
pub enum PlanError {
    /// This branch's parent isn't an earlier branch.
    #[error("branch {0} does not come after its parent")]
    ParentNotBefore(usize),
    /// This branch's stop is an event number above the study's limit, or less than its parent's of the same kind.
    #[error("branch {0} leaves its parent out of range")]
    StopOutOfRange(usize),
    /// More than 256 branches.
    #[error("{0} branches are too many")]
    TooManyBranches(usize),
    /// This branch has the name of an earlier one.
    #[error("branch {0} has the name of an earlier one")]
    NameTwice(usize),
    /// So many branches of so many events are more than 4,000,000 events.
    #[error("{0} branches of {1} events are too many")]
    TooMuchWork(usize, u32),
    /// Want of memory.
    #[error("out of memory")]
    Memory,
    /// This branch's stop isn't of the kind of an earlier branch's with the same parent.
    #[error("branch {0} does not leave its parent as an earlier branch does")]
    StopsMixed(usize),
}
