//! Why rules are refused.

use thiserror::Error;

/// Why bands are no tick table, or changes no list of dated changes. Where several reasons stand, the earlier
/// of this list is named, and of one reason the least index, from 0.
#[derive(Clone, Copy, PartialEq, Eq, Debug, Error)]
pub enum RuleError {
    /// This band doesn't start above the one before it; 0 where there is no band at all.
    #[error("band {0} does not start above the one before it")]
    BandsNotRising(usize),
    /// This band has the tick 0.
    #[error("band {0} has no tick")]
    ZeroTick(usize),
    /// This change is dated before the one before it.
    #[error("change {0} is dated before the one before it")]
    DatesNotRising(usize),
    /// This band starts at a price that is no multiple of its tick, or is the first and doesn't start at 0.
    #[error("band {0} starts off its tick")]
    BandOffTick(usize),
    /// Want of memory.
    #[error("out of memory")]
    Memory,
}
