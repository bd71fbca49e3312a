//! The tick tables of the traders' tests.

use market_rules::{Band, TickTable};
use std::alloc::Global;
use std::process::Abort;

/// A tick of one cent at each price.
pub(crate) fn cents(rt: &impl Abort, alloc: Global) -> TickTable {
    TickTable::new(alloc, &[Band { from: 0, tick: 100 }]).expect(rt, "no ticks")
}
