//! Changes of a stock's rules, and when they are made.

ghost use Rattle.std.specs.Prelude.{◌≡◌, IfOk, IfSome, IfNone, Ok, Err, nat_lt};
ghost use Rattle.market_rules.specs.Changes.{dates_refusal, dated_by};

use crate::error::RuleError;
use crate::fees::FeeTable;
use crate::refusals::place_before_its_time;
use crate::ticks::TickTable;
use market_types::{Memory, Sequence, StockNo, Time};
use std::alloc::Global;
use std::marker::Model;

/// A change of a stock's rules.
#[derive(PartialEq, Eq, Drop)]
pub enum Change {
    /// Another tick table.
    Tick(TickTable),
    /// Other fees.
    Fee(FeeTable),
    /// Trading stops.
    Halt,
    /// Trading goes on.
    Resume,
}

impl Change {
    /// An equal change.
    pub fn copy(&self, alloc: Global) -> Result<Change, Memory>
        ensures { IfOk result (λ c. c ≡ self.now) }
    {
        match self {
            Change::Tick(table) => Ok(Change::Tick(table.copy(alloc)?)),
            Change::Fee(fees) => Ok(Change::Fee(*fees)),
            Change::Halt => Ok(Change::Halt),
            Change::Resume => Ok(Change::Resume),
        }
    }
}

/// A change of one stock's rules at a time of the day.
#[derive(Drop)]
pub struct Dated {
    /// Nanoseconds past midnight.
    pub time: Time,
    pub stock: StockNo,
    pub change: Change,
}

/// Dated changes in their order, which is that of the study. No change is dated before the one before it; dates
/// may be equal.
#[derive(Drop)]
pub struct DatedList {
    list: Sequence<Dated>,
}

impl Model for DatedList {
    ghost use Rattle.std.specs.Prelude.{◌≡◌, List, None};
    ghost use Rattle.market_rules.specs.declared.changes.Dated.{Dated};
    ghost use Rattle.market_rules.specs.Changes.{dates_refusal};

    ghost Value = { List Dated };

    ghost view = { λ d. d.list };

    ghost invariant = { λ d. dates_refusal d.list ≡ None };
}

impl DatedList {
    /// These changes, or the first that is dated before the one before it. It takes no memory.
    pub fn new(list: Vec<Dated>) -> Result<DatedList, RuleError>
        ensures refused { IfSome (dates_refusal list.items) (λ e. result ≡ Err e) }
        ensures made { IfNone (dates_refusal list.items) (result ≡ Ok list.items) }
    {
        if let Some(place) = place_before_its_time(list.as_slice()) {
            return Err(RuleError::DatesNotRising(place));
        }
        Ok(DatedList {
            list: Sequence::new(list),
        })
    }

    /// The changes in order.
    pub fn as_slice(&self) -> &[Dated]
        ensures value { result.now ≡ self.now }
        ensures dates { dates_refusal result.now ≡ None }
    {
        self.list.as_slice()
    }

    /// Whether a change after the first so many is dated at this time, in nanoseconds past midnight, or earlier. Since
    /// dates never fall, the next one tells.
    pub fn is_due(&self, applied: usize, time: Time) -> bool
        ensures { result ≡ nat_lt applied (dated_by self.now time) }
    {
        let dated = self.list.as_slice();
        if dated.len() <= applied {
            return false;
        }
        dated[applied].time <= time
    }

    /// How many changes are dated at this time, in nanoseconds past midnight, or earlier.
    pub fn rules_at(&self, time: Time) -> usize
        ensures { result ≡ dated_by self.now time }
    {
        self.list
            .as_slice()
            .iter()
            .filter(|d| d.time <= time)
            .count()
    }
}
