//! The latency tables in force.

ghost use Rattle.std.specs.Prelude.{◌≡◌, ◌+◌, ◌<◌, ◌≤◌, IfOk, map};
ghost use Rattle.market_types.specs.Limits.{longest_delay};
ghost use Rattle.latency_model.specs.Latency.{delay_of};
ghost use Rattle.latency_model.specs.Ranges.{IsInRange};
ghost use Rattle.latency_model.specs.Tables.{group_count, with_pair};

use crate::rows::{copied_rows, read, write};
use draw_streams::below;
use market_types::{Memory, Time};
use std::alloc::Global;
use std::marker::Model;

/// A base and a jitter for each ordered pair of groups.
///
/// Groups are numbered from 0 to at most 31. The tables are always square and of one size, and each
/// base is at most an hour.
#[derive(Drop)]
pub struct Groups {
    base: Vec<Vec<Time>>,
    jitter: Vec<Vec<u32>>,
}

impl Model for Groups {
    ghost use Rattle.std.specs.Prelude.{map};
    ghost use Rattle.latency_model.specs.Tables.{Tables};
    ghost use Rattle.latency_model.specs.Ranges.{IsInRange};

    ghost Value = { Tables };

    ghost view = { λ g. record { base = map (λ row. row.items) g.base.items; jitter = map (λ row. row.items) g.jitter.items } };

    ghost invariant = { λ g. IsInRange (record { base = map (λ row. row.items) g.base.items; jitter = map (λ row. row.items) g.jitter.items }) };
}

impl Groups {
    /// Copies the tables: in nanoseconds, a row for each sender's group and there a number for each
    /// receiver's.
    pub fn new(alloc: Global, base: &[Vec<Time>], jitter: &[Vec<u32>]) -> Result<Groups, Memory>
        requires { IsInRange (record { base = map (λ row. row.items) base.now; jitter = map (λ row. row.items) jitter.now }) }
        ensures { IfOk result (λ g. g ≡ record { base = map (λ row. row.items) base.now; jitter = map (λ row. row.items) jitter.now }) }
    {
        Ok(Groups {
            base: copied_rows(alloc, base)?,
            jitter: copied_rows(alloc, jitter)?,
        })
    }

    /// Replaces the numbers of one pair, in nanoseconds.
    pub fn set(&mut self, from: u8, to: u8, base: Time, jitter: u32)
        requires sender { from < group_count self.old }
        requires receiver { to < group_count self.old }
        requires hour { base ≤ longest_delay }
        ensures replaced { self.new ≡ with_pair self.old from to base jitter }
        ensures groups { group_count self.new ≡ group_count self.old }
    {
        let (row, column) = (usize::from(from), usize::from(to));
        write(&mut self.base, row, column, base);
        write(&mut self.jitter, row, column, jitter);
    }

    /// Equal tables.
    pub fn copy(&self, alloc: Global) -> Result<Groups, Memory>
        ensures { IfOk result (λ g. g ≡ self.now) }
    {
        Ok(Groups {
            base: copied_rows(alloc, self.base.as_slice())?,
            jitter: copied_rows(alloc, self.jitter.as_slice())?,
        })
    }

    /// How long a message with this word is on its way from one group to another, in nanoseconds.
    pub fn delay(&self, from: u8, to: u8, word: u32) -> Time
        requires sender { from < group_count self.now }
        requires receiver { to < group_count self.now }
        ensures value { result ≡ delay_of self.now from to word }
        ensures bound { result ≤ longest_delay + u32.MAX }
    {
        let (row, column) = (usize::from(from), usize::from(to));
        let base = read(self.base.as_slice(), row, column);
        let jitter = read(self.jitter.as_slice(), row, column);
        base + Time::from(below(word, u64::from(jitter) + 1))
    }
}
