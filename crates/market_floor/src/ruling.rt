//! Dated changes of the stocks' rules.

ghost use Rattle.std.specs.Prelude.{◌≡◌, ◌<◌, ◌≤◌, ◌++◌, ℕ, All, IfOk, OnOk, OnErr, length, nat_lt};
ghost use Rattle.market_rules.specs.Changes.{dated_by};
ghost use Rattle.market_floor.specs.Floor.{with_exchange};
ghost use Rattle.market_floor.specs.Ruled.{all_changed, applied_by, due, ruled};
ghost use Rattle.market_floor.specs.Sound.{FitsFloor, IsSoundFloor};

use crate::Opening;
use crate::floor::Floor;
use exchange_agent::Exchange;
use exchange_agent::laws::books_stay_short;
use market_rules::Dated;
use market_rules::laws::first_changes_are_due;
use market_types::{FeedList, Memory, Time};
use std::alloc::Global;

/// How many dated changes are made once those are that are due at a time, where so many were made before. The caller says
/// whether one is due.
pub fn applied_by(o: &Opening, applied: usize, is_due: bool, time: Time) -> usize
    requires due { is_due ≡ nat_lt applied (dated_by o.now.dated time) }
    ensures value { result ≡ applied_by o.now applied time }
    ensures more { applied ≤ result }
    ensures within { applied ≤ length o.now.dated → result ≤ length o.now.dated }
{
    if is_due {
        o.dated.rules_at(time)
    } else {
        applied
    }
}

// Makes dated changes on an exchange, each at its own date.
fn change_all(exchange: &mut Exchange, changes: &[Dated], feed: &mut FeedList) -> Result<(), Memory>
    requires { All (λ d. d.stock < length exchange.old.stocks) changes.now }
    ensures state { OnOk result (exchange.new ≡ (all_changed changes.now exchange.old).state) }
    ensures feed { OnOk result (feed.new.list ≡ feed.old.list ++ (all_changed changes.now exchange.old).feed) }
{
    for change in changes {
        exchange.apply_change(change.time, change.stock, &change.change, feed)?;
    }
    Ok(())
}

// A copy of an exchange on which the changes after the first so many are made, up to those due at a time.
pub(crate) fn changed(
    alloc: Global,
    o: &Opening,
    exchange: &Exchange,
    applied: usize,
    time: Time,
    feed: &mut FeedList,
) -> Result<Exchange, Memory>
    requires opening { All (λ d. d.stock < length exchange.now.stocks) o.now.dated }
    ensures state { IfOk result (λ x. x ≡ (all_changed (due o.now applied time) exchange.now).state) }
    ensures feed { OnOk result (feed.new.list ≡ feed.old.list ++ (all_changed (due o.now applied time) exchange.now).feed) }
{
    let Ok(mut copy) = exchange.copy(alloc) else {
        return Err(Memory);
    };
    let due = o.dated.rules_at(time);
    if due <= applied {
        return Ok(copy);
    }
    let Ok(()) = change_all(&mut copy, &o.dated.as_slice()[applied..due], feed) else {
        drop(copy);
        return Err(Memory);
    };
    Ok(copy)
}

impl Floor {
    /// Makes the dated changes that are due at a time, in nanoseconds past midnight, where the first so many were made
    /// before, and gives their feed.
    ///
    /// # Errors
    /// Want of memory alone. The floor is then as it was.
    pub fn rule(
        &mut self,
        alloc: Global,
        o: &Opening,
        applied: usize,
        time: Time,
    ) -> Result<FeedList, Memory>
        requires fits { FitsFloor o.now self.old }
        ensures floor { OnOk result (self.new ≡ (ruled o.now applied time self.old).floor) }
        ensures feed { IfOk result (λ l. l.list ≡ (ruled o.now applied time self.old).feed) }
        ensures times { IfOk result (λ l. All (λ f. f.time ≤ time) l.list) }
        ensures sound { (n : ℕ) → IsSoundFloor n self.old → IsSoundFloor n self.new }
        ensures stocks { length self.new.exchange.stocks ≡ length self.old.exchange.stocks }
        ensures traders { length self.new.parties ≡ length self.old.parties }
        ensures refused { OnErr result (self.new ≡ self.old) }
    {
        books_stay_short();
        first_changes_are_due();
        let mut feed = FeedList::new(alloc);
        if !o.dated.is_due(applied, time) {
            return Ok(feed);
        }
        let Ok(exchange) = changed(alloc, o, &self.exchange, applied, time, &mut feed) else {
            drop(feed);
            return Err(Memory);
        };
        self.exchange = exchange;
        Ok(feed)
    }
}
