//! Whether the orders that came and have not left are those of a closing, without memory that can fail.

ghost use Rattle.std.specs.Prelude.{ℕ, ◌≡◌, ◌<◌, ◌&&◌, ◌++◌, ◌∷◌, not, true, false, None, Some, IfOk, IfSome, IfNone, List, [], length, map, replicate, slice_index_or, slice_set, vec_len};
ghost use Rattle.std.specs.List.{AllByRecursion, list_any};
ghost use Rattle.feed_rebuild.specs.declared.entries.Entry.{Entry};
ghost use Rattle.feed_rebuild.specs.declared.shown.Shown.{Shown};
ghost use Rattle.feed_rebuild.specs.Compared.{first_odd, follows, is_among, is_grouped, is_odd_in, is_same, least, lesser, odd_in, odd_of, order_difference, settled};
ghost use Rattle.feed_rebuild.specs.Entries.{kept, vacant, IsRising};

use crate::entries::{Entry, place_of};
use crate::shown::{Shown, is_one_order};
use market_types::Memory;
use std::alloc::Global;

// Whether an order stands among others.
fn is_among(others: &[Shown], order: &Shown) -> bool
    ensures { result ≡ is_among others.now order.now }
{
    others.iter().any(|other| is_one_order(order, other))
}

// Where the same order stands among those that came.
fn same_at(entries: &[Entry], order: &Shown) -> Option<usize>
    requires { IsRising 0 entries.now }
    ensures within { IfSome result (λ p. p < length entries.now) }
    ensures same { IfSome result (λ p. is_same order.now (slice_index_or entries.now p vacant).order ≡ true) }
    ensures none { IfNone result (AllByRecursion (λ e. is_same order.now e.order ≡ false) entries.now) }
{
    let Some(at) = place_of(entries, order.reference) else {
        return None;
    };
    if !is_one_order(order, &entries[at].order) {
        return None;
    }
    Some(at)
}

// Whether an order is one of those that came and have not left.
fn is_kept(entries: &[Entry], order: &Shown) -> bool
    requires { IsRising 0 entries.now }
    ensures { result ≡ is_among (kept entries.now) order.now }
{
    let Some(at) = same_at(entries, order) else {
        return false;
    };
    !entries[at].gone
}

// The lesser of two numbers, or the one that there is.
fn lesser(a: Option<u64>, b: Option<u64>) -> Option<u64>
    ensures { result ≡ lesser a b }
{
    match (a, b) {
        (Some(a), Some(b)) => Some(a.min(b)),
        (Some(a), None) => Some(a),
        (None, b) => b,
    }
}

// The least reference of those that are not kept.
fn least_foreign(entries: &[Entry], live: &[Shown]) -> Option<u64>
    requires { IsRising 0 entries.now }
    ensures { result ≡ least (odd_in (kept entries.now) live.now) }
{
    let mut least = None;
    for order in live {
        if !is_kept(entries, order) {
            least = lesser(least, Some(order.reference));
        }
    }
    least
}

// So many orders without a mark.
fn unmarked(alloc: Global, count: usize) -> Result<Vec<bool>, Memory>
    ensures { IfOk result (λ v. v.items ≡ replicate count false) }
{
    Ok(vec![in alloc; false; count]?)
}

// The order at a place gets a mark.
fn mark_at(marks: &mut Vec<bool>, at: usize)
    requires { at < vec_len marks.old }
    ensures { marks.new.items ≡ slice_set marks.old.items at true }
{
    marks[at] = true;
}

// The order that is the same as one more gets a mark.
fn mark(marks: &mut Vec<bool>, entries: &[Entry], order: &Shown)
    requires rising { IsRising 0 entries.now }
    requires each { vec_len marks.old ≡ length entries.now }
    ensures { (live : List Shown) → marks.old.items ≡ map (λ e. is_among live e.order) entries.now →
        marks.new.items ≡ map (λ e. is_among (live ++ order.now ∷ []) e.order) entries.now }
{
    let Some(at) = same_at(entries, order) else {
        return;
    };
    mark_at(marks, at);
}

// For each order that came, whether it stands among these.
fn marks(alloc: Global, entries: &[Entry], live: &[Shown]) -> Result<Vec<bool>, Memory>
    requires { IsRising 0 entries.now }
    ensures { IfOk result (λ v. v.items ≡ map (λ e. is_among live.now e.order) entries.now) }
{
    let mut marks = unmarked(alloc, entries.len())?;
    for order in live {
        mark(&mut marks, entries, order);
    }
    Ok(marks)
}

// The first order that has not left and has no mark.
fn first_unmarked(entries: &[Entry], marks: &[bool]) -> Option<u64>
    requires { length marks.now ≡ length entries.now }
    ensures { (live : List Shown) → marks.now ≡ map (λ e. is_among live e.order) entries.now → result ≡ first_odd live (kept entries.now) }
{
    for i in 0..entries.len() {
        let entry = entries[i];
        if !entry.gone && !marks[i] {
            return Some(entry.order.reference);
        }
    }
    None
}

// Whether an order has not left and does not stand among these.
fn is_alone(entry: &Entry, live: &[Shown]) -> bool
    ensures { result ≡ (not entry.now.gone && is_odd_in live.now entry.now.order) }
{
    !entry.gone && !is_among(live, &entry.order)
}

// The first order that has not left and does not stand among these, by search alone.
fn first_alone(entries: &[Entry], live: &[Shown]) -> Option<u64>
    ensures { result ≡ first_odd live.now (kept entries.now) }
{
    for entry in entries {
        if is_alone(entry, live) {
            return Some(entry.order.reference);
        }
    }
    None
}

// The least reference of the orders that have not left and do not stand among these. It marks those that do,
// and searches for each only where there is no memory for marks.
fn least_alone(alloc: Global, entries: &[Entry], live: &[Shown]) -> Option<u64>
    requires { IsRising 0 entries.now }
    ensures { result ≡ least (odd_in live.now (kept entries.now)) }
{
    match marks(alloc, entries, live) {
        Ok(marks) => first_unmarked(entries, marks.as_slice()),
        Err(Memory) => first_alone(entries, live),
    }
}

// Whether an order follows another, or none.
fn follows(before: Option<Shown>, order: &Shown) -> bool
    ensures { result ≡ follows before order.now }
{
    match before {
        None => true,
        Some(before) => {
            before.stock < order.stock
                || (before.stock == order.stock && before.reference < order.reference)
        }
    }
}

// Whether orders stand by stock, and those of a stock by reference.
fn is_grouped(live: &[Shown]) -> bool
    ensures { result ≡ is_grouped None live.now }
{
    let mut before = None;
    for order in live {
        if !follows(before, order) {
            return false;
        }
        before = Some(*order);
    }
    true
}

// What tells orders from these, given the least odd reference.
fn settle(least: Option<u64>, live: &[Shown]) -> Option<u64>
    ensures { result ≡ settled least (is_grouped None live.now) }
{
    match least {
        Some(reference) => Some(reference),
        None => { if is_grouped(live) { None } else { Some(0) } }
    }
}

// What tells the orders that came and have not left from these.
pub fn order_difference(alloc: Global, entries: &[Entry], live: &[Shown]) -> Option<u64>
    requires { IsRising 0 entries.now }
    ensures told { (stocks : ℕ) → AllByRecursion (λ e. e.order.stock < stocks) entries.now → result ≡ order_difference stocks (kept entries.now) live.now }
    ensures same { IfNone result (least (odd_of (kept entries.now) live.now) ≡ None) }
{
    let alone = least_alone(alloc, entries, live);
    let foreign = least_foreign(entries, live);
    settle(lesser(alone, foreign), live)
}
