//! A sorted index of the vector of arrival by reference.
//!
//! An order that leaves keeps its entry until another comes under its key or the vector is made anew.
//! So what a search finds may have left, and the search looks at its open shares.
//!
//! An order that joins has the greatest reference, so its entry is put at the end, and none moves.

ghost use Rattle.std.specs.Prelude.{◌≡◌, ◌≢◌, ◌<◌, ◌≤◌, ◌+◌, ◌-◌, ◌++◌, ◌∷◌, [], Some, None, IfSome, IfNone, All, List, length, slice_index_or, vec_len, vec_capacity, true, false};
ghost use Rattle.std.specs.Ordering.{is_lt, nat_cmp};
ghost use Rattle.std.specs.declared.cmp.Ordering.TheVariants.{Equal};
ghost use Rattle.price_time_book.specs.declared.index.ReferenceEntry.{ReferenceEntry};
ghost use Rattle.price_time_book.specs.declared.resting.Resting.{Resting};
ghost use Rattle.price_time_book.specs.Index.{IsByReference};
ghost use Rattle.price_time_book.specs.Indexed.{nothing, open_orders};
ghost use Rattle.price_time_book.specs.Orders.{order_with};

use crate::resting::Resting;
use std::cmp::Ordering;

/// Where the order with a reference stands in the vector of arrival.
#[derive(Clone, Copy)]
pub struct ReferenceEntry {
    pub reference: u64,
    pub place: usize,
}

// How the key of an entry compares with a reference.
fn compare_reference(entry: &ReferenceEntry, reference: u64) -> Ordering
    ensures { result ≡ nat_cmp entry.now.reference reference }
{
    entry.reference.cmp(&reference)
}

// Where the first entry stands whose key is not below a reference, by halving.
fn reference_between(entries: &[ReferenceEntry], reference: u64) -> usize
    ensures within { result ≤ length entries.now }
    ensures below { (d : ReferenceEntry) → 0 < result → is_lt (nat_cmp (slice_index_or entries.now (result - 1) d).reference reference) ≡ true }
    ensures above { (d : ReferenceEntry) → result < length entries.now →
        is_lt (nat_cmp (slice_index_or entries.now result d).reference reference) ≡ false }
{
    let mut low = 0;
    let mut high = entries.len();
    while low < high {
        let middle = low + (high - low) / 2;
        if compare_reference(&entries[middle], reference).is_lt() {
            low = middle + 1;
        } else {
            high = middle;
        }
    }
    low
}

// The same place; the last entry is looked at first, since an order that joins is above all.
fn reference_from(entries: &[ReferenceEntry], reference: u64) -> usize
    ensures within { result ≤ length entries.now }
    ensures below { (d : ReferenceEntry) → 0 < result → is_lt (nat_cmp (slice_index_or entries.now (result - 1) d).reference reference) ≡ true }
    ensures above { (d : ReferenceEntry) → result < length entries.now →
        is_lt (nat_cmp (slice_index_or entries.now result d).reference reference) ≡ false }
{
    let end = entries.len();
    if end == 0 {
        return 0;
    }
    if compare_reference(&entries[end - 1], reference).is_lt() {
        return end;
    }
    reference_between(entries, reference)
}

// Whether the entry at a place has this key.
fn has_reference(entries: &[ReferenceEntry], at: usize, reference: u64) -> bool
    ensures some { result ≡ true →
        (at < length entries.now) ×
        ((d : ReferenceEntry) → nat_cmp (slice_index_or entries.now at d).reference reference ≡ Equal) }
    ensures none { (d : ReferenceEntry) → result ≡ false → at < length entries.now →
        nat_cmp (slice_index_or entries.now at d).reference reference ≢ Equal }
{
    at < entries.len() && compare_reference(&entries[at], reference).is_eq()
}

// An order that joins the end of the vector of arrival is entered.
pub fn enter_reference(entries: &mut Vec<ReferenceEntry>, order: &Resting, place: usize)
    requires room { vec_len entries.old < vec_capacity entries.old }
    ensures indexed { (os : List Resting) → place ≡ length os → IsByReference os entries.old.items →
        All (λ o. o.reference < order.now.reference) (open_orders os) →
        IsByReference (os ++ order.now ∷ []) entries.new.items }
    ensures len { vec_len entries.new ≤ vec_len entries.old + 1 }
    ensures capacity { vec_capacity entries.old ≤ vec_capacity entries.new }
{
    let entry = ReferenceEntry {
        reference: order.reference,
        place,
    };
    let at = reference_from(entries.as_slice(), order.reference);
    if has_reference(entries.as_slice(), at, order.reference) {
        entries[at] = entry;
        return;
    }
    match entries.insert(at, entry) {
        Ok(()) => {}
        Err(_) => unreachable!(),
    }
}

// Where the open order with this key stands.
pub fn by_reference(orders: &[Resting], entries: &[ReferenceEntry], reference: u64) -> Option<usize>
    requires { IsByReference orders.now entries.now }
    ensures absent { IfNone result (order_with reference (open_orders orders.now) ≡ None) }
    ensures within { IfSome result (λ p. p < length orders.now) }
    ensures found { IfSome result (λ p. order_with reference (open_orders orders.now) ≡
        Some (slice_index_or orders.now p nothing)) }
{
    let at = reference_from(entries, reference);
    if !has_reference(entries, at, reference) {
        return None;
    }
    let place = entries[at].place;
    if orders[place].left == 0 {
        return None;
    }
    Some(place)
}
