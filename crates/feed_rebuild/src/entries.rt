//! The orders that a feed told, in the order of their references, those that left among them.
//!
//! An order that leaves keeps its place, so that no other moves.

ghost use Rattle.std.specs.Prelude.{◌≡◌, ◌≢◌, ◌<◌, ◌≤◌, ◌+◌, ◌-◌, ◌==◌, ◌&&◌, ℕ, true, false, not, None, IfSome, IfNone, length, slice_index_or};
ghost use Rattle.std.specs.List.{AllByRecursion};
ghost use Rattle.feed_rebuild.specs.declared.entries.Entry.{Entry};
ghost use Rattle.feed_rebuild.specs.Entries.{kept, last_from, vacant, IsHeldAt, IsRising};
ghost use Rattle.feed_rebuild.specs.Fold.{held, is_later};

use crate::shown::Shown;

/// An order that came, and whether it has left.
#[derive(Clone, Copy)]
pub struct Entry {
    pub order: Shown,
    pub gone: bool,
}

// Where the first entry stands whose reference is not below this one.
fn place_from(entries: &[Entry], reference: u64) -> usize
    ensures within { result ≤ length entries.now }
    ensures below { (d : Entry) → 0 < result → (slice_index_or entries.now (result - 1) d).order.reference < reference }
    ensures above { (d : Entry) → result < length entries.now → reference ≤ (slice_index_or entries.now result d).order.reference }
{
    let mut low = 0;
    let mut high = entries.len();
    while low < high {
        let middle = low + (high - low) / 2;
        if entries[middle].order.reference < reference {
            low = middle + 1;
        } else {
            high = middle;
        }
    }
    low
}

// Whether the entry at a place has this reference.
fn has_reference(entries: &[Entry], at: usize, reference: u64) -> bool
    ensures some { result ≡ true →
        (at < length entries.now) ×
        ((d : Entry) → (slice_index_or entries.now at d).order.reference ≡ reference) }
    ensures none { (d : Entry) → result ≡ false → at < length entries.now →
        (slice_index_or entries.now at d).order.reference ≢ reference }
{
    at < entries.len() && entries[at].order.reference == reference
}

// Where the order of a reference stands, gone or not.
pub fn place_of(entries: &[Entry], reference: u64) -> Option<usize>
    requires { IsRising 0 entries.now }
    ensures within { IfSome result (λ p. p < length entries.now) }
    ensures found { IfSome result (λ p. (d : Entry) → (slice_index_or entries.now p d).order.reference ≡ reference) }
    ensures absent { IfNone result (AllByRecursion (λ e. e.order.reference ≢ reference) entries.now) }
{
    let at = place_from(entries, reference);
    if !has_reference(entries, at, reference) {
        return None;
    }
    Some(at)
}

// Whether the order at a place has not left and is of a locate's stock.
fn is_held_at(entries: &[Entry], at: usize, locate: u16) -> bool
    requires { at < length entries.now }
    ensures { result ≡ (not (slice_index_or entries.now at vacant).gone && ((slice_index_or entries.now at vacant).order.stock + 1 == locate)) }
{
    let entry = entries[at];
    !entry.gone && 1 <= locate && entry.order.stock == locate - 1
}

// Where the held order of a locate's stock and a reference stands.
pub fn held_at(entries: &[Entry], locate: u16, reference: u64) -> Option<usize>
    requires { IsRising 0 entries.now }
    ensures within { IfSome result (λ p. p < length entries.now) }
    ensures some { IfSome result (λ p. IsHeldAt locate reference p entries.now) }
    ensures none { IfNone result (held locate reference (kept entries.now) ≡ None) }
{
    let Some(at) = place_of(entries, reference) else {
        return None;
    };
    if !is_held_at(entries, at, locate) {
        return None;
    }
    Some(at)
}

// The open shares of the order at a place.
pub fn left_at(entries: &[Entry], at: usize) -> u32
    requires { at < length entries.now }
    ensures { result ≡ (slice_index_or entries.now at vacant).order.left }
{
    entries[at].order.left
}

// Whether a reference is above all before.
pub fn is_above(entries: &[Entry], reference: u64) -> bool
    ensures { result ≡ is_later (last_from None entries.now) reference }
{
    let count = entries.len();
    count == 0 || entries[count - 1].order.reference < reference
}
