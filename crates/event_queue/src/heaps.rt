//! The keys of the waiting messages, in two heaps.
//!
//! Nearly all messages that wait are wakeups: each trader has one, and few of them are due soon. The
//! others come and go within their latency, a handful at a time, and make up most of the deliveries.
//! In one heap each of these would pass by hundreds of wakeups, so it has a heap of its own, a few
//! keys deep. The key that is due first is on top of one of the two heaps. Contracts see the keys
//! of each heap in any order.

ghost use Rattle.std.specs.Prelude.{◌≡◌, ◌<◌, ◌≤◌, ◌+◌, ◌-◌, ◌++◌, ◌∷◌, ℕ, Bool, [], true, false, All, OnOk, OnErr, OnSome, IfOk, IfSome, IfNone, length, drop, vec_len, vec_capacity};
ghost use Rattle.std.specs.BinaryHeap.{heap_items, heap_len, heap_capacity, IsHeap, IsUpperBound};
ghost use Rattle.std.specs.List.{AllByRecursion};
ghost use Rattle.std.specs.List.Sorted.{IsPermutation};
ghost use Rattle.event_queue.specs.Dues.{held, IsAhead, IsFirst, IsMoved};
ghost use Rattle.event_queue.specs.Keys.{AreByKind, all_of, by_due};

use crate::key::Key;
use market_types::{Memory, Message, Time, copied};
use std::alloc::Global;
use std::cmp::Ordering;
use std::collections::BinaryHeap;
use std::marker::Model;

/// The keys of the waiting messages. Each heap has room for `spare` keys more than are in both, so a
/// key that left one of them can be replaced by one in the other.
#[derive(Drop)]
pub struct Heaps {
    others: BinaryHeap<Key>,
    wakeups: BinaryHeap<Key>,
    spare: usize,
}

impl Model for Heaps {
    ghost use Rattle.std.specs.Prelude.{◌≤◌, ◌+◌};
    ghost use Rattle.std.specs.BinaryHeap.{heap_items, heap_len, heap_capacity, IsHeap};
    ghost use Rattle.event_queue.specs.Keys.{Keys, by_due};

    ghost Value = { Keys };

    ghost view = { λ h. record { others = heap_items h.others; wakeups = heap_items h.wakeups; spare = h.spare } };

    ghost invariant = { λ h. record {
      room : heap_len h.others + heap_len h.wakeups + h.spare ≤ heap_capacity h.others;
      wakeup_room : heap_len h.others + heap_len h.wakeups + h.spare ≤ heap_capacity h.wakeups;
      ordered : IsHeap by_due (heap_items h.others);
      wakeups_ordered : IsHeap by_due (heap_items h.wakeups);
    } };
}

impl Heaps {
    /// No keys. It takes no memory, and later calls take theirs from `alloc`.
    pub fn new(alloc: Global) -> Heaps
        ensures { result ≡ record { others = []; wakeups = []; spare = 0 } }
    {
        Heaps {
            others: BinaryHeap::new(alloc),
            wakeups: BinaryHeap::new(alloc),
            spare: 0,
        }
    }

    /// How many keys there are.
    pub fn len(&self) -> usize
        ensures { result ≡ length (all_of self.now) }
    {
        self.others.len() + self.wakeups.len()
    }

    /// How many more there is room for.
    pub fn spare(&self) -> usize
        ensures { result ≡ self.now.spare }
    {
        self.spare
    }

    /// Makes room for this many keys in all.
    pub fn reserve(&mut self, total: usize) -> Result<(), Memory>
        requires { length (all_of self.old) ≤ total }
        ensures room { OnOk result (self.new ≡ record self.old { spare = total - length (all_of self.old) }) }
        ensures refused { OnErr result (self.new ≡ self.old) }
    {
        self.others.reserve(total - self.others.len())?;
        self.wakeups.reserve(total - self.wakeups.len())?;
        self.spare = total - self.others.len() - self.wakeups.len();
        Ok(())
    }

    /// A key joins, whose message is a wakeup or not. There is room for it.
    pub fn push(&mut self, due: Key, is_wakeup: bool)
        requires { 0 < self.old.spare }
        ensures joins { IsPermutation (due ∷ (all_of self.old)) (all_of self.new) }
        ensures grows { length (all_of self.new) ≡ length (all_of self.old) + 1 }
        ensures spare { self.new.spare ≡ self.old.spare - 1 }
        ensures kinds { (p : ℕ → Bool) → AreByKind p self.old → p due.slot ≡ is_wakeup → AreByKind p self.new }
    {
        self.spare -= 1;
        if is_wakeup {
            add(&mut self.wakeups, due);
        } else {
            add(&mut self.others, due);
        }
    }

    /// The key that is due first, which stays. `None` where there is no key.
    pub fn peek(&self) -> Option<&Key>
        ensures first { IfSome result (λ d. IsFirst (all_of self.now) d.now) }
        ensures none { IfNone result (all_of self.now ≡ []) }
    {
        if is_ahead(&self.wakeups, &self.others) {
            self.wakeups.peek()
        } else {
            self.others.peek()
        }
    }

    /// The key that is due first leaves. `None` where there is no key.
    pub fn pop(&mut self) -> Option<Key>
        ensures left { IfSome result (λ d. IsPermutation (all_of self.old) (d ∷ (all_of self.new))) }
        ensures first { IfSome result (λ d. IsUpperBound by_due d (all_of self.new)) }
        ensures shrinks { OnSome result (length (all_of self.new) + 1 ≡ length (all_of self.old)) }
        ensures spare { OnSome result (self.new.spare ≡ self.old.spare + 1) }
        ensures none { IfNone result (all_of self.old ≡ []) }
        ensures unchanged { IfNone result (self.new ≡ self.old) }
        ensures kinds { (p : ℕ → Bool) → AreByKind p self.old → AreByKind p self.new }
    {
        let due = pop_first(&mut self.wakeups, &mut self.others)?;
        self.spare += 1;
        Some(due)
    }

    /// The key that is due first gets another time and moves to its place, under its number and slot. It
    /// comes back as it was; `None` where there is no key.
    pub fn move_first(&mut self, time: Time) -> Option<Key>
        ensures moved { IfSome result (λ d. IsMoved (all_of self.old) (all_of self.new) d (record { time = time; seq = d.seq; slot = d.slot })) }
        ensures same { length (all_of self.new) ≡ length (all_of self.old) }
        ensures spare { self.new.spare ≡ self.old.spare }
        ensures none { IfNone result (all_of self.old ≡ []) }
        ensures unchanged { IfNone result (self.new ≡ self.old) }
        ensures kinds { (p : ℕ → Bool) → AreByKind p self.old → AreByKind p self.new }
    {
        if is_ahead(&self.wakeups, &self.others) {
            move_top(&mut self.wakeups, time)
        } else {
            move_top(&mut self.others, time)
        }
    }

    /// The same keys, with room for this many in all.
    pub fn copy(&self, alloc: Global, total: usize) -> Result<Heaps, Memory>
        requires { length (all_of self.now) ≤ total }
        ensures same { IfOk result (λ h. IsPermutation (all_of self.now) (all_of h)) }
        ensures long { IfOk result (λ h. length (all_of h) ≡ length (all_of self.now)) }
        ensures spare { IfOk result (λ h. h.spare ≡ total - length (all_of self.now)) }
        ensures kinds { IfOk result (λ h. (p : ℕ → Bool) → AreByKind p self.now → AreByKind p h) }
    {
        let others = copied_heap(alloc, &self.others, total)?;
        let wakeups = copied_heap(alloc, &self.wakeups, total)?;
        let spare = total - self.others.len() - self.wakeups.len();
        Ok(Heaps {
            others,
            wakeups,
            spare,
        })
    }

    /// The messages of the keys, in the order in which the heaps hold these.
    pub fn listed(&self, alloc: Global, slots: &[Message]) -> Result<Vec<Message>, Memory>
        requires { All (λ due. due.slot < length slots.now) (all_of self.now) }
        ensures { IfOk result (λ v. v.items ≡ held slots.now (all_of self.now)) }
    {
        let mut messages = Vec::new(alloc);
        list(&mut messages, self.others.as_slice(), slots)?;
        list(&mut messages, self.wakeups.as_slice(), slots)?;
        Ok(messages)
    }
}

// A key joins a heap that has room for it.
fn add(heap: &mut BinaryHeap<Key>, due: Key)
    requires room { heap_len heap.old < heap_capacity heap.old }
    requires order { IsHeap by_due (heap_items heap.old) }
    ensures joins { IsPermutation (due ∷ heap_items heap.old) (heap_items heap.new) }
    ensures order { IsHeap by_due (heap_items heap.new) }
    ensures len { heap_len heap.new ≡ heap_len heap.old + 1 }
    ensures capacity { heap_capacity heap.old ≤ heap_capacity heap.new }
{
    match heap.push(due) {
        Ok(()) => {}
        Err(_) => unreachable!(),
    }
}

// Whether the key that is due first of both heaps is on top of `heap`. Where both are empty, it is said
// to be.
fn is_ahead(heap: &BinaryHeap<Key>, other: &BinaryHeap<Key>) -> bool
    requires order { IsHeap by_due (heap_items heap.now) }
    requires other_order { IsHeap by_due (heap_items other.now) }
    ensures ahead { result ≡ true → IsAhead (heap_items heap.now) (heap_items other.now) }
    ensures behind { result ≡ false → IsAhead (heap_items other.now) (heap_items heap.now) }
{
    let Some(second) = other.peek() else {
        return true;
    };
    let Some(first) = heap.peek() else {
        return false;
    };
    match first.cmp(second) {
        Ordering::Less => false,
        Ordering::Equal | Ordering::Greater => true,
    }
}

// The key that is due first of both heaps leaves its heap. `None` where there is no key.
fn pop_first(wakeups: &mut BinaryHeap<Key>, others: &mut BinaryHeap<Key>) -> Option<Key>
    requires order { IsHeap by_due (heap_items wakeups.old) }
    requires others_order { IsHeap by_due (heap_items others.old) }
    ensures left { IfSome result (λ d. IsPermutation (heap_items others.old ++ heap_items wakeups.old) (d ∷ (heap_items others.new ++ heap_items wakeups.new))) }
    ensures first { IfSome result (λ d. IsUpperBound by_due d (heap_items others.new ++ heap_items wakeups.new)) }
    ensures order { IsHeap by_due (heap_items wakeups.new) }
    ensures others_order { IsHeap by_due (heap_items others.new) }
    ensures len { OnSome result (heap_len others.new + heap_len wakeups.new + 1 ≡ heap_len others.old + heap_len wakeups.old) }
    ensures capacity { heap_capacity wakeups.new ≡ heap_capacity wakeups.old }
    ensures others_capacity { heap_capacity others.new ≡ heap_capacity others.old }
    ensures none { IfNone result (heap_items others.old ++ heap_items wakeups.old ≡ []) }
    ensures unchanged { IfNone result ((heap_items others.new ≡ heap_items others.old) × (heap_items wakeups.new ≡ heap_items wakeups.old)) }
    ensures kind { (p : ℕ → Bool) → AllByRecursion (λ d. p d.slot ≡ true) (heap_items wakeups.old) → AllByRecursion (λ d. p d.slot ≡ true) (heap_items wakeups.new) }
    ensures others_kind { (p : ℕ → Bool) → AllByRecursion (λ d. p d.slot ≡ false) (heap_items others.old) → AllByRecursion (λ d. p d.slot ≡ false) (heap_items others.new) }
    ensures none_left { IfNone result (heap_len others.new + heap_len wakeups.new ≡ heap_len others.old + heap_len wakeups.old) }
{
    if is_ahead(wakeups, others) {
        wakeups.pop()
    } else {
        others.pop()
    }
}

// The key that is due first gets another time and moves to its place, under its number and slot. It
// comes back as it was; `None` where there is no key.
fn move_top(heap: &mut BinaryHeap<Key>, time: Time) -> Option<Key>
    requires order { IsHeap by_due (heap_items heap.old) }
    ensures top { IfSome result (λ d. heap_items heap.old ≡ d ∷ drop 1 (heap_items heap.old)) }
    ensures first { IfSome result (λ d. IsUpperBound by_due d (drop 1 (heap_items heap.old))) }
    ensures moved { IfSome result (λ d. IsPermutation (record { time = time; seq = d.seq; slot = d.slot } ∷ drop 1 (heap_items heap.old)) (heap_items heap.new)) }
    ensures order { IsHeap by_due (heap_items heap.new) }
    ensures len { heap_len heap.new ≡ heap_len heap.old }
    ensures capacity { heap_capacity heap.new ≡ heap_capacity heap.old }
    ensures kind { (p : ℕ → Bool) → (b : Bool) → AllByRecursion (λ d. p d.slot ≡ b) (heap_items heap.old) → AllByRecursion (λ d. p d.slot ≡ b) (heap_items heap.new) }
    ensures none { IfNone result (heap_items heap.old ≡ []) }
    ensures unchanged { IfNone result (heap.new ≡ heap.old) }
{
    let mut top = heap.peek_mut()?;
    let due = *top;
    *top = due.delayed(time);
    Some(due)
}

// A heap of the same keys, with room for this many.
fn copied_heap(
    alloc: Global,
    heap: &BinaryHeap<Key>,
    total: usize,
) -> Result<BinaryHeap<Key>, Memory>
    requires { heap_len heap.now ≤ total }
    ensures same { IfOk result (λ h. IsPermutation (heap_items heap.now) (heap_items h)) }
    ensures order { IfOk result (λ h. IsHeap by_due (heap_items h)) }
    ensures len { IfOk result (λ h. heap_len h ≡ heap_len heap.now) }
    ensures capacity { IfOk result (λ h. total ≤ heap_capacity h) }
{
    let dues = copied(alloc, heap.as_slice())?;
    let mut copy = BinaryHeap::from(dues);
    let Ok(()) = copy.reserve(total - heap.len()) else {
        drop(copy);
        return Err(Memory);
    };
    Ok(copy)
}

// Appends the messages of some keys.
fn list(messages: &mut Vec<Message>, dues: &[Key], slots: &[Message]) -> Result<(), Memory>
    requires { All (λ due. due.slot < length slots.now) dues.now }
    ensures { OnOk result (messages.new.items ≡ messages.old.items ++ held slots.now dues.now) }
{
    for due in dues {
        messages.push(slots[due.slot()])?;
    }
    Ok(())
}
