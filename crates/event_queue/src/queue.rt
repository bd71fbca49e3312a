//! The queue.

ghost use Rattle.std.specs.Prelude.{◌≡◌, ◌≢◌, ◌<◌, ◌≤◌, ◌+◌, ◌-◌, ◌++◌, ◌∷◌, ◌==◌, ◌^◌, ℕ, [], if◌then◌else◌, All, OnOk, OnErr, IfOk, IfSome, IfNone, OnSome, length, nat_lt, option_map, slice_index_or, vec_len, vec_capacity};
ghost use Rattle.std.specs.List.Sorted.{IsPermutation, IsSortedBy};
ghost use Rattle.event_queue.specs.InOrder.{in_order};
ghost use Rattle.event_queue.specs.Dues.{is_wake, times_free, vacant};
ghost use Rattle.event_queue.specs.Rising.{IsRising};
ghost use Rattle.event_queue.specs.Waiting.{before, least, IsNew, joined, without};

use crate::heaps::Heaps;
use crate::key::Key;
use market_types::{AgentNo, Body, Memory, Message, Time, copied};
use std::alloc::Global;
use std::marker::Model;
use std::slice::{from_mut, from_ref};

// How many vacant slots are made at a time, at most.
const SLOTS_AHEAD: usize = 32;

// How many slots there may be: as many as a key can tell.
const MOST_SLOTS: usize = 1 << 16;

/// The waiting messages. The heaps move small keys; each message stays in one slot until it leaves.
#[derive(Drop)]
pub struct Queue {
    heaps: Heaps,
    slots: Vec<Message>,
    // The slots that no key names.
    free: Vec<usize>,
}

impl Model for Queue {
    ghost use Rattle.std.specs.Prelude.{◌≡◌, ◌≤◌, ◌+◌, ◌^◌, length, vec_len, vec_capacity};
    ghost use Rattle.std.specs.List.{AllByRecursion};
    ghost use Rattle.market_types.specs.Room.{Room};
    ghost use Rattle.market_types.specs.declared.message.Message.{Message};
    ghost use Rattle.event_queue.specs.Dues.{held, wakes, IsTold, IsSharedOut};
    ghost use Rattle.event_queue.specs.Keys.{AreByKind, all_of};
    ghost use Rattle.event_queue.specs.Numbered.{by_number, IsApart};

    ghost Value = { Room Message };

    ghost view = { λ q. record { list = by_number (held q.slots.items (all_of q.heaps)); spare = q.heaps.spare } };

    ghost invariant = { λ q. record {
      slot_room : length (all_of q.heaps) + q.heaps.spare ≤ vec_capacity q.slots;
      free_room : length (all_of q.heaps) + q.heaps.spare ≤ vec_capacity q.free;
      few : vec_len q.free ≤ q.heaps.spare;
      every : vec_len q.slots ≡ length (all_of q.heaps) + vec_len q.free;
      told : AllByRecursion (IsTold q.slots.items) (all_of q.heaps);
      shared_out : IsSharedOut q.slots.items q.free.items (all_of q.heaps);
      apart : IsApart (held q.slots.items (all_of q.heaps));
      narrow : vec_len q.slots ≤ 2 ^ 16;
      kinds : AreByKind (wakes q.slots.items) q.heaps;
    } };
}

impl Queue {
    /// The empty queue. It takes no memory, and later calls take theirs from `alloc`.
    pub fn new(alloc: Global) -> Queue
        ensures { result ≡ record { list = []; spare = 0 } }
    {
        Queue {
            heaps: Heaps::new(alloc),
            slots: Vec::new(alloc),
            free: Vec::new(alloc),
        }
    }

    /// How many messages wait.
    pub fn len(&self) -> usize
        ensures { result ≡ length self.now.list }
    {
        self.heaps.len()
    }

    /// The numbers of the waiting messages rise, so no two messages have one number.
    pub fn numbers_rise(&self)
        ensures { IsRising self.now.list }
    {
        let _heaps = &self.heaps;
    }

    /// Keeps places for `n` more messages.
    pub fn reserve(&mut self, n: usize) -> Result<(), Memory>
        ensures list { self.new.list ≡ self.old.list }
        ensures room { OnOk result (n ≤ self.new.spare) }
        ensures never_falls { self.old.spare ≤ self.new.spare }
        ensures refused { OnErr result (self.new ≡ self.old) }
    {
        if n <= self.heaps.spare() {
            return Ok(());
        }
        let more = n - self.free.len();
        self.slots.reserve(more)?;
        self.free.reserve(self.heaps.len() + more)?;
        self.heaps.reserve(self.slots.len() + more)
    }

    /// A message of these parts joins, due at a time in nanoseconds past midnight. A place was kept for
    /// it, fewer than 65,536 messages wait, and its number is below 2 ^ 48 and that of no waiting message.
    pub fn push_body(&mut self, time: Time, seq: u64, from: AgentNo, to: AgentNo, body: &Body)
        requires room { 0 < self.old.spare }
        requires few { length self.old.list < 2 ^ 16 }
        requires number { seq < 2 ^ 48 }
        requires fresh { IsNew seq self.old.list }
        ensures joins { self.new ≡ record { list = joined (record { time = time; seq = seq; from = from; to = to; body = body.now }) self.old.list; spare = self.old.spare - 1 } }
        ensures grows { length self.new.list ≡ length self.old.list + 1 }
    {
        keep_free(&mut self.slots, &mut self.free, self.heaps.spare());
        let slot = store(&mut self.slots, &mut self.free, time, seq, from, to, body);
        self.heaps.push(Key::new(time, seq, slot), is_wakeup(body));
    }

    /// The least message leaves: the one with the least time, and among those the least number. Where
    /// none waits, nothing changes.
    pub fn drop_least(&mut self)
        ensures left { IfSome (least self.old.list) (λ m. self.new ≡ record { list = without m.seq self.old.list; spare = self.old.spare + 1 }) }
        ensures gone { IfSome (least self.old.list) (λ m. IsNew m.seq self.new.list) }
        ensures shrinks { OnSome (least self.old.list) (length self.new.list + 1 ≡ length self.old.list) }
        ensures empty { IfNone (least self.old.list) (self.new ≡ self.old) }
    {
        let Some(due) = self.heaps.pop() else {
            return;
        };
        put(&mut self.free, due.slot());
    }

    /// The least message gets another time, in nanoseconds past midnight, and keeps its number, as if it
    /// left and joined again at that time. Where none waits, nothing changes. It takes no memory and no
    /// place.
    pub fn delay_least(&mut self, time: Time)
        ensures delayed { IfSome (least self.old.list) (λ m. self.new ≡ record { list = joined (record m { time = time }) (without m.seq self.old.list); spare = self.old.spare }) }
        ensures same { length self.new.list ≡ length self.old.list }
        ensures empty { IfNone (least self.old.list) (self.new ≡ self.old) }
    {
        let Some(due) = self.heaps.move_first(time) else {
            return;
        };
        delay(&mut self.slots, due.slot(), time);
    }

    /// The least message, which stays. `None` where none waits.
    pub fn peek_least(&self) -> Option<&Message>
        ensures { option_map (λ m. m.now) result ≡ least self.now.list }
    {
        match self.heaps.peek() {
            Some(due) => self.slots.get(due.slot()),
            None => None,
        }
    }

    /// A queue with the same waiting messages, which may keep any number of places.
    pub fn copy(&self, alloc: Global) -> Result<Queue, Memory>
        ensures { IfOk result (λ q. q.list ≡ self.now.list) }
    {
        let heaps = self.heaps.copy(alloc, self.slots.len())?;
        let Ok(slots) = copied(alloc, self.slots.as_slice()) else {
            drop(heaps);
            return Err(Memory);
        };
        let Ok(mut free) = copied(alloc, self.free.as_slice()) else {
            drop(slots);
            drop(heaps);
            return Err(Memory);
        };
        let Ok(()) = free.reserve(self.heaps.len()) else {
            drop(free);
            drop(slots);
            drop(heaps);
            return Err(Memory);
        };
        Ok(Queue { heaps, slots, free })
    }

    /// The waiting messages in order of time, and at one time of number.
    pub fn messages(&self, alloc: Global) -> Result<Vec<Message>, Memory>
        ensures listed { IfOk result (λ v. v.items ≡ in_order self.now.list) }
        ensures same { IfOk result (λ v. IsPermutation self.now.list v.items) }
        ensures sorted { IfOk result (λ v. IsSortedBy before v.items) }
    {
        let mut messages = self.heaps.listed(alloc, self.slots.as_slice())?;
        messages.sort_unstable_by_key(|m| (m.time, m.seq));
        Ok(messages)
    }
}

// Appends a value where room was made.
fn put<T: Drop>(list: &mut Vec<T>, value: T)
    requires { vec_len list.old < vec_capacity list.old }
    ensures items { list.new.items ≡ list.old.items ++ value ∷ [] }
    ensures len { vec_len list.new ≡ vec_len list.old + 1 }
    ensures capacity { vec_capacity list.old ≤ vec_capacity list.new }
{
    match list.push(value) {
        Ok(()) => {}
        Err(_) => unreachable!(),
    }
}

// Whether a message that says this is a wakeup.
fn is_wakeup(body: &Body) -> bool
    ensures { result ≡ is_wake body.now }
{
    matches!(body, Body::Wake)
}

// Adds so many vacant slots, for which there is room.
fn add_slots(slots: &mut Vec<Message>, free: &mut Vec<usize>, count: usize)
    requires room { vec_len slots.old + count ≤ vec_capacity slots.old }
    requires free_room { vec_len free.old + count ≤ vec_capacity free.old }
    ensures same { (n : ℕ) → slice_index_or slots.new.items n vacant ≡ slice_index_or slots.old.items n vacant }
    ensures added { (n : ℕ) → times_free n free.new.items + (if nat_lt n (length slots.old.items) then 1 else 0) ≡ times_free n free.old.items + (if nat_lt n (length slots.new.items) then 1 else 0) }
    ensures len { vec_len slots.new ≡ vec_len slots.old + count }
    ensures free_len { vec_len free.new ≡ vec_len free.old + count }
    ensures capacity { vec_capacity slots.old ≤ vec_capacity slots.new }
    ensures free_capacity { vec_capacity free.old ≤ vec_capacity free.new }
{
    for _i in 0..count {
        put(free, slots.len());
        put(
            slots,
            Message {
                time: 0,
                seq: 0,
                from: 0,
                to: 0,
                body: Body::Wake,
            },
        );
    }
}

// Where no slot is free, some vacant ones are added, a few at a time, as far as so many messages more
// may join.
fn keep_free(slots: &mut Vec<Message>, free: &mut Vec<usize>, spare: usize)
    requires some { 0 < spare }
    requires narrow { vec_len free.old ≡ 0 → vec_len slots.old < 2 ^ 16 }
    requires room { vec_len free.old ≡ 0 → vec_len slots.old + spare ≤ vec_capacity slots.old }
    requires free_room { vec_len free.old ≡ 0 → spare ≤ vec_capacity free.old }
    ensures some { 0 < vec_len free.new }
    ensures same { (n : ℕ) → slice_index_or slots.new.items n vacant ≡ slice_index_or slots.old.items n vacant }
    ensures added { (n : ℕ) → times_free n free.new.items + (if nat_lt n (length slots.old.items) then 1 else 0) ≡ times_free n free.old.items + (if nat_lt n (length slots.new.items) then 1 else 0) }
    ensures len { vec_len slots.new + vec_len free.old ≡ vec_len slots.old + vec_len free.new }
    ensures few { vec_len free.old ≤ spare → vec_len free.new ≤ spare }
    ensures narrow { vec_len slots.old ≤ 2 ^ 16 → vec_len slots.new ≤ 2 ^ 16 }
    ensures capacity { vec_capacity slots.old ≤ vec_capacity slots.new }
    ensures free_capacity { vec_capacity free.old ≤ vec_capacity free.new }
{
    if free.is_empty() {
        let most = MOST_SLOTS - slots.len();
        add_slots(slots, free, spare.min(most).min(SLOTS_AHEAD));
    }
}

// What a message says, copied as one piece and not kind by kind.
fn copy_body(place: &mut Body, body: &Body)
    ensures { place.new ≡ body.now }
{
    from_mut(place).copy_from_slice(from_ref(body));
}

// Writes a message of these parts into a free slot.
fn store(
    slots: &mut Vec<Message>,
    free: &mut Vec<usize>,
    time: Time,
    seq: u64,
    from: AgentNo,
    to: AgentNo,
    body: &Body,
) -> usize
    requires within { All (λ n. n < length slots.old.items) free.old.items }
    requires some { 0 < vec_len free.old }
    ensures slot { result < length slots.old.items }
    ensures written { slice_index_or slots.new.items result vacant ≡ record { time = time; seq = seq; from = from; to = to; body = body.now } }
    ensures others { (n : ℕ) → n ≢ result → slice_index_or slots.new.items n vacant ≡ slice_index_or slots.old.items n vacant }
    ensures unheld { (if nat_lt result (length slots.old.items) then 1 else 0) ≤ times_free result free.old.items }
    ensures taken { (n : ℕ) → (if result == n then 1 else 0) + times_free n free.new.items + (if nat_lt n (length slots.old.items) then 1 else 0) ≡ times_free n free.old.items + (if nat_lt n (length slots.new.items) then 1 else 0) }
    ensures len { vec_len slots.new ≡ vec_len slots.old }
    ensures free_len { vec_len free.new + 1 ≡ vec_len free.old }
    ensures capacity { vec_capacity slots.old ≤ vec_capacity slots.new }
    ensures free_capacity { vec_capacity free.old ≤ vec_capacity free.new }
{
    let Some(slot) = free.pop() else {
        unreachable!()
    };
    write(slots, slot, time, seq, from, to, body);
    slot
}

// Writes a message of these parts into a slot.
fn write(
    slots: &mut Vec<Message>,
    slot: usize,
    time: Time,
    seq: u64,
    from: AgentNo,
    to: AgentNo,
    body: &Body,
)
    requires within { slot < length slots.old.items }
    ensures written { slice_index_or slots.new.items slot vacant ≡ record { time = time; seq = seq; from = from; to = to; body = body.now } }
    ensures others { (n : ℕ) → n ≢ slot → slice_index_or slots.new.items n vacant ≡ slice_index_or slots.old.items n vacant }
    ensures same { length slots.new.items ≡ length slots.old.items }
    ensures len { vec_len slots.new ≡ vec_len slots.old }
    ensures capacity { vec_capacity slots.new ≡ vec_capacity slots.old }
{
    let place = &mut slots[slot];
    place.time = time;
    place.seq = seq;
    place.from = from;
    place.to = to;
    copy_body(&mut place.body, body);
}

// A message gets another time in its slot.
fn delay(slots: &mut Vec<Message>, slot: usize, time: Time)
    requires within { slot < length slots.old.items }
    ensures written { slice_index_or slots.new.items slot vacant ≡ record (slice_index_or slots.old.items slot vacant) { time = time } }
    ensures others { (n : ℕ) → n ≢ slot → slice_index_or slots.new.items n vacant ≡ slice_index_or slots.old.items n vacant }
    ensures same { length slots.new.items ≡ length slots.old.items }
    ensures len { vec_len slots.new ≡ vec_len slots.old }
    ensures capacity { vec_capacity slots.new ≡ vec_capacity slots.old }
{
    slots[slot].time = time;
}
