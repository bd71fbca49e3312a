//! A message's key in the heaps' order.

ghost use Rattle.std.specs.Prelude.{◌≡◌, ◌<◌, ◌^◌};

use market_types::Time;
use std::cmp::Ordering;
use std::marker::Model;

// How many slots a key can tell. Of numbers of messages it can tell 2 ^ 48.
const SLOTS: u64 = 1 << 16;

// What a nanosecond counts in a key, below which are the number and the slot.
const NANOSECOND: u128 = 1 << 64;

/// A message's time, number and slot as one number: 64 bits of the time, below them 48 of the number
/// and below these 16 of the slot. A key is greater where it comes sooner.
#[derive(Clone, Copy)]
pub struct Key {
    code: u128,
}

impl Model for Key {
    ghost use Rattle.event_queue.specs.Keys.{Due, due_of, code_of, code-due};

    ghost Value = { Due };

    ghost view = { λ k. due_of k.code };

    ghost inverse = { λ d. record { code = code_of d } };

    ghost inverse_ok = { λ k h i. record { code = code-due k.code i } };
}

impl Key {
    /// The key of a message's time, number and slot.
    pub fn new(time: Time, seq: u64, slot: usize) -> Key
        requires number { seq < 2 ^ 48 }
        requires slot { slot < 2 ^ 16 }
        ensures { result ≡ record { time = time; seq = seq; slot = slot } }
    {
        Key {
            code: u128::from(time) * NANOSECOND + u128::from(seq * SLOTS + slot as u64),
        }
    }

    /// The key of the same message at another time.
    pub fn delayed(&self, time: Time) -> Key
        ensures { result ≡ record { time = time; seq = self.now.seq; slot = self.now.slot } }
    {
        Key {
            code: u128::from(time) * NANOSECOND + self.code % NANOSECOND,
        }
    }

    /// The slot of the message.
    pub fn slot(&self) -> usize
        ensures { result ≡ self.now.slot }
    {
        (self.code % u128::from(SLOTS)) as usize
    }
}

impl PartialEq for Key {
    ghost use Rattle.std.specs.Ordering.{eq_by_cmp};
    ghost use Rattle.std.specs.Cmp.Rules.{comparing};
    ghost use Rattle.std.proofs.Common.{rules};
    ghost use Rattle.event_queue.specs.Keys.{by_due};

    ghost eq = { eq_by_cmp by_due };

    ghost laws = { Prim.search (comparing, rules) };

    fn eq(&self, other: &Key) -> bool {
        self.cmp(other) == Ordering::Equal
    }
}

impl Eq for Key {
    ghost use Rattle.std.specs.Cmp.Rules.{comparing};
    ghost use Rattle.std.proofs.Common.{rules};

    ghost laws = { Prim.search (comparing, rules) };
}

impl Ord for Key {
    ghost use Rattle.std.specs.Cmp.Rules.{comparing};
    ghost use Rattle.std.proofs.Common.{rules};
    ghost use Rattle.event_queue.specs.Keys.{by_due};

    ghost cmp = { by_due };

    ghost total = { Prim.search (comparing, rules) };

    ghost matches_partial_cmp = { Prim.search (comparing, rules) };

    ghost matches_eq = { Prim.search (comparing, rules) };

    fn cmp(&self, other: &Key) -> Ordering {
        other.code.cmp(&self.code)
    }
}

impl PartialOrd for Key {
    ghost use Rattle.std.specs.Cmp.{partial_order_from_own_ties};
    ghost use Rattle.std.specs.Cmp.Rules.{comparing};
    ghost use Rattle.std.specs.Ordering.{as_partial_cmp};
    ghost use Rattle.std.proofs.Common.{rules};
    ghost use Rattle.event_queue.specs.Keys.{by_due};

    ghost partial_cmp = { as_partial_cmp by_due };

    ghost laws = { partial_order_from_own_ties (Prim.search (comparing, rules)) (Prim.search (comparing, rules)) };

    fn partial_cmp(&self, other: &Key) -> Option<Ordering> {
        Some(self.cmp(other))
    }
}
