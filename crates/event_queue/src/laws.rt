//! Laws of the definitions for a caller of the queue.

ghost use Rattle.std.specs.Prelude.{◌≡◌, ◌≢◌, ◌<◌, ◌≤◌, ◌+◌, ℕ, Bool, true, false, List, Some, All, length, slice_index_or};
ghost use Rattle.market_types.specs.declared.message.Message.{Message};
ghost use Rattle.event_queue.specs.Rising.{IsRising};
ghost use Rattle.event_queue.specs.Waiting.{before, least, IsNew, joined, without};

/// A message that joins is one more. What a test says of it and of all that wait it says of all afterwards,
/// and numbers that rise go on rising.
pub fn a_message_joins()
    ensures more { (m : Message) → (w : List Message) → length (joined m w) ≡ length w + 1 }
    ensures tested { (p : Message → Bool) → (m : Message) → (w : List Message) → p m ≡ true → All (λ x. p x ≡ true) w → All (λ x. p x ≡ true) (joined m w) }
    ensures new { (n : ℕ) → (m : Message) → (w : List Message) → m.seq ≢ n → IsNew n w → IsNew n (joined m w) }
    ensures rising { (m : Message) → (w : List Message) → IsNew m.seq w → IsRising w → IsRising (joined m w) }
{}

/// The number of a message that left is new. What a test says of all that wait it says of those that stay, and
/// a message that joined and left again changes nothing.
pub fn a_message_leaves()
    ensures new { (n : ℕ) → (w : List Message) → IsNew n (without n w) }
    ensures tested { (p : Message → Bool) → (n : ℕ) → (w : List Message) → All (λ x. p x ≡ true) w → All (λ x. p x ≡ true) (without n w) }
    ensures rising { (n : ℕ) → (w : List Message) → IsRising w → IsRising (without n w) }
    ensures undone { (m : Message) → (w : List Message) → IsNew m.seq w → without m.seq (joined m w) ≡ w }
{}

/// The least message is one of those that wait, none is due before it, and it leaves one fewer.
pub fn the_least_is_due_first()
    ensures tested { (p : Message → Bool) → (w : List Message) → (m : Message) → least w ≡ Some m → All (λ x. p x ≡ true) w → p m ≡ true }
    ensures first { (w : List Message) → (m : Message) → least w ≡ Some m → All (λ x. before x m ≡ false) w }
    ensures soonest { (w : List Message) → (m : Message) → least w ≡ Some m → All (λ x. m.time ≤ x.time) w }
    ensures fewer { (w : List Message) → (m : Message) → least w ≡ Some m → IsRising w → length (without m.seq w) + 1 ≡ length w }
{}

/// Numbers that rise are distinct: of two places the later one has the greater number.
pub fn rising_numbers_are_distinct()
    ensures { (w : List Message) → (j : ℕ) → (k : ℕ) → (d : Message) → IsRising w → j < k → k < length w → (slice_index_or w j d).seq < (slice_index_or w k d).seq }
{}
