//! Laws of dated changes.

ghost use Rattle.std.specs.Prelude.{◌≡◌, ℕ, ◌<◌, ◌≤◌, List, None, length, slice_index_or};
ghost use Rattle.market_rules.specs.declared.changes.Dated.{Dated};
ghost use Rattle.market_rules.specs.Changes.{dates_refusal, dated_by};

/// How many changes are due: no more than there are, and no fewer at a later time.
pub fn due_changes_are_counted()
    ensures within { (list : List Dated) → (time : ℕ) → dated_by list time ≤ length list }
    ensures rising { (list : List Dated) → (earlier : ℕ) → (later : ℕ) → earlier ≤ later → dated_by list earlier ≤ dated_by list later }
{}

/// Of changes in order of their dates exactly the first so many are due: those before that place are dated at
/// the time or earlier, and those from there on later.
pub fn first_changes_are_due()
    ensures due { (list : List Dated) → (time : ℕ) → (k : ℕ) → (d : Dated) → dates_refusal list ≡ None → k < dated_by list time → (slice_index_or list k d).time ≤ time }
    ensures later { (list : List Dated) → (time : ℕ) → (k : ℕ) → (d : Dated) → dates_refusal list ≡ None → dated_by list time ≤ k → k < length list → time < (slice_index_or list k d).time }
{}
