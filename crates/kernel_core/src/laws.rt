//! Laws of runs and of edits.

ghost use Rattle.std.specs.Prelude.{◌≡◌, ◌<◌, ◌≤◌, ◌⊎◌, ℕ, false, List};
ghost use Rattle.std.specs.List.{AllByRecursion};
ghost use Rattle.market_types.specs.Told.{EntryTold};
ghost use Rattle.market_rules.specs.declared.edit.Edit.{Edit};
ghost use Rattle.market_floor.specs.declared.opening.Opening.{Opening};
ghost use Rattle.kernel_core.specs.Edited.{edited};
ghost use Rattle.kernel_core.specs.Due.{due_by, until_time};
ghost use Rattle.kernel_core.specs.Seen.{IsEvent, afresh};
ghost use Rattle.kernel_core.specs.State.{State};
ghost use Rattle.kernel_core.specs.Until.{Run, advanced_by, behind, until};

/// A run that stops and goes on is as if it had not stopped, wherever it did not pass the later stop. It never goes back, nor
/// past a stop, and what stood in the trace before stays in front.
pub fn runs_go_on()
    ensures grows { (o : Opening) (n : ℕ) (r : Run) → r.state.events ≤ (until o n r).state.events }
    ensures within { (o : Opening) (n : ℕ) (r : Run) → r.state.events ≤ n → (until o n r).state.events ≤ n }
    ensures past { (o : Opening) (n : ℕ) (r : Run) → n ≤ r.state.events → until o n r ≡ r }
    ensures again { (o : Opening) (k m : ℕ) (r : Run) → (advanced_by k o r).state.events ≤ m → until o m (advanced_by k o r) ≡ until o m r }
    ensures stopped { (o : Opening) (n m : ℕ) (r : Run) → (until o n r).state.events ≤ m → until o m (until o n r) ≡ until o m r }
    ensures later { (o : Opening) (n m : ℕ) (r : Run) → n ≤ m → until o m (until o n r) ≡ until o m r }
    ensures behind { (o : Opening) (n : ℕ) (xs : List EntryTold) (r : Run) → until o n (behind xs r) ≡ behind xs (until o n r) }
{}

/// A run up to a time makes the events that a run to a number makes, as far as it goes. Where it goes on, to an event number that
/// it has not passed or to a time that is not earlier, it is as if it had not stopped. It never goes past the most events; one
/// that stops before them goes no further with more of them, and neither does a run to a number that stops before the number.
pub fn runs_to_times()
    ensures grows { (o : Opening) (w most : ℕ) (r : Run) → r.state.events ≤ (until_time o w most r).state.events }
    ensures within { (o : Opening) (w most : ℕ) (r : Run) → r.state.events ≤ most → (until_time o w most r).state.events ≤ most }
    ensures over { (o : Opening) (w most : ℕ) (r : Run) → (most ≤ r.state.events) ⊎ (due_by o w r.state ≡ false) → until_time o w most r ≡ r }
    ensures later { (o : Opening) (w v most more : ℕ) (r : Run) → w ≤ v → most ≤ more → until_time o v more (until_time o w most r) ≡ until_time o v more r }
    ensures again { (o : Opening) (w most m : ℕ) (r : Run) → (until_time o w most r).state.events ≤ m → until o m (until_time o w most r) ≡ until o m r }
    ensures number { (o : Opening) (w most g : ℕ) (r : Run) → g ≤ (until_time o w most r).state.events → until_time o w g r ≡ until o g r }
    ensures at { (o : Opening) (w most g : ℕ) (r : Run) → r.state.events ≤ g → g ≤ (until_time o w most r).state.events → (until_time o w g r).state.events ≡ g }
    ensures short { (o : Opening) (w most more : ℕ) (r : Run) → most ≤ more → (until_time o w most r).state.events < most → until_time o w more r ≡ until_time o w most r }
    ensures stays { (o : Opening) (n m : ℕ) (r : Run) → m ≤ n → until o m (until o n r) ≡ until o n r }
    ensures ended { (o : Opening) (n m : ℕ) (r : Run) → n ≤ m → (until o n r).state.events < n → until o m r ≡ until o n r }
    ensures behind { (o : Opening) (w most : ℕ) (xs : List EntryTold) (r : Run) → until_time o w most (behind xs r) ≡ behind xs (until_time o w most r) }
{}

/// Edits are no events, and what stood in the trace before them stays in front.
pub fn edits_are_no_events()
    ensures events { (branch : ℕ) (es : List Edit) (r : Run) → (edited branch es r).state.events ≡ r.state.events }
    ensures behind { (branch : ℕ) (es : List Edit) (xs : List EntryTold) (r : Run) → edited branch es (behind xs r) ≡ behind xs (edited branch es r) }
{}

/// A run adds events to the trace, and nothing else.
pub fn runs_add_events()
    ensures until { (o : Opening) (n : ℕ) (s : State) → AllByRecursion IsEvent (until o n (afresh s)).entries }
    ensures until_time { (o : Opening) (w most : ℕ) (s : State) → AllByRecursion IsEvent (until_time o w most (afresh s)).entries }
{}
