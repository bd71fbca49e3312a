//! Nearest states, and states before a stop, on worked examples.

ghost use Rattle.std.specs.Prelude.{◌≡◌, ◌∷◌, [], None, Some, nat_le, true, false};
ghost use Rattle.branch_tree.specs.declared.stop.Stop.TheVariants as stop;
ghost use Rattle.market_floor.specs.OpeningWorked.{market, watcher};
ghost use Rattle.kernel_core.specs.Open.{opened};
ghost use Rattle.branch_workers.specs.Layout.{layout};
ghost use Rattle.rewind_desk.specs.Best.{keys_in, most_among};
ghost use Rattle.rewind_desk.specs.Left.{is_behind, is_possible, is_reached};
ghost use Rattle.rewind_desk.specs.Nearest.{nearer_of};
ghost use Rattle.rewind_desk.specs.Reach.{has_more};
ghost use Rattle.rewind_desk.specs.Worked.{key_at, near_at, six_events};

/// Of three keys whose states have 5, 9 and 2 events the one with 5 has the most up to 7; none has up to 1.
pub fn the_most_of_three()
    ensures seven { most_among (λ k. k.event) (λ k. nat_le k.event 7) (key_at 0 5 ∷ key_at 1 9 ∷ key_at 0 2 ∷ []) ≡ 5 }
    ensures one { most_among (λ k. k.event) (λ k. nat_le k.event 1) (key_at 0 5 ∷ key_at 1 9 ∷ key_at 0 2 ∷ []) ≡ 0 }
{}

/// The nearer of two states is the one with more events, and the later one where they have as many.
pub fn the_nearer_of_two()
    ensures more { nearer_of (Some (near_at 0 5)) (Some (near_at 1 3)) ≡ Some (near_at 0 5) }
    ensures same { nearer_of (Some (near_at 0 5)) (Some (near_at 1 5)) ≡ Some (near_at 1 5) }
    ensures alone { nearer_of (Some (near_at 0 5)) None ≡ Some (near_at 0 5) }
{}

/// Two watchers wake at 1000. Before an event number that stands there is no more, nor before a time at which nothing is due,
/// nor before any stop where nobody wakes.
pub fn more_before_a_stop()
    ensures number { has_more (market 1005 0 (watcher 1000 ∷ watcher 1000 ∷ [])) (stop.At 1) (opened (market 1005 0 (watcher 1000 ∷ watcher 1000 ∷ []))) ≡ true }
    ensures stands { has_more (market 1005 0 (watcher 1000 ∷ watcher 1000 ∷ [])) (stop.At 0) (opened (market 1005 0 (watcher 1000 ∷ watcher 1000 ∷ []))) ≡ false }
    ensures time { has_more (market 1005 0 (watcher 1000 ∷ watcher 1000 ∷ [])) (stop.When 1000) (opened (market 1005 0 (watcher 1000 ∷ watcher 1000 ∷ []))) ≡ true }
    ensures early { has_more (market 1005 0 (watcher 1000 ∷ watcher 1000 ∷ [])) (stop.When 999) (opened (market 1005 0 (watcher 1000 ∷ watcher 1000 ∷ []))) ≡ false }
    ensures quiet { has_more (market 1005 0 []) (stop.At 100) (opened (market 1005 0 [])) ≡ false }
{}

/// A run has six events, of at most ten, and a copy is kept each four. The state after four may be left. The run doesn't reach 8,
/// which lies past its end.
pub fn a_number_past_the_end()
    ensures keys { keys_in (layout six_events.plan 4 16) ≡ key_at 0 4 ∷ key_at 0 8 ∷ [] }
    ensures there { is_possible six_events (layout six_events.plan 4 16) (key_at 0 4) ≡ true }
    ensures unreached { is_reached six_events 0 8 ≡ false }
    ensures past { is_behind six_events 0 8 ≡ true }
{}
