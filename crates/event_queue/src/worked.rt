//! What the definitions give on worked examples.

ghost use Rattle.std.specs.Prelude.{◌≡◌, ◌∷◌, []};
ghost use Rattle.event_queue.specs.InOrder.{in_order};
ghost use Rattle.event_queue.specs.Numbered.{by_number};
ghost use Rattle.event_queue.specs.Waiting.{least, joined, without};
ghost use Rattle.event_queue.specs.Worked.{wakeup, seven_and_eight, put_back, all_three};

/// Message 5 was put back to 1008, the time at which message 7 is due: it keeps its number, so it
/// stands before 7 again and is due before it. Message 8 is due before both, at 1005.
pub fn lists_after_a_put_back()
    ensures joined { joined put_back seven_and_eight ≡ all_three }
    ensures least { least all_three ≡ Some (wakeup 1005 8) }
    ensures left { without 8 all_three ≡ put_back ∷ wakeup 1008 7 ∷ [] }
    ensures at_one_time { least (put_back ∷ wakeup 1008 7 ∷ []) ≡ Some put_back }
    ensures by_number { by_number (wakeup 1005 8 ∷ put_back ∷ wakeup 1008 7 ∷ []) ≡ all_three }
    ensures by_time { in_order all_three ≡ wakeup 1005 8 ∷ put_back ∷ wakeup 1008 7 ∷ [] }
    ensures none { least [] ≡ None }
{}
