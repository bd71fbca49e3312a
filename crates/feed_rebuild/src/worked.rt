//! What the definitions give on worked examples.

ghost use Rattle.std.specs.Prelude.{◌≡◌, ◌∷◌, [], None, Some, Ok, Err};
ghost use Rattle.feed_rebuild.specs.Compared.{by_stock, difference};
ghost use Rattle.feed_rebuild.specs.Fold.{fold, fresh};
ghost use Rattle.feed_rebuild.specs.Worked.{add, buy, cancel, delete, executed, halt};

/// References rise over all stocks, from any first one on. A locate is a stock's number and one.
#[tactic(auto, unfolding(crate::specs::Fold::fold))]
pub fn orders_that_come()
    ensures nothing { fold 2 [] ≡ Ok (fresh 2) }
    ensures two { fold 2 (add 2 5 100 ∷ add 1 6 200 ∷ []) ≡ Ok (record { orders = buy 1 5 100 ∷ buy 0 6 200 ∷ []; states = 84 ∷ 84 ∷ []; last = Some 6 }) }
    ensures none_open { fold 1 (add 1 5 0 ∷ []) ≡ Ok (record { orders = buy 0 5 0 ∷ []; states = 84 ∷ []; last = Some 5 }) }
    ensures zero_first { fold 1 (add 1 0 100 ∷ []) ≡ Ok (record { orders = buy 0 0 100 ∷ []; states = 84 ∷ []; last = Some 0 }) }
    ensures again { fold 2 (add 1 5 100 ∷ add 2 5 100 ∷ []) ≡ Err 5 }
    ensures after_it_left { fold 1 (add 1 5 100 ∷ delete 1 5 ∷ add 1 5 100 ∷ []) ≡ Err 5 }
    ensures no_stock { fold 1 (add 0 7 100 ∷ []) ≡ Err 7 }
    ensures past_the_last { fold 1 (add 2 7 100 ∷ []) ≡ Err 7 }
{}

/// An order is lowered by at most what it has, under its stock's locate, and leaves at 0.
#[tactic(auto, unfolding(crate::specs::Fold::fold))]
pub fn orders_that_leave()
    ensures some { fold 1 (add 1 5 100 ∷ executed 1 5 40 ∷ []) ≡ Ok (record { orders = buy 0 5 60 ∷ []; states = 84 ∷ []; last = Some 5 }) }
    ensures all { fold 1 (add 1 5 100 ∷ cancel 1 5 100 ∷ []) ≡ Ok (record { orders = []; states = 84 ∷ []; last = Some 5 }) }
    ensures too_many { fold 1 (add 1 5 100 ∷ executed 1 5 101 ∷ []) ≡ Err 5 }
    ensures another_stock { fold 2 (add 1 5 100 ∷ delete 2 5 ∷ []) ≡ Err 5 }
    ensures twice { fold 1 (add 1 5 100 ∷ delete 1 5 ∷ delete 1 5 ∷ []) ≡ Err 5 }
{}

/// A state is that of the locate's stock, and 0 is told where there is none.
#[tactic(auto, unfolding(crate::specs::Fold::fold))]
pub fn states_that_change()
    ensures second { fold 2 (halt 2 ∷ []) ≡ Ok (record { orders = []; states = 84 ∷ 72 ∷ []; last = None }) }
    ensures none { fold 2 (halt 3 ∷ []) ≡ Err 0 }
{}

/// What tells books from a closing: the least reference that differs, or 0 for the order and the states.
pub fn differences()
    ensures grouped { by_stock 2 (buy 1 5 100 ∷ buy 0 6 200 ∷ []) ≡ buy 0 6 200 ∷ buy 1 5 100 ∷ [] }
    ensures same { difference 2 (buy 1 5 100 ∷ buy 0 6 200 ∷ []) (84 ∷ 84 ∷ []) (buy 0 6 200 ∷ buy 1 5 100 ∷ []) (84 ∷ 84 ∷ []) ≡ None }
    ensures order { difference 2 (buy 1 5 100 ∷ buy 0 6 200 ∷ []) (84 ∷ 84 ∷ []) (buy 1 5 100 ∷ buy 0 6 200 ∷ []) (84 ∷ 84 ∷ []) ≡ Some 0 }
    ensures state { difference 1 [] (84 ∷ []) [] (72 ∷ []) ≡ Some 0 }
    ensures field { difference 1 (buy 0 5 100 ∷ buy 0 6 200 ∷ []) (84 ∷ []) (buy 0 5 100 ∷ buy 0 6 199 ∷ []) (84 ∷ []) ≡ Some 6 }
    ensures missing { difference 1 (buy 0 5 100 ∷ buy 0 6 200 ∷ []) (84 ∷ []) (buy 0 6 200 ∷ []) (84 ∷ []) ≡ Some 5 }
    ensures foreign { difference 1 (buy 0 6 200 ∷ []) (84 ∷ []) (buy 0 6 200 ∷ buy 0 9 1 ∷ buy 0 3 1 ∷ []) (84 ∷ []) ≡ Some 3 }
    ensures twice { difference 1 (buy 0 6 200 ∷ []) (84 ∷ []) (buy 0 6 200 ∷ buy 0 6 200 ∷ []) (84 ∷ []) ≡ Some 0 }
{}
