//! What the definitions give on worked examples.

ghost use Rattle.std.specs.Prelude.{◌≡◌, ◌∷◌, ◌++◌, [], None, Some};
ghost use Rattle.reopen_cross.specs.Cross.{cross_of};
ghost use Rattle.reopen_cross.specs.Parts.{parts_of};
ghost use Rattle.reopen_cross.specs.Worked.{at_ten_one, bought, buy, even, hidden, sell, sold, three_sells, two_buys};

/// Two orders to buy and three to sell cross at 10.01 dollars, where 250 shares trade: the second order to buy
/// trades in part, and the third to sell not at all. Two orders to buy alone don't cross.
pub fn reopening()
    ensures cross { cross_of (two_buys ++ three_sells) ≡ Some at_ten_one }
    ensures parts { parts_of (two_buys ++ three_sells) at_ten_one ≡ bought 1 100 ∷ bought 2 150 ∷ sold 3 150 ∷ sold 4 100 ∷ [] }
    ensures alone { cross_of two_buys ≡ None }
{}

/// Of prices that execute as much the one with the least surplus is chosen, and of those the lowest. At one price
/// what is displayed trades first, and then what comes first in the list.
pub fn priorities()
    ensures balanced { cross_of (buy 1 100200 100 ∷ buy 2 100000 50 ∷ sell 3 100000 100 ∷ []) ≡ Some (even 100200 100) }
    ensures lowest { cross_of (buy 1 100200 100 ∷ sell 2 100000 100 ∷ []) ≡ Some (even 100000 100) }
    ensures earlier { parts_of (sell 1 100000 60 ∷ sell 2 100000 60 ∷ buy 3 100000 100 ∷ []) (even 100000 100) ≡ bought 3 100 ∷ sold 1 60 ∷ sold 2 40 ∷ [] }
    ensures shown { parts_of (hidden (sell 1 100000 60) ∷ sell 2 100000 60 ∷ buy 3 100000 100 ∷ []) (even 100000 100) ≡ bought 3 100 ∷ sold 2 60 ∷ sold 1 40 ∷ [] }
{}
