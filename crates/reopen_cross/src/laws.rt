//! What a crossing price shows.

ghost use Rattle.std.specs.Prelude.{◌≡◌, ◌≤◌, ◌<◌, ◌++◌, ◌∷◌, [], ℕ, List, All, None, Some, length};
ghost use Rattle.market_types.specs.Limits.{highest_price};
ghost use Rattle.reopen_cross.specs.declared.cross.Interest.{Interest};
ghost use Rattle.reopen_cross.specs.declared.cross.Cross.{Cross};
ghost use Rattle.reopen_cross.specs.Cross.{buys, sells, cross_of, executed};
ghost use Rattle.reopen_cross.specs.Orderly.{AreInterests};
ghost use Rattle.reopen_cross.specs.Clearing.{IsClearing};

/// As a price rises, no more shares are to be bought there, and no fewer are to be sold.
pub fn sides_cross_once()
    ensures buys { (list : List Interest) (p q : ℕ) → p ≤ q → buys list q ≤ buys list p }
    ensures sells { (list : List Interest) (p q : ℕ) → p ≤ q → sells list p ≤ sells list q }
{}

/// No price executes more shares than the one that is chosen, and the certificate shows it.
pub fn crosses_clear()
    ensures { (list : List Interest) (c : Cross) → AreInterests list → cross_of list ≡ Some c → IsClearing list c }
{}

/// There is no cross exactly where no shares would trade at any price.
pub fn none_trades_where_none_crosses()
    ensures nothing { (list : List Interest) (p : ℕ) → cross_of list ≡ None → executed list p ≡ 0 }
    ensures something { (list : List Interest) (c : Cross) → cross_of list ≡ Some c → 1 ≤ executed list c.price }
{}

/// Lists of interest begin with none, and an order joins one under a reference above all before.
pub fn an_order_joins()
    ensures none { AreInterests [] }
    ensures one { (list : List Interest) (o : Interest) → AreInterests list → length list < 32768 →
        All (λ (x : Interest). x.reference < o.reference) list →
        1 ≤ o.left → o.left ≤ 999999 → 1 ≤ o.price → o.price ≤ highest_price →
        AreInterests (list ++ o ∷ []) }
{}
