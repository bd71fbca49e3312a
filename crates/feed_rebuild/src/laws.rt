//! Laws of the definitions for a caller of the audit.

ghost use Rattle.std.specs.Prelude.{◌≡◌, ◌≤◌, ◌++◌, ◌∷◌, [], ℕ, List, None, Some, Ok, Err, All, Contains};
ghost use Rattle.market_types.specs.declared.feed.Feed.{Feed};
ghost use Rattle.feed_rebuild.specs.declared.shown.Shown.{Shown};
ghost use Rattle.feed_rebuild.specs.Compared.{by_stock, difference, least, odd_of};
ghost use Rattle.feed_rebuild.specs.Fold.{fold, fresh, told_what, Told};
ghost use Rattle.feed_rebuild.specs.Misfits.{IsMisfitIn};

/// A feed goes on as long as its messages can be applied, one after another. It is a misfit exactly where one
/// can't, which the first such message tells, whatever follows.
pub fn the_first_misfit_ends()
    ensures goes_on { (stocks : ℕ) → (before : List Feed) → (m : Feed) → (t : Told) → (u : Told) → fold stocks before ≡ Ok t → told_what t m.locate m.what ≡ Ok u → fold stocks (before ++ m ∷ []) ≡ Ok u }
    ensures ends { (stocks : ℕ) → (before : List Feed) → (m : Feed) → (after : List Feed) → (t : Told) → (n : ℕ) → fold stocks before ≡ Ok t → told_what t m.locate m.what ≡ Err n → fold stocks (before ++ m ∷ after) ≡ Err n }
    ensures first { (stocks : ℕ) → (feed : List Feed) → (n : ℕ) → fold stocks feed ≡ Err n → IsMisfitIn (fresh stocks) feed n }
{}

/// Nothing tells books from a closing exactly where the orders by stock are its orders, each in every field, and
/// the states are its states.
pub fn no_difference_says_equal()
    ensures orders { (n : ℕ) → (os : List Shown) → (states : List ℕ) → (live : List Shown) → (told : List ℕ) → difference n os states live told ≡ None → by_stock n os ≡ live }
    ensures states { (n : ℕ) → (os : List Shown) → (states : List ℕ) → (live : List Shown) → (told : List ℕ) → difference n os states live told ≡ None → states ≡ told }
    ensures none { (n : ℕ) → (os : List Shown) → (states : List ℕ) → difference n os states (by_stock n os) states ≡ None }
{}

/// The least of some numbers is one of them, and none is below it.
pub fn the_least_is_below_all()
    ensures one { (ns : List ℕ) → (n : ℕ) → least ns ≡ Some n → Contains ns n }
    ensures below { (ns : List ℕ) → (n : ℕ) → least ns ≡ Some n → All (λ m. n ≤ m) ns }
    ensures none { (ns : List ℕ) → least ns ≡ None → ns ≡ [] }
{}
