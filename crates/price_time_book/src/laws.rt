//! Laws of matching: for every book, whatever its orders.

ghost use Rattle.std.specs.Prelude.{◌≡◌, ◌≢◌, ◌≤◌, ℕ, Bool, List, All, Contains, Some, None, filter, true, false};
ghost use Rattle.std.specs.List.{AllPass};
ghost use Rattle.market_types.specs.declared.order.Side.{Side};
ghost use Rattle.price_time_book.specs.declared.resting.Best.{Best};
ghost use Rattle.price_time_book.specs.declared.resting.Resting.{Resting};
ghost use Rattle.price_time_book.specs.Matched.{Matching, IsEnded, completed, fill_of, with_fill};
ghost use Rattle.price_time_book.specs.Next.{best_at, crosses, is_shown_on, next_of};
ghost use Rattle.price_time_book.specs.Orderly.{IsOrderly};
ghost use Rattle.price_time_book.specs.Priced.{best_priced, first_priced};
ghost use Rattle.price_time_book.specs.Sides.{is_better, opposite_of};

/// An incoming order is matched until it wants no more shares or nothing crosses. So long as it wants
/// some and an order crosses, it goes on with the next order; then it stays as it is.
pub fn matching_ends()
    ensures ends { (side : Side) (limit : ℕ) (m : Matching) → IsEnded side limit (completed side limit m) }
    ensures goes_on { (side : Side) (limit : ℕ) (m : Matching) (o : Resting) →
        next_of m.book side limit ≡ Some o → m.shares ≢ 0 →
        completed side limit m ≡ completed side limit (with_fill (fill_of m.shares o) m) }
    ensures stays { (side : Side) (limit : ℕ) (m : Matching) → IsEnded side limit m → completed side limit m ≡ m }
{}

/// The next order is one of the book that crosses, and no order that crosses has a better price. At its
/// price no shown order crosses unless it is shown itself, and of those that are shown or hidden as it is none
/// arrived earlier. Where there is no next one none crosses.
pub fn next_is_best()
    ensures held { (book : List Resting) (side : Side) (limit : ℕ) (o : Resting) →
        next_of book side limit ≡ Some o → Contains book o }
    ensures tested { (p : Resting → Bool) (book : List Resting) (side : Side) (limit : ℕ) (o : Resting) →
        next_of book side limit ≡ Some o → AllPass p book → p o ≡ true }
    ensures crosses { (book : List Resting) (side : Side) (limit : ℕ) (o : Resting) →
        next_of book side limit ≡ Some o → crosses side limit o ≡ true }
    ensures best { (book : List Resting) (side : Side) (limit : ℕ) (o : Resting) →
        next_of book side limit ≡ Some o →
        All (λ x. crosses side limit x ≡ true → is_better (opposite_of side) x.price o.price ≡ false) book }
    ensures shown_first { (book : List Resting) (side : Side) (limit : ℕ) (o : Resting) →
        next_of book side limit ≡ Some o →
        All (λ x. crosses side limit x ≡ true → x.price ≡ o.price → x.shown ≡ true → o.shown ≡ true) book }
    ensures earliest { (book : List Resting) (side : Side) (limit : ℕ) (o : Resting) → IsOrderly book →
        next_of book side limit ≡ Some o →
        All (λ x. crosses side limit x ≡ true → x.price ≡ o.price → x.shown ≡ o.shown → o.reference ≤ x.reference) book }
    ensures none { (book : List Resting) (side : Side) (limit : ℕ) →
        next_of book side limit ≡ None → All (λ x. crosses side limit x ≡ false) book }
{}

/// The best price is one that no shown order of the side betters, and there is one exactly where an order
/// of the side is shown.
pub fn best_is_shown()
    ensures best { (book : List Resting) (side : Side) (b : Best) →
        best_at side book ≡ Some b →
        All (λ o. is_shown_on side o ≡ true → is_better side o.price b.price ≡ false) book }
    ensures none { (book : List Resting) (side : Side) →
        best_at side book ≡ None → All (λ o. is_shown_on side o ≡ false) book }
    ensures hidden { (book : List Resting) (side : Side) →
        All (λ o. is_shown_on side o ≡ false) book → best_at side book ≡ None }
{}

/// In a book of which each order is shown price and time alone decide: the next order is that with the best
/// price, and of those with one price the earliest, and the best price is that of all orders of the side.
pub fn shown_books_go_by_price()
    ensures next { (book : List Resting) (side : Side) (limit : ℕ) → AllPass (λ o. o.shown) book →
        next_of book side limit ≡ first_priced (opposite_of side) (filter (crosses side limit) book) }
    ensures best { (book : List Resting) (side : Side) → AllPass (λ o. o.shown) book →
        best_at side book ≡ best_priced side book }
{}
