//! Laws of what stays true of a book when orders give shares, are lowered, leave or come to rest: for
//! every book, so that a caller needs no more than the definitions that the calls cite.

ghost use Rattle.std.specs.Prelude.{◌≡◌, ◌≢◌, ◌≤◌, ◌<◌, ◌+◌, ◌-◌, ◌==◌, ◌&&◌, ◌∷◌, ◌++◌, [], ℕ, Bool, List, All, Some, None, min, bytes_eq, length, sum_by, true, false};
ghost use Rattle.std.specs.List.{AllPass};
ghost use Rattle.market_types.specs.declared.order.Side.{Side};
ghost use Rattle.market_types.specs.declared.order.Side.TheVariants.{Buy, Sell};
ghost use Rattle.market_types.specs.declared.order.Token.{Token};
ghost use Rattle.price_time_book.specs.declared.resting.Resting.{Resting};
ghost use Rattle.price_time_book.specs.Kept.{IsKeptByFills, IsKeptByReduce, WasIn};
ghost use Rattle.price_time_book.specs.Matched.{Matching, after_fill, completed, fill_of, matched};
ghost use Rattle.price_time_book.specs.Next.{crosses, crossing_of, next_of};
ghost use Rattle.price_time_book.specs.Orderly.{IsOrderly};
ghost use Rattle.price_time_book.specs.Orders.{changed, order_of, order_with, reduced, without};
ghost use Rattle.price_time_book.specs.Sides.{depth_of, opposite_of};

/// Once the next order gave some shares, references stay below a number, a token that no order of an
/// agent has stays free, what a test says of all orders it says of them still, and each order is one of
/// the book before but for its open shares.
pub fn a_fill_keeps()
    ensures references { (n : ℕ) (side : Side) (limit shares : ℕ) (book : List Resting) (o : Resting) →
        next_of book side limit ≡ Some o →
        All (λ x. x.reference < n) book →
        All (λ x. x.reference < n) (after_fill (fill_of shares o) book) }
    ensures tokens { (agent : ℕ) (token : Token) (side : Side) (limit shares : ℕ) (book : List Resting) (o : Resting) →
        next_of book side limit ≡ Some o →
        order_of agent token book ≡ None →
        order_of agent token (after_fill (fill_of shares o) book) ≡ None }
    ensures tested { (p : Resting → Bool) → IsKeptByFills p →
        (side : Side) (limit shares : ℕ) (book : List Resting) (o : Resting) →
        next_of book side limit ≡ Some o →
        AllPass p book →
        AllPass p (after_fill (fill_of shares o) book) }
    ensures was { (side : Side) (limit shares : ℕ) (book : List Resting) (o : Resting) →
        next_of book side limit ≡ Some o →
        All (WasIn book) (after_fill (fill_of shares o) book) }
{}

/// The same after the whole way of an incoming order. No orders are more.
pub fn a_match_keeps()
    ensures references { (n : ℕ) (side : Side) (limit : ℕ) (m : Matching) →
        All (λ x. x.reference < n) m.book →
        All (λ x. x.reference < n) (completed side limit m).book }
    ensures tokens { (agent : ℕ) (token : Token) (side : Side) (limit : ℕ) (m : Matching) →
        order_of agent token m.book ≡ None →
        order_of agent token (completed side limit m).book ≡ None }
    ensures tested { (p : Resting → Bool) → IsKeptByFills p →
        (side : Side) (limit : ℕ) (m : Matching) →
        AllPass p m.book →
        AllPass p (completed side limit m).book }
    ensures was { (side : Side) (limit : ℕ) (m : Matching) → All (WasIn m.book) (completed side limit m).book }
    ensures length { (side : Side) (limit : ℕ) (m : Matching) → length (completed side limit m).book ≤ length m.book }
{}

/// The same once an order is lowered to so many open shares.
pub fn a_reduce_keeps()
    ensures references { (n reference left : ℕ) (book : List Resting) (o : Resting) →
        order_with reference book ≡ Some o → left ≤ o.left →
        All (λ x. x.reference < n) book →
        All (λ x. x.reference < n) (changed (reduced left o) book) }
    ensures tokens { (agent : ℕ) (token : Token) (reference left : ℕ) (book : List Resting) (o : Resting) →
        order_with reference book ≡ Some o → left ≤ o.left →
        order_of agent token book ≡ None →
        order_of agent token (changed (reduced left o) book) ≡ None }
    ensures tested { (p : Resting → Bool) → IsKeptByReduce p →
        (reference left : ℕ) (book : List Resting) (o : Resting) →
        order_with reference book ≡ Some o → left ≤ o.left →
        AllPass p book →
        AllPass p (changed (reduced left o) book) }
    ensures was { (reference left : ℕ) (book : List Resting) (o : Resting) →
        order_with reference book ≡ Some o → left ≤ o.left →
        All (WasIn book) (changed (reduced left o) book) }
{}

/// A change of an order makes no orders more, keeps references below a number, and all other orders
/// stay; a test that the changed order passes and all others passed, all pass. A token that no order of
/// an agent has is one that each order lacks, and stays free where an order with another comes to rest.
/// The orders are those of the two sides.
pub fn changes_keep()
    ensures length { (o : Resting) (book : List Resting) → length (changed o book) ≤ length book }
    ensures references { (n : ℕ) (o : Resting) (book : List Resting) →
        All (λ x. x.reference < n) book →
        All (λ x. x.reference < n) (changed o book) }
    ensures tested { (p : Resting → Bool) (o : Resting) (book : List Resting) →
        p o ≡ true → AllPass p book → AllPass p (changed o book) }
    ensures others { (o : Resting) (book : List Resting) → without o.reference (changed o book) ≡ without o.reference book }
    ensures free { (agent : ℕ) (token : Token) (book : List Resting) →
        order_of agent token book ≡ None →
        All (λ o. ((o.agent == agent) && bytes_eq o.token.0 token.0) ≡ false) book }
    ensures lacks { (agent : ℕ) (token : Token) (book : List Resting) →
        All (λ o. ((o.agent == agent) && bytes_eq o.token.0 token.0) ≡ false) book →
        order_of agent token book ≡ None }
    ensures rested { (agent : ℕ) (token : Token) (book : List Resting) (o : Resting) →
        ((o.agent == agent) && bytes_eq o.token.0 token.0) ≡ false →
        order_of agent token book ≡ None →
        order_of agent token (book ++ o ∷ []) ≡ None }
    ensures sides { (book : List Resting) → depth_of Buy book + depth_of Sell book ≡ length book }
{}

/// The fills of an incoming order are no more than the orders that cross it, which are some of the other
/// side. Each is of an order that crosses and gives no more shares than that order has or than are
/// wanted. Their shares and those that are still wanted are the shares wanted at first.
pub fn fills_add_up()
    ensures crossing { (side : Side) (limit : ℕ) (m : Matching) →
        length (completed side limit m).fills ≤ length m.fills + crossing_of side limit m.book }
    ensures few { (side : Side) (limit : ℕ) (m : Matching) →
        length (completed side limit m).fills ≤ length m.fills + depth_of (opposite_of side) m.book }
    ensures few_cross { (side : Side) (limit : ℕ) (book : List Resting) →
        crossing_of side limit book ≤ depth_of (opposite_of side) book }
    ensures grow { (side : Side) (limit : ℕ) (m : Matching) → length m.fills ≤ length (completed side limit m).fills }
    ensures shares { (side : Side) (limit : ℕ) (m : Matching) →
        sum_by (λ f. f.shares) (completed side limit m).fills + (completed side limit m).shares ≡
        sum_by (λ f. f.shares) m.fills + m.shares }
    ensures cross { (book : List Resting) (side : Side) (limit shares : ℕ) →
        All (λ f. crosses side limit f.resting ≡ true) (matched book side limit shares).fills }
    ensures within { (book : List Resting) (side : Side) (limit shares : ℕ) →
        All (λ f. (f.shares ≤ f.resting.left) × (f.shares ≤ shares)) (matched book side limit shares).fills }
    ensures tested { (p : Resting → Bool) → IsKeptByFills p →
        (book : List Resting) (side : Side) (limit shares : ℕ) →
        AllPass p book →
        All (λ f. p f.resting ≡ true) (matched book side limit shares).fills }
    ensures was { (book : List Resting) (side : Side) (limit shares : ℕ) →
        All (λ f. WasIn book f.resting) (matched book side limit shares).fills }
{}

/// The way of an incoming order does not look at the fills before: it is the first fill and then the
/// way from there.
pub fn matching_goes_on()
    ensures continues { (side : Side) (limit : ℕ) (m : Matching) →
        let rest = matched m.book side limit m.shares in
        completed side limit m ≡
        record { fills = m.fills ++ rest.fills; book = rest.book; shares = rest.shares } }
    ensures begins { (book : List Resting) (side : Side) (limit shares : ℕ) (o : Resting) →
        next_of book side limit ≡ Some o → shares ≢ 0 →
        let rest = matched (after_fill (fill_of shares o) book) side limit (shares - min o.left shares) in
        matched book side limit shares ≡
        record { fills = fill_of shares o ∷ rest.fills; book = rest.book; shares = rest.shares } }
{}

/// An orderly book stays so where orders are matched, one is lowered or one comes to rest. What its
/// orders have less of open shares the fills have, each some, so there are no more fills than shares
/// wanted; or it is by what the one order is lowered. An order that an agent sent under a token is the
/// only one with its reference.
pub fn orderly_books_stay()
    ensures orderly { (side : Side) (limit : ℕ) (m : Matching) → IsOrderly m.book → IsOrderly (completed side limit m).book }
    ensures shares { (side : Side) (limit : ℕ) (m : Matching) → IsOrderly m.book →
        sum_by (λ o. o.left) (completed side limit m).book + sum_by (λ f. f.shares) (completed side limit m).fills ≡
        sum_by (λ o. o.left) m.book + sum_by (λ f. f.shares) m.fills }
    ensures give { (book : List Resting) (side : Side) (limit shares : ℕ) → IsOrderly book →
        All (λ f. 0 < f.shares) (matched book side limit shares).fills }
    ensures few { (book : List Resting) (side : Side) (limit shares : ℕ) → IsOrderly book →
        length (matched book side limit shares).fills ≤ shares }
    ensures lowered { (reference left : ℕ) (book : List Resting) (o : Resting) →
        IsOrderly book → order_with reference book ≡ Some o → left < o.left →
        IsOrderly (changed (reduced left o) book) }
    ensures lowered_shares { (reference left : ℕ) (book : List Resting) (o : Resting) →
        IsOrderly book → order_with reference book ≡ Some o → left < o.left →
        sum_by (λ x. x.left) (changed (reduced left o) book) + (o.left - left) ≡ sum_by (λ x. x.left) book }
    ensures rested { (book : List Resting) (o : Resting) → IsOrderly book →
        All (λ x. x.reference < o.reference) book →
        0 < o.left → o.left ≤ o.intended → length book < 4294967296 →
        IsOrderly (book ++ o ∷ []) }
    ensures by_reference { (agent : ℕ) (token : Token) (book : List Resting) (o : Resting) → IsOrderly book →
        order_of agent token book ≡ Some o → order_with o.reference book ≡ Some o }
{}
