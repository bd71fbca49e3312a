//! Laws of whole runs: for every list of messages and changes.

ghost use Rattle.std.specs.Prelude.{◌≡◌, ◌≤◌, ◌+◌, ◌*◌, ℕ, ℤ, Bool, List, All, length};
ghost use Rattle.std.specs.List.{AllByRecursion};
ghost use Rattle.exchange_agent.specs.declared.told.StockRules.{StockRules};
ghost use Rattle.market_types.specs.declared.message.Body.{Body};
ghost use Rattle.market_rules.specs.declared.changes.Change.{Change};
ghost use Rattle.exchange_agent.specs.Changes.{changed_by};
ghost use Rattle.exchange_agent.specs.Market.{IsAskable, market};
ghost use Rattle.exchange_agent.specs.Open.{IsOpening};
ghost use Rattle.exchange_agent.specs.Runs.{Act, IsConserved, IsPossible};
ghost use Rattle.exchange_agent.specs.State.{State, Stock};

use price_time_book::keeping::{
    a_match_keeps, a_reduce_keeps, changes_keep, fills_add_up, orderly_books_stay,
};
use price_time_book::laws::{matching_ends, next_is_best};

/// From an opening on, whatever messages and changes come: the settled cash of all traders and all fees are
/// together the opening cash; the positions of each stock sum to zero; each stock's matched shares are those
/// executed with flag `R` by orders for it; what was accepted is open, executed or canceled; and no two live
/// orders of a stock cross.
pub fn runs_are_conserved()
    ensures { (rules : List StockRules) (cash : List ℤ) (hidden : Bool) (acts : List Act) →
        IsOpening rules cash →
        AllByRecursion (IsPossible (length cash) (length rules)) acts →
        IsConserved rules cash hidden acts }
{
    a_match_keeps();
    a_reduce_keeps();
    fills_add_up();
    orderly_books_stay();
    matching_ends();
    next_is_best();
}

/// Where no book has more than so many orders, a message makes none longer by more than one and gives at most two
/// replies for each order of a book and two more; a change of rules makes no book longer.
pub fn books_stay_short()
    ensures books { (s : State) (time agent n : ℕ) (b : Body) →
        All (λ (k : Stock). length k.book ≤ n) s.stocks →
        All (λ (k : Stock). length k.book ≤ n + 1) (market s time agent b).state.stocks }
    ensures replies { (s : State) (time agent n : ℕ) (b : Body) →
        All (λ (k : Stock). length k.book ≤ n) s.stocks →
        length (market s time agent b).replies ≤ 2 * n + 2 }
    ensures changes { (s : State) (time stock n : ℕ) (c : Change) →
        All (λ (k : Stock). length k.book ≤ n) s.stocks →
        All (λ (k : Stock). length k.book ≤ n) (changed_by s time stock c).state.stocks }
{
    fills_add_up();
    a_match_keeps();
    changes_keep();
}

/// Whether hidden orders are taken is said at the opening: no message and no change of rules alters it.
pub fn hidden_orders_stay_taken()
    ensures messages { (s : State) (time agent : ℕ) (b : Body) → (market s time agent b).state.hidden ≡ s.hidden }
    ensures changes { (s : State) (time stock : ℕ) (c : Change) → (changed_by s time stock c).state.hidden ≡ s.hidden }
{}

/// No reply to a message is a question, whatever the number of stocks.
pub fn replies_ask_nothing()
    ensures { (s : State) (time agent stocks : ℕ) (b : Body) →
        All (λ r. IsAskable stocks r.body) (market s time agent b).replies }
{}
