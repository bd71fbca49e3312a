//! Laws of whole runs: how large the numbers of an exchange's orders and of its feed become, and what the feed
//! tells of its matches.

ghost use Rattle.std.specs.Prelude.{◌≡◌, ◌<◌, ◌≤◌, ℕ, ℤ, Bool, List, All, length};
ghost use Rattle.std.specs.List.{AllByRecursion};
ghost use Rattle.exchange_agent.specs.declared.told.StockRules.{StockRules};
ghost use Rattle.exchange_agent.specs.Open.{IsOpening, opened};
ghost use Rattle.exchange_agent.specs.Runs.{Act, IsPossible, run};
ghost use Rattle.exchange_agent.specs.State.{State, stock_at};
ghost use Rattle.market_laws.specs.Executed.{executed_in};
ghost use Rattle.market_laws.specs.Feeds.{feed_over};
ghost use Rattle.market_laws.specs.Messages.{messages_in};
ghost use Rattle.market_laws.specs.Small.{IsSmallExchange, IsSmallFeed, IsSmallStock, most_resting};

use price_time_book::keeping::{
    a_match_keeps, a_reduce_keeps, changes_keep, fills_add_up, orderly_books_stay,
};
use price_time_book::laws::next_is_best;

/// From an opening on, whatever messages and changes come: each order that rests has a reference from 1 to the
/// number of accepted orders, which are no more than the messages, an agent that is a trader, a price from 1 to
/// 1,999,999,900, an intended size of at most 999,999 shares, and open shares from 1 to that; the references of
/// each book rise; each stock trades or is halted, its last price is at most the highest, and at most 999,999 shares
/// of it matched for each accepted order; at most 16,384 orders rest; and the matches and these orders are together
/// at most the accepted ones. Each message of the feed has the locate of a stock, and its reference, shares and price
/// are in the same ranges, as is the number of a match; no trading action has another state than `T` or `H`.
pub fn live_orders_are_small()
    ensures orders { (rules : List StockRules) (cash : List ℤ) (hidden : Bool) (acts : List Act) →
        IsOpening rules cash →
        AllByRecursion (IsPossible (length cash) (length rules)) acts →
        IsSmallExchange (length cash) (messages_in acts) (run (opened rules cash hidden) acts) }
    ensures feed { (rules : List StockRules) (cash : List ℤ) (hidden : Bool) (acts : List Act) →
        IsOpening rules cash →
        AllByRecursion (IsPossible (length cash) (length rules)) acts →
        let last = run (opened rules cash hidden) acts in
        All (IsSmallFeed (length rules) last.counts.orders last.counts.matches) (feed_over (opened rules cash hidden) acts) }
{
    a_match_keeps();
    a_reduce_keeps();
    changes_keep();
    fills_add_up();
    orderly_books_stay();
    next_is_best();
}

/// What holds of all stocks of such an exchange holds of each: its book, which has at most 16,384 orders.
pub fn small_exchanges_have_small_books()
    ensures stock { (traders messages : ℕ) (s : State) (k : ℕ) →
        IsSmallExchange traders messages s → k < length s.stocks →
        IsSmallStock traders s.counts.orders (stock_at s k) }
    ensures few { (traders messages : ℕ) (s : State) (k : ℕ) →
        IsSmallExchange traders messages s → k < length s.stocks →
        length (stock_at s k).book ≤ most_resting }
{}

/// A stock's matched shares are those that the feed tells as executed under its locate, by Order Executed and,
/// where the order that rested is hidden, by Trade.
pub fn matches_are_told()
    ensures { (rules : List StockRules) (cash : List ℤ) (hidden : Bool) (acts : List Act) →
        IsOpening rules cash →
        AllByRecursion (IsPossible (length cash) (length rules)) acts →
        (k : ℕ) → (stock_at (run (opened rules cash hidden) acts) k).tally.matched ≡
        executed_in k (feed_over (opened rules cash hidden) acts) }
{
    a_match_keeps();
    a_reduce_keeps();
    changes_keep();
    fills_add_up();
    orderly_books_stay();
    next_is_best();
}
