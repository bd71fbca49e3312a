//! What the orders of a reopening are, and what its price shows.

ghost use Rattle.std.specs.Prelude.{◌<◌, ℕ, List, length};
ghost use Rattle.exchange_agent.specs.State.{State as Exchange, stock_at};
ghost use Rattle.kernel_core.specs.State.{State};
ghost use Rattle.reopen_cross.specs.declared.cross.Interest.{Interest};
ghost use Rattle.reopen_cross.specs.Orderly.{AreInterests};
ghost use Rattle.reopening_desk.specs.Filed.{AreFiled};
ghost use Rattle.market_laws.specs.Small.{IsSmallExchange};
ghost use Rattle.reopening_desk.specs.Books.{AreResting};
ghost use Rattle.reopening_desk.specs.Reopened.{Clears, interests_of};

use crate::file_laws::a_file_joins_a_book;
use market_laws::small::small_exchanges_have_small_books;
use reopen_cross::laws::{crosses_clear, none_trades_where_none_crosses};

/// The live orders of each stock are in the ranges of interest, where the exchange's numbers are small, as those of every
/// state of a study are.
pub fn live_orders_are_in_range()
    ensures { (traders messages : ℕ) (s : Exchange) (k : ℕ) → IsSmallExchange traders messages s → k < length s.stocks →
        AreResting s.counts.orders (stock_at s k).book }
{
    small_exchanges_have_small_books();
}

/// A stock's live orders and those of a file behind them are interest, whose price clears.
pub fn reopenings_clear()
    ensures interests { (traders messages : ℕ) (s : State) (k : ℕ) (filed : List Interest) →
        IsSmallExchange traders messages s.floor.exchange → k < length s.floor.exchange.stocks → AreFiled filed →
        AreInterests (interests_of s k filed) }
    ensures clears { (traders messages : ℕ) (s : State) (k : ℕ) (filed : List Interest) →
        IsSmallExchange traders messages s.floor.exchange → k < length s.floor.exchange.stocks → AreFiled filed →
        Clears (interests_of s k filed) }
{
    live_orders_are_in_range();
    a_file_joins_a_book();
    crosses_clear();
    none_trades_where_none_crosses();
}
