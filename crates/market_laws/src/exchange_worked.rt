//! What the definitions give on worked examples.

ghost use Rattle.std.specs.Prelude.{◌≡◌};
ghost use Rattle.exchange_agent.specs.State.{resting_over, stock_at};
ghost use Rattle.exchange_agent.specs.Worked.{bought_of_both, sweep};
ghost use Rattle.market_laws.specs.Executed.{executed_in};
ghost use Rattle.market_laws.specs.Messages.{messages_in};
ghost use Rattle.market_laws.specs.ExchangeWorked.{no_match, three_matches, two_messages};

/// The shares that match are told for each stock, of displayed and of hidden orders, and by no other message.
pub fn matches_of_two_stocks()
    ensures first { executed_in 0 three_matches ≡ 150 }
    ensures second { executed_in 1 three_matches ≡ 7 }
    ensures no_stock { executed_in 2 three_matches ≡ 0 }
    ensures none { executed_in 0 no_match ≡ 0 }
{}

/// The exchange tells what it counts: 600 shares of a sweep, and 150 of which 50 are a hidden order's.
pub fn matches_of_an_exchange()
    ensures told { executed_in 0 sweep.feed ≡ 600 }
    ensures counted { (stock_at sweep.state 0).tally.matched ≡ 600 }
    ensures hidden_told { executed_in 0 bought_of_both.feed ≡ 150 }
    ensures hidden_counted { (stock_at bought_of_both.state 0).tally.matched ≡ 150 }
{}

/// Four orders, three matches and one order that rests: each match ended an order.
pub fn orders_that_ended()
    ensures orders { sweep.state.counts.orders ≡ 4 }
    ensures matches { sweep.state.counts.matches ≡ 3 }
    ensures resting { resting_over sweep.state.stocks ≡ 1 }
{}

/// A change of rules is no message.
pub fn messages_without_changes()
    ensures { messages_in two_messages ≡ 2 }
{}
