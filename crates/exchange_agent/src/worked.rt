//! What the definitions give on worked examples.

ghost use Rattle.std.specs.Prelude.{◌≡◌, ◌∷◌, [], pos, negsuc, map, slice_get, Some, false, codes};
ghost use Rattle.market_types.specs.declared.feed.What.TheVariants as what;
ghost use Rattle.market_types.specs.declared.message.Body.TheVariants as body;
ghost use Rattle.market_types.specs.declared.reply.Reply.TheVariants as reply;
ghost use Rattle.exchange_agent.specs.Worked.{sweep, three_sells, bought_in_part, bought_of_both, canceling, entering, token, fill_told, hidden_order, hidden_sell, opening, order, shown_sell};
ghost use Rattle.exchange_agent.specs.Market.{market};
ghost use Rattle.exchange_agent.specs.State.{stock_at};

use market_types::Side;

/// Three sells are swept by an order to buy 700: replies, feed, fees and settled cash.
pub fn sweep_of_three_sells()
    ensures cash { sweep.state.cash ≡ negsuc 6001017999 ∷ pos 3001006000 ∷ pos 3000006000 ∷ [] }
    ensures fee { sweep.fee ≡ pos 6000 }
    ensures feed { map (λ f. f.what) sweep.feed ≡ what.Executed 2 200 1 ∷ what.Executed 3 300 2 ∷ what.Executed 1 100 3 ∷ what.Add 4 Side.Buy 100 (record { 0 = codes "ABM     " }) 100100 ∷ [] }
    ensures receivers { map (λ r. r.to) sweep.replies ≡ 1 ∷ 2 ∷ 1 ∷ 3 ∷ 1 ∷ 2 ∷ 1 ∷ [] }
    ensures resting_side { slice_get sweep.replies 1 ≡ Some (record { to = 2; body = fill_told 66 200 100000 65 1 }) }
    ensures incoming_side { slice_get sweep.replies 2 ≡ Some (record { to = 1; body = fill_told 68 200 100000 82 1 }) }
    ensures last { slice_get sweep.replies 5 ≡ Some (record { to = 2; body = fill_told 65 100 100100 65 3 }) }
    ensures counts { sweep.state.counts ≡ record { orders = 4; matches = 3; enters = 0; cancels = 0 } }
{}

/// An order of 500 shares, of which 200 were executed: its Cancels count from the intended size.
pub fn cancels_after_executions()
    ensures below_executed { map (λ r. r.body) (canceling bought_in_part 2 65 150).replies ≡ body.Answer (reply.Canceled 3000 (token 65) 300 85) ∷ [] }
    ensures deleted { map (λ f. f.what) (canceling bought_in_part 2 65 150).feed ≡ what.Delete 1 ∷ [] }
    ensures lowered { map (λ r. r.body) (canceling bought_in_part 2 65 350).replies ≡ body.Answer (reply.Canceled 3000 (token 65) 150 85) ∷ [] }
    ensures told { map (λ f. f.what) (canceling bought_in_part 2 65 350).feed ≡ what.Cancel 1 150 ∷ [] }
    ensures not_below { (canceling bought_in_part 2 65 500).state.counts.cancels ≡ 1 }
    ensures no_reply { (canceling bought_in_part 2 65 500).replies ≡ [] }
    ensures not_its_own { (canceling bought_in_part 1 65 0).state.counts.cancels ≡ 1 }
{}

/// An immediate order that meets nothing is accepted and canceled; a token that is remembered is ignored; a price
/// off its tick, a size of a million and a symbol that is no stock are rejected.
pub fn refusals()
    ensures immediate { map (λ r. r.body) (entering opening 1 (record (order 65 Side.Buy 100 100000) { tif = 0 })).replies ≡ body.Answer (reply.Accepted 3000 (token 65) Side.Buy 100 (record { 0 = codes "ABM     " }) 100000 0 (codes "ABID") 89 1 80 78 0 78 76 32) ∷ body.Answer (reply.Canceled 3000 (token 65) 100 73) ∷ [] }
    ensures no_feed { (entering opening 1 (record (order 65 Side.Buy 100 100000) { tif = 0 })).feed ≡ [] }
    ensures again { (entering three_sells 2 (order 65 Side.Buy 1 1)).replies ≡ [] }
    ensures counted { (entering three_sells 2 (order 65 Side.Buy 1 1)).state.counts.enters ≡ 1 }
    ensures of_another { map (λ r. r.to) (entering three_sells 1 (order 65 Side.Buy 1 1)).replies ≡ 1 ∷ [] }
    ensures off_tick { map (λ r. r.body) (entering three_sells 1 (order 65 Side.Buy 1 1)).replies ≡ body.Answer (reply.Rejected 3000 (token 65) 88) ∷ [] }
    ensures too_large { map (λ r. r.body) (entering opening 1 (order 65 Side.Buy 1000000 100)).replies ≡ body.Answer (reply.Rejected 3000 (token 65) 79) ∷ [] }
    ensures no_stock { map (λ r. r.body) (entering opening 1 (record (order 65 Side.Buy 1 100) { stock = record { 0 = codes "XYZ     " } })).replies ≡ body.Answer (reply.Rejected 3000 (token 65) 83) ∷ [] }
{}

/// A hidden order isn't told when it rests; the shown one at its price trades first, and of the hidden one's match the feed
/// gives neither reference nor side. What stays of it is in no quote, and a Cancel of it isn't told.
pub fn hidden_orders()
    ensures accepted { map (λ r. r.body) hidden_sell.replies ≡ body.Answer (reply.Accepted 3000 (token 65) Side.Sell 100 (record { 0 = codes "ABM     " }) 100000 99999 (codes "ABID") 78 1 80 78 0 78 76 32) ∷ [] }
    ensures no_feed { hidden_sell.feed ≡ [] }
    ensures shown { map (λ f. f.what) shown_sell.feed ≡ what.Add 2 Side.Sell 100 (record { 0 = codes "ABM     " }) 100000 ∷ [] }
    ensures feed { map (λ f. f.what) bought_of_both.feed ≡ what.Executed 2 100 1 ∷ what.Trade 0 Side.Buy 50 (record { 0 = codes "ABM     " }) 100000 2 ∷ [] }
    ensures reference { map (λ o. o.reference) (stock_at bought_of_both.state 0).book ≡ 1 ∷ [] }
    ensures intended { map (λ o. o.intended) (stock_at bought_of_both.state 0).book ≡ 100 ∷ [] }
    ensures left { map (λ o. o.left) (stock_at bought_of_both.state 0).book ≡ 50 ∷ [] }
    ensures rests_hidden { map (λ o. o.shown) (stock_at bought_of_both.state 0).book ≡ false ∷ [] }
    ensures quote { map (λ r. r.body) (market bought_of_both.state 3000 1 (body.Ask 0)).replies ≡ body.Quote (record { stock = 0; state = 84; bid = 0; bid_shares = 0; ask = 0; ask_shares = 0; last = 100000 }) ∷ [] }
    ensures lowered { map (λ r. r.body) (canceling bought_of_both.state 2 65 60).replies ≡ body.Answer (reply.Canceled 3000 (token 65) 40 85) ∷ [] }
    ensures not_told { (canceling bought_of_both.state 2 65 60).feed ≡ [] }
    ensures refused { map (λ r. r.body) (entering opening 2 hidden_order).replies ≡ body.Answer (reply.Rejected 3000 (token 65) 79) ∷ [] }
{}
