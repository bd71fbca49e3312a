//! What the definitions give on a worked run.

ghost use Rattle.std.specs.Prelude.{◌≡◌, ◌∷◌, [], map, codes};
ghost use Rattle.market_types.specs.declared.feed.What.TheVariants as what;
ghost use Rattle.feed_rebuild.specs.Feeds.{entries_feed};
ghost use Rattle.market_laws.specs.Messages.{messages_in};
ghost use Rattle.market_laws.specs.History.{IsMetAs};
ghost use Rattle.market_laws.specs.Worked.{quiet_market, sell_and_halt, sold_and_halted};

use market_types::Side;

/// A run of one event and an edit behind it is met as the order's message and the halt. Its feed tells the order and the halt.
pub fn a_sell_and_a_halt()
    ensures met { IsMetAs quiet_market sold_and_halted sell_and_halt }
    ensures messages { messages_in sell_and_halt ≡ 1 }
    ensures feed { map (λ f. f.what) (entries_feed sold_and_halted.entries) ≡
        what.Add 1 Side.Sell 100 (record { 0 = codes "ABM     " }) 100100
        ∷ what.Trading (record { 0 = codes "ABM     " }) 72 32 (32 ∷ 32 ∷ 32 ∷ 32 ∷ []) ∷ [] }
{}
