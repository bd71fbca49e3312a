//! What the definitions give for known traders and quotes.

ghost use Rattle.std.specs.Prelude.{◌≡◌, ◌∷◌, [], codes, take};
ghost use Rattle.agent_shell.specs.Decide.{quoted, woken};
ghost use Rattle.agent_shell.specs.Wakeup.{cancel_of};
ghost use Rattle.agent_shell.specs.Worked.{entered, opened, quote, ten_dollars, token};

use agent_shell::{Kind, Sending};
use market_types::{Body, Side};

/// A maker of two levels, 150 off its centre and 100 apart, quotes round the value of 100,000 where the market is
/// empty, round the last price where there is one, and round the middle where both sides are there. The second level
/// leaves 7 nanoseconds after the first. When it wakes it takes its orders back, the first sent first.
pub fn maker()
    ensures value { (quoted ten_dollars (opened 1 (Kind.Maker 10 150 100 2 7)) (quote 84 0 0 0)).sends ≡ entered (codes "T0001000000001") Side.Buy 10 99800 99999 0 ∷ entered (codes "T0001000000002") Side.Sell 10 100200 99999 0 ∷ entered (codes "T0001000000003") Side.Buy 10 99700 99999 7 ∷ entered (codes "T0001000000004") Side.Sell 10 100300 99999 7 ∷ [] }
    ensures last { (quoted ten_dollars (opened 1 (Kind.Maker 10 150 100 1 7)) (quote 84 99900 0 50000)).sends ≡ entered (codes "T0001000000001") Side.Buy 10 49800 99999 0 ∷ entered (codes "T0001000000002") Side.Sell 10 50200 99999 0 ∷ [] }
    ensures middle { (quoted ten_dollars (opened 1 (Kind.Maker 10 150 100 1 7)) (quote 84 99900 100500 50000)).sends ≡ entered (codes "T0001000000001") Side.Buy 10 100000 99999 0 ∷ entered (codes "T0001000000002") Side.Sell 10 100400 99999 0 ∷ [] }
    ensures below_zero { (quoted ten_dollars (opened 1 (Kind.Maker 10 150 100 1 7)) (quote 84 0 0 100)).sends ≡ entered (codes "T0001000000001") Side.Sell 10 300 99999 0 ∷ [] }
    ensures takes_back { take 3 (woken ten_dollars (quoted ten_dollars (opened 1 (Kind.Maker 10 150 100 1 7)) (quote 84 0 0 0)).trader).sends ≡ cancel_of (token (codes "T0001000000001")) ∷ cancel_of (token (codes "T0001000000002")) ∷ Sending.To (Body.Ask 0) 0 ∷ [] }
{}

/// Momentum of the last one against the last two middles: after 100,000 and 100,200 it buys at the ask, at once or not
/// at all. Where a side is absent its history stays.
pub fn momentum()
    ensures first { (quoted ten_dollars (opened 1 (Kind.Momentum 10 1 2)) (quote 84 99900 100100 0)).sends ≡ [] }
    ensures buys { (quoted ten_dollars (quoted ten_dollars (opened 1 (Kind.Momentum 10 1 2)) (quote 84 99900 100100 0)).trader (quote 84 100100 100300 0)).sends ≡ entered (codes "T0001000000001") Side.Buy 10 100300 0 0 ∷ [] }
    ensures sells { (quoted ten_dollars (quoted ten_dollars (opened 1 (Kind.Momentum 10 1 2)) (quote 84 99900 100100 0)).trader (quote 84 99700 99900 0)).sends ≡ entered (codes "T0001000000001") Side.Sell 10 99700 0 0 ∷ [] }
    ensures equal { (quoted ten_dollars (quoted ten_dollars (opened 1 (Kind.Momentum 10 1 2)) (quote 84 99900 100100 0)).trader (quote 84 99900 100100 0)).sends ≡ [] }
    ensures absent { (quoted ten_dollars (opened 1 (Kind.Momentum 10 1 2)) (quote 84 99900 0 0)).trader.past ≡ [] }
    ensures keeps_two { (quoted ten_dollars (quoted ten_dollars (quoted ten_dollars (opened 1 (Kind.Momentum 10 1 2)) (quote 84 99900 100100 0)).trader (quote 84 100100 100300 0)).trader (quote 84 1 2 0)).trader.past ≡ 100200 ∷ 1 ∷ [] }
{}
