//! What the definitions give for known traders and quotes.

ghost use Rattle.std.specs.Prelude.{◌≡◌, ◌∷◌, [], codes};
ghost use Rattle.agent_shell.specs.Decide.{quoted, woken};
ghost use Rattle.agent_shell.specs.Worked.{entered, opened, quote, ten_dollars};

use agent_shell::{Kind, Sending};
use market_types::{Body, Side};

/// The noise trader's sell of 57: its first two words are 0xade0b876, which is tails, and 0x903df1a0, which picks 57
/// of 100. Its fourth and fifth are 0x28bd8653, which is heads, and 0xb819d2bd, which picks 72. Without a bid it sells,
/// and without an ask it buys, at the value. Of a halted stock it counts the quote and makes no draw.
pub fn noise()
    ensures sells { (quoted ten_dollars (opened 0 (Kind.Noise 100)) (quote 84 99900 0 0)).sends ≡ entered (codes "T0000000000001") Side.Sell 57 99900 99999 0 ∷ [] }
    ensures drew { (quoted ten_dollars (opened 0 (Kind.Noise 100)) (quote 84 99900 0 0)).trader.draws ≡ 2 }
    ensures no_bid { (quoted ten_dollars (opened 0 (Kind.Noise 100)) (quote 84 0 0 0)).sends ≡ entered (codes "T0000000000001") Side.Sell 57 100000 99999 0 ∷ [] }
    ensures buys { (quoted ten_dollars (record (opened 0 (Kind.Noise 100)) { draws = 3 }) (quote 84 99900 100300 0)).sends ≡ entered (codes "T0000000000001") Side.Buy 72 100300 99999 0 ∷ [] }
    ensures no_ask { (quoted ten_dollars (record (opened 0 (Kind.Noise 100)) { draws = 3 }) (quote 84 99900 0 0)).sends ≡ entered (codes "T0000000000001") Side.Buy 72 100000 99999 0 ∷ [] }
    ensures halted { (quoted ten_dollars (opened 0 (Kind.Noise 100)) (quote 72 99900 0 0)).sends ≡ [] }
    ensures no_draw { (quoted ten_dollars (opened 0 (Kind.Noise 100)) (quote 72 99900 0 0)).trader.draws ≡ 0 }
    ensures heard { (quoted ten_dollars (opened 0 (Kind.Noise 100)) (quote 72 99900 0 0)).trader.quotes ≡ 1 }
{}

/// A wakeup: 0xade0b876 picks 6 of 0 to 9, so the next one is at 1000 + 500 + 6.
pub fn wakeup()
    ensures sends { (woken ten_dollars (opened 0 Kind.Watcher)).sends ≡ Sending.To (Body.Ask 0) 0 ∷ Sending.WakeAt 1506 ∷ [] }
    ensures drew { (woken ten_dollars (opened 0 Kind.Watcher)).trader.draws ≡ 1 }
{}

/// A trader on value guesses 100,359. An ask exactly the margin below the guess is bought with one draw; one nearer is
/// not. Where no side is far enough off, 0x903df1a0 is tails: it sells the margin above its guess, rounded up to a tick.
/// By its third word 0xe56a5d40 it guesses 100,793, and its fourth is heads: it buys at 100,733, rounded down.
pub fn value()
    ensures buys { (quoted ten_dollars (opened 0 (Kind.Value 10 1000 59)) (quote 84 99000 100300 0)).sends ≡ entered (codes "T0000000000001") Side.Buy 10 100300 99999 0 ∷ [] }
    ensures one_draw { (quoted ten_dollars (opened 0 (Kind.Value 10 1000 59)) (quote 84 99000 100300 0)).trader.draws ≡ 1 }
    ensures sells { (quoted ten_dollars (opened 0 (Kind.Value 10 1000 41)) (quote 84 100400 100500 0)).sends ≡ entered (codes "T0000000000001") Side.Sell 10 100400 99999 0 ∷ [] }
    ensures waits { (quoted ten_dollars (opened 0 (Kind.Value 10 1000 60)) (quote 84 99000 100300 0)).sends ≡ entered (codes "T0000000000001") Side.Sell 10 100500 99999 0 ∷ [] }
    ensures waits_to_buy { (quoted ten_dollars (record (opened 0 (Kind.Value 10 1000 60)) { draws = 2 }) (quote 84 0 0 0)).sends ≡ entered (codes "T0000000000001") Side.Buy 10 100700 99999 0 ∷ [] }
    ensures two_draws { (quoted ten_dollars (opened 0 (Kind.Value 10 1000 60)) (quote 84 99000 100300 0)).trader.draws ≡ 2 }
{}
