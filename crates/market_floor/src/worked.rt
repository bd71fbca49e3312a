//! What the definitions give on worked examples.

ghost use Rattle.std.specs.Prelude.{◌≡◌, ◌∷◌, [], map, pos, take};
ghost use Rattle.agent_shell.specs.Worked.{quote};
ghost use Rattle.exchange_agent.specs.State.{stock_at};
ghost use Rattle.market_floor.specs.Edited.{edited_floor};
ghost use Rattle.market_floor.specs.Floor.{party_at};
ghost use Rattle.market_floor.specs.Reaction.{value_at};
ghost use Rattle.market_floor.specs.Ruled.{applied_by};
ghost use Rattle.market_floor.specs.Worked.{after_dates, at_first, edited, halting, hushed, met_by, shifted};

use crate::Posting;
use market_rules::{Edit, Param};
use market_types::Body;

/// A stock that halts at 1400 and is to halt again at 1600. A change is made at its own nanosecond and told with its
/// date; the second tells nothing, and one that was made is not made again.
pub fn dated_halts()
    ensures before { (after_dates 0 1399).floor ≡ at_first }
    ensures at { (stock_at (after_dates 0 1400).floor.exchange 0).trading ≡ 72 }
    ensures told { map (λ f. f.time) (after_dates 0 1500).feed ≡ 1400 ∷ [] }
    ensures once { map (λ f. f.time) (after_dates 0 1600).feed ≡ 1400 ∷ [] }
    ensures made { (after_dates 1 1599).floor ≡ at_first }
    ensures count { applied_by halting 0 1599 ≡ 1 }
    ensures counted { applied_by halting 1 1399 ≡ 1 }
{}

/// The exchange answers the watcher's question after its own delay. The watcher asks when it wakes, and counts the
/// quote that it hears; once it is silenced it does neither.
pub fn reactions()
    ensures answer { (met_by at_first 1 0 (Body.Ask 0)).postings ≡ Posting.To 1 (Body.Quote (record { stock = 0; state = 84; bid = 0; bid_shares = 0; ask = 0; ask_shares = 0; last = 0 })) 0 ∷ [] }
    ensures delay { (met_by at_first 1 0 (Body.Ask 0)).delay ≡ 7 }
    ensures asks { take 1 (met_by at_first 1 1 Body.Wake).postings ≡ Posting.To 0 (Body.Ask 0) 0 ∷ [] }
    ensures heard { (party_at (met_by at_first 0 1 (Body.Quote (quote 84 0 0 0))).floor 1).trader.quotes ≡ 1 }
    ensures silent { (met_by hushed 1 1 Body.Wake).postings ≡ [] }
    ensures unheard { (met_by hushed 0 1 (Body.Quote (quote 84 0 0 0))).floor ≡ hushed }
{}

/// Edits at 1500: offsets add up and shift the value; a parameter of the trader is replaced; a halt is told with the
/// time of the edit; a latency is not the floor's.
pub fn edits()
    ensures offset { shifted.offsets ≡ pos 7 ∷ [] }
    ensures value { value_at halting shifted.offsets 0 1500 ≡ 100007 }
    ensures parameter { (party_at (edited (Edit.Agent 1 Param.Delay 9) at_first) 1).trader.setting.delay ≡ 9 }
    ensures halt { map (λ f. f.time) (edited_floor 1500 (Edit.Halt 0) at_first).feed ≡ 1500 ∷ [] }
    ensures latency { edited (Edit.Latency 0 0 9 9) at_first ≡ at_first }
{}
