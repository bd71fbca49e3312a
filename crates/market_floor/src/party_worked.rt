//! What the definitions give on a worked example.

ghost use Rattle.std.specs.Prelude.{◌≡◌, [], codes, false, length, true};
ghost use Rattle.agent_shell.specs.Worked.{executed_at, left_of, quote};
ghost use Rattle.market_floor.specs.PartyWorked.{maker, met};

use market_types::Body;

/// A maker with one open order that is silenced doesn't take it back when it wakes, makes no draw and hears no quote;
/// an execution still lowers its order. One that isn't silenced cancels, asks and wakes again, and quotes both sides.
pub fn silence_of_a_maker()
    ensures no_wakeup { (met true Body.Wake).sends ≡ [] }
    ensures no_draw { (met true Body.Wake).trader ≡ (maker true).trader }
    ensures no_order { (met true (Body.Quote (quote 84 0 0 0))).sends ≡ [] }
    ensures unheard { (met true (Body.Quote (quote 84 0 0 0))).trader.quotes ≡ 0 }
    ensures reply { (met true (Body.Answer (executed_at (codes "T0037000000001") 10 10000))).trader.orders.own ≡ left_of 90 }
    ensures wakeup { length (met false Body.Wake).sends ≡ 3 }
    ensures draw { (met false Body.Wake).trader.draws ≡ 1 }
    ensures orders { length (met false (Body.Quote (quote 84 0 0 0))).sends ≡ 2 }
    ensures heard { (met false (Body.Quote (quote 84 0 0 0))).trader.quotes ≡ 1 }
{}
