//! What the definitions give for known orders and replies.

ghost use Rattle.std.specs.Prelude.{◌≡◌, ◌∷◌, [], codes, negsuc, pos};
ghost use Rattle.agent_shell.specs.Ordered.{ordered};
ghost use Rattle.agent_shell.specs.Parameters.{setting_with};
ghost use Rattle.agent_shell.specs.Shell.{replied};
ghost use Rattle.agent_shell.specs.Worked.{abm, canceled_by, entered, executed_at, full_list, left_of, one_buy, opened, rejected_of, wish_at};

use crate::setting::Kind;
use market_rules::Param;
use market_types::{Account, Side};

/// An order that buys 100. Ten shares at a dollar (10,000) take 100 * 10,000 * 10 = 10,000,000 from 1,000. All 200
/// executed shares count, though 100 are open. A token that isn't in the list changes nothing.
pub fn replies()
    ensures account { (replied (executed_at (codes "T0037000000001") 10 10000) one_buy).account ≡ record { position = pos 10; cash = negsuc 9998999 } }
    ensures lowered { (replied (executed_at (codes "T0037000000001") 10 10000) one_buy).own ≡ left_of 90 }
    ensures in_full { (replied (executed_at (codes "T0037000000001") 200 1) one_buy).account ≡ record { position = pos 200; cash = negsuc 18999 } }
    ensures removed { (replied (executed_at (codes "T0037000000001") 200 1) one_buy).own ≡ [] }
    ensures canceled { (replied (canceled_by (codes "T0037000000001") 29) one_buy).own ≡ left_of 71 }
    ensures all_canceled { (replied (canceled_by (codes "T0037000000001") 100) one_buy).own ≡ [] }
    ensures rejected { (replied (rejected_of (codes "T0037000000001")) one_buy).own ≡ [] }
    ensures unknown_executed { replied (executed_at (codes "T0037000000002") 10 10000) one_buy ≡ one_buy }
    ensures unknown_canceled { replied (canceled_by (codes "T0037000000002") 100) one_buy ≡ one_buy }
    ensures unknown_rejected { replied (rejected_of (codes "T0037000000002")) one_buy ≡ one_buy }
{}

/// The next order is the second of agent 37. At a price of 0, above 199,999.99 dollars, or where 64 are open, it is left
/// out and takes no token.
pub fn orders()
    ensures sent { (ordered abm (wish_at (pos 1999999900)) one_buy).sends ≡ entered (codes "T0037000000002") Side.Buy 1 1999999900 99999 0 ∷ [] }
    ensures tokens { (ordered abm (wish_at (pos 1)) one_buy).orders.tokens ≡ 2 }
    ensures no_price { (ordered abm (wish_at (pos 0)) one_buy).sends ≡ [] }
    ensures no_token { (ordered abm (wish_at (pos 0)) one_buy).orders.tokens ≡ 1 }
    ensures too_dear { (ordered abm (wish_at (pos 1999999901)) one_buy).sends ≡ [] }
    ensures full { (ordered abm (wish_at (pos 1)) full_list).sends ≡ [] }
    ensures full_token { (ordered abm (wish_at (pos 1)) full_list).orders.tokens ≡ 1 }
{}

/// One parameter is replaced and no other.
pub fn parameters()
    ensures margin { (setting_with Param.Margin 9 (opened 1 (Kind.Value 1 2 3)).setting).kind ≡ Kind.Value 1 2 9 }
    ensures levels { (setting_with Param.Levels 8 (opened 1 (Kind.Maker 1 2 3 4 5)).setting).kind ≡ Kind.Maker 1 2 3 8 5 }
    ensures every { setting_with Param.Every 8 (opened 1 Kind.Watcher).setting ≡ record (opened 1 Kind.Watcher).setting { every = 8 } }
    ensures delay { setting_with Param.Delay 8 (opened 1 Kind.Watcher).setting ≡ record (opened 1 Kind.Watcher).setting { delay = 8 } }
{}
