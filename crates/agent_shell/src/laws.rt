//! Laws of the definitions.

ghost use Rattle.std.specs.Prelude.{◌≡◌, ◌≢◌, ◌<◌, ◌≤◌, ◌+◌, ◌*◌, ◌^◌, ◌+ℤ◌, ◌-ℤ◌, pos, ℕ, ℤ, List, All};
ghost use Rattle.agent_shell.specs.Bounds.{AreSendings, IsAfter, IsMoved};
ghost use Rattle.agent_shell.specs.Decide.{decided};
ghost use Rattle.agent_shell.specs.Fills.{after_replies, fills_of, net_paid, net_shares};
ghost use Rattle.agent_shell.specs.Maker.{above_centre, below_centre};
ghost use Rattle.agent_shell.specs.Noise.{noise_choice};
ghost use Rattle.agent_shell.specs.Ordered.{all_ordered};
ghost use Rattle.agent_shell.specs.Parameters.{IsBetween, IsOwnParam, kind_with};
ghost use Rattle.agent_shell.specs.Shell.{IsModest, Orders, replied};
ghost use Rattle.agent_shell.specs.Sight.{Sight};
ghost use Rattle.agent_shell.specs.Sound.{IsOwn, IsTrader};
ghost use Rattle.agent_shell.specs.Tokens.{AreNext, token_of};
ghost use Rattle.agent_shell.specs.Trader.{IsReady, Trader, trader_with};

use crate::setting::{Kind, Levels};
use crate::wish::Wish;
use market_rules::Param;
use market_types::{Body, Quote, Reply, Symbol};

/// A trader gives each token once, and the tokens of the orders that it sends are the next ones in order.
pub fn tokens_are_given_once()
    ensures once { (agent m n : ℕ) → m < n → n < 1000000000 → token_of agent m ≢ token_of agent n }
    ensures rising { (symbol : Symbol) (ws : List Wish) (o : Orders) → AreNext o.agent o.tokens (all_ordered symbol ws o).orders.tokens (all_ordered symbol ws o).sends }
{}

/// After any replies the own account is the account before them and the sum over the executions that they tell: the
/// shares bought less those sold, and the money earned less the money paid.
pub fn accounts_add_up()
    ensures position { (replies : List Reply) (o : Orders) → (after_replies replies o).account.position ≡ o.account.position +ℤ net_shares (fills_of replies o) }
    ensures cash { (replies : List Reply) (o : Orders) → (after_replies replies o).account.cash ≡ o.account.cash -ℤ net_paid (fills_of replies o) }
{}

/// An own list never has more than 64 orders, each of a token that the trader gave: neither a reply nor orders that
/// are sent change that.
pub fn own_lists_stay_short()
    ensures replies { (reply : Reply) (o : Orders) → IsOwn o → IsOwn (replied reply o) }
    ensures orders { (symbol : Symbol) (ws : List Wish) (o : Orders) → IsOwn o → IsOwn (all_ordered symbol ws o).orders }
{}

/// A maker's two prices of a level lie as far below its centre as above, before they are rounded to ticks.
pub fn quotes_are_symmetric()
    ensures { (m : Levels) (centre i : ℕ) → (pos centre -ℤ below_centre m centre i) ≡ (above_centre m centre i -ℤ pos centre) }
{}

/// A noise trader's shares are from 1 to its size.
pub fn noise_shares_are_within_its_size()
    ensures { (v : Sight) (t : Trader) (q : Quote) (size : ℕ) → 1 ≤ size → All (λ (w : Wish). IsBetween 1 size w.shares) (noise_choice v t q size).wishes }
{}

/// What a trader sends is little and well-formed.
pub fn sendings_are_few_and_well_formed()
    ensures { (v : Sight) (t : Trader) (body : Body) → IsTrader t → AreSendings v t (decided v t body).sends }
{}

/// A parameter that belongs to a kind still does once another one was replaced.
pub fn parameters_stay_those_of_the_kind()
    ensures { (kind : Kind) (other name : Param) (given value : ℕ) → IsOwnParam kind name value → IsOwnParam (kind_with kind other given) name value }
{}

/// How far a trader is after so many messages: one more message moves it no further than one more allows, an edit of a
/// parameter doesn't move it, and after a million messages it can still take the next one.
pub fn traders_stay_in_range()
    ensures steps { (n : ℕ) (a b : Trader) → IsAfter n a → IsMoved a b → IsAfter (n + 1) b }
    ensures edits { (n : ℕ) (t : Trader) (name : Param) (value : ℕ) → IsAfter n t → IsAfter n (trader_with name value t) }
    ensures later { (n m : ℕ) (t : Trader) → n ≤ m → IsAfter n t → IsAfter m t }
    ensures ready { (n : ℕ) (t : Trader) → n ≤ 1000000 → IsAfter n t → IsReady t }
    ensures modest { (n : ℕ) (t : Trader) → n ≤ 1000000 → IsAfter n t → IsModest t.orders.account }
{}
