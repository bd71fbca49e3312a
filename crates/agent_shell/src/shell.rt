//! A trader's own account, its own list of open orders, and its tokens.

ghost use Rattle.std.specs.Prelude.{◌≡◌, ◌<◌, ◌≤◌, ◌+◌, ◌^◌, pos, ◌≤ℤ◌, ◌+ℤ◌, ◌-ℤ◌, None, Some, IsOk, IfOk, OnOk, OnErr, length, option_map, slice_get};
ghost use Rattle.indexmap.specs.IndexMap.{index_of_by};
ghost use Rattle.agent_shell.specs.Bounds.{IsNear};
ghost use Rattle.agent_shell.specs.Own.{own_order, lowered, same_token, without};
ghost use Rattle.market_types.specs.declared.order.Side.TheVariants.{Buy as buying, Sell as selling};
ghost use Rattle.agent_shell.specs.Shell.{IsModest, IsWithin, executed, orders_at_opening, replied, with_order};
ghost use Rattle.agent_shell.specs.Sound.{IsOwn};
ghost use Rattle.agent_shell.specs.Tokens.{token_of};
ghost use Rattle.agent_shell.specs.Account.{cost_of, traded};

use crate::hashing::TokenHashing;
use crate::tokens::token_of;
use indexmap::IndexMap;
use market_types::{Account, AgentNo, Memory, Money, Reply, Side, Token};
use std::alloc::Global;
use std::marker::Model;

// An own list has at most so many orders.
pub(crate) const MOST_OWN: usize = 64;

// An own list has room for so many when it is opened. Most never have more, and grow where they do.
const FIRST_OWN: usize = 8;

/// An open order of a trader's own list.
#[derive(Clone, Copy)]
pub struct OwnOrder {
    pub side: Side,
    /// Open shares.
    pub left: u32,
}

/// What a trader keeps of its orders. It learns of them by replies alone.
#[derive(Drop)]
pub struct Shell {
    agent: AgentNo,
    tokens: u32,
    account: Account,
    own: IndexMap<Token, OwnOrder, TokenHashing>,
}

impl Model for Shell {
    ghost use Rattle.agent_shell.specs.Shell.{Kept};
    ghost use Rattle.indexmap.specs.IndexMap.{spare};

    ghost Value = { Kept };

    ghost view = { λ s. record {
      orders = record { agent = s.agent; tokens = s.tokens; account = s.account; own = s.own.entries };
      spare = spare s.own;
    } };
}

// What so many shares cost at a price, in millionths of a dollar.
fn cost_of(price: u32, shares: u32) -> Money
    ensures value { result ≡ cost_of price shares }
    ensures low { pos 0 ≤ℤ result }
    ensures high { result ≤ℤ pos (2 ^ 71) }
{
    (100 * u128::from(price) * u128::from(shares)) as i128
}

// A position after so many shares were traded.
fn position_after(position: i64, side: Side, shares: u32) -> i64
    requires { IsWithin (2 ^ 62) position }
    ensures bought { side ≡ buying → result ≡ position +ℤ pos shares }
    ensures sold { side ≡ selling → result ≡ position -ℤ pos shares }
    ensures near { IsNear (2 ^ 32) position result }
{
    match side {
        Side::Buy => position + i64::from(shares),
        Side::Sell => position - i64::from(shares),
    }
}

// Cash after a trade of this cost.
fn cash_after(cash: Money, side: Side, cost: Money) -> Money
    requires cash { IsWithin (2 ^ 120) cash }
    requires low { pos 0 ≤ℤ cost }
    requires high { cost ≤ℤ pos (2 ^ 71) }
    ensures bought { side ≡ buying → result ≡ cash -ℤ cost }
    ensures sold { side ≡ selling → result ≡ cash +ℤ cost }
    ensures near { IsNear (2 ^ 71) cash result }
{
    match side {
        Side::Buy => cash - cost,
        Side::Sell => cash + cost,
    }
}

// The account after so many shares were traded at a price.
fn traded(account: Account, side: Side, price: u32, shares: u32) -> Account
    requires { IsModest account }
    ensures value { result ≡ traded side price shares account }
    ensures position { IsNear (2 ^ 32) account.position result.position }
    ensures cash { IsNear (2 ^ 71) account.cash result.cash }
{
    Account {
        position: position_after(account.position, side, shares),
        cash: cash_after(account.cash, side, cost_of(price, shares)),
    }
}

// The open shares of the order at a place fall, to 0 at least; at 0 it is removed.
fn lower_at(
    own: &mut IndexMap<Token, OwnOrder, TokenHashing>,
    at: usize,
    order: OwnOrder,
    shares: u32,
)
    requires { at < length own.old.entries }
    ensures { (token : Token) → index_of_by (same_token token) own.old ≡ Some at → own_order token own.old.entries ≡ Some order → own.new.entries ≡ lowered token shares own.old.entries }
{
    if order.left <= shares {
        own.shift_remove_index(at);
    } else {
        own[at] = OwnOrder {
            side: order.side,
            left: order.left - shares,
        };
    }
}

// The open shares of the order of a token fall, to 0 at least; at 0 it is removed.
fn lower(own: &mut IndexMap<Token, OwnOrder, TokenHashing>, token: &Token, shares: u32)
    ensures { own.new.entries ≡ lowered token.now shares own.old.entries }
{
    let Some(at) = own.get_index_of(token) else {
        return;
    };
    let order = own[at];
    lower_at(own, at, order, shares);
}

impl Shell {
    /// The shell of a trader that sent nothing yet. `cash` is in millionths of a dollar.
    ///
    /// # Errors
    /// Want of memory alone.
    pub fn open(alloc: Global, agent: AgentNo, cash: i64) -> Result<Shell, Memory>
        ensures { IfOk result (λ s. s.orders ≡ orders_at_opening agent cash) }
    {
        let own = IndexMap::with_capacity_and_hasher(alloc, FIRST_OWN, TokenHashing)?;
        Ok(Shell {
            agent,
            tokens: 0,
            account: Account {
                position: 0,
                cash: Money::from(cash),
            },
            own,
        })
    }

    /// Gives the next token.
    pub fn next_token(&mut self) -> Token
        requires { self.old.orders.tokens < 999999999 }
        ensures token { result ≡ token_of self.old.orders.agent (self.old.orders.tokens + 1) }
        ensures given { self.new ≡ record self.old { orders = record self.old.orders { tokens = self.old.orders.tokens + 1 } } }
    {
        self.tokens += 1;
        token_of(self.agent, self.tokens)
    }

    /// Takes a reply.
    pub fn take_reply(&mut self, reply: &Reply)
        requires { IsModest self.old.orders.account }
        ensures value { self.new.orders ≡ replied reply.now self.old.orders }
        ensures own { IsOwn self.old.orders → IsOwn self.new.orders }
        ensures agent { self.new.orders.agent ≡ self.old.orders.agent }
        ensures tokens { self.new.orders.tokens ≡ self.old.orders.tokens }
        ensures position { IsNear (2 ^ 32) self.old.orders.account.position self.new.orders.account.position }
        ensures cash { IsNear (2 ^ 71) self.old.orders.account.cash self.new.orders.account.cash }
    {
        match reply {
            Reply::System { .. } | Reply::Accepted { .. } => {}
            Reply::Canceled {
                token,
                decrement,
                ..
            } => lower(&mut self.own, token, *decrement),
            Reply::Executed {
                token,
                shares,
                price,
                ..
            } => {
                self.execute(token, *price, *shares);
            }
            Reply::Rejected { token, .. } => {
                self.own.shift_remove(token);
            }
        }
    }

    // An order was executed.
    fn execute(&mut self, token: &Token, price: u32, shares: u32)
        requires { IsModest self.old.orders.account }
        ensures agent { self.new.orders.agent ≡ self.old.orders.agent }
        ensures tokens { self.new.orders.tokens ≡ self.old.orders.tokens }
        ensures position { IsNear (2 ^ 32) self.old.orders.account.position self.new.orders.account.position }
        ensures cash { IsNear (2 ^ 71) self.old.orders.account.cash self.new.orders.account.cash }
        ensures value { self.new.orders ≡ executed (own_order token.now self.old.orders.own) token.now price shares self.old.orders }
    {
        let Some(at) = self.own.get_index_of(token) else {
            return;
        };
        let order = self.own[at];
        self.account = traded(self.account, order.side, price, shares);
        lower_at(&mut self.own, at, order, shares);
    }

    /// The trader's number.
    pub fn agent(&self) -> AgentNo
        ensures { result ≡ self.now.orders.agent }
    {
        self.agent
    }

    /// How many orders are open.
    pub fn open_len(&self) -> usize
        ensures { result ≡ length self.now.orders.own }
    {
        self.own.len()
    }

    /// The own account.
    pub fn account(&self) -> Account
        ensures { result ≡ self.now.orders.account }
    {
        self.account
    }

    /// How many tokens were given.
    pub fn tokens(&self) -> u32
        ensures { result ≡ self.now.orders.tokens }
    {
        self.tokens
    }

    /// The token of the order at a place, the first sent first.
    pub fn open_token(&self, i: usize) -> Option<Token>
        ensures { result ≡ option_map (λ e. e.0) (slice_get self.now.orders.own i) }
    {
        match self.own.get_index(i) {
            Some((token, _)) => Some(*token),
            None => None,
        }
    }

    /// Keeps places for `n` more orders.
    pub fn reserve(&mut self, n: usize) -> Result<(), Memory>
        ensures orders { self.new.orders ≡ self.old.orders }
        ensures room { OnOk result (n ≤ self.new.spare) }
        ensures never_falls { self.old.spare ≤ self.new.spare }
    {
        self.own.reserve(n)?;
        Ok(())
    }

    /// An order joins the list as its last. It can't be refused where a place is kept.
    pub fn join(&mut self, token: Token, side: Side, shares: u32) -> Result<(), Memory>
        requires few { length self.old.orders.own < 64 }
        requires fresh { own_order token self.old.orders.own ≡ None }
        requires shares { 0 < shares }
        ensures joined { OnOk result (self.new.orders ≡ with_order token side shares self.old.orders) }
        ensures within_room { 0 < self.old.spare → IsOk result }
        ensures one_place { self.old.spare ≤ self.new.spare + 1 }
        ensures refused { OnErr result (self.new.orders ≡ self.old.orders) }
    {
        match self.own.insert(token, OwnOrder { side, left: shares }) {
            Ok(_) => Ok(()),
            Err(_) => Err(Memory),
        }
    }

    /// A shell with the same orders.
    pub fn copy(&self) -> Result<Shell, Memory>
        ensures { IfOk result (λ s. s.orders ≡ self.now.orders) }
    {
        let own = self.own.clone()?;
        Ok(Shell {
            agent: self.agent,
            tokens: self.tokens,
            account: self.account,
            own,
        })
    }
}
