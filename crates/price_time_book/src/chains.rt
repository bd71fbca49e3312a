//! Chains of the orders of the vector of arrival, by which an order is found under its agent's token.
//!
//! The agents whose numbers leave one remainder have one chain. It is known where its last order stands, and of each order
//! where the one before it in its chain stands. An order that leaves stays in its chain until the vector is made anew, so one
//! that joins searches nothing and moves nothing. A search walks back from the chain's last order: what it finds may have
//! left, and the search looks at its open shares.

ghost use Rattle.std.specs.Prelude.{◌≡◌, ◌<◌, ◌≤◌, ◌+◌, ◌++◌, ◌∷◌, [], ℕ, Some, None, IfOk, IfSome, IfNone, List, length, replicate, slice_index_or, vec_len, vec_capacity, true, false};
ghost use Rattle.price_time_book.specs.declared.resting.Resting.{Resting};
ghost use Rattle.price_time_book.specs.Chains.{IsChained, chain_of, is_sent};
ghost use Rattle.price_time_book.specs.Indexed.{nothing, open_orders};
ghost use Rattle.price_time_book.specs.Orders.{order_of};

use crate::bytes::is_same_token;
use crate::resting::Resting;
use market_types::{AgentNo, Memory, Token};
use std::alloc::Global;

// How many chains there are.
const CHAINS: usize = 512;

/// Where the last order of each chain stands, and for each order the one before it in its chain: one more than its place in
/// the vector of arrival, or 0 where there is none.
#[derive(Drop)]
pub struct Chains {
    pub lasts: Vec<usize>,
    pub befores: Vec<usize>,
}

// Which chain an agent's orders are in.
fn chain_of(agent: AgentNo) -> usize
    ensures value { result ≡ chain_of agent }
    ensures within { result < 512 }
{
    usize::from(agent) % CHAINS
}

// The last order of an agent's chain.
fn last_of(chains: &Chains, agent: AgentNo) -> usize
    ensures { result ≡ slice_index_or chains.now.lasts.items (chain_of agent) 0 }
{
    let chain = chain_of(agent);
    if chain < chains.lasts.len() {
        return chains.lasts[chain];
    }
    0
}

// Whether an order is the one that an agent sent under a token.
fn is_sent(order: &Resting, agent: AgentNo, token: &Token) -> bool
    ensures { result ≡ is_sent agent token.now.0 order.now }
{
    order.agent == agent && is_same_token(&order.token.0, &token.0)
}

// Whether a walk along a chain has not come to its end nor to what it looks for.
fn goes_on(orders: &[Resting], at: usize, agent: AgentNo, token: &Token) -> bool
    requires { at ≤ length orders.now }
    ensures stays { (k : ℕ) → result ≡ false → k + 1 ≡ at → is_sent agent token.now.0 (slice_index_or orders.now k nothing) ≡ true }
    ensures some { result ≡ true → 0 < at }
    ensures passes { (k : ℕ) → result ≡ true → k + 1 ≡ at → is_sent agent token.now.0 (slice_index_or orders.now k nothing) ≡ false }
{
    if at == 0 {
        return false;
    }
    !is_sent(&orders[at - 1], agent, token)
}

// The last order that an agent sent under a token, open or not: one more than its place, or 0 where there is none.
fn last_sent(orders: &[Resting], chains: &Chains, agent: AgentNo, token: &Token) -> usize
    requires { IsChained orders.now chains.now.lasts.items chains.now.befores.items }
    ensures within { result ≤ length orders.now }
    ensures sent { (k : ℕ) → k + 1 ≡ result → is_sent agent token.now.0 (slice_index_or orders.now k nothing) ≡ true }
    ensures after { (k : ℕ) → result ≤ k → k < length orders.now →
        is_sent agent token.now.0 (slice_index_or orders.now k nothing) ≡ false }
{
    let mut at = last_of(chains, agent);
    while goes_on(orders, at, agent, token) {
        at = chains.befores[at - 1];
    }
    at
}

// Where the open order stands that an agent sent under a token.
pub fn by_token(orders: &[Resting], chains: &Chains, agent: AgentNo, token: &Token) -> Option<usize>
    requires { IsChained orders.now chains.now.lasts.items chains.now.befores.items }
    ensures absent { IfNone result (order_of agent token.now (open_orders orders.now) ≡ None) }
    ensures within { IfSome result (λ p. p < length orders.now) }
    ensures found { IfSome result (λ p. order_of agent token.now (open_orders orders.now) ≡
        Some (slice_index_or orders.now p nothing)) }
{
    let at = last_sent(orders, chains, agent, token);
    if at == 0 {
        return None;
    }
    let place = at - 1;
    if orders[place].left == 0 {
        return None;
    }
    Some(place)
}

// An order that joins the end of the vector of arrival is the last of its agent's chain.
pub fn enter_token(chains: &mut Chains, order: &Resting)
    requires room { vec_len chains.old.befores < vec_capacity chains.old.befores }
    requires begun { 512 ≤ vec_len chains.old.lasts }
    ensures chained { (os : List Resting) → IsChained os chains.old.lasts.items chains.old.befores.items →
        order_of order.now.agent order.now.token (open_orders os) ≡ None →
        IsChained (os ++ order.now ∷ []) chains.new.lasts.items chains.new.befores.items }
    ensures lasts { vec_len chains.new.lasts ≡ vec_len chains.old.lasts }
    ensures len { vec_len chains.new.befores ≡ vec_len chains.old.befores + 1 }
    ensures capacity { vec_capacity chains.old.befores ≤ vec_capacity chains.new.befores }
{
    let chain = chain_of(order.agent);
    let before = chains.lasts[chain];
    match chains.befores.push(before) {
        Ok(()) => {}
        Err(_) => unreachable!(),
    }
    chains.lasts[chain] = chains.befores.len();
}

// The last orders of chains that have none.
fn no_lasts(alloc: Global) -> Result<Vec<usize>, Memory>
    ensures { IfOk result (λ v. v.items ≡ replicate 512 0) }
{
    Ok(vec![in alloc; 0; CHAINS]?)
}

// Makes the chains where there are none yet, each with no order, and tells whether there are.
pub fn begin_chains(alloc: Global, lasts: &mut Vec<usize>) -> bool
    requires { 0 < vec_len lasts.old → 512 ≤ vec_len lasts.old }
    ensures same { (chain : ℕ) → slice_index_or lasts.new.items chain 0 ≡ slice_index_or lasts.old.items chain 0 }
    ensures long { 0 < vec_len lasts.new → 512 ≤ vec_len lasts.new }
    ensures never_falls { vec_len lasts.old ≤ vec_len lasts.new }
    ensures begun { result ≡ true → 512 ≤ vec_len lasts.new }
{
    if 0 < lasts.len() {
        return true;
    }
    let Ok(begun) = no_lasts(alloc) else {
        return false;
    };
    *lasts = begun;
    true
}
