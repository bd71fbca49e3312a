//! The remembered pairs of an agent and an order token.

ghost use Rattle.std.specs.Prelude.{◌≡◌, ◌<◌, ◌^◌, [], not, IfOk, OnOk, OnErr, length};
ghost use Rattle.std.specs.Bool.{OnFalse};
ghost use Rattle.exchange_agent.specs.Pairs.{has_pair, with_pair};
ghost use Rattle.exchange_agent.specs.Remembered.{keyed, pairs_from};

use crate::pair::Pair;
use crate::tokens::Tokens;
use market_types::{AgentNo, Memory};
use std::alloc::Global;
use std::marker::Model;

/// The pairs: the tokens of each agent, at the place of its number, and how many they are.
#[derive(Drop)]
pub struct Remembered {
    agents: Vec<Tokens>,
    count: usize,
}

impl Model for Remembered {
    ghost use Rattle.std.specs.Prelude.{◌≡◌, length};
    ghost use Rattle.exchange_agent.specs.Remembered.{Keys, pairs_from};

    ghost Value = { Keys };

    ghost view = { λ r. record { keys = pairs_from 0 r.agents.items } };

    ghost invariant = { λ r. r.count ≡ length (pairs_from 0 r.agents.items) };
}

// Whether a token of an agent is among them.
fn holds(agents: &[Tokens], agent: AgentNo, token: &[u8; 14]) -> bool
    ensures { result ≡ has_pair (keyed agent token.now) (pairs_from 0 agents.now) }
{
    let place = usize::from(agent);
    if place >= agents.len() {
        return false;
    }
    agents[place].contains(token)
}

// There are tokens for the agents up to this number.
fn grow(agents: &mut Vec<Tokens>, agent: usize) -> Result<(), Memory>
    ensures same { pairs_from 0 agents.new.items ≡ pairs_from 0 agents.old.items }
    ensures there { OnOk result (agent < length agents.new.items) }
{
    'agents: while agents.len() <= agent {
        let tokens = Tokens::new(*agents.allocator());
        agents.push(tokens)?;
    }
    Ok(())
}

// A token of an agent comes among them; whether it was not there. After want of memory they are as they were.
fn add(agents: &mut Vec<Tokens>, agent: AgentNo, token: &[u8; 14]) -> Result<bool, Memory>
    ensures added { IfOk result (λ added. added ≡ not (has_pair (keyed agent token.now) (pairs_from 0 agents.old.items))) }
    ensures keys { OnOk result (pairs_from 0 agents.new.items ≡ with_pair (keyed agent token.now) (pairs_from 0 agents.old.items)) }
    ensures unchanged { IfOk result (λ added. OnFalse added (pairs_from 0 agents.new.items ≡ pairs_from 0 agents.old.items)) }
    ensures refused { OnErr result (pairs_from 0 agents.new.items ≡ pairs_from 0 agents.old.items) }
{
    let place = usize::from(agent);
    let Ok(()) = grow(agents, place) else {
        return Err(Memory);
    };
    agents[place].insert(token)
}

// Equal tokens of each agent.
fn copies(alloc: Global, agents: &[Tokens]) -> Result<Vec<Tokens>, Memory>
    ensures { IfOk result (λ v. v.items ≡ agents.now) }
{
    let mut equal = Vec::new(alloc);
    for tokens in agents {
        let copy = tokens.copy(alloc)?;
        equal.push(copy)?;
    }
    Ok(equal)
}

impl Remembered {
    /// None so far.
    pub fn new(alloc: Global) -> Remembered
        ensures empty { result.keys ≡ [] }
    {
        Remembered {
            agents: Vec::new(alloc),
            count: 0,
        }
    }

    /// How many pairs there are.
    pub fn len(&self) -> usize
        ensures { result ≡ length self.now.keys }
    {
        self.count
    }

    /// Whether a pair is among them.
    pub fn contains(&self, pair: &Pair) -> bool
        ensures { result ≡ has_pair pair.now self.now.keys }
    {
        holds(self.agents.as_slice(), pair.agent, &pair.token)
    }

    /// A pair is remembered; whether it was not before. After want of memory the pairs are as they were.
    pub fn insert(&mut self, pair: Pair) -> Result<bool, Memory>
        requires { length self.old.keys < 2 ^ 63 }
        ensures added { IfOk result (λ added. added ≡ not (has_pair pair self.old.keys)) }
        ensures keys { OnOk result (self.new.keys ≡ with_pair pair self.old.keys) }
        ensures unchanged { IfOk result (λ added. OnFalse added (self.new.keys ≡ self.old.keys)) }
        ensures refused { OnErr result (self.new.keys ≡ self.old.keys) }
    {
        let Ok(added) = add(&mut self.agents, pair.agent, &pair.token) else {
            return Err(Memory);
        };
        if !added {
            return Ok(false);
        }
        self.count += 1;
        Ok(true)
    }

    /// Equal pairs.
    pub fn copy(&self, alloc: Global) -> Result<Remembered, Memory>
        ensures { IfOk result (λ r. r ≡ self.now) }
    {
        let Ok(agents) = copies(alloc, self.agents.as_slice()) else {
            return Err(Memory);
        };
        Ok(Remembered {
            agents,
            count: self.count,
        })
    }
}
