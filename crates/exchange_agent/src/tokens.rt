//! The tokens of one agent in order.

ghost use Rattle.std.specs.Prelude.{◌≡◌, ◌≢◌, ◌<◌, ◌≤◌, ◌-◌, ℕ, List, [], true, false, not, IfSome, IfNone, IfOk, OnOk, OnErr, length, slice_index_or};
ghost use Rattle.std.specs.Bool.{OnFalse};
ghost use Rattle.std.specs.List.{insert, list_any};
ghost use Rattle.std.specs.Ordering.{is_lt};
ghost use Rattle.std.specs.BTreeMap.{is_at};
ghost use Rattle.std.specs.BTreeSet.{insert_key};
ghost use Rattle.std.specs.declared.cmp.Ordering.TheVariants.{Equal};
ghost use Rattle.exchange_agent.specs.Remembered.{AreRising, by_bytes};

use market_types::{Memory, copied};
use price_time_book::bytes::compared;
use std::alloc::Global;
use std::marker::Model;

/// The tokens of one agent in order of their bytes, each once.
#[derive(Drop)]
pub struct Tokens {
    tokens: Vec<[u8; 14]>,
}

impl Model for Tokens {
    ghost use Rattle.std.specs.Prelude.{ℕ, List};
    ghost use Rattle.exchange_agent.specs.Remembered.{AreRising};

    ghost Value = { List (List ℕ) };

    ghost view = { λ t. t.tokens.items };

    ghost invariant = { λ t. AreRising t.tokens.items };
}

// Where the first token stands that is not below this one, by halving.
fn place_from(tokens: &[[u8; 14]], token: &[u8; 14]) -> usize
    ensures within { result ≤ length tokens.now }
    ensures below { (d : List ℕ) → 0 < result → is_lt (by_bytes (slice_index_or tokens.now (result - 1) d) token.now) ≡ true }
    ensures above { (d : List ℕ) → result < length tokens.now → is_lt (by_bytes (slice_index_or tokens.now result d) token.now) ≡ false }
{
    let mut low = 0;
    let mut high = tokens.len();
    while low < high {
        let middle = low + (high - low) / 2;
        if compared(&tokens[middle], token).is_lt() {
            low = middle + 1;
        } else {
            high = middle;
        }
    }
    low
}

// The same place; the last token is looked at first, since most tokens that come are above it.
fn place_of(tokens: &[[u8; 14]], token: &[u8; 14]) -> usize
    ensures within { result ≤ length tokens.now }
    ensures below { (d : List ℕ) → 0 < result → is_lt (by_bytes (slice_index_or tokens.now (result - 1) d) token.now) ≡ true }
    ensures above { (d : List ℕ) → result < length tokens.now → is_lt (by_bytes (slice_index_or tokens.now result d) token.now) ≡ false }
{
    let end = tokens.len();
    if end == 0 {
        return 0;
    }
    if compared(&tokens[end - 1], token).is_lt() {
        return end;
    }
    place_from(tokens, token)
}

// Whether the token at a place is this one.
fn is_there(tokens: &[[u8; 14]], at: usize, token: &[u8; 14]) -> bool
    ensures some { result ≡ true →
        (at < length tokens.now) ×
        ((d : List ℕ) → by_bytes (slice_index_or tokens.now at d) token.now ≡ Equal) }
    ensures none { (d : List ℕ) → result ≡ false → at < length tokens.now →
        by_bytes (slice_index_or tokens.now at d) token.now ≢ Equal }
{
    at < tokens.len() && compared(&tokens[at], token).is_eq()
}

// Where a token would stand that is not among them.
fn vacant(tokens: &[[u8; 14]], token: &[u8; 14]) -> Option<usize>
    requires { AreRising tokens.now }
    ensures there { IfNone result (list_any (is_at (by_bytes token.now)) tokens.now ≡ true) }
    ensures kept { IfNone result (insert_key by_bytes tokens.now token.now ≡ tokens.now) }
    ensures absent { IfSome result (λ at. list_any (is_at (by_bytes token.now)) tokens.now ≡ false) }
    ensures within { IfSome result (λ at. at ≤ length tokens.now) }
    ensures placed { IfSome result (λ at. insert_key by_bytes tokens.now token.now ≡ insert tokens.now at token.now) }
{
    let at = place_of(tokens, token);
    if is_there(tokens, at, token) {
        return None;
    }
    Some(at)
}

// Whether a token is among them.
fn has(tokens: &[[u8; 14]], token: &[u8; 14]) -> bool
    requires { AreRising tokens.now }
    ensures { result ≡ list_any (is_at (by_bytes token.now)) tokens.now }
{
    match vacant(tokens, token) {
        Some(_) => false,
        None => true,
    }
}

// A token comes in at a place, which mostly is the end. After want of memory they are as they were.
fn put_at(tokens: &mut Vec<[u8; 14]>, at: usize, token: &[u8; 14]) -> Result<(), Memory>
    requires { at ≤ length tokens.old.items }
    ensures tokens { OnOk result (tokens.new.items ≡ insert tokens.old.items at token.now) }
    ensures refused { OnErr result (tokens.new.items ≡ tokens.old.items) }
{
    if at == tokens.len() {
        let Ok(()) = tokens.push(*token) else {
            return Err(Memory);
        };
        return Ok(());
    }
    let Ok(()) = tokens.insert(at, *token) else {
        return Err(Memory);
    };
    Ok(())
}

// A token comes to its place among them; whether it was not there. After want of memory they are as they were.
fn put(tokens: &mut Vec<[u8; 14]>, token: &[u8; 14]) -> Result<bool, Memory>
    requires { AreRising tokens.old.items }
    ensures added { IfOk result (λ added. added ≡ not (list_any (is_at (by_bytes token.now)) tokens.old.items)) }
    ensures tokens { OnOk result (tokens.new.items ≡ insert_key by_bytes tokens.old.items token.now) }
    ensures unchanged { IfOk result (λ added. OnFalse added (tokens.new.items ≡ tokens.old.items)) }
    ensures refused { OnErr result (tokens.new.items ≡ tokens.old.items) }
    ensures rising { AreRising tokens.new.items }
{
    match vacant(tokens.as_slice(), token) {
        Some(at) => {
            let Ok(()) = put_at(tokens, at, token) else {
                return Err(Memory);
            };
            Ok(true)
        }
        None => Ok(false),
    }
}

impl Tokens {
    /// None so far.
    pub fn new(alloc: Global) -> Tokens
        ensures { result ≡ [] }
    {
        Tokens {
            tokens: Vec::new(alloc),
        }
    }

    /// Whether a token is among them.
    pub fn contains(&self, token: &[u8; 14]) -> bool
        ensures { result ≡ list_any (is_at (by_bytes token.now)) self.now }
    {
        has(self.tokens.as_slice(), token)
    }

    /// A token comes to its place among them; whether it was not there. After want of memory they are as they were.
    pub fn insert(&mut self, token: &[u8; 14]) -> Result<bool, Memory>
        ensures added { IfOk result (λ added. added ≡ not (list_any (is_at (by_bytes token.now)) self.old)) }
        ensures tokens { OnOk result (self.new ≡ insert_key by_bytes self.old token.now) }
        ensures unchanged { IfOk result (λ added. OnFalse added (self.new ≡ self.old)) }
        ensures refused { OnErr result (self.new ≡ self.old) }
    {
        put(&mut self.tokens, token)
    }

    /// Equal tokens.
    pub fn copy(&self, alloc: Global) -> Result<Tokens, Memory>
        ensures { IfOk result (λ t. t ≡ self.now) }
    {
        let Ok(tokens) = copied(alloc, self.tokens.as_slice()) else {
            return Err(Memory);
        };
        Ok(Tokens { tokens })
    }
}
