//! What a feed has told so far.

ghost use Rattle.std.specs.Prelude.{◌≡◌, ◌<◌, ◌-◌, ◌++◌, ◌∷◌, [], false, Ok, IfOk, IfErr, OnOk, OnErr, length, replicate, slice_index_or, slice_set, vec_len};
ghost use Rattle.std.specs.List.{AllByRecursion};
ghost use Rattle.feed_rebuild.specs.declared.shown.AuditError.TheVariants as error;
ghost use Rattle.feed_rebuild.specs.Entries.{kept, left_with, vacant, IsMisfitOf, IsRising};
ghost use Rattle.feed_rebuild.specs.Fold.{acted, added, deleted, fresh, held, is_listed, lowered, told_what};

use crate::entries::{Entry, held_at, is_above, left_at};
use crate::shown::{AuditError, Misfit, Shown};
use market_types::{Feed, Memory, What};
use std::alloc::Global;
use std::marker::Model;

/// The orders that came and the trading states, after some messages.
#[derive(Drop)]
pub struct Retold {
    entries: Vec<Entry>,
    states: Vec<u8>,
}

impl Model for Retold {
    ghost use Rattle.std.specs.Prelude.{◌<◌, None, length};
    ghost use Rattle.std.specs.List.{AllByRecursion};
    ghost use Rattle.feed_rebuild.specs.Entries.{kept, last_from, IsRising};
    ghost use Rattle.feed_rebuild.specs.Fold.{Told};

    ghost Value = { Told };

    ghost view = { λ r. record { orders = kept r.entries.items; states = r.states.items; last = last_from None r.entries.items } };

    ghost invariant = { λ r. record {
      rising : IsRising 0 r.entries.items;
      listed : AllByRecursion (λ e. e.order.stock < length r.states.items) r.entries.items;
    } };
}

// The error for an order or, with 0, a state that does not fit.
fn misfit(reference: u64) -> AuditError
    ensures { result ≡ error.Misfit (record { reference = reference }) }
{
    AuditError::Misfit(Misfit { reference })
}

// The state of so many stocks that all trade.
fn trading(alloc: Global, stocks: u16) -> Result<Vec<u8>, Memory>
    ensures { IfOk result (λ v. v.items ≡ replicate stocks 84) }
{
    Ok(vec![in alloc; b'T'; usize::from(stocks)]?)
}

// An order joins the others.
fn join(entries: &mut Vec<Entry>, order: Shown) -> Result<(), Memory>
    ensures joined { OnOk result (entries.new.items ≡ entries.old.items ++ record { order = order; gone = false } ∷ []) }
    ensures refused { OnErr result (entries.new.items ≡ entries.old.items) }
{
    entries.push(Entry { order, gone: false })?;
    Ok(())
}

// The order at a place keeps so many open shares, and leaves with none.
fn leave_with(entries: &mut Vec<Entry>, at: usize, left: u32)
    requires { at < vec_len entries.old }
    ensures { entries.new.items ≡ slice_set entries.old.items at (left_with left (slice_index_or entries.old.items at vacant)) }
{
    if left == 0 {
        entries[at].gone = true;
    } else {
        entries[at].order.left = left;
    }
}

impl Retold {
    /// Nothing was told yet of so many stocks.
    pub fn new(alloc: Global, stocks: u16) -> Result<Retold, Memory>
        ensures told { IfOk result (λ r. r ≡ fresh stocks) }
        ensures count { IfOk result (λ r. length r.states ≡ stocks) }
    {
        let states = trading(alloc, stocks)?;
        Ok(Retold {
            entries: Vec::new(alloc),
            states,
        })
    }

    // Whether a locate is a stock's number and one.
    fn is_listed(&self, locate: u16) -> bool
        ensures { result ≡ is_listed self.now locate }
    {
        1 <= locate && usize::from(locate) <= self.states.len()
    }

    // An order comes.
    fn add(&mut self, locate: u16, order: Shown) -> Result<(), AuditError>
        requires { order.stock ≡ locate - 1 }
        ensures told { OnOk result (added self.old locate order ≡ Ok self.new) }
        ensures misfit { IfErr result (IsMisfitOf (added self.old locate order)) }
        ensures count { length self.new.states ≡ length self.old.states }
    {
        if !self.is_listed(locate) || !is_above(self.entries.as_slice(), order.reference) {
            return Err(misfit(order.reference));
        }
        join(&mut self.entries, order)?;
        Ok(())
    }

    // An order has so many shares fewer.
    fn lower(&mut self, locate: u16, reference: u64, shares: u32) -> Result<(), AuditError>
        ensures told { OnOk result (lowered self.old locate reference shares (held locate reference self.old.orders) ≡ Ok self.new) }
        ensures misfit { IfErr result (IsMisfitOf (lowered self.old locate reference shares (held locate reference self.old.orders))) }
        ensures count { length self.new.states ≡ length self.old.states }
    {
        let Some(at) = held_at(self.entries.as_slice(), locate, reference) else {
            return Err(misfit(reference));
        };
        let left = left_at(self.entries.as_slice(), at);
        if left < shares {
            return Err(misfit(reference));
        }
        leave_with(&mut self.entries, at, left - shares);
        Ok(())
    }

    // An order leaves.
    fn delete(&mut self, locate: u16, reference: u64) -> Result<(), AuditError>
        ensures told { OnOk result (deleted self.old locate reference (held locate reference self.old.orders) ≡ Ok self.new) }
        ensures misfit { IfErr result (IsMisfitOf (deleted self.old locate reference (held locate reference self.old.orders))) }
        ensures count { length self.new.states ≡ length self.old.states }
    {
        let Some(at) = held_at(self.entries.as_slice(), locate, reference) else {
            return Err(misfit(reference));
        };
        leave_with(&mut self.entries, at, 0);
        Ok(())
    }

    // A stock's trading state changes.
    fn act(&mut self, locate: u16, state: u8) -> Result<(), AuditError>
        ensures told { OnOk result (acted self.old locate state ≡ Ok self.new) }
        ensures misfit { IfErr result (IsMisfitOf (acted self.old locate state)) }
        ensures count { length self.new.states ≡ length self.old.states }
    {
        if !self.is_listed(locate) {
            return Err(misfit(0));
        }
        self.states[usize::from(locate) - 1] = state;
        Ok(())
    }

    /// What one more message tells.
    ///
    /// # Errors
    /// A misfit exactly where the message can't be applied, with its reference, or 0 for a trading state; else
    /// want of memory.
    pub fn tell(&mut self, message: &Feed) -> Result<(), AuditError>
        ensures told { OnOk result (told_what self.old message.now.locate message.now.what ≡ Ok self.new) }
        ensures misfit { IfErr result (IsMisfitOf (told_what self.old message.now.locate message.now.what)) }
        ensures count { length self.new.states ≡ length self.old.states }
    {
        let locate = message.locate;
        match message.what {
            What::Add {
                reference,
                side,
                shares,
                price,
                ..
            } => {
                let order = Shown {
                    stock: locate.saturating_sub(1),
                    reference,
                    side,
                    left: shares,
                    price,
                };
                self.add(locate, order)
            }
            What::Executed {
                reference,
                shares,
                ..
            }
            | What::Cancel { reference, shares } => self.lower(locate, reference, shares),
            What::Delete { reference } => self.delete(locate, reference),
            What::Trading { state, .. } => self.act(locate, state),
            _ => Ok(()),
        }
    }

    /// The orders that came, in order.
    pub fn entries(&self) -> &[Entry]
        ensures orders { kept result.now ≡ self.now.orders }
        ensures rising { IsRising 0 result.now }
        ensures listed { AllByRecursion (λ e. e.order.stock < length self.now.states) result.now }
    {
        self.entries.as_slice()
    }

    /// The trading state of each stock.
    pub fn states(&self) -> &[u8]
        ensures { result.now ≡ self.now.states }
    {
        self.states.as_slice()
    }

    /// The allocator that the lists were made with.
    pub fn allocator(&self) -> Global {
        *self.entries.allocator()
    }
}
