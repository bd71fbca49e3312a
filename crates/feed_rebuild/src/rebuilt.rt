//! The books and trading states that a whole feed tells.

ghost use Rattle.std.specs.Prelude.{◌≡◌, Ok, IfOk, IfErr, length, option_map};
ghost use Rattle.feed_rebuild.specs.Entries.{IsMisfitOf};
ghost use Rattle.feed_rebuild.specs.Fold.{fold};
ghost use Rattle.feed_rebuild.specs.Books.{books};
ghost use Rattle.feed_rebuild.specs.Compared.{difference};

use crate::compared::order_difference;
use crate::retold::Retold;
use crate::shown::{AuditError, Misfit, Shown};
use market_types::FeedList;
use std::alloc::Global;
use std::marker::Model;

/// The displayed orders in the order of the feed, and the trading state of each stock.
#[derive(Drop)]
pub struct Rebuilt {
    told: Retold,
}

impl Model for Rebuilt {
    ghost use Rattle.feed_rebuild.specs.Books.{Books, books_of};

    ghost Value = { Books };

    ghost view = { λ r. books_of r.told };
}

// What a feed of so many stocks tells.
fn retell(alloc: Global, feed: &FeedList, stocks: u16) -> Result<Retold, AuditError>
    ensures told { IfOk result (λ t. fold stocks feed.now.list ≡ Ok t) }
    ensures misfit { IfErr result (IsMisfitOf (fold stocks feed.now.list)) }
    ensures count { IfOk result (λ t. length t.states ≡ stocks) }
{
    let mut told = Retold::new(alloc, stocks)?;
    for message in feed.as_slice() {
        if let Err(error) = told.tell(message) {
            return Err(error);
        }
    }
    Ok(told)
}

/// The displayed orders and the trading states that a feed of so many stocks tells.
///
/// # Errors
/// A misfit exactly at the first message that can't be applied, with its reference, or 0 for a trading state;
/// else want of memory.
pub fn rebuild(alloc: Global, feed: &FeedList, stocks: u16) -> Result<Rebuilt, AuditError>
    ensures told { IfOk result (λ r. books (fold stocks feed.now.list) ≡ Ok r) }
    ensures misfit { IfErr result (IsMisfitOf (fold stocks feed.now.list)) }
    ensures count { IfOk result (λ r. length r.states ≡ stocks) }
{
    Ok(Rebuilt {
        told: retell(alloc, feed, stocks)?,
    })
}

impl Rebuilt {
    /// What tells the orders of each stock, in order, from these, and the states from these: `None` exactly where
    /// nothing does. Else the least reference that stands in one alone or differs in a field, or 0 where only
    /// the order or a state differs.
    pub fn compare(&self, live: &[Shown], states: &[u8]) -> Option<Misfit>
        ensures { option_map (λ m. m.reference) result ≡ difference (length self.now.states) self.now.orders self.now.states live.now states.now }
    {
        let told = &self.told;
        let differs = order_difference(told.allocator(), told.entries(), live);
        if differs.is_none() && told.states() != states {
            return Some(Misfit { reference: 0 });
        }
        differs.map(|reference| Misfit { reference })
    }
}
