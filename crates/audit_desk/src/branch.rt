//! The audit of one branch.

ghost use Rattle.std.specs.Prelude.{◌≡◌, Ok, IfOk, IfErr, length, option_map};
ghost use Rattle.bundle_reader.specs.Told.{branch_told};
ghost use Rattle.feed_rebuild.specs.Books.{books};
ghost use Rattle.feed_rebuild.specs.Compared.{difference};
ghost use Rattle.feed_rebuild.specs.Entries.{IsMisfitOf};
ghost use Rattle.feed_rebuild.specs.Fold.{fold};
ghost use Rattle.audit_desk.specs.Audited.{branch_feed, displayed, misfit_of, states_of};

use crate::gathered::gather;
use crate::listed::{displayed, states_of};
use bundle_frames::Closing;
use bundle_reader::Told;
use feed_rebuild::{AuditError, Misfit, Rebuilt, rebuild};
use market_types::Memory;
use std::alloc::Global;

// What a branch's feed of so many stocks tells. The gathered feed is let go.
fn rebuilt_of(alloc: Global, stocks: u16, branch: &Told) -> Result<Rebuilt, AuditError>
    ensures told { IfOk result (λ r. books (fold stocks (branch_feed (branch_told branch.now))) ≡ Ok r) }
    ensures misfit { IfErr result (IsMisfitOf (fold stocks (branch_feed (branch_told branch.now)))) }
    ensures count { IfOk result (λ r. length r.states ≡ stocks) }
{
    let feed = gather(alloc, branch)?;
    rebuild(alloc, &feed, stocks)
}

// What tells rebuilt books and states from a closing.
fn compared(alloc: Global, rebuilt: &Rebuilt, closing: &Closing) -> Result<Option<Misfit>, Memory>
    ensures { IfOk result (λ misfit. option_map (λ m. m.reference) misfit
        ≡ difference (length rebuilt.now.states) rebuilt.now.orders rebuilt.now.states (displayed closing.now) (states_of closing.now)) }
{
    let live = displayed(alloc, closing)?;
    let states = states_of(alloc, closing)?;
    Ok(rebuilt.compare(&live, &states))
}

/// What tells a branch's feed, of so many stocks, from its closing: the first message that can't be applied, or the least odd
/// order.
pub fn misfit_of(alloc: Global, stocks: u16, branch: &Told) -> Result<Option<Misfit>, Memory>
    ensures { IfOk result (λ misfit. option_map (λ m. m.reference) misfit ≡ misfit_of stocks (branch_told branch.now)) }
{
    match rebuilt_of(alloc, stocks, branch) {
        Ok(rebuilt) => compared(alloc, &rebuilt, &branch.closing),
        Err(AuditError::Misfit(misfit)) => Ok(Some(misfit)),
        Err(AuditError::Memory) => Err(Memory),
    }
}
