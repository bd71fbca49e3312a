//! The audit of all branches.

ghost use Rattle.std.specs.Prelude.{◌≡◌, IfOk, map};
ghost use Rattle.bundle_reader.specs.Told.{branch_told, bundle_told};
ghost use Rattle.audit_desk.specs.Audited.{audit_of, displayed_over, first_failing};

use crate::branch::misfit_of;
use crate::failing::Failing;
use crate::listed::count_displayed;
use bundle_reader::{Bundle, Told};
use market_types::Memory;
use std::alloc::Global;

// The first of branches that fails, each of so many stocks.
fn first_failing(alloc: Global, stocks: u16, branches: &[Told]) -> Result<Option<Failing>, Memory>
    ensures { IfOk result (λ failing. failing ≡ first_failing stocks 0 (map branch_told branches.now)) }
{
    for (branch, told) in branches.iter().enumerate() {
        if let Some(misfit) = misfit_of(alloc, stocks, told)? {
            let reference = misfit.reference;
            return Ok(Some(Failing { branch, reference }));
        }
    }
    Ok(None)
}

/// The first branch of a bundle whose closing isn't what its feed tells; `None` exactly where each closing is. The books of one
/// branch are held at a time.
///
/// # Errors
/// Want of memory alone.
#[tactic(auto, unfolding(crate::specs::Audited::audit_of))]
pub fn audit(alloc: Global, bundle: &Bundle) -> Result<Option<Failing>, Memory>
    ensures { IfOk result (λ failing. failing ≡ audit_of (bundle_told bundle.now)) }
{
    first_failing(alloc, bundle.stocks, bundle.branches.as_slice())
}

// How many displayed orders the closings of branches tell. In 128 bits no orders that a memory holds overflow the sum.
fn displayed_over(branches: &[Told]) -> u128
    ensures { result ≡ displayed_over (map branch_told branches.now) }
{
    let mut orders = 0;
    for told in branches {
        orders += count_displayed(&told.closing) as u128;
    }
    orders
}

/// How many displayed orders the closings of a bundle tell.
pub fn displayed_orders(bundle: &Bundle) -> u128
    ensures { result ≡ displayed_over (bundle_told bundle.now).branches }
{
    displayed_over(bundle.branches.as_slice())
}
