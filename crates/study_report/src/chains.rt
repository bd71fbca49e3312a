//! The segments that full runs go along.

ghost use Rattle.std.specs.Prelude.{◌≡◌, ◌<◌, ◌≤◌, IfOk, length, take};
ghost use Rattle.study_report.specs.Chains.{IsChainOf};

use kernel_copy::Course;
use market_types::Memory;
use std::alloc::Global;

/// The numbers of the segments that a branch's full run goes along, in order.
pub(crate) fn chain_of(alloc: Global, course: &Course, branch: u16) -> Result<Vec<u32>, Memory>
    requires { branch < length course.now.plan.branches }
    ensures { IfOk result (λ v. IsChainOf course.now branch v.items) }
{
    course.know_course();
    let mut at = course.last_segment(branch);
    let mut chain = Vec::new(alloc);
    chain.push(at)?;
    while let Some(parent) = course.segment(at).parent {
        chain.push(parent)?;
        at = parent;
    }
    chain.reverse();
    Ok(chain)
}

/// How many segments two chains share at their beginning.
pub(crate) fn shared_count(a: &[u32], b: &[u32]) -> usize
    ensures within { result ≤ length a.now }
    ensures others { result ≤ length b.now }
    ensures same { take result a.now ≡ take result b.now }
{
    let least = a.len().min(b.len());
    for i in 0..least {
        if a[i] != b[i] {
            return i;
        }
    }
    least
}
