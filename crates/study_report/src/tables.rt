//! The table of a study.

ghost use Rattle.std.specs.Prelude.{◌≡◌, [], IfOk, OnOk, length, map};
ghost use Rattle.trace_bundle.specs.Ran.{IsListedRunOf};
ghost use Rattle.study_report.specs.Tables.{rows_of, study_table};

use crate::branch_row::row;
use crate::{TableRow, table};
use kernel_copy::Course;
use market_types::Memory;
use probe_desk::Probe;
use std::alloc::Global;
use trace_bundle::RunOutcomes;

// Appends the rows of all branches, in order, to a list without rows.
fn add_rows<W: RunOutcomes>(
    rows: &mut Vec<TableRow>,
    alloc: Global,
    course: &Course,
    ran: &W,
    probes: &mut [Box<dyn Probe>],
) -> Result<(), Memory>
    requires ran { IsListedRunOf course.now (W.count ran.now) (W.kept_of ran.now) (W.closing_of ran.now) }
    requires empty { rows.old.items ≡ [] }
    ensures rows { OnOk result (rows.new.items ≡ rows_of course.now (map (λ p. meaning p) probes.old) (length course.now.plan.branches)) }
    ensures meanings { map (λ p. meaning p) probes.new ≡ map (λ p. meaning p) probes.old }
    ensures titles { map (λ p. title p) probes.new ≡ map (λ p. title p) probes.old }
{
    for b in 0..course.plan().branches().len() {
        let next = row(alloc, course, ran, b as u16, probes)?;
        rows.push(next)?;
    }
    Ok(())
}

// The rows of all branches in order.
fn rows<W: RunOutcomes>(
    alloc: Global,
    course: &Course,
    ran: &W,
    probes: &mut [Box<dyn Probe>],
) -> Result<Vec<TableRow>, Memory>
    requires { IsListedRunOf course.now (W.count ran.now) (W.kept_of ran.now) (W.closing_of ran.now) }
    ensures rows { IfOk result (λ v. v.items ≡ rows_of course.now (map (λ p. meaning p) probes.old) (length course.now.plan.branches)) }
    ensures meanings { map (λ p. meaning p) probes.new ≡ map (λ p. meaning p) probes.old }
    ensures titles { map (λ p. title p) probes.new ≡ map (λ p. title p) probes.old }
{
    let mut rows = Vec::new(alloc);
    match add_rows(&mut rows, alloc, course, ran, probes) {
        Ok(()) => Ok(rows),
        Err(memory) => {
            drop(rows);
            Err(memory)
        }
    }
}

/// The table of a study in comma-separated values, from a run of its segments that holds their entries themselves: a line of
/// heads, and then a row for each branch in order. A row has the branch's name, that of the branch that it leaves, the event
/// number at which it leaves or how many events came by the time at which it does, how many events its full run has and what
/// ended it, the first event number at which the run differs from its parent's, and the number of each probe.
///
/// Where each probe is that of a column of every table, their numbers are taken from the sums that the run keeps of each
/// segment: no entry is read for them, and no probe changes. Else each probe opens anew before each branch, the first too, and
/// sees the records of the branch's full run in order, from the opening. Its meaning and its title stay, whatever is answered.
/// The first difference is looked for behind the segments that both runs go along.
///
/// # Errors
/// Want of memory alone.
pub fn study_table<W: RunOutcomes>(
    alloc: Global,
    course: &Course,
    ran: &W,
    probes: &mut [Box<dyn Probe>],
) -> Result<Vec<u8>, Memory>
    requires { IsListedRunOf course.now (W.count ran.now) (W.kept_of ran.now) (W.closing_of ran.now) }
    ensures table { IfOk result (λ v. v.items ≡ study_table course.now (map (λ p. meaning p) probes.old) (map (λ p. title p) probes.old)) }
    ensures meanings { map (λ p. meaning p) probes.new ≡ map (λ p. meaning p) probes.old }
    ensures titles { map (λ p. title p) probes.new ≡ map (λ p. title p) probes.old }
{
    let rows = rows(alloc, course, ran, probes)?;
    table(alloc, rows.as_slice(), probes)
}
