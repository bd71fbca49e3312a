//! Probes that watch the records of a trace.

ghost use Rattle.std.specs.Prelude.{◌≡◌, ◌∷◌, [], ◌++◌, ◌<◌, ◌^◌, IfOk, IfSome, OnOk, ℤ, ℕ, List, map, length};
ghost use Rattle.market_types.specs.Told.{EntryTold, entry_told, event_told};
ghost use Rattle.probe_desk.specs.Probe.{column_of, seen};
ghost use Rattle.probe_desk.specs.Sums.{AreSums, moved};

use crate::{Probe, Sums};
use market_types::{EditMark, Entry, Memory, Record, Trace};
use packed_entries::{Packed, Step, Walk, blank_edit, blank_event};
use std::alloc::Global;

/// Each probe sees the records of a trace in order; edits are no records.
pub fn watch(probes: &mut [Box<dyn Probe>], records: &Trace)
    ensures numbers { map (λ p. numbers p) probes.new ≡ map (λ p. seen (meaning p) (numbers p) records.now.list) probes.old }
    ensures meanings { map (λ p. meaning p) probes.new ≡ map (λ p. meaning p) probes.old }
    ensures titles { map (λ p. title p) probes.new ≡ map (λ p. title p) probes.old }
{
    for probe in probes.iter_mut() {
        watch_one(probe.as_mut(), records.as_slice());
    }
}

// One probe sees the records of entries in order.
fn watch_one(probe: &mut dyn Probe, entries: &[Entry])
    ensures numbers { numbers probe.new ≡ seen (meaning probe.old) (numbers probe.old) (map entry_told entries.now) }
    ensures meaning { meaning probe.new ≡ meaning probe.old }
    ensures title { title probe.new ≡ title probe.old }
{
    for entry in entries {
        see_entry(probe, entry);
    }
}

// A probe sees a record, and nothing of an edit.
fn see_entry(probe: &mut dyn Probe, entry: &Entry)
    ensures numbers { numbers probe.new ≡ seen (meaning probe.old) (numbers probe.old) (entry_told entry.now ∷ []) }
    ensures meaning { meaning probe.new ≡ meaning probe.old }
    ensures title { title probe.new ≡ title probe.old }
{
    match entry {
        Entry::Event(event) => probe.see(event),
        Entry::Edit(_) => {}
    }
}

/// Each probe sees one record, delivered or put back.
pub fn see_all(probes: &mut [Box<dyn Probe>], event: &Record)
    ensures numbers { map (λ p. numbers p) probes.new ≡ map (λ p. (meaning p).after (numbers p) (event_told event.now)) probes.old }
    ensures meanings { map (λ p. meaning p) probes.new ≡ map (λ p. meaning p) probes.old }
    ensures titles { map (λ p. title p) probes.new ≡ map (λ p. title p) probes.old }
{
    for probe in probes.iter_mut() {
        see_one(probe.as_mut(), event);
    }
}

// One probe sees a record.
fn see_one(probe: &mut dyn Probe, event: &Record)
    ensures numbers { numbers probe.new ≡ (meaning probe.old).after (numbers probe.old) (event_told event.now) }
    ensures meaning { meaning probe.new ≡ meaning probe.old }
    ensures title { title probe.new ≡ title probe.old }
{
    probe.see(event);
}

// Each probe sees the records that are left to read; an edit is no record.
fn watch_rest(
    probes: &mut [Box<dyn Probe>],
    walk: &mut Walk<'_>,
    event: &mut Record,
    edit: &mut EditMark,
) -> Result<(), Memory>
    ensures numbers { OnOk result (map (λ p. numbers p) probes.new ≡ map (λ p. seen (meaning p) (numbers p) walk.old) probes.old) }
    ensures meanings { map (λ p. meaning p) probes.new ≡ map (λ p. meaning p) probes.old }
    ensures titles { map (λ p. title p) probes.new ≡ map (λ p. title p) probes.old }
{
    'entries: loop {
        match walk.next(event, edit)? {
            Step::Event => see_all(probes, event),
            Step::Edit => (),
            Step::End => return Ok(()),
        }
    }
}

/// Each probe sees the records of entries in order; edits are no records. One record at a time is read.
///
/// # Errors
/// Want of memory alone. The probes have then seen some of the records, the first ones.
pub fn watch_packed(
    alloc: Global,
    probes: &mut [Box<dyn Probe>],
    records: &Packed,
) -> Result<(), Memory>
    ensures numbers { OnOk result (map (λ p. numbers p) probes.new ≡ map (λ p. seen (meaning p) (numbers p) records.now.list) probes.old) }
    ensures meanings { map (λ p. meaning p) probes.new ≡ map (λ p. meaning p) probes.old }
    ensures titles { map (λ p. title p) probes.new ≡ map (λ p. title p) probes.old }
{
    let mut event = blank_event(alloc);
    let mut edit = blank_edit(alloc);
    let mut walk = records.walk();
    watch_rest(probes, &mut walk, &mut event, &mut edit)
}

/// Each probe opens anew, as before a branch.
pub fn restart_all(probes: &mut [Box<dyn Probe>])
    ensures numbers { map (λ p. numbers p) probes.new ≡ map (λ p. (meaning p).opening) probes.old }
    ensures meanings { map (λ p. meaning p) probes.new ≡ map (λ p. meaning p) probes.old }
    ensures titles { map (λ p. title p) probes.new ≡ map (λ p. title p) probes.old }
{
    for probe in probes.iter_mut() {
        restart_one(probe.as_mut());
    }
}

// One probe opens anew.
fn restart_one(probe: &mut dyn Probe)
    ensures numbers { numbers probe.new ≡ (meaning probe.old).opening }
    ensures meaning { meaning probe.new ≡ meaning probe.old }
    ensures title { title probe.new ≡ title probe.old }
{
    probe.restart();
}

/// What each probe says of entries with these sums, in order, if each is the probe of a column of every table. So nothing is
/// read again.
///
/// # Errors
/// Want of memory alone.
pub fn values_by_sums(
    alloc: Global,
    probes: &[Box<dyn Probe>],
    sums: &Sums,
) -> Result<Option<Vec<i128>>, Memory>
    ensures { (es : List EntryTold) → AreSums sums.now es → moved es < 2 ^ 127 → IfOk result (λ told. IfSome told (λ v. v.items ≡ map (λ p. column_of (meaning p) es) probes.now)) }
{
    let mut all = Vec::new(alloc);
    for probe in probes {
        match probe.as_ref().column() {
            Some(column) => all.push(sums.number(column))?,
            None => {
                drop(all);
                return Ok(None);
            }
        }
    }
    Ok(Some(all))
}

/// What each probe says, in order.
pub fn values(alloc: Global, probes: &[Box<dyn Probe>]) -> Result<Vec<i128>, Memory>
    ensures { IfOk result (λ v. v.items ≡ map (λ p. (meaning p).value (numbers p)) probes.now) }
{
    let mut all = Vec::new(alloc);
    for probe in probes {
        all.push(probe.as_ref().value())?;
    }
    Ok(all)
}
