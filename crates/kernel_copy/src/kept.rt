//! What is kept of the entries of a segment's run.

ghost use Rattle.std.specs.Prelude.{◌≡◌, ◌++◌, OnOk, IfOk, All};
ghost use Rattle.std.specs.List.{flat_map};
ghost use Rattle.bundle_frames.specs.Frames.{entry_frames};
ghost use Rattle.market_types.specs.Timely.{IsTimely};
ghost use Rattle.kernel_copy.specs.Kept.{IsWritable, frames_of, kept_told, kept_as};

use crate::tallied::Tallied;
use bundle_frames::{Written, put_all};
use market_types::{EditMark, Memory, Record, Trace};
use packed_entries::{Packed, Step, Walk, blank_edit, blank_event};
use probe_desk::Summed;
use std::alloc::Global;

/// What is to be kept of a run's entries.
#[derive(Clone, Copy)]
pub enum Keep {
    /// They themselves, about 80 bytes each, and what the four columns of every table say of them.
    Entries,
    /// The bytes of their frames as they stand in a bundle, about 90 an entry. The entries are dropped as the run goes on.
    Frames,
    /// How many bytes their frames have, and their sum. Bytes and entries are dropped as the run goes on.
    Tallied,
    /// Nothing, where no one reads them.
    Nothing,
}

/// What is kept of a run's entries.
#[derive(Drop)]
pub enum Kept {
    /// They themselves, with their sums.
    Entries(Summed),
    /// The bytes of their frames, one after another.
    Frames(Vec<u8>),
    /// How many bytes their frames have, and their sum.
    Tallied(Tallied),
    /// Nothing.
    Nothing,
}

// The entries of a trace, kept small, with their sums.
fn summed_of(alloc: Global, trace: &Trace) -> Result<Summed, Memory>
    ensures { IfOk result (λ p. p.list ≡ trace.now.list) }
{
    let mut summed = Summed::new(alloc);
    let Ok(()) = summed.push_all(trace.as_slice()) else {
        drop(summed);
        return Err(Memory);
    };
    Ok(summed)
}

// The bytes of the frames of a trace's entries.
fn frames_of(alloc: Global, trace: &Trace) -> Result<Vec<u8>, Memory>
    requires { All IsTimely trace.now.list }
    ensures { IfOk result (λ v. v.items ≡ flat_map entry_frames trace.now.list) }
{
    let mut bytes = Vec::new(alloc);
    put_all(&mut bytes, trace.as_slice())?;
    Ok(bytes)
}

// What is to be kept of the entries of a trace.
fn kept_of(alloc: Global, keep: Keep, trace: &Trace) -> Result<Kept, Memory>
    requires { All IsTimely trace.now.list }
    ensures { IfOk result (λ x. kept_told x ≡ kept_as keep trace.now.list) }
{
    match keep {
        Keep::Entries => {
            let Ok(summed) = summed_of(alloc, trace) else {
                return Err(Memory);
            };
            Ok(Kept::Entries(summed))
        }
        Keep::Frames => Ok(Kept::Frames(frames_of(alloc, trace)?)),
        Keep::Tallied => {
            let bytes = frames_of(alloc, trace)?;
            Ok(Kept::Tallied(Tallied::of(bytes)))
        }
        Keep::Nothing => Ok(Kept::Nothing),
    }
}

// Appends the frames of the entries that are left to read.
fn put_rest(
    out: &mut Vec<u8>,
    walk: &mut Walk<'_>,
    event: &mut Record,
    edit: &mut EditMark,
) -> Result<(), Memory>
    requires { All IsTimely walk.old }
    ensures { OnOk result (out.new.items ≡ out.old.items ++ flat_map entry_frames walk.old) }
{
    'entries: loop {
        match walk.next(event, edit)? {
            Step::Event => event.put(out)?,
            Step::Edit => edit.put(out)?,
            Step::End => return Ok(()),
        }
    }
}

// Appends the frames of entries. One entry at a time is read.
fn put_packed(out: &mut Vec<u8>, entries: &Packed) -> Result<(), Memory>
    requires { All IsTimely entries.now.list }
    ensures { OnOk result (out.new.items ≡ out.old.items ++ flat_map entry_frames entries.now.list) }
{
    let alloc = *out.allocator();
    let mut event = blank_event(alloc);
    let mut edit = blank_edit(alloc);
    let mut walk = entries.walk();
    let put = put_rest(out, &mut walk, &mut event, &mut edit);
    drop(event);
    drop(edit);
    put
}

impl Kept {
    /// What is to be kept of the entries of a trace.
    ///
    /// # Errors
    /// Want of memory alone.
    pub fn of(alloc: Global, keep: Keep, trace: Trace) -> Result<Kept, Memory>
        requires { All IsTimely trace.list }
        ensures { IfOk result (λ x. kept_told x ≡ kept_as keep trace.list) }
    {
        let kept = kept_of(alloc, keep, &trace);
        drop(trace);
        kept
    }

    /// Appends the bytes of the frames: none where a tally is kept, or nothing. What stands in `out` after want of memory is
    /// left open.
    ///
    /// # Errors
    /// Want of memory alone.
    pub fn put(&self, out: &mut Vec<u8>) -> Result<(), Memory>
        requires { IsWritable (kept_told self.now) }
        ensures { OnOk result (out.new.items ≡ out.old.items ++ frames_of (kept_told self.now)) }
    {
        match self {
            Kept::Entries(summed) => put_packed(out, summed.packed())?,
            Kept::Frames(bytes) => out.extend_from_slice(bytes)?,
            Kept::Tallied(_) | Kept::Nothing => {}
        }
        Ok(())
    }
}
