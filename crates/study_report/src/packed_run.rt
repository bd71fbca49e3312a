//! A run whose entries are kept in parts, record by record.

ghost use Rattle.std.specs.Prelude.{◌≡◌, ◌++◌, IfOk, drop};
ghost use Rattle.std.specs.List.{flat_map};
ghost use Rattle.market_types.specs.Told.{event_told};
ghost use Rattle.study_report.specs.Difference.{events_in};
ghost use Rattle.study_report.specs.Next.{Leads};
ghost use Rattle.study_report.specs.PackedRuns.{left_in};

use market_types::{EditMark, Memory, Record};
use packed_entries::{Step, Walk, blank_edit, blank_event};
use probe_desk::Summed;
use std::alloc::Global;

// The record that was read last, and what is left to read: of a part, and of the parts from a place on.
#[derive(Drop)]
pub(crate) struct PackedRun<'a> {
    pub event: Record,
    edit: EditMark,
    walk: Walk<'a>,
    parts: &'a [&'a Summed],
    place: usize,
}

// Reads the next record of entries.
fn next_record(walk: &mut Walk<'_>, event: &mut Record, edit: &mut EditMark) -> Result<bool, Memory>
    ensures { IfOk result (λ more. Leads more (event_told event.new) (events_in walk.old) (events_in walk.new)) }
{
    'entries: loop {
        match walk.next(event, edit)? {
            Step::Event => return Ok(true),
            Step::Edit => (),
            Step::End => return Ok(false),
        }
    }
}

// Reads the next record of entries and of the parts from a place on.
fn next_in_parts<'a>(
    walk: &mut Walk<'a>,
    parts: &[&'a Summed],
    place: &mut usize,
    event: &mut Record,
    edit: &mut EditMark,
) -> Result<bool, Memory>
    ensures { IfOk result (λ more. Leads more (event_told event.new)
        (events_in (walk.old ++ flat_map (λ t. t.now.list) (drop place.old parts.now)))
        (events_in (walk.new ++ flat_map (λ t. t.now.list) (drop place.new parts.now)))) }
{
    if next_record(walk, event, edit)? {
        return Ok(true);
    }
    for i in *place..parts.len() {
        *walk = parts[i].packed().walk();
        if next_record(walk, event, edit)? {
            *place = i + 1;
            return Ok(true);
        }
    }
    Ok(false)
}

impl<'a> PackedRun<'a> {
    // A run of which nothing was read.
    pub(crate) fn new(alloc: Global, parts: &'a [&'a Summed]) -> PackedRun<'a>
        ensures { left_in result ≡ events_in (flat_map (λ t. t.now.list) parts.now) }
    {
        PackedRun {
            event: blank_event(alloc),
            edit: blank_edit(alloc),
            walk: Walk::none(),
            parts,
            place: 0,
        }
    }

    // Reads the next record.
    pub(crate) fn next(&mut self) -> Result<bool, Memory>
        ensures { IfOk result (λ more. Leads more (event_told self.new.event) (left_in self.old) (left_in self.new)) }
    {
        next_in_parts(
            &mut self.walk,
            self.parts,
            &mut self.place,
            &mut self.event,
            &mut self.edit,
        )
    }
}
