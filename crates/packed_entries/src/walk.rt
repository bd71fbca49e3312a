//! Entries that are read one after another.

ghost use Rattle.std.specs.Prelude.{◌≡◌, [], IfOk};
ghost use Rattle.market_types.specs.Told.{edit_told, event_told};
ghost use Rattle.packed_entries.specs.Told.{Follows};

use crate::mark::Mark;
use crate::reading::is_edit;
use crate::rest::Rest;
use market_types::{EditMark, Memory, Record};
use std::marker::Model;

/// What was read.
#[derive(Clone, Copy)]
pub enum Step {
    Event,
    Edit,
    /// No entry was left.
    End,
}

/// The entries that are left to read, in order.
#[derive(Drop)]
pub struct Walk<'a> {
    pub(crate) marks: &'a [Mark],
    pub(crate) rest: Rest<'a>,
}

impl<'a> Model for Walk<'a> {
    ghost use Rattle.std.specs.Prelude.{List};
    ghost use Rattle.market_types.specs.Told.{EntryTold};
    ghost use Rattle.packed_entries.specs.Entries.{IsWhole, entries_of};
    ghost use Rattle.packed_entries.specs.Told.{rest_told};

    ghost Value = { List EntryTold };

    ghost view = { λ w. entries_of w.marks.now (rest_told w.rest) };

    ghost invariant = { λ w. IsWhole w.marks.now (rest_told w.rest) };
}

impl<'a> Walk<'a> {
    /// No entry is left to read.
    pub fn none() -> Walk<'a>
        ensures { result ≡ [] }
    {
        Walk {
            marks: &[],
            rest: Rest {
                enters: &[],
                cancels: &[],
                accepted: &[],
                shorts: &[],
                quotes: &[],
                extras: &[],
                edits: &[],
                feed: &[],
            },
        }
    }

    /// Reads the next entry: an event into `event`, an edit into `edit`, whose lists keep their memory. The other one stays
    /// as it was.
    ///
    /// # Errors
    /// Want of memory alone. What stands in both is then left open.
    pub fn next(&mut self, event: &mut Record, edit: &mut EditMark) -> Result<Step, Memory>
        ensures { IfOk result (λ s. Follows s (event_told event.new) (edit_told edit.new) self.old self.new) }
    {
        let marks = self.marks;
        let Some((mark, later)) = marks.split_first() else {
            return Ok(Step::End);
        };
        if is_edit(mark.kind) {
            self.rest.take_edit(mark, edit)?;
            self.marks = later;
            return Ok(Step::Edit);
        }
        self.rest.take_event(mark, event)?;
        self.marks = later;
        Ok(Step::Event)
    }
}
