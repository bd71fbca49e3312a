//! Claims, and the done word.

ghost use Rattle.std.specs.Prelude.{◌≡◌, ℕ, ◌+◌, ◌<◌, ◌≤◌, Bool, Some, true, false, IsTrue, IsFalse, MatchBool, length};
ghost use Rattle.shelf_core.specs.Views.{times};
ghost use Rattle.shelf_core.specs.After.{with_claim, with_count, having_stopped, having_loaded};
ghost use Rattle.shelf_core.specs.declared.words.ClaimWord.TheVariants.{Taken as taken_word};
ghost use Rattle.shelf_core.specs.declared.words.Word.TheVariants.{Claim as claim_word, Done as done_word};
ghost use Rattle.shelf_core.specs.declared.words.Seen.TheVariants.{Claim as claim_seen, Done as done_seen};
ghost use Rattle.shelf_core.specs.declared.event.Event.TheVariants.{Claim as claim_event, Count as count_event, Stop as stop_event};
ghost use Rattle.shelf_core.specs.Made.{Makes, Sees, Same, Stays};

use crate::law::{Claims, Counts, Reads, Stops};
use crate::seat::ShelfSeat;
use crate::shelf::Shelf;
use crate::shelved::Shelved;

/// What the done word said.
#[derive(Clone, Copy, PartialEq, Eq, Debug)]
pub struct Progress {
    /// How many segments were counted as done.
    pub done: u32,
    /// Whether a seat has set the stop bit.
    pub stopped: bool,
}

impl<C: Shelved> Shelf<C> {
    /// Claims a segment, where no seat has claimed it.
    pub fn claim(&self, seat: &mut ShelfSeat<C>, segment: u32) -> bool
        requires seat { seat.old.shelf ≡ Some self.now }
        requires segment { segment < self.now.plan.segments }
        ensures same { seat.new.shelf ≡ seat.old.shelf }
        ensures claimed { IsTrue result → (seat.new.view ≡ with_claim segment seat.old.view) × (times segment seat.old.view.claims ≡ 0) × Makes self.now.plan (λ n. claim_event n segment) seat.old.view seat.new.view }
        ensures mine { IsTrue result → 0 < times segment seat.new.view.claims }
        ensures kept { IsFalse result → Same seat.old.view seat.new.view × Stays seat.old.view seat.new.view }
        ensures refused { IsFalse result → (m : ℕ) × Sees self.now.plan (claim_word segment) (claim_seen segment (taken_word m)) seat.old.view seat.new.view }
    {
        let word = 1 + self.plan.forks.len() + self.plan.places as usize + segment as usize;
        let mine = u64::from(seat.number) + 1;
        let found = self
            .table
            .shared
            .compare_exchange::<Claims>(&mut seat.seat, word, 0, mine);
        found == 0
    }

    /// Counts one of the seat's claims as done.
    pub fn count(&self, seat: &mut ShelfSeat<C>)
        requires seat { seat.old.shelf ≡ Some self.now }
        requires more { seat.old.view.counts < length seat.old.view.claims }
        ensures same { seat.new.shelf ≡ seat.old.shelf }
        ensures counted { seat.new.view ≡ with_count seat.old.view }
        ensures step { Makes self.now.plan count_event seat.old.view seat.new.view }
    {
        self.table.shared.fetch_add::<Counts>(&mut seat.seat, 0, 2);
    }

    /// Sets the stop bit, which stays.
    pub fn stop(&self, seat: &mut ShelfSeat<C>)
        requires seat { seat.old.shelf ≡ Some self.now }
        ensures same { seat.new.shelf ≡ seat.old.shelf }
        ensures stopped { seat.new.view ≡ having_stopped seat.old.view }
        ensures step { Makes self.now.plan stop_event seat.old.view seat.new.view }
    {
        self.table.shared.fetch_or::<Stops>(&mut seat.seat, 0, 1);
    }

    /// What the done word says.
    pub fn progress(&self, seat: &mut ShelfSeat<C>) -> Progress
        requires seat { seat.old.shelf ≡ Some self.now }
        ensures same { seat.new.shelf ≡ seat.old.shelf }
        ensures seen { Sees self.now.plan done_word (done_seen result.done result.stopped) seat.old.view seat.new.view }
        ensures kept { Same seat.old.view seat.new.view × Stays seat.old.view seat.new.view }
        ensures no_less { seat.old.view.done_seen ≤ result.done }
        ensures own { seat.old.view.counts ≤ result.done }
        ensures stays { seat.old.view.stopped ≡ true → result.stopped ≡ true }
    {
        let found = self.table.shared.load::<Reads>(&mut seat.seat, 0);
        Progress {
            done: (found / 2) as u32,
            stopped: found % 2 == 1,
        }
    }
}
