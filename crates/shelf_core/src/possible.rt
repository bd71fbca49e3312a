//! Where each event is possible.

ghost use Rattle.std.specs.Prelude.{◌≡◌, ◌<◌, ◌==◌, ◌++◌, Some, None, option_map, slice_get, is_some, length, not};
ghost use Rattle.std.specs.Option.{option_copied};
ghost use Rattle.shelf_core.specs.Plan.{is_in, are_distinct, place_in, sole_in};
ghost use Rattle.shelf_core.specs.Views.{live_view, live_views, has_turn};
ghost use Rattle.shelf_core.specs.Possible.{possible, word_at, is_replaceable, allows_writing, seen_at};
ghost use Rattle.shelf_core.specs.Words.{is_ready};
ghost use Rattle.std.specs.List.{list_any, list_all};
ghost use Rattle.shelf_core.specs.Orderly.{IsSmall};

use crate::places::{is_in, place_in};
use crate::{ClaimWord, Event, Key, PlaceWord, SeatView, Seen, ShelfPlan, System, Word};

impl System {
    /// Whether an event is possible.
    pub fn is_possible(&self, event: &Event) -> bool
        requires small { IsSmall self.now.plan }
        ensures { result ≡ possible self.now event.now }
    {
        match event {
            Event::Lay(plan) => self.can_lay(plan),
            Event::Claim(n, segment) => self.can_claim(*n, *segment),
            Event::Begin(n, key) => self.can_begin(*n, *key),
            Event::Publish(n, key) => self.can_publish(*n, *key),
            Event::Abandon(n, key) => self.can_abandon(*n, *key),
            Event::Lend(n, key) => self.can_lend(*n, *key),
            Event::Return(n) => self.can_return(*n),
            Event::Count(n) => self.can_count(*n),
            Event::Stop(n) => self.can_stop(*n),
            Event::Load(n, word) => self.can_load(*n, *word),
            Event::Split(n) => self.can_split(*n),
            Event::Join(n, m) => self.can_join(*n, *m),
        }
    }

    // The view of seat `n`, where it isn't spent.
    pub(crate) fn seat(&self, n: u32) -> Option<&SeatView>
        ensures { option_map (λ view. view.now) result ≡ live_view self.now.views n }
    {
        let view = self.views.get(n as usize)?;
        if view.spent { None } else { Some(view) }
    }

    // The word of a key's place.
    fn word_at(&self, key: Key) -> Option<PlaceWord>
        requires small { IsSmall self.now.plan }
        ensures { result ≡ word_at self.now key }
    {
        let place = place_in(&self.plan, key)?;
        self.places.get(place as usize).copied()
    }

    // Whether a value of a key may be written where this word stands.
    fn allows_writing(&self, key: Key, word: Option<PlaceWord>) -> bool
        requires small { IsSmall self.now.plan }
        ensures { result ≡ allows_writing self.now key word }
    {
        match word {
            Some(PlaceWord::Free) => true,
            Some(PlaceWord::Ready(other)) => self.has_grid_place(key) && other != key,
            _ => false,
        }
    }

    // Whether a key's place is behind those of the forks.
    fn has_grid_place(&self, key: Key) -> bool
        requires small { IsSmall self.now.plan }
        ensures { result ≡ is_replaceable self.now key (place_in self.now.plan key) }
    {
        match (&self.plan, place_in(&self.plan, key)) {
            (Some(plan), Some(place)) => plan.forks.len() <= place as usize,
            _ => false,
        }
    }

    // What a load of a word sees, where there is such a word.
    pub(crate) fn seen_at(&self, word: Word) -> Option<Seen>
        ensures { result ≡ seen_at self.now word }
    {
        match word {
            Word::Claim(segment) => {
                let word = self.claims.get(segment as usize)?;
                Some(Seen::Claim(segment, *word))
            }
            Word::Place(place) => {
                let word = self.places.get(place as usize)?;
                Some(Seen::Place(place, *word))
            }
            Word::Done => {
                if self.plan.is_none() {
                    return None;
                }
                Some(Seen::Done(self.done, self.stopped))
            }
        }
    }

    fn can_lay(&self, plan: &ShelfPlan) -> bool
        ensures { result ≡ possible self.now (Event.Lay plan.now) }
    {
        self.plan.is_none() && self.has_one_seat() && has_distinct_keys(plan)
    }

    fn has_one_seat(&self) -> bool
        ensures { result ≡ (length (live_views self.now.views) == 1) }
    {
        count_live(self.views.as_slice()) == 1
    }

    fn can_claim(&self, n: u32, segment: u32) -> bool
        ensures { result ≡ possible self.now (Event.Claim n segment) }
    {
        match self.seat(n) {
            None => false,
            Some(_) => self.claims.get(segment as usize) == Some(&ClaimWord::Open),
        }
    }

    fn can_begin(&self, n: u32, key: Key) -> bool
        requires small { IsSmall self.now.plan }
        ensures { result ≡ possible self.now (Event.Begin n key) }
    {
        match self.seat(n) {
            None => false,
            Some(view) => view.has_claim(key.segment)
                && self.allows_writing(key, self.word_at(key)),
        }
    }

    fn can_publish(&self, n: u32, key: Key) -> bool
        ensures { result ≡ possible self.now (Event.Publish n key) }
    {
        match self.seat(n) {
            None => false,
            Some(view) => view.has_turn(key),
        }
    }

    fn can_abandon(&self, n: u32, key: Key) -> bool
        ensures { result ≡ possible self.now (Event.Abandon n key) }
    {
        match self.seat(n) {
            None => false,
            Some(view) => view.has_turn(key),
        }
    }

    fn can_lend(&self, n: u32, key: Key) -> bool
        requires small { IsSmall self.now.plan }
        ensures { result ≡ possible self.now (Event.Lend n key) }
    {
        match self.seat(n) {
            None => false,
            Some(view) => is_ready(key, self.word_at(key)) && view.loan.is_none(),
        }
    }

    fn can_return(&self, n: u32) -> bool
        ensures { result ≡ possible self.now (Event.Return n) }
    {
        match self.seat(n) {
            None => false,
            Some(view) => view.loan.is_some(),
        }
    }

    fn can_count(&self, n: u32) -> bool
        ensures { result ≡ possible self.now (Event.Count n) }
    {
        match self.seat(n) {
            None => false,
            Some(view) => (view.counts as usize) < view.claims.len(),
        }
    }

    fn can_stop(&self, n: u32) -> bool
        ensures { result ≡ possible self.now (Event.Stop n) }
    {
        match self.seat(n) {
            None => false,
            Some(_) => self.plan.is_some(),
        }
    }

    fn can_load(&self, n: u32, word: Word) -> bool
        ensures { result ≡ possible self.now (Event.Load n word) }
    {
        match self.seat(n) {
            None => false,
            Some(_) => self.seen_at(word).is_some(),
        }
    }

    fn can_split(&self, n: u32) -> bool
        ensures { result ≡ possible self.now (Event.Split n) }
    {
        self.seat(n).is_some()
    }

    fn can_join(&self, n: u32, m: u32) -> bool
        ensures { result ≡ possible self.now (Event.Join n m) }
    {
        match (self.seat(n), self.seat(m)) {
            (Some(_), Some(other)) => m != n && other.turns.len() == 0 && other.loan.is_none(),
            _ => false,
        }
    }
}

impl SeatView {
    // Whether a segment is among the claims.
    fn has_claim(&self, segment: u32) -> bool
        ensures { result ≡ list_any (λ claim. claim == segment) self.now.claims }
    {
        self.claims.as_slice().iter().any(|claim| *claim == segment)
    }

    // Whether a key is among the turns.
    fn has_turn(&self, key: Key) -> bool
        ensures { result ≡ has_turn key self.now.turns }
    {
        self.turns.as_slice().iter().any(|turn| turn.1 == key)
    }
}

// How many views aren't spent.
fn count_live(views: &[SeatView]) -> usize
    ensures { result ≡ length (live_views views.now) }
{
    views.iter().filter(|view| !view.spent).count()
}

// Whether a place's word is there and is Ready of this key.
fn is_ready(key: Key, word: Option<PlaceWord>) -> bool
    ensures { result ≡ is_ready key word }
{
    match word {
        Some(PlaceWord::Ready(other)) => other == key,
        _ => false,
    }
}

// Whether no key of a plan stands twice among its forks and grid keys.
#[tactic(auto, using(crate::proofs::Plans::distinct_append))]
fn has_distinct_keys(plan: &ShelfPlan) -> bool
    ensures { result ≡ are_distinct (plan.now.forks ++ plan.now.grid) }
{
    let (forks, grid) = (plan.forks.as_slice(), plan.grid.as_slice());
    are_distinct(forks) && are_distinct(grid) && are_apart(forks, grid)
}

// Whether no key of a list stands in another.
fn are_apart(keys: &[Key], others: &[Key]) -> bool
    ensures { result ≡ list_all (λ key. not (is_in key others.now)) keys.now }
{
    keys.iter().all(|key| !is_in(others, *key))
}

// Whether no key stands twice in a list.
fn are_distinct(keys: &[Key]) -> bool
    ensures { result ≡ are_distinct keys.now }
{
    for (i, key) in keys.iter().enumerate() {
        if is_in(&keys[i + 1..], *key) {
            return false;
        }
    }
    true
}
