//! What each event leaves, where it is possible.

ghost use Rattle.std.specs.Prelude.{◌≡◌, ◌+◌, ◌-◌, ◌<◌, ◌≤◌, ◌^◌, OnOk, OnErr, IfOk, Some, IsTrue, length, slice_get};
ghost use Rattle.shelf_core.specs.Plan.{place_count, segments_in};
ghost use Rattle.shelf_core.specs.Possible.{possible};
ghost use Rattle.shelf_core.specs.After.{after, put, key_place};
ghost use Rattle.shelf_core.specs.Orderly.{Orderly, IsSmall, IsSmallEvent};

use crate::places::place_in;
use crate::{ClaimWord, Event, Key, PlaceWord, SeatView, ShelfPlan, System, Word};
use plain_lists::{Memory, Sequence};
use std::alloc::Global;

impl System {
    // The view of seat `n`.
    fn view(&self, n: u32) -> &SeatView
        requires { n < length self.now.views }
        ensures { slice_get self.now.views n ≡ Some result.now }
    {
        &self.views.as_slice()[n as usize]
    }

    // The place of a key that has one.
    fn key_place(&self, key: Key) -> u32
        requires small { IsSmall self.now.plan }
        ensures { result ≡ key_place self.now key }
    {
        place_in(&self.plan, key).unwrap_or(0)
    }

    // The number of segments of the plan, and 0 where nothing is laid.
    fn segment_count(&self) -> u32
        ensures { result ≡ segments_in self.now.plan }
    {
        match &self.plan {
            None => 0,
            Some(plan) => plan.segments,
        }
    }

    // Puts another word and value at a place.
    fn put(&mut self, place: u32, word: PlaceWord, value: Option<Key>)
        requires word { place < length self.old.places }
        requires value { place < length self.old.home }
        ensures { self.new ≡ put self.old place word value }
    {
        self.places.set(place as usize, word);
        self.home.set(place as usize, value);
    }

    fn lay(&mut self, alloc: Global, plan: &ShelfPlan) -> Result<(), Memory>
        requires small { place_count plan.now < 2 ^ 32 }
        ensures after { OnOk result (self.new ≡ after self.old (Event.Lay plan.now)) }
        ensures refused { OnErr result (self.new ≡ self.old) }
    {
        let count = plan.forks.len() + plan.places as usize;
        let Ok(claims) = Sequence::filled(alloc, ClaimWord::Open, plan.segments as usize) else {
            return Err(Memory);
        };
        let Ok(places) = Sequence::filled(alloc, PlaceWord::Free, count) else {
            drop(claims);
            return Err(Memory);
        };
        let Ok(home) = Sequence::filled(alloc, None, count) else {
            drop(places);
            drop(claims);
            return Err(Memory);
        };
        let Ok(plan) = plan.copy(alloc) else {
            drop(home);
            drop(places);
            drop(claims);
            return Err(Memory);
        };
        self.plan = Some(plan);
        self.claims = claims;
        self.places = places;
        self.home = home;
        self.done = 0;
        self.stopped = false;
        Ok(())
    }

    fn claim(&mut self, alloc: Global, n: u32, segment: u32) -> Result<(), Memory>
        requires possible { IsTrue (possible self.old (Event.Claim n segment)) }
        ensures after { OnOk result (self.new ≡ after self.old (Event.Claim n segment)) }
        ensures refused { OnErr result (self.new ≡ self.old) }
    {
        let Ok(view) = self.view(n).with_claim(alloc, segment) else {
            return Err(Memory);
        };
        self.views.set(n as usize, view);
        self.claims.set(segment as usize, ClaimWord::Taken(n));
        Ok(())
    }

    fn begin(&mut self, alloc: Global, n: u32, key: Key) -> Result<(), Memory>
        requires orderly { Orderly self.old }
        requires small { IsSmall self.old.plan }
        requires possible { IsTrue (possible self.old (Event.Begin n key)) }
        ensures after { OnOk result (self.new ≡ after self.old (Event.Begin n key)) }
        ensures refused { OnErr result (self.new ≡ self.old) }
    {
        let place = self.key_place(key);
        let Ok(view) = self.view(n).with_turn(alloc, place, key) else {
            return Err(Memory);
        };
        self.views.set(n as usize, view);
        self.put(place, PlaceWord::Writing(n), None);
        Ok(())
    }

    fn publish(&mut self, alloc: Global, n: u32, key: Key) -> Result<(), Memory>
        requires orderly { Orderly self.old }
        requires small { IsSmall self.old.plan }
        requires possible { IsTrue (possible self.old (Event.Publish n key)) }
        ensures after { OnOk result (self.new ≡ after self.old (Event.Publish n key)) }
        ensures refused { OnErr result (self.new ≡ self.old) }
    {
        let place = self.key_place(key);
        let Ok(view) = self.view(n).having_published(alloc, &self.plan, key) else {
            return Err(Memory);
        };
        self.views.set(n as usize, view);
        self.put(place, PlaceWord::Ready(key), Some(key));
        Ok(())
    }

    fn abandon(&mut self, alloc: Global, n: u32, key: Key) -> Result<(), Memory>
        requires orderly { Orderly self.old }
        requires small { IsSmall self.old.plan }
        requires possible { IsTrue (possible self.old (Event.Abandon n key)) }
        ensures after { OnOk result (self.new ≡ after self.old (Event.Abandon n key)) }
        ensures refused { OnErr result (self.new ≡ self.old) }
    {
        let place = self.key_place(key);
        let Ok(view) = self.view(n).without_turn(alloc, key) else {
            return Err(Memory);
        };
        self.views.set(n as usize, view);
        self.put(place, PlaceWord::Free, None);
        Ok(())
    }

    fn lend(&mut self, alloc: Global, n: u32, key: Key) -> Result<(), Memory>
        requires orderly { Orderly self.old }
        requires small { IsSmall self.old.plan }
        requires possible { IsTrue (possible self.old (Event.Lend n key)) }
        ensures after { OnOk result (self.new ≡ after self.old (Event.Lend n key)) }
        ensures refused { OnErr result (self.new ≡ self.old) }
    {
        let place = self.key_place(key);
        let Ok(view) = self.view(n).with_loan(alloc, &self.plan, place, key) else {
            return Err(Memory);
        };
        self.views.set(n as usize, view);
        self.put(place, PlaceWord::Lent(key, n), None);
        Ok(())
    }

    fn return_loan(&mut self, alloc: Global, n: u32) -> Result<(), Memory>
        requires orderly { Orderly self.old }
        requires possible { IsTrue (possible self.old (Event.Return n)) }
        ensures after { OnOk result (self.new ≡ after self.old (Event.Return n)) }
        ensures refused { OnErr result (self.new ≡ self.old) }
    {
        let Some((place, key)) = self.view(n).loan else {
            unreachable!()
        };
        let Ok(view) = self.view(n).having_returned(alloc, key) else {
            return Err(Memory);
        };
        self.views.set(n as usize, view);
        self.put(place, PlaceWord::Ready(key), Some(key));
        Ok(())
    }

    fn count(&mut self, alloc: Global, n: u32) -> Result<(), Memory>
        requires orderly { Orderly self.old }
        requires possible { IsTrue (possible self.old (Event.Count n)) }
        ensures after { OnOk result (self.new ≡ after self.old (Event.Count n)) }
        ensures refused { OnErr result (self.new ≡ self.old) }
    {
        let segments = self.segment_count();
        let view = self.view(n);
        prove!(self.done < segments);
        prove!(view.counts < segments);
        let Ok(view) = view.with_count(alloc) else {
            return Err(Memory);
        };
        self.views.set(n as usize, view);
        self.done += 1;
        Ok(())
    }

    fn stop(&mut self, alloc: Global, n: u32) -> Result<(), Memory>
        requires possible { IsTrue (possible self.old (Event.Stop n)) }
        ensures after { OnOk result (self.new ≡ after self.old (Event.Stop n)) }
        ensures refused { OnErr result (self.new ≡ self.old) }
    {
        let Ok(view) = self.view(n).having_stopped(alloc) else {
            return Err(Memory);
        };
        self.views.set(n as usize, view);
        self.stopped = true;
        Ok(())
    }

    fn load(&mut self, alloc: Global, n: u32, word: Word) -> Result<(), Memory>
        requires small { IsSmall self.old.plan }
        requires possible { IsTrue (possible self.old (Event.Load n word)) }
        ensures after { OnOk result (self.new ≡ after self.old (Event.Load n word)) }
        ensures refused { OnErr result (self.new ≡ self.old) }
    {
        let Some(seen) = self.seen_at(word) else {
            unreachable!()
        };
        let Ok(view) = self.view(n).having_loaded(alloc, &self.plan, seen) else {
            return Err(Memory);
        };
        self.views.set(n as usize, view);
        Ok(())
    }

    fn split(&mut self, alloc: Global, n: u32) -> Result<(), Memory>
        requires seats { length self.old.views < 2 ^ 32 - 1 }
        ensures after { OnOk result (self.new ≡ after self.old (Event.Split n)) }
        ensures refused { OnErr result (self.new ≡ self.old) }
    {
        let Ok(view) = SeatView::new(alloc, self.views.len() as u32) else {
            return Err(Memory);
        };
        self.views.push(view)
    }

    fn join(&mut self, alloc: Global, n: u32, m: u32) -> Result<(), Memory>
        requires orderly { Orderly self.old }
        requires possible { IsTrue (possible self.old (Event.Join n m)) }
        ensures after { OnOk result (self.new ≡ after self.old (Event.Join n m)) }
        ensures refused { OnErr result (self.new ≡ self.old) }
    {
        let (view, other) = (self.view(n), self.view(m));
        prove!(other.counts <= self.done);
        prove!(view.counts <= self.done - other.counts);
        let Ok(view) = view.joined_with(alloc, other) else {
            return Err(Memory);
        };
        self.views.set(n as usize, view);
        self.views.set(m as usize, SeatView::spent(alloc));
        Ok(())
    }

    // Makes an event that is possible.
    pub(crate) fn apply(&mut self, alloc: Global, event: &Event) -> Result<(), Memory>
        requires orderly { Orderly self.old }
        requires small { IsSmall self.old.plan }
        requires small_event { IsSmallEvent event.now }
        requires seats { length self.old.views < 2 ^ 32 - 1 }
        requires possible { IsTrue (possible self.old event.now) }
        ensures after { OnOk result (self.new ≡ after self.old event.now) }
        ensures refused { OnErr result (self.new ≡ self.old) }
    {
        match event {
            Event::Lay(plan) => self.lay(alloc, plan),
            Event::Claim(n, segment) => self.claim(alloc, *n, *segment),
            Event::Begin(n, key) => self.begin(alloc, *n, *key),
            Event::Publish(n, key) => self.publish(alloc, *n, *key),
            Event::Abandon(n, key) => self.abandon(alloc, *n, *key),
            Event::Lend(n, key) => self.lend(alloc, *n, *key),
            Event::Return(n) => self.return_loan(alloc, *n),
            Event::Count(n) => self.count(alloc, *n),
            Event::Stop(n) => self.stop(alloc, *n),
            Event::Load(n, word) => self.load(alloc, *n, *word),
            Event::Split(n) => self.split(alloc, *n),
            Event::Join(n, m) => self.join(alloc, *n, *m),
        }
    }
}

impl ShelfPlan {
    /// An equal plan.
    ///
    /// # Errors
    /// `Memory`.
    pub fn copy(&self, alloc: Global) -> Result<ShelfPlan, Memory>
        ensures { IfOk result (λ plan. plan ≡ self.now) }
    {
        let Ok(forks) = self.forks.copy(alloc) else {
            return Err(Memory);
        };
        let Ok(grid) = self.grid.copy(alloc) else {
            drop(forks);
            return Err(Memory);
        };
        Ok(ShelfPlan {
            segments: self.segments,
            forks,
            grid,
            places: self.places,
        })
    }
}
