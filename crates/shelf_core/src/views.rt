//! How the view of a seat changes. Each call makes a new view, so that want of memory changes nothing.

ghost use Rattle.std.specs.Prelude.{◌≡◌, ◌+◌, ◌<◌, ◌≤◌, ◌^◌, ◌++◌, ◌∷◌, [], IfOk, IsOk, Some, take};
ghost use Rattle.shelf_core.specs.Orderly.{IsSmall};
ghost use Rattle.shelf_core.specs.Views.{new_view, spent_view, other_turns};
ghost use Rattle.shelf_core.specs.After.{knowing, with_claim, with_turn, without_turn, having_published, with_loan, having_returned, with_count, having_stopped, known_from, done_from, stopped_from, having_loaded, joined_with};

use crate::places::is_sole_in;
use crate::{Key, PlaceWord, SeatView, Seen, ShelfPlan};
use plain_lists::{Memory, Sequence};
use std::alloc::Global;

impl SeatView {
    // The view of a new seat with this number.
    pub(crate) fn new(alloc: Global, number: u32) -> Result<SeatView, Memory>
        ensures { IfOk result (λ view. view ≡ new_view number) }
    {
        let mut view = SeatView::spent(alloc);
        view.spent = false;
        let done = view.numbers.push(number);
        given(view, done)
    }

    // What is left of the view of a seat that joined another.
    pub(crate) fn spent(alloc: Global) -> SeatView
        ensures { result ≡ spent_view }
    {
        SeatView {
            numbers: Sequence::empty(alloc),
            spent: true,
            claims: Sequence::empty(alloc),
            counts: 0,
            turns: Sequence::empty(alloc),
            loan: None,
            known: Sequence::empty(alloc),
            done_seen: 0,
            stopped: false,
            found: Sequence::empty(alloc),
            loads: 0,
            saw: Sequence::empty(alloc),
        }
    }

    // An equal view.
    fn copy(&self, alloc: Global) -> Result<SeatView, Memory>
        ensures { IfOk result (λ view. view ≡ self.now) }
    {
        let Ok((numbers, claims)) = copied_two(alloc, &self.numbers, &self.claims) else {
            return Err(Memory);
        };
        let Ok((known, found)) = copied_two(alloc, &self.known, &self.found) else {
            return Err(Memory);
        };
        let Ok((turns, saw)) = copied_two(alloc, &self.turns, &self.saw) else {
            return Err(Memory);
        };
        Ok(SeatView {
            numbers,
            spent: self.spent,
            claims,
            counts: self.counts,
            turns,
            loan: self.loan,
            known,
            done_seen: self.done_seen,
            stopped: self.stopped,
            found,
            loads: self.loads,
            saw,
        })
    }

    // The view with a claim.
    pub(crate) fn with_claim(&self, alloc: Global, segment: u32) -> Result<SeatView, Memory>
        ensures { IfOk result (λ view. view ≡ with_claim segment self.now) }
    {
        let Ok(mut view) = self.copy(alloc) else {
            return Err(Memory);
        };
        let done = view.claims.push(segment);
        given(view, done)
    }

    // The view with a turn.
    pub(crate) fn with_turn(&self, alloc: Global, place: u32, key: Key) -> Result<SeatView, Memory>
        ensures { IfOk result (λ view. view ≡ with_turn place key self.now) }
    {
        let Ok(mut view) = self.copy(alloc) else {
            return Err(Memory);
        };
        let done = view.turns.push((place, key));
        given(view, done)
    }

    // The view without the turn of a key.
    pub(crate) fn without_turn(&self, alloc: Global, key: Key) -> Result<SeatView, Memory>
        ensures { IfOk result (λ view. view ≡ without_turn key self.now) }
    {
        let turns = other_turns(alloc, self.turns.as_slice(), key)?;
        let Ok(mut view) = self.copy(alloc) else {
            return Err(Memory);
        };
        view.turns = turns;
        Ok(view)
    }

    // The view once the value of its turn is there.
    pub(crate) fn having_published(
        &self,
        alloc: Global,
        plan: &Option<ShelfPlan>,
        key: Key,
    ) -> Result<SeatView, Memory>
        requires small { IsSmall plan.now }
        ensures { IfOk result (λ view. view ≡ having_published plan.now key self.now) }
    {
        let mut view = self.without_turn(alloc, key)?;
        let done = learn(plan, key, &mut view.known);
        given(view, done)
    }

    // The view with a loan.
    pub(crate) fn with_loan(
        &self,
        alloc: Global,
        plan: &Option<ShelfPlan>,
        place: u32,
        key: Key,
    ) -> Result<SeatView, Memory>
        requires small { IsSmall plan.now }
        ensures { IfOk result (λ view. view ≡ with_loan plan.now place key self.now) }
    {
        let Ok(mut view) = self.copy(alloc) else {
            return Err(Memory);
        };
        view.loan = Some((place, key));
        let done = learn(plan, key, &mut view.known);
        given(view, done)
    }

    // The view once the value of its loan was returned.
    pub(crate) fn having_returned(&self, alloc: Global, key: Key) -> Result<SeatView, Memory>
        ensures { IfOk result (λ view. view ≡ having_returned key self.now) }
    {
        let Ok(mut view) = self.copy(alloc) else {
            return Err(Memory);
        };
        view.loan = None;
        let done = view.found.push(key);
        given(view, done)
    }

    // The view with one count more.
    pub(crate) fn with_count(&self, alloc: Global) -> Result<SeatView, Memory>
        requires { self.now.counts + 1 < 2 ^ 32 }
        ensures { IfOk result (λ view. view ≡ with_count self.now) }
    {
        let Ok(mut view) = self.copy(alloc) else {
            return Err(Memory);
        };
        view.counts += 1;
        Ok(view)
    }

    // The view once it has set the stop bit.
    pub(crate) fn having_stopped(&self, alloc: Global) -> Result<SeatView, Memory>
        ensures { IfOk result (λ view. view ≡ having_stopped self.now) }
    {
        let Ok(mut view) = self.copy(alloc) else {
            return Err(Memory);
        };
        view.stopped = true;
        Ok(view)
    }

    // The view after a load.
    pub(crate) fn having_loaded(
        &self,
        alloc: Global,
        plan: &Option<ShelfPlan>,
        seen: Seen,
    ) -> Result<SeatView, Memory>
        requires small { IsSmall plan.now }
        ensures { IfOk result (λ view. view ≡ having_loaded plan.now (Some seen) self.now) }
    {
        let saw = last_two(alloc, seen, self.saw.as_slice())?;
        let Ok(mut view) = self.copy(alloc) else {
            return Err(Memory);
        };
        view.saw = saw;
        view.done_seen = done_from(seen, self.done_seen);
        view.stopped = stopped_from(seen, self.stopped);
        view.loads = self.loads.wrapping_add(1);
        let done = learn_from(plan, seen, &mut view.known);
        given(view, done)
    }

    // The view with all that another has.
    pub(crate) fn joined_with(&self, alloc: Global, other: &SeatView) -> Result<SeatView, Memory>
        requires { self.now.counts + other.now.counts < 2 ^ 32 }
        ensures { IfOk result (λ view. view ≡ joined_with other.now self.now) }
    {
        let Ok(mut view) = self.copy(alloc) else {
            return Err(Memory);
        };
        view.counts += other.counts;
        view.done_seen = view.done_seen.max(other.done_seen);
        view.stopped |= other.stopped;
        let done = append_lists(&mut view, other);
        given(view, done)
    }
}

// The view, where memory was not wanting.
fn given(view: SeatView, done: Result<(), Memory>) -> Result<SeatView, Memory>
    ensures view { IfOk result (λ it. it ≡ view) }
    ensures done { IfOk result (λ _. IsOk done) }
{
    let Err(memory) = done else {
        return Ok(view);
    };
    drop(view);
    Err(memory)
}

// Appends to the lists of a view those of another that it takes in.
fn append_lists(view: &mut SeatView, other: &SeatView) -> Result<(), Memory>
    ensures { IfOk result (λ _. view.new ≡ record view.old {
      numbers = view.old.numbers ++ other.now.numbers;
      claims = view.old.claims ++ other.now.claims;
      known = view.old.known ++ other.now.known;
      found = view.old.found ++ other.now.found;
    }) }
{
    append_two(
        &mut view.numbers,
        &other.numbers,
        &mut view.claims,
        &other.claims,
    )?;
    append_two(&mut view.known, &other.known, &mut view.found, &other.found)
}

// Copies of two lists.
fn copied_two<A: Copy + Drop, B: Copy + Drop>(
    alloc: Global,
    first: &Sequence<A>,
    second: &Sequence<B>,
) -> Result<(Sequence<A>, Sequence<B>), Memory>
    ensures first { IfOk result (λ v. v.0 ≡ first.now) }
    ensures second { IfOk result (λ v. v.1 ≡ second.now) }
{
    let Ok(one) = first.copy(alloc) else {
        return Err(Memory);
    };
    let Ok(two) = second.copy(alloc) else {
        drop(one);
        return Err(Memory);
    };
    Ok((one, two))
}

// Appends to each of two lists a copy of each item of another.
fn append_two<A: Copy + Drop, B: Copy + Drop>(
    first: &mut Sequence<A>,
    more: &Sequence<A>,
    second: &mut Sequence<B>,
    others: &Sequence<B>,
) -> Result<(), Memory>
    ensures first { IfOk result (λ _. first.new ≡ first.old ++ more.now) }
    ensures second { IfOk result (λ _. second.new ≡ second.old ++ others.now) }
{
    first.append(more)?;
    second.append(others)
}

// Adds a key to those that are known, where it is sole.
fn learn(plan: &Option<ShelfPlan>, key: Key, known: &mut Sequence<Key>) -> Result<(), Memory>
    requires small { IsSmall plan.now }
    ensures { IfOk result (λ _. known.new ≡ knowing plan.now key known.old) }
{
    if is_sole_in(plan, key) {
        known.push(key)?;
    }
    Ok(())
}

// Adds the key that a seat learns from a word that it sees.
fn learn_from(plan: &Option<ShelfPlan>, seen: Seen, known: &mut Sequence<Key>) -> Result<(), Memory>
    requires small { IsSmall plan.now }
    ensures { IfOk result (λ _. known.new ≡ known_from plan.now seen known.old) }
{
    match seen {
        Seen::Place(_, PlaceWord::Ready(key) | PlaceWord::Lent(key, _)) => learn(plan, key, known),
        Seen::Place(_, PlaceWord::Free | PlaceWord::Writing(_)) => Ok(()),
        Seen::Claim(_, _) | Seen::Done(_, _) => Ok(()),
    }
}

// The done number that a seat saw last.
fn done_from(seen: Seen, before: u32) -> u32
    ensures { result ≡ done_from seen before }
{
    match seen {
        Seen::Done(number, _) => number,
        Seen::Claim(_, _) | Seen::Place(_, _) => before,
    }
}

// The stop bit that a seat saw last.
fn stopped_from(seen: Seen, before: bool) -> bool
    ensures { result ≡ stopped_from seen before }
{
    match seen {
        Seen::Done(_, bit) => bit,
        Seen::Claim(_, _) | Seen::Place(_, _) => before,
    }
}

// The turns but for those of a key.
fn other_turns(
    alloc: Global,
    turns: &[(u32, Key)],
    key: Key,
) -> Result<Sequence<(u32, Key)>, Memory>
    ensures { IfOk result (λ others. others ≡ other_turns key turns.now) }
{
    match turns
        .iter()
        .copied()
        .filter(|turn| turn.1 != key)
        .collect(alloc)
    {
        Ok(others) => Ok(Sequence::new(others)),
        Err(_) => Err(Memory),
    }
}

// A load, and the newest of those before it.
fn last_two(alloc: Global, seen: Seen, before: &[Seen]) -> Result<Sequence<Seen>, Memory>
    ensures { IfOk result (λ list. list ≡ take 2 (seen ∷ before.now)) }
{
    let mut list = Sequence::empty(alloc);
    list.push(seen)?;
    if let Some(last) = before.first() {
        list.push(*last)?;
    }
    Ok(list)
}
