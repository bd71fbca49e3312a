//! The table of events, read once more over the plan with two forks and three grid keys: who has which segment, what
//! stands at each of the four places, and what each seat has there.

use plain_lists::{Memory, Sequence};
use shelf_core::{ClaimWord, Event, Key, PlaceWord, SeatView, Seen, System, Word};
use std::alloc::Global;

#[derive(Clone, Copy)]
pub struct Seat {
    spent: bool,
    segments: [bool; 3],
    counts: u32,
    turns: [Option<Key>; 4],
    loan: Option<Key>,
    stopped: bool,
    done_seen: u32,
    loads: u64,
    last: Option<Seen>,
    known: usize,
    returned: usize,
}

#[derive(Drop)]
pub struct Plain {
    owner: [Option<u32>; 3],
    places: [PlaceWord; 4],
    done: u32,
    stopped: bool,
    seats: Sequence<Seat>,
}

const NEW: Seat = Seat {
    spent: false,
    segments: [false; 3],
    counts: 0,
    turns: [None; 4],
    loan: None,
    stopped: false,
    done_seen: 0,
    loads: 0,
    last: None,
    known: 0,
    returned: 0,
};

// The place of each key of the plan.
fn place(key: Key) -> Option<usize> {
    match (key.segment, key.event) {
        (0, 2) => Some(0),
        (1, 3) => Some(1),
        (2, 50) | (2, 150) => Some(2),
        (2, 100) => Some(3),
        _ => None,
    }
}

fn claim_word(owner: Option<u32>) -> ClaimWord {
    match owner {
        None => ClaimWord::Open,
        Some(n) => ClaimWord::Taken(n),
    }
}

// The key that is lent, without its place.
fn lent(loan: Option<(u32, Key)>) -> Option<Key> {
    let (_, key) = loan?;
    Some(key)
}

impl Seat {
    // Learns of the value of a key at a place: of the fork keys, and of the one grid key that shares no place.
    fn learn(&mut self, place: Option<usize>) {
        if matches!(place, Some(0 | 1 | 3)) {
            self.known = self.known.wrapping_add(1);
        }
    }

    fn segment_count(&self) -> usize {
        let mut count = 0usize;
        for has in self.segments.iter() {
            count = count.saturating_add(usize::from(*has));
        }
        count
    }

    fn turn_count(&self) -> usize {
        let mut count = 0usize;
        for turn in self.turns.iter() {
            count = count.saturating_add(usize::from(turn.is_some()));
        }
        count
    }

    fn is_like(&self, view: &SeatView) -> bool {
        (self.spent == view.spent)
            & (self.counts == view.counts)
            & (self.stopped == view.stopped)
            & (self.done_seen == view.done_seen)
            & (self.loads == view.loads)
            & self.has_like(view)
    }

    // The same of what the seat has and saw.
    fn has_like(&self, view: &SeatView) -> bool {
        (self.segment_count() == view.claims.len())
            & (self.turn_count() == view.turns.len())
            & (self.loan == lent(view.loan))
            & (self.last == view.saw.get(0).copied())
            & (self.known == view.known.len())
            & (self.returned == view.found.len())
    }
}

// Whether seats are like views, in order.
fn are_like(seats: &[Seat], views: &[SeatView]) -> bool {
    for (seat, view) in seats.iter().zip(views) {
        if !seat.is_like(view) {
            return false;
        }
    }
    seats.len() == views.len()
}

impl Plain {
    pub fn opening(alloc: Global) -> Result<Plain, Memory> {
        let mut seats = Sequence::empty(alloc);
        seats.push(NEW)?;
        Ok(Plain {
            owner: [None; 3],
            places: [PlaceWord::Free; 4],
            done: 0,
            stopped: false,
            seats,
        })
    }

    pub fn is_like(&self, s: &System) -> bool {
        let [a, b, c] = self.owner;
        let claims = [claim_word(a), claim_word(b), claim_word(c)];
        s.claims.as_slice() == claims.as_slice()
            && s.places.as_slice() == self.places.as_slice()
            && s.done == self.done
            && s.stopped == self.stopped
            && are_like(self.seats.as_slice(), s.views.as_slice())
    }

    /// Makes an event other than `Lay`.
    pub fn make(&mut self, event: &Event) -> Result<bool, Memory> {
        if let Event::Split(n) = event {
            let live = self.seat(*n).is_some();
            if live {
                self.seats.push(NEW)?;
            }
            return Ok(live);
        }
        let n = match event {
            Event::Claim(n, _) | Event::Begin(n, _) | Event::Publish(n, _) => *n,
            Event::Abandon(n, _) | Event::Lend(n, _) | Event::Return(n) | Event::Count(n) => *n,
            Event::Stop(n) | Event::Load(n, _) | Event::Join(n, _) => *n,
            _ => return Ok(false),
        };
        let Some(mut seat) = self.seat(n) else {
            return Ok(false);
        };
        let made = self.through(n, &mut seat, event);
        if made && (n as usize) < self.seats.len() {
            self.seats.set(n as usize, seat);
        }
        Ok(made)
    }

    fn seat(&self, n: u32) -> Option<Seat> {
        let seat = *self.seats.get(n as usize)?;
        if seat.spent { None } else { Some(seat) }
    }

    fn through(&mut self, n: u32, seat: &mut Seat, event: &Event) -> bool {
        match event {
            Event::Claim(_, segment) => self.claim(n, seat, *segment as usize),
            Event::Begin(_, key) => self.begin(n, seat, *key),
            Event::Publish(_, key) => self.spend(seat, *key, PlaceWord::Ready(*key)),
            Event::Abandon(_, key) => self.spend(seat, *key, PlaceWord::Free),
            Event::Lend(_, key) => self.lend(n, seat, *key),
            Event::Return(_) => self.give_back(seat),
            Event::Count(_) => self.count(seat),
            Event::Stop(_) => {
                self.stopped = true;
                seat.stopped = true;
                true
            }
            Event::Load(_, word) => self.load(seat, *word),
            Event::Join(_, m) => self.join(n, seat, *m),
            _ => false,
        }
    }

    fn claim(&mut self, n: u32, seat: &mut Seat, segment: usize) -> bool {
        if segment >= 3 || self.owner[segment].is_some() {
            return false;
        }
        self.owner[segment] = Some(n);
        seat.segments[segment] = true;
        true
    }

    fn begin(&mut self, n: u32, seat: &mut Seat, key: Key) -> bool {
        let Some(p) = place(key) else { return false };
        if p >= 4 || key.segment >= 3 || !seat.segments[key.segment as usize] {
            return false;
        }
        let writable = match self.places[p] {
            PlaceWord::Free => true,
            PlaceWord::Ready(other) => p >= 2 && other != key,
            _ => false,
        };
        if writable {
            self.places[p] = PlaceWord::Writing(n);
            seat.turns[p] = Some(key);
        }
        writable
    }

    fn spend(&mut self, seat: &mut Seat, key: Key, word: PlaceWord) -> bool {
        let Some(p) = place(key) else { return false };
        if p >= 4 || seat.turns[p] != Some(key) {
            return false;
        }
        seat.turns[p] = None;
        self.places[p] = word;
        if word != PlaceWord::Free {
            seat.learn(Some(p));
        }
        true
    }

    fn lend(&mut self, n: u32, seat: &mut Seat, key: Key) -> bool {
        let Some(p) = place(key) else { return false };
        if p >= 4 || self.places[p] != PlaceWord::Ready(key) || seat.loan.is_some() {
            return false;
        }
        self.places[p] = PlaceWord::Lent(key, n);
        seat.loan = Some(key);
        seat.learn(Some(p));
        true
    }

    fn give_back(&mut self, seat: &mut Seat) -> bool {
        let Some(key) = seat.loan else { return false };
        seat.loan = None;
        seat.returned = seat.returned.wrapping_add(1);
        if let Some(p) = place(key)
            && p < 4
        {
            self.places[p] = PlaceWord::Ready(key);
        }
        true
    }

    fn count(&mut self, seat: &mut Seat) -> bool {
        if seat.counts as usize >= seat.segment_count() {
            return false;
        }
        seat.counts = seat.counts.wrapping_add(1);
        self.done = self.done.wrapping_add(1);
        true
    }

    fn load(&self, seat: &mut Seat, word: Word) -> bool {
        let seen = match word {
            Word::Claim(segment) => match self.owner.get(segment as usize) {
                None => return false,
                Some(owner) => Seen::Claim(segment, claim_word(*owner)),
            },
            Word::Place(p) => match self.places.get(p as usize) {
                None => return false,
                Some(word) => Seen::Place(p, *word),
            },
            Word::Done => Seen::Done(self.done, self.stopped),
        };
        match seen {
            Seen::Claim(_, _) => {}
            Seen::Place(_, PlaceWord::Ready(key) | PlaceWord::Lent(key, _)) => {
                seat.learn(place(key));
            }
            Seen::Place(_, _) => {}
            Seen::Done(done, stopped) => {
                seat.done_seen = done;
                seat.stopped = stopped;
            }
        }
        seat.loads = seat.loads.wrapping_add(1);
        seat.last = Some(seen);
        true
    }

    fn join(&mut self, n: u32, seat: &mut Seat, m: u32) -> bool {
        let Some(other) = self.seat(m) else {
            return false;
        };
        if n == m || other.loan.is_some() || other.turn_count() > 0 {
            return false;
        }
        for i in 0..3 {
            seat.segments[i] = seat.segments[i] || other.segments[i];
        }
        seat.counts = seat.counts.wrapping_add(other.counts);
        seat.known = seat.known.wrapping_add(other.known);
        seat.stopped = seat.stopped || other.stopped;
        seat.done_seen = seat.done_seen.max(other.done_seen);
        seat.returned = seat.returned.wrapping_add(other.returned);
        if (m as usize) < self.seats.len() {
            self.seats.set(m as usize, Seat { spent: true, ..NEW });
        }
        true
    }
}
