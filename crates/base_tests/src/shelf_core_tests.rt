//! The machine against its table of events.

ghost use Rattle.std.specs.Prelude.{◌≡◌, ◌<◌, ◌^◌, IsTrue};
ghost use Rattle.shelf_core.specs.Plan.{place_count};
ghost use Rattle.shelf_core.specs.Orderly.{Orderly, IsSmall, IsSmallEvent};

mod plain;

use crate::facts::{equal, holds};
use plain::Plain;
use plain_lists::{Memory, Sequence};
use shelf_core::{Event, Key, ShelfPlan, System, Word, law, step};
use std::alloc::Global;
use std::process::Abort;

fn is_small(plan: &ShelfPlan) -> bool
    ensures { IsTrue result → place_count plan.now < 2 ^ 32 }
{
    plan.forks.len() < 1000 && plan.places < 1000
}

fn is_small_system(s: &System) -> bool
    ensures { IsTrue result → IsSmall s.now.plan }
{
    match &s.plan {
        None => true,
        Some(plan) => is_small(plan),
    }
}

fn is_small_event(event: &Event) -> bool
    ensures { IsTrue result → IsSmallEvent event.now }
{
    match event {
        Event::Lay(plan) => is_small(plan),
        _ => true,
    }
}

// Makes a step of a small system.
fn make(rt: &impl Abort, alloc: Global, s: &mut System, event: &Event) -> bool
    requires { Orderly s.old }
    ensures { Orderly s.new }
{
    assert!(rt; is_small_system(s));
    assert!(rt; is_small_event(event));
    assert!(rt; s.views.len() < 1000);
    step(alloc, s, event).expect(rt, "memory")
}

fn key(segment: u32, event: u32) -> Key {
    Key { segment, event }
}

// A list of these keys.
fn keys(alloc: Global, keys: &[(u32, u32)]) -> Result<Sequence<Key>, Memory> {
    let mut list = Sequence::empty(alloc);
    for (segment, event) in keys {
        list.push(key(*segment, *event))?;
    }
    Ok(list)
}

// Two segments and one fork.
fn fork_plan(alloc: Global) -> Result<ShelfPlan, Memory> {
    Ok(ShelfPlan {
        segments: 2,
        forks: keys(alloc, &[(0, 2)])?,
        grid: Sequence::empty(alloc),
        places: 0,
    })
}

// Three segments, two forks, and three grid keys with two places.
fn shared_plan(alloc: Global) -> Result<ShelfPlan, Memory> {
    Ok(ShelfPlan {
        segments: 3,
        forks: keys(alloc, &[(0, 2), (1, 3)])?,
        grid: keys(alloc, &[(2, 50), (2, 100), (2, 150)])?,
        places: 2,
    })
}

// Eighteen events of two seats at one fork's place, each with its answer.
fn two_seats(rt: &impl Abort, alloc: Global) -> Sequence<(Event, bool)> {
    let k = key(0, 2);
    let mut events = Sequence::empty(alloc);
    for answer in [true, false] {
        let plan = fork_plan(alloc).expect(rt, "memory");
        events.push((Event::Lay(plan), answer)).expect(rt, "memory");
    }
    for (event, answer) in [
        (Event::Split(0), true),
        (Event::Claim(0, 0), true),
        (Event::Claim(1, 0), false),
        (Event::Begin(0, k), true),
        (Event::Begin(1, k), false),
        (Event::Lend(1, k), false),
        (Event::Abandon(1, k), false),
        (Event::Publish(0, k), true),
        (Event::Lend(1, k), true),
        (Event::Lend(0, k), false),
        (Event::Join(0, 1), false),
        (Event::Return(1), true),
        (Event::Count(0), true),
        (Event::Count(0), false),
        (Event::Stop(1), true),
        (Event::Join(0, 1), true),
    ] {
        events.push((event, answer)).expect(rt, "memory");
    }
    events
}

// Whether the first seat took in the second and has stopped.
fn has_joined(s: &System) -> bool {
    match s.views.get(0) {
        None => false,
        Some(view) => view.numbers.as_slice() == [0, 1].as_slice() && view.stopped,
    }
}

// Makes events in order, each with its answer.
fn make_all(rt: &impl Abort, alloc: Global, s: &mut System, events: &[(Event, bool)])
    requires { Orderly s.old }
{
    for (i, (event, answer)) in events.iter().enumerate() {
        holds(rt, make(rt, alloc, s, event) == *answer);
    }
}

#[test]
fn two_seats_at_one_fork(rt: HostRuntime) {
    let mut s = System::opening(rt.alloc()).expect(&rt, "memory");
    let events = two_seats(&rt, rt.alloc());
    make_all(&rt, rt.alloc(), &mut s, events.as_slice());
    drop(events);
    holds(&rt, has_joined(&s));
    drop(s);
}

#[test]
fn law_of_no_events(rt: HostRuntime) {
    let s = law(rt.alloc(), &[]).expect(&rt, "memory");
    holds(&rt, s.plan.is_none());
    equal(&rt, s.views.len(), 1);
    drop(s);
}

// The event that a number stands for: its kind, a seat, and a segment, key, word or other seat.
fn event_of(number: u32) -> Event {
    let (kind, n, which) = (number % 12, number / 12 % 3, number / 36);
    let k = [
        key(0, 2),
        key(1, 3),
        key(2, 50),
        key(2, 100),
        key(2, 150),
        key(2, 200),
    ][which as usize % 6];
    match kind {
        0 => Event::Claim(n, which % 4),
        1 | 2 => Event::Begin(n, k),
        3 => Event::Publish(n, k),
        4 => Event::Abandon(n, k),
        5 => Event::Lend(n, k),
        6 => Event::Return(n),
        7 => Event::Count(n),
        8 if which % 16 == 0 => Event::Stop(n),
        8 | 9 if which % 3 == 0 => Event::Load(n, Word::Done),
        8 | 9 if which % 3 == 1 => Event::Load(n, Word::Claim(which % 4)),
        8 | 9 => Event::Load(n, Word::Place(which % 5)),
        10 => Event::Split(n),
        _ if which % 4 == 0 => Event::Join(n, which % 7),
        _ => Event::Claim(n, which % 3),
    }
}

// Lays the plan of three segments.
fn lay(rt: &impl Abort, alloc: Global, s: &mut System)
    requires { Orderly s.old }
    ensures { Orderly s.new }
{
    let plan = shared_plan(alloc).expect(rt, "memory");
    make(rt, alloc, s, &Event::Lay(plan));
}

// Makes the event of a number in both: whether it was possible. The table says the same.
fn made_alike(
    rt: &impl Abort,
    alloc: Global,
    s: &mut System,
    plain: &mut Plain,
    number: u32,
) -> bool
    requires { Orderly s.old }
    ensures { Orderly s.new }
{
    let event = event_of(number);
    let made = make(rt, alloc, s, &event);
    equal(rt, plain.make(&event).expect(rt, "memory"), made);
    drop(event);
    holds(rt, plain.is_like(s));
    made
}

#[test]
fn many_events_as_the_table_says(rt: HostRuntime) {
    let alloc = rt.alloc();
    let mut s = System::opening(alloc).expect(&rt, "memory");
    let mut plain = Plain::opening(alloc).expect(&rt, "memory");
    lay(&rt, alloc, &mut s);
    let mut number = 1u32;
    let mut possible = 0;
    for i in 0..600u32 {
        number = number.wrapping_mul(1_664_525).wrapping_add(1_013_904_223);
        let made = made_alike(&rt, alloc, &mut s, &mut plain, number / 65_536);
        possible = u32::saturating_add(possible, u32::from(made));
    }
    holds(&rt, possible > 100);
    drop(s);
}
