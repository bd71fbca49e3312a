//! Deliveries, halts at their times, copies and edits of a floor.

ghost use Rattle.std.specs.Prelude.{◌≡◌, ◌≤◌, ◌<◌, ◌+◌, true, length};
ghost use Rattle.exchange_agent.specs.Market.{IsAskable};
ghost use Rattle.market_floor.specs.Opening.{IsOpening};
ghost use Rattle.market_floor.specs.Edited.{IsEdit};
ghost use Rattle.market_floor.specs.Floor.{floor_at_opening};
ghost use Rattle.market_floor.specs.Postings.{IsAmong};
ghost use Rattle.market_floor.specs.Sound.{FitsFloor, IsSoundFloor};
ghost use Rattle.market_floor.specs.Worked.{halting};

use crate::facts::{equal, holds};
use agent_shell::{Kind, Sending, TraderSetting};
use exchange_agent::Outgoing;
use market_floor::laws::floors_stay_sound;
use market_floor::opening_worked::{markets_are_openings, opening};
use market_floor::{Floor, Happening, Opening, applied_by};
use market_rules::{Change, Dated, DatedList, Edit};
use market_types::{AgentNo, Body, Message, Quote, Time};
use std::alloc::Global;
use std::process::Abort;

// A halt of the first stock at a time.
fn halt_at(time: Time) -> Dated
    ensures { result ≡ record { time = time; stock = 0; change = Change.Halt } }
{
    Dated {
        time,
        stock: 0,
        change: Change::Halt,
    }
}

// Two halts.
fn halts(rt: &impl Abort, alloc: Global) -> DatedList
    ensures { result ≡ halting.dated }
{
    let dates = vec![in alloc; halt_at(1400), halt_at(1600)].expect(rt, "out of memory");
    DatedList::new(dates).expect(rt, "no dates")
}

// The market of the worked examples: one watcher, an exchange that computes for 7 nanoseconds, halts at 1400 and 1600.
fn halting_opening(rt: &impl Abort, alloc: Global) -> Opening
    ensures value { result ≡ halting }
    ensures opening { IsOpening result }
{
    markets_are_openings();
    let watcher = TraderSetting {
        kind: Kind::Watcher,
        group: 0,
        stock: 0,
        first: 1000,
        every: 1_000_000,
        wobble: 0,
        delay: 0,
        cash: 0,
    };
    let Ok(traders) = vec![in alloc; watcher] else {
        panic!(rt; "out of memory");
    };
    let Ok(mut o) = opening(alloc, 2000, 100, 7, traders) else {
        panic!(rt; "out of memory");
    };
    o.dated = halts(rt, alloc);
    o
}

// Its floor before the first event.
fn opened(rt: &impl Abort, alloc: Global, o: &Opening) -> Floor
    requires { IsOpening o.now }
    ensures value { result ≡ floor_at_opening o.now }
    ensures fits { FitsFloor o.now result }
    ensures sound { IsSoundFloor 0 result }
{
    Floor::open(alloc, o).expect(rt, "out of memory")
}

// Whether a body that asks does so of one of the market's stocks.
fn asks_of(o: &Opening, body: &Body) -> bool
    ensures { result ≡ true → IsAskable (length o.now.stocks) body.now }
{
    match body {
        Body::Ask(stock) => usize::from(*stock) < o.stocks.len(),
        _ => true,
    }
}

// A message between a floor's agents, of one of its stocks, within the market's hours.
fn message(
    rt: &impl Abort,
    o: &Opening,
    floor: &Floor,
    time: Time,
    from: AgentNo,
    to: AgentNo,
    body: Body,
) -> Message
    requires { FitsFloor o.now floor.now }
    ensures among { IsAmong (length floor.now.parties) (length floor.now.exchange.stocks) result }
    ensures start { o.now.start ≤ result.time }
    ensures close { result.time ≤ o.now.close }
{
    let traders = floor.traders();
    assert!(rt; usize::from(from) <= traders);
    assert!(rt; usize::from(to) <= traders);
    assert!(rt; to.max(from) > 0);
    assert!(rt; o.start <= time);
    assert!(rt; time <= o.close);
    assert!(rt; asks_of(o, &body));
    Message {
        time,
        seq: 3,
        from,
        to,
        body,
    }
}

// Delivers a message, after so many events.
fn deliver(
    rt: &impl Abort,
    alloc: Global,
    o: &Opening,
    floor: &mut Floor,
    events: u32,
    time: Time,
    from: AgentNo,
    to: AgentNo,
    body: Body,
) -> Happening
    requires fits { FitsFloor o.now floor.old }
    requires sound { IsSoundFloor events floor.old }
    requires few { events < 1000 }
    ensures fits { FitsFloor o.now floor.new }
    ensures sound { IsSoundFloor (events + 1) floor.new }
{
    floors_stay_sound();
    let m = message(rt, o, floor, time, from, to, body);
    let mut happening = Happening::new(alloc);
    let is_due = o.dated.is_due(0, m.time);
    let answer = floor.deliver(alloc, o, 0, is_due, &m, &mut happening);
    holds(rt, answer.is_ok());
    happening
}

// Whether the first posting is a quote of this state to agent 1.
fn is_quote(happening: &Happening, state: u8) -> bool {
    let (replies, _) = happening.postings.lists();
    match replies.first() {
        Some(
            Outgoing {
                to: 1,
                body: Body::Quote(quote),
            },
        ) => quote.state == state,
        _ => false,
    }
}

// Whether a trader's second sending is a wakeup at this time.
fn is_wakeup(happening: &Happening, time: Time) -> bool {
    let (_, sends) = happening.postings.lists();
    match sends.get(1) {
        Some(Sending::WakeAt(at)) => *at == time,
        _ => false,
    }
}

// How many replies the exchange gives to the mail, and how many messages a trader.
fn posted(happening: &Happening) -> (usize, usize) {
    let (replies, sends) = happening.postings.lists();
    (replies.len(), sends.len())
}

// How many quotes the first trader heard, and how many draws it made.
fn first_told(rt: &impl Abort, floor: &Floor) -> (u32, u64) {
    assert!(rt; floor.traders() == 1);
    let told = floor.trader(1);
    (told.quotes, told.draws)
}

const QUOTE: Body = Body::Quote(Quote {
    stock: 0,
    state: b'T',
    bid: 0,
    bid_shares: 0,
    ask: 0,
    ask_shares: 0,
    last: 0,
});

#[test]
fn a_watcher_wakes_and_hears(rt: HostRuntime) {
    let alloc = rt.alloc();
    let o = halting_opening(&rt, alloc);
    let mut floor = opened(&rt, alloc, &o);
    let woken = deliver(&rt, alloc, &o, &mut floor, 0, 1000, 1, 1, Body::Wake);
    equal(&rt, (posted(&woken), woken.delay), ((0, 2), 0));
    holds(&rt, is_wakeup(&woken, 1_001_000));
    let heard = deliver(&rt, alloc, &o, &mut floor, 1, 1017, 0, 1, QUOTE);
    equal(&rt, (posted(&heard), floor.traders()), ((0, 0), 1));
    equal(&rt, first_told(&rt, &floor), (1, 1));
    drop(heard);
    drop(woken);
    drop(floor);
    drop(o);
}

// The halt of 1400 is made with the question of that time.
#[test]
fn a_halt_comes_at_its_time(rt: HostRuntime) {
    let alloc = rt.alloc();
    let o = halting_opening(&rt, alloc);
    let mut floor = opened(&rt, alloc, &o);
    let early = deliver(&rt, alloc, &o, &mut floor, 0, 1399, 1, 0, Body::Ask(0));
    holds(&rt, is_quote(&early, b'T'));
    equal(&rt, (early.before.len(), early.delay), (0, 7));
    let late = deliver(&rt, alloc, &o, &mut floor, 1, 1400, 1, 0, Body::Ask(0));
    holds(&rt, is_quote(&late, b'H') && late.before.len() == 1);
    drop(late);
    drop(early);
    drop(floor);
    drop(o);
}

// How many feed messages the dated changes up to a time tell on a copy of a floor.
fn ruled_on_a_copy(rt: &impl Abort, alloc: Global, o: &Opening, floor: &Floor, time: Time) -> usize
    requires { FitsFloor o.now floor.now }
{
    let mut copy = floor.copy(alloc).expect(rt, "out of memory");
    let feed = copy.rule(alloc, o, 0, time).expect(rt, "out of memory");
    let told = feed.len();
    drop(feed);
    drop(copy);
    told
}

// A copy goes its own way: the halts are made on it alone.
#[test]
fn a_copy_halts(rt: HostRuntime) {
    let alloc = rt.alloc();
    let o = halting_opening(&rt, alloc);
    let floor = opened(&rt, alloc, &o);
    equal(&rt, ruled_on_a_copy(&rt, alloc, &o, &floor, 1600), 1);
    equal(&rt, applied_by(&o, 0, o.dated.is_due(0, 1600), 1600), 2);
    drop(floor);
    drop(o);
}

// Edits a fresh floor at 1500, and how many feed messages that told.
fn edited(rt: &impl Abort, alloc: Global, floor: &mut Floor, edit: &Edit) -> usize
    requires { IsEdit floor.old edit.now }
{
    let feed = floor.edit(alloc, 1500, edit).expect(rt, "out of memory");
    let told = feed.len();
    drop(feed);
    told
}

#[test]
fn edits_are_made(rt: HostRuntime) {
    let alloc = rt.alloc();
    let o = halting_opening(&rt, alloc);
    let mut floor = opened(&rt, alloc, &o);
    equal(
        &rt,
        edited(&rt, alloc, &mut floor, &Edit::Halt { stock: 0 }),
        1,
    );
    drop(floor);
    let mut floor = opened(&rt, alloc, &o);
    edited(&rt, alloc, &mut floor, &Edit::Silence { agent: 1 });
    assert!(rt; floor.traders() == 1);
    holds(&rt, floor.silenced(1));
    drop(floor);
    drop(o);
}
