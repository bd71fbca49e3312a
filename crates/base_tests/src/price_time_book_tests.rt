ghost use Rattle.std.specs.Prelude.{◌≡◌, ◌<◌, ◌≤◌, ◌+◌, ◌^◌, All, length};

use crate::facts::{equal, holds};
use market_types::{AgentNo, Side, Token};
use price_time_book::keeping::changes_keep;
use price_time_book::{Best, Book, Fill, Resting};
use std::alloc::Global;
use std::process::Abort;

const ROUNDS: u64 = 3000;

const FIRST: Token = Token(*b"FIRST         ");

const SECOND: Token = Token(*b"SECOND        ");

// An order comes to rest under the next reference, if its agent has none with its token.
fn add(book: &mut Book, order: Resting, next: u64) -> bool
    requires room { 0 < book.old.spare }
    requires live { 0 < order.left }
    requires intended { order.left ≤ order.intended }
    requires reference { order.reference ≡ next }
    requires before { All (λ o. o.reference < next) book.old.list }
    requires few { length book.old.list ≤ next }
    requires small { next < 10000 }
    ensures before { All (λ o. o.reference < next + 1) book.new.list }
    ensures few { length book.new.list ≤ next + 1 }
    ensures room { book.old.spare ≤ book.new.spare + 1 }
{
    if book.find(order.agent, &order.token).is_some() {
        return false;
    }
    book.rest(order);
    true
}

// What the next order gives to one that wants so many shares.
fn take(book: &mut Book, side: Side, limit: u32, wanted: u32, next: u64) -> Option<Fill>
    requires before { All (λ o. o.reference < next) book.old.list }
    ensures before { All (λ o. o.reference < next) book.new.list }
    ensures few { length book.new.list ≤ length book.old.list }
    ensures room { book.old.spare ≤ book.new.spare }
{
    if wanted == 0 {
        return None;
    }
    changes_keep();
    book.match_next(side, limit, wanted)
}

// Half of an order's open shares leave.
fn halve(book: &mut Book, agent: AgentNo, token: &Token, next: u64) -> Option<Resting>
    requires before { All (λ o. o.reference < next) book.old.list }
    ensures before { All (λ o. o.reference < next) book.new.list }
    ensures few { length book.new.list ≤ length book.old.list }
    ensures room { book.old.spare ≤ book.new.spare }
{
    changes_keep();
    let held = *book.find(agent, token)?;
    book.reduce(held.reference, held.left / 2)
}

fn sell(reference: u64, agent: AgentNo, token: Token, price: u32, left: u32) -> Resting
    ensures reference { result.reference ≡ reference }
    ensures left { result.left ≡ left }
    ensures intended { result.intended ≡ left }
{
    Resting {
        reference,
        agent,
        token,
        side: Side::Sell,
        price,
        intended: left,
        left,
        tif: 99_999,
        shown: true,
    }
}

// What a fill says: the reference, the price and the shares.
fn said(fill: Option<Fill>) -> Option<(u64, u32, u32)> {
    let f = fill?;
    Some((f.resting.reference, f.resting.price, f.shares))
}

// What the next order says that gives to a buy of so many shares.
fn bought(book: &mut Book, limit: u32, wanted: u32) -> Option<(u64, u32, u32)> {
    if wanted == 0 {
        return None;
    }
    said(book.match_next(Side::Buy, limit, wanted))
}

// Buys of these limits and shares get this, one after the other.
fn buys_get(rt: &impl Abort, book: &mut Book, buys: &[(u32, u32, Option<(u64, u32, u32)>)]) {
    for (limit, wanted, hoped) in buys {
        equal(rt, bought(book, *limit, *wanted), *hoped);
    }
}

// Three sells come to rest.
fn rest_three(rt: &impl Abort, book: &mut Book)
    requires room { 3 ≤ book.old.spare }
    requires before { All (λ o. o.reference < 1) book.old.list }
    requires few { length book.old.list ≤ 1 }
{
    holds(rt, add(book, sell(1, 2, FIRST, 100_100, 100), 1));
    holds(rt, add(book, sell(2, 2, SECOND, 100_000, 200), 2));
    holds(rt, add(book, sell(3, 3, FIRST, 100_000, 300), 3));
}

// The best price and its shares.
fn best_of(book: &Book, side: Side) -> Option<(u32, u64)> {
    let best = book.best(side)?;
    Some((best.price, best.shares))
}

const SWEPT: [(u32, u32, Option<(u64, u32, u32)>); 5] = [
    (99_999, 700, None),
    (100_100, 700, Some((2, 100_000, 200))),
    (100_100, 500, Some((3, 100_000, 300))),
    (100_100, 200, Some((1, 100_100, 100))),
    (100_100, 100, None),
];

#[test]
fn sweeps_three_sells(rt: HostRuntime) {
    let mut book = Book::new(rt.alloc());
    assert!(rt; book.reserve(3).is_ok());
    rest_three(&rt, &mut book);
    equal(&rt, best_of(&book, Side::Sell), Some((100_000, 500)));
    equal(&rt, best_of(&book, Side::Buy), None);
    buys_get(&rt, &mut book, &SWEPT);
    equal(&rt, book.depth(Side::Sell), 0);
    drop(book);
}

// A hidden sell and then a shown one of the same price come to rest.
fn rest_both(rt: &impl Abort, book: &mut Book)
    requires room { 2 ≤ book.old.spare }
    requires before { All (λ o. o.reference < 1) book.old.list }
    requires few { length book.old.list ≤ 1 }
{
    let veiled = Resting {
        shown: false,
        ..sell(1, 2, FIRST, 100_000, 100)
    };
    holds(rt, add(book, veiled, 1));
    holds(rt, book.best(Side::Sell).is_none());
    holds(rt, add(book, sell(2, 3, FIRST, 100_000, 100), 2));
}

#[test]
fn meets_shown_orders_first(rt: HostRuntime) {
    let mut book = Book::new(rt.alloc());
    assert!(rt; book.reserve(2).is_ok());
    rest_both(&rt, &mut book);
    equal(&rt, best_of(&book, Side::Sell), Some((100_000, 100)));
    buys_get(&rt, &mut book, &[(100_000, 150, Some((2, 100_000, 100)))]);
    equal(&rt, book.crossing(Side::Buy, 100_000), 1);
    buys_get(&rt, &mut book, &[(100_000, 50, Some((1, 100_000, 50)))]);
    equal(&rt, best_of(&book, Side::Sell), None);
    equal(&rt, book.depth(Side::Sell), 1);
    drop(book);
}

// The next state of a small generator (a linear congruence over 64 bits).
fn stirred(seed: u64) -> u64 {
    seed.wrapping_mul(6_364_136_223_846_793_005)
        .wrapping_add(1_442_695_040_888_963_407)
}

// One of sixteen tokens.
fn token_of(roll: u64) -> Token {
    Token([b'A' + (roll % 16) as u8; 14])
}

// One of seven agents.
fn agent_of(roll: u64) -> AgentNo {
    1 + (roll / 16 % 7) as AgentNo
}

// One of nine prices.
fn price_of(roll: u64) -> u32 {
    100_000 + (roll / 128 % 9) as u32 * 100
}

// One of the two sides.
fn side_of(roll: u64) -> Side {
    if roll / 2048 % 2 == 0 {
        Side::Buy
    } else {
        Side::Sell
    }
}

// One to forty shares.
fn shares_of(roll: u64) -> u32
    ensures some { 0 < result }
    ensures few { result ≤ 40 }
{
    1 + (roll / 4096 % 40) as u32
}

// Two of three orders are shown.
fn is_shown(roll: u64) -> bool {
    roll / 262_144 % 3 != 0
}

// An order for the comparison with a plain list.
fn made(next: u64, roll: u64) -> Resting
    ensures reference { result.reference ≡ next }
    ensures live { 0 < result.left }
    ensures intended { result.left ≤ result.intended }
{
    Resting {
        reference: next,
        agent: agent_of(roll),
        token: token_of(roll),
        side: side_of(roll),
        price: price_of(roll),
        intended: 40,
        left: shares_of(roll),
        tif: 99_999,
        shown: is_shown(roll),
    }
}

// Where an order stands among those of its side: less is better.
fn rank(order: &Resting) -> u64 {
    let price = match order.side {
        Side::Buy => u32::MAX - order.price,
        Side::Sell => order.price,
    };
    let behind = if order.shown { 0 } else { 1 };
    u64::from(price).saturating_mul(2).saturating_add(behind)
}

// The first order of one side: the least by rank and reference.
fn first(plain: &[Resting], side: Side) -> Option<Resting> {
    let mut first: Option<Resting> = None;
    for order in plain {
        match first {
            _ if order.side != side => {}
            Some(o) if (rank(&o), o.reference) < (rank(order), order.reference) => {}
            _ => first = Some(*order),
        }
    }
    first
}

// The least rank of the shown orders of one side.
fn best_rank(plain: &[Resting], side: Side) -> Option<u64> {
    let mut best: Option<u64> = None;
    for order in plain {
        if order.side == side && order.shown {
            best = Some(best.unwrap_or(u64::MAX).min(rank(order)));
        }
    }
    best
}

// The open shares of one side at a rank, if there is one.
fn sum(plain: &[Resting], side: Side, wanted: Option<u64>) -> Option<u64> {
    let wanted = wanted?;
    let mut shares = 0u64;
    for order in plain {
        if order.side == side && rank(order) == wanted {
            shares = shares.saturating_add(u64::from(order.left));
        }
    }
    Some(shares)
}

// Whether an order crosses one of this side with this limit.
fn crosses(order: &Resting, side: Side, limit: u32) -> bool {
    match side {
        Side::Buy => order.side == Side::Sell && order.price <= limit,
        Side::Sell => order.side == Side::Buy && order.price >= limit,
    }
}

// The place of the order with a reference.
fn place_of(plain: &[Resting], reference: u64) -> Option<usize> {
    for (i, order) in plain.iter().enumerate() {
        if order.reference == reference {
            return Some(i);
        }
    }
    None
}

// So many shares of the order with this reference leave.
fn lower(plain: &mut Vec<Resting>, reference: u64, shares: u32, intended: u32) -> Option<Resting> {
    let at = place_of(plain.as_slice(), reference)?;
    if at >= plain.len() {
        return None;
    }
    let was = plain[at];
    if was.left <= shares {
        plain.remove(at);
        return Some(was);
    }
    plain[at].left = was.left - shares;
    plain[at].intended = was.intended.saturating_sub(intended);
    Some(was)
}

// The order that an agent sent under a token.
fn sent(plain: &[Resting], agent: AgentNo, token: &Token) -> Option<Resting> {
    for order in plain {
        if order.agent == agent && order.token == *token {
            return Some(*order);
        }
    }
    None
}

// The first order of the other side gives shares, if its price is within the limit.
fn give(plain: &mut Vec<Resting>, side: Side, limit: u32, wanted: u32) -> Option<Resting> {
    let order = first(plain.as_slice(), side.opposite())?;
    if !crosses(&order, side, limit) {
        return None;
    }
    lower(plain, order.reference, wanted, 0)
}

// How many orders one side has, and how many orders cross one of this side with a limit.
fn counts(plain: &[Resting], side: Side, limit: u32) -> (usize, usize) {
    let (mut depth, mut crossing) = (0usize, 0usize);
    for order in plain {
        depth = depth.saturating_add(usize::from(order.side == side));
        crossing = crossing.saturating_add(usize::from(crosses(order, side, limit)));
    }
    (depth, crossing)
}

// The shares of the best price, if there is one.
fn shares_at(best: Option<Best>) -> Option<u64> {
    Some(best?.shares)
}

// Compares what a side tells.
fn assert_same_side(rt: &impl Abort, book: &Book, plain: &[Resting], side: Side) {
    let shares = sum(plain, side, best_rank(plain, side));
    equal(rt, shares_at(book.best(side)), shares);
    let told = (book.depth(side), book.crossing(side, 100_300));
    holds(rt, told == counts(plain, side, 100_300));
}

// Compares all that a book tells.
fn assert_same(rt: &impl Abort, book: &Book, plain: &[Resting]) {
    assert_same_side(rt, book, plain, Side::Buy);
    assert_same_side(rt, book, plain, Side::Sell);
    equal(rt, book.len(), plain.len());
    equal(rt, book.is_empty(), plain.is_empty());
}

// Whether a fill is of this order, with as many of the wanted shares as it has.
fn is_given(fill: Option<Fill>, order: Option<Resting>, wanted: u32) -> bool {
    match (fill, order) {
        (Some(fill), Some(o)) => fill.resting == o && fill.shares == o.left.min(wanted),
        (None, None) => true,
        _ => false,
    }
}

// An incoming order meets the first order of the other side.
fn match_some(rt: &impl Abort, book: &mut Book, plain: &mut Vec<Resting>, roll: u64, next: u64)
    requires before { All (λ o. o.reference < next) book.old.list }
    ensures before { All (λ o. o.reference < next) book.new.list }
    ensures few { length book.new.list ≤ length book.old.list }
    ensures room { book.old.spare ≤ book.new.spare }
{
    let (side, limit, wanted) = (side_of(roll), price_of(roll), shares_of(roll));
    let fill = take(book, side, limit, wanted, next);
    let want = give(plain, side, limit, wanted);
    holds(rt, is_given(fill, want, wanted));
}

// Half of an agent's order leaves, if it has one under the token.
fn lower_some(rt: &impl Abort, book: &mut Book, plain: &mut Vec<Resting>, roll: u64, next: u64)
    requires before { All (λ o. o.reference < next) book.old.list }
    ensures before { All (λ o. o.reference < next) book.new.list }
    ensures few { length book.new.list ≤ length book.old.list }
    ensures room { book.old.spare ≤ book.new.spare }
{
    let (agent, token) = (agent_of(roll), token_of(roll));
    let was = halve(book, agent, &token, next);
    let want = sent(plain.as_slice(), agent, &token);
    equal(rt, was, want);
    if let Some(order) = want {
        let open = order.left - order.left / 2;
        let _ = lower(plain, order.reference, open, open);
    }
}

// An order comes to rest, if its agent has none with its token.
fn rest_some(rt: &impl Abort, book: &mut Book, plain: &mut Vec<Resting>, roll: u64, next: u64)
    requires before { All (λ o. o.reference < next) book.old.list }
    requires few { length book.old.list ≤ next }
    requires small { next < 10000 }
    ensures before { All (λ o. o.reference < next + 1) book.new.list }
    ensures few { length book.new.list ≤ next + 1 }
{
    assert!(rt; book.reserve(1).is_ok());
    let order = made(next, roll);
    let known = sent(plain.as_slice(), order.agent, &order.token).is_some();
    equal(rt, add(book, order, next), !known);
    if !known {
        holds(rt, plain.push(order).is_ok());
    }
}

// A copy of a book that lists these orders.
fn copied(rt: &impl Abort, alloc: Global, book: &Book, plain: &[Resting]) -> Book {
    let listed = book.orders(alloc).expect(rt, "memory");
    holds(rt, listed.as_slice() == plain);
    drop(listed);
    book.copy(alloc).expect(rt, "memory")
}

// An order comes to rest, if it can, and then one trades or is lowered.
fn one_round(rt: &impl Abort, book: &mut Book, plain: &mut Vec<Resting>, seed: u64, next: u64)
    requires before { All (λ o. o.reference < next) book.old.list }
    requires few { length book.old.list ≤ next }
    requires small { next < 10000 }
    ensures before { All (λ o. o.reference < next + 1) book.new.list }
    ensures few { length book.new.list ≤ next + 1 }
{
    rest_some(rt, book, plain, seed >> 33, next);
    let roll = stirred(seed);
    if roll >> 63 == 0 {
        match_some(rt, book, plain, roll >> 33, next + 1);
    } else {
        lower_some(rt, book, plain, roll >> 33, next + 1);
    }
    assert_same(rt, book, plain.as_slice());
}

#[test]
fn agrees_with_a_plain_list(rt: HostRuntime) {
    let mut book = Book::new(rt.alloc());
    let mut plain: Vec<Resting> = Vec::new(rt.alloc());
    let mut seed = 7;
    for next in 0..ROUNDS {
        seed = stirred(seed);
        one_round(&rt, &mut book, &mut plain, seed, next);
        seed = stirred(seed);
    }
    let copy = copied(&rt, rt.alloc(), &book, plain.as_slice());
    assert_same(&rt, &copy, plain.as_slice());
    drop(copy);
    drop(plain);
    drop(book);
}
