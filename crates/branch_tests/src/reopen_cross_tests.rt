ghost use Rattle.std.specs.Prelude.{◌≤◌, All, IfOk, OnOk, length};
ghost use Rattle.reopen_cross.specs.declared.cross.Interest.{Interest};
ghost use Rattle.reopen_cross.specs.Orderly.{AreInterests};

use crate::facts::{equal, holds};
use market_types::{HIGHEST_PRICE, Memory, Side};
use reopen_cross::laws::an_order_joins;
use reopen_cross::{Cross, Interest, Part, choose, parts};
use std::alloc::Global;
use std::process::Abort;

const ROUNDS: u64 = 64;

// An order: its side, price and open shares, and whether it is displayed.
pub type Row = (Side, u32, u32, bool);

// Two orders to buy.
pub const TWO: [Row; 2] = [
    (Side::Buy, 100_200, 100, true),
    (Side::Buy, 100_100, 200, true),
];

// The same, and then three to sell.
pub const FIVE: [Row; 5] = [
    (Side::Buy, 100_200, 100, true),
    (Side::Buy, 100_100, 200, true),
    (Side::Sell, 100_000, 150, true),
    (Side::Sell, 100_100, 100, true),
    (Side::Sell, 100_200, 100, true),
];

// Prices and shares at the ends of their ranges.
const ENDS: [Row; 2] = [
    (Side::Sell, 1, 999_999, true),
    (Side::Buy, HIGHEST_PRICE, 999_999, false),
];

// An order joins a list under the next reference; its price and shares come into their ranges.
fn join(list: &mut Vec<Interest>, row: &Row) -> Result<(), Memory>
    requires interests { AreInterests list.old.items }
    requires numbered { All (λ (o : Interest). o.reference ≤ length list.old.items) list.old.items }
    ensures interests { OnOk result (AreInterests list.new.items) }
    ensures numbered { OnOk result (All (λ (o : Interest). o.reference ≤ length list.new.items) list.new.items) }
{
    an_order_joins();
    let (side, price, left, shown) = *row;
    if list.len() >= 32_768 {
        return Err(Memory);
    }
    list.push(Interest {
        reference: list.len() as u64 + 1,
        side,
        price: price.clamp(1, HIGHEST_PRICE),
        left: left.clamp(1, 999_999),
        shown,
    })?;
    Ok(())
}

// Orders under the references 1, 2, 3 and so on.
pub fn list_of(alloc: Global, rows: &[Row]) -> Result<Vec<Interest>, Memory>
    ensures interests { IfOk result (λ v. AreInterests v.items) }
    ensures numbered { IfOk result (λ v. All (λ (o : Interest). o.reference ≤ length v.items) v.items) }
{
    an_order_joins();
    let mut list = Vec::new(alloc);
    for row in rows {
        join(&mut list, row)?;
    }
    Ok(list)
}

// Where a list crosses, and who trades there.
fn crossed(alloc: Global, list: &[Interest]) -> Result<(Option<Cross>, Vec<Part>), Memory>
    requires { AreInterests list.now }
{
    match choose(alloc, list)? {
        Some(cross) => Ok((Some(cross), parts(alloc, list, &cross)?)),
        None => Ok((None, Vec::new(alloc))),
    }
}

fn part(side: Side, reference: u64, shares: u32) -> Part {
    Part {
        side,
        reference,
        shares,
    }
}

// Orders cross so, and trade these parts.
fn assert_crossed(
    rt: &impl Abort,
    alloc: Global,
    rows: &[Row],
    cross: Option<Cross>,
    want: &[Part],
) {
    let list = list_of(alloc, rows).expect(rt, "memory");
    let (told, filled) = crossed(alloc, list.as_slice()).expect(rt, "memory");
    drop(list);
    equal(rt, told, cross);
    holds(rt, filled.as_slice() == want);
    drop(filled);
}

const FIVE_CROSS: Cross = Cross {
    price: 100_100,
    shares: 250,
    buys: 300,
    sells: 250,
    cut: 100_199,
    below: 250,
    above: 100,
};

#[test]
fn five_orders_cross(rt: HostRuntime) {
    let want = [
        part(Side::Buy, 1, 100),
        part(Side::Buy, 2, 150),
        part(Side::Sell, 3, 150),
        part(Side::Sell, 4, 100),
    ];
    assert_crossed(&rt, rt.alloc(), &FIVE, Some(FIVE_CROSS), &want);
}

#[test]
fn two_orders_to_buy_do_not_cross(rt: HostRuntime) {
    assert_crossed(&rt, rt.alloc(), &TWO, None, &[]);
}

const ENDS_CROSS: Cross = Cross {
    price: 1,
    shares: 999_999,
    buys: 999_999,
    sells: 999_999,
    cut: HIGHEST_PRICE,
    below: 999_999,
    above: 0,
};

#[test]
fn ends_of_the_ranges_cross(rt: HostRuntime) {
    let want = [part(Side::Buy, 2, 999_999), part(Side::Sell, 1, 999_999)];
    assert_crossed(&rt, rt.alloc(), &ENDS, Some(ENDS_CROSS), &want);
}

// Whether an order is of a side and takes part at a price.
fn takes_part(order: &Interest, side: Side, price: u32) -> bool {
    match side {
        Side::Buy => order.side == side && price <= order.price,
        Side::Sell => order.side == side && order.price <= price,
    }
}

// The shares of a side at a price, added up over the list.
fn shares_at(list: &[Interest], side: Side, price: u32) -> u64 {
    let mut shares = 0u64;
    for order in list {
        if takes_part(order, side, price) {
            shares = shares.saturating_add(u64::from(order.left));
        }
    }
    shares
}

// What makes one price better than another: less is better.
fn rank(list: &[Interest], price: u32) -> (u64, u64, u32) {
    let buys = shares_at(list, Side::Buy, price);
    let sells = shares_at(list, Side::Sell, price);
    (u64::MAX - buys.min(sells), buys.abs_diff(sells), price)
}

// The best of the prices of a list.
fn best(list: &[Interest]) -> u32 {
    let mut best = (u64::MAX, u64::MAX, 0);
    for order in list {
        let this = rank(list, order.price);
        if this < best {
            best = this;
        }
    }
    best.2
}

// The greatest price up to which at most so many shares are to be sold: the highest, or one below a price of the
// list.
fn cut(list: &[Interest], shares: u64) -> u32 {
    let mut cut = 0;
    for order in list {
        let price = order.price.saturating_sub(1);
        if cut < price && shares_at(list, Side::Sell, price) <= shares {
            cut = price;
        }
    }
    if shares_at(list, Side::Sell, HIGHEST_PRICE) <= shares {
        HIGHEST_PRICE
    } else {
        cut
    }
}

// The cross by trying each price of the list.
fn plain_cross(list: &[Interest]) -> Option<Cross> {
    let price = best(list);
    let buys = shares_at(list, Side::Buy, price);
    let sells = shares_at(list, Side::Sell, price);
    let shares = buys.min(sells);
    if shares == 0 {
        return None;
    }
    let cut = cut(list, shares);
    Some(Cross {
        price,
        shares,
        buys,
        sells,
        cut,
        below: shares_at(list, Side::Sell, cut),
        above: shares_at(list, Side::Buy, cut.saturating_add(1)),
    })
}

// What makes one order earlier than another of its side: less is earlier.
fn place(order: &Interest) -> (u32, bool, u64) {
    match order.side {
        Side::Buy => (u32::MAX - order.price, !order.shown, order.reference),
        Side::Sell => (order.price, !order.shown, order.reference),
    }
}

// Whether an order comes after another, if there is one.
fn is_after(order: &Interest, other: Option<Interest>) -> bool {
    match other {
        Some(o) => place(&o) < place(order),
        None => true,
    }
}

// Whether an order comes before another, if there is one.
fn is_before(order: &Interest, other: Option<Interest>) -> bool {
    match other {
        Some(o) => place(order) < place(&o),
        None => true,
    }
}

// The earliest order of a side, of those that take part at a price and come after another.
fn next(list: &[Interest], side: Side, price: u32, after: Option<Interest>) -> Option<Interest> {
    let mut next: Option<Interest> = None;
    for order in list {
        if takes_part(order, side, price) & is_after(order, after) & is_before(order, next) {
            next = Some(*order);
        }
    }
    next
}

// What each order of a side trades, one after another.
fn fill(parts: &mut Vec<Part>, list: &[Interest], side: Side, cross: &Cross) -> Result<(), Memory> {
    let mut wanted = cross.shares;
    let mut last = None;
    for _ in list {
        last = next(list, side, cross.price, last);
        let Some(order) = last else {
            return Ok(());
        };
        let shares = u64::from(order.left).min(wanted);
        if shares > 0 {
            parts.push(part(side, order.reference, shares as u32))?;
        }
        wanted -= shares;
    }
    Ok(())
}

// The next state of a small generator (a linear congruence over 64 bits).
fn stirred(seed: u64) -> u64 {
    seed.wrapping_mul(6_364_136_223_846_793_005)
        .wrapping_add(1_442_695_040_888_963_407)
}

// An order at one of five prices.
fn row_of(roll: u64) -> Row {
    let side = if roll % 2 == 0 { Side::Buy } else { Side::Sell };
    let price = 100_000 + (roll / 2 % 5) as u32 * 100;
    let left = 1 + (roll / 16 % 3) as u32 * 50;
    (side, price, left, roll / 64 % 3 > 0)
}

// So many orders from a seed.
fn drawn(alloc: Global, seed: u64, count: u64) -> Result<Vec<Row>, Memory> {
    let mut rows = Vec::new(alloc);
    let mut state = seed;
    for _ in 0..count {
        state = stirred(state);
        rows.push(row_of(state >> 33))?;
    }
    Ok(rows)
}

// What trades at a cross, by trying.
fn plain_parts(
    rt: &impl Abort,
    alloc: Global,
    list: &[Interest],
    cross: Option<Cross>,
) -> Vec<Part> {
    let mut parts = Vec::new(alloc);
    if let Some(cross) = cross {
        fill(&mut parts, list, Side::Buy, &cross).expect(rt, "memory");
        fill(&mut parts, list, Side::Sell, &cross).expect(rt, "memory");
    }
    parts
}

// Compares cross and parts with those by trying, and tells whether there is a cross.
fn agrees(rt: &impl Abort, alloc: Global, list: &[Interest]) -> bool
    requires { AreInterests list.now }
{
    let (cross, filled) = crossed(alloc, list).expect(rt, "memory");
    equal(rt, cross, plain_cross(list));
    let want = plain_parts(rt, alloc, list, cross);
    holds(rt, filled.as_slice() == want.as_slice());
    drop(want);
    drop(filled);
    cross.is_some()
}

// Whether the orders that are drawn in a round cross.
fn round_crosses(rt: &impl Abort, alloc: Global, round: u64) -> bool {
    let rows = drawn(alloc, round, 1 + round % 9).expect(rt, "memory");
    let list = list_of(alloc, rows.as_slice()).expect(rt, "memory");
    drop(rows);
    let crosses = agrees(rt, alloc, list.as_slice());
    drop(list);
    crosses
}

#[test]
fn drawn_lists_agree_with_trying(rt: HostRuntime) {
    let mut crossed = 0u64;
    for round in 0..ROUNDS {
        if round_crosses(&rt, rt.alloc(), round) {
            crossed = crossed.saturating_add(1);
        }
    }
    holds(&rt, 20 < crossed && crossed < ROUNDS);
}
