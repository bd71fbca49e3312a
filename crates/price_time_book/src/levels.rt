//! The levels of price of a book, and orders that join them.
//!
//! The orders stand in one vector in order of arrival. One that has left stays there at 0 open shares.
//! The shown orders of a side are a queue, and its hidden ones another. Each queue has its levels in order
//! of price, the best one last. A level knows where the chain of its orders begins and ends; the chain goes
//! through all orders of its queue and price, also those that have left, so an order that leaves changes no
//! link.

ghost use Rattle.std.specs.Prelude.{◌≡◌, ◌≢◌, ◌<◌, ◌≤◌, ◌+◌, ◌-◌, ◌++◌, ◌∷◌, [], All, length, slice_index_or, vec_len, vec_capacity, ℕ, List, true, false};
ghost use Rattle.market_types.specs.declared.order.Side.{Side};
ghost use Rattle.price_time_book.specs.declared.levels.Level.{Level};
ghost use Rattle.price_time_book.specs.declared.levels.Queue.{Queue};
ghost use Rattle.price_time_book.specs.declared.resting.Resting.{Resting};
ghost use Rattle.price_time_book.specs.Indexed.{IsIndexed, IsNoBetter, IsWorse, open_orders};
ghost use Rattle.price_time_book.specs.Next.{crossing_of};
ghost use Rattle.price_time_book.specs.Queues.{best_in, hidden_of, queue_of, shown_of};
ghost use Rattle.price_time_book.specs.Sides.{opposite_of};

use crate::resting::{Best, Resting};
use crate::search::is_crossed;
use market_types::Side;

/// The orders of a side that are shown, or those that are hidden.
#[derive(Clone, Copy)]
pub struct Queue {
    pub side: Side,
    /// The orders are displayed.
    pub shown: bool,
}

/// A price of a queue: where its chain of orders begins and ends in the vector of arrival, and its open
/// shares.
#[derive(Clone, Copy)]
pub struct Level {
    pub price: u32,
    pub first: usize,
    pub last: usize,
    pub shares: u64,
}

/// A side of a book: the levels of its shown and of its hidden orders, and how many orders rest on it.
#[derive(Drop)]
pub struct Half {
    pub shown: Vec<Level>,
    pub hidden: Vec<Level>,
    pub count: usize,
}

// Whether a price is worse than another for orders that rest on this side.
fn is_worse(side: Side, a: u32, b: u32) -> bool
    ensures worse { result ≡ true → IsWorse side a b }
    ensures no_worse { result ≡ false → IsNoBetter side b a }
{
    match side {
        Side::Buy => a < b,
        Side::Sell => b < a,
    }
}

// Where a price stands in the levels of a side, or joins.
pub fn place_of(side: Side, levels: &[Level], price: u32) -> usize
    ensures within { result ≤ length levels.now }
    ensures below { (d : Level) → 0 < result → IsWorse side (slice_index_or levels.now (result - 1) d).price price }
    ensures above { (d : Level) → result < length levels.now →
        IsNoBetter side price (slice_index_or levels.now result d).price }
{
    let mut low = 0;
    let mut high = levels.len();
    while low < high {
        let middle = low + (high - low) / 2;
        if is_worse(side, levels[middle].price, price) {
            low = middle + 1;
        } else {
            high = middle;
        }
    }
    let _side = side;
    low
}

// Where the best level stands.
pub fn place_of_best(levels: &[Level]) -> usize
    requires { 0 < length levels.now }
    ensures within { result < length levels.now }
    ensures last { result ≡ length levels.now - 1 }
{
    levels.len() - 1
}

// The best price of a queue and the open shares at it.
pub fn best_in(queue: Queue, levels: &[Level]) -> Option<Best>
    ensures { (os : List Resting) (nx : List ℕ) → IsIndexed queue os nx levels.now → result ≡ best_in queue (open_orders os) }
{
    let _queue = queue;
    if levels.is_empty() {
        return None;
    }
    let level = levels[place_of_best(levels)];
    Some(Best {
        price: level.price,
        shares: level.shares,
    })
}

// Whether the best price of shown or that of hidden orders of the other side meets the limit of an incoming
// order of this side. If neither does, nothing crosses.
pub fn is_met(side: Side, limit: u32, half: &Half) -> bool
    ensures { (os : List Resting) (nx : List ℕ) →
        IsIndexed (shown_of (opposite_of side)) os nx half.now.shown.items →
        IsIndexed (hidden_of (opposite_of side)) os nx half.now.hidden.items →
        result ≡ false → crossing_of side limit (open_orders os) ≡ 0 }
{
    let other = side.opposite();
    let before = best_in(
        Queue {
            side: other,
            shown: true,
        },
        half.shown.as_slice(),
    );
    let behind = best_in(
        Queue {
            side: other,
            shown: false,
        },
        half.hidden.as_slice(),
    );
    is_crossed(before, side, limit) || is_crossed(behind, side, limit)
}

// An order joins the vector of arrival; none follows it.
fn arrive(orders: &mut Vec<Resting>, nexts: &mut Vec<usize>, order: Resting)
    requires orders_room { vec_len orders.old < vec_capacity orders.old }
    requires nexts_room { vec_len nexts.old < vec_capacity nexts.old }
    ensures orders { orders.new.items ≡ orders.old.items ++ order ∷ [] }
    ensures nexts { nexts.new.items ≡ nexts.old.items ++ length orders.old.items ∷ [] }
    ensures orders_capacity { vec_capacity orders.old ≤ vec_capacity orders.new }
    ensures nexts_capacity { vec_capacity nexts.old ≤ vec_capacity nexts.new }
{
    let place = orders.len();
    match orders.push(order) {
        Ok(()) => {}
        Err(_) => unreachable!(),
    }
    match nexts.push(place) {
        Ok(()) => {}
        Err(_) => unreachable!(),
    }
}

// An order joins the end of the level at a place.
fn extend(
    orders: &mut Vec<Resting>,
    nexts: &mut Vec<usize>,
    levels: &mut Vec<Level>,
    at: usize,
    order: Resting,
)
    requires orders_room { vec_len orders.old < vec_capacity orders.old }
    requires nexts_room { vec_len nexts.old < vec_capacity nexts.old }
    requires open { 0 < order.left }
    requires level { at < vec_len levels.old }
    requires price { (d : Level) → (slice_index_or levels.old.items at d).price ≡ order.price }
    requires small { (d : Level) → (slice_index_or levels.old.items at d).shares < 18446744069414584320 }
    requires indexed { IsIndexed (queue_of order) orders.old.items nexts.old.items levels.old.items }
    ensures orders { orders.new.items ≡ orders.old.items ++ order ∷ [] }
    ensures indexed { IsIndexed (queue_of order) orders.new.items nexts.new.items levels.new.items }
    ensures others { (t : Queue) (ls : List Level) → t ≢ queue_of order → IsIndexed t orders.old.items nexts.old.items ls → IsIndexed t orders.new.items nexts.new.items ls }
    ensures orders_capacity { vec_capacity orders.old ≤ vec_capacity orders.new }
    ensures nexts_len { vec_len nexts.new ≡ vec_len nexts.old + 1 }
    ensures nexts_capacity { vec_capacity nexts.old ≤ vec_capacity nexts.new }
    ensures levels_len { vec_len levels.new ≤ vec_len levels.old + 1 }
    ensures levels_capacity { vec_capacity levels.old ≤ vec_capacity levels.new }
{
    let level = levels[at];
    let place = orders.len();
    nexts[level.last] = place;
    levels[at] = Level {
        last: place,
        shares: level.shares + u64::from(order.left),
        ..level
    };
    arrive(orders, nexts, order);
}

// An order makes a level at a place.
fn make(
    orders: &mut Vec<Resting>,
    nexts: &mut Vec<usize>,
    levels: &mut Vec<Level>,
    at: usize,
    order: Resting,
)
    requires orders_room { vec_len orders.old < vec_capacity orders.old }
    requires nexts_room { vec_len nexts.old < vec_capacity nexts.old }
    requires levels_room { vec_len levels.old < vec_capacity levels.old }
    requires open { 0 < order.left }
    requires within { at ≤ vec_len levels.old }
    requires below { (d : Level) → 0 < at → IsWorse order.side (slice_index_or levels.old.items (at - 1) d).price order.price }
    requires above { (d : Level) → at < vec_len levels.old → IsWorse order.side order.price (slice_index_or levels.old.items at d).price }
    requires indexed { IsIndexed (queue_of order) orders.old.items nexts.old.items levels.old.items }
    ensures orders { orders.new.items ≡ orders.old.items ++ order ∷ [] }
    ensures indexed { IsIndexed (queue_of order) orders.new.items nexts.new.items levels.new.items }
    ensures others { (t : Queue) (ls : List Level) → t ≢ queue_of order → IsIndexed t orders.old.items nexts.old.items ls → IsIndexed t orders.new.items nexts.new.items ls }
    ensures orders_capacity { vec_capacity orders.old ≤ vec_capacity orders.new }
    ensures nexts_len { vec_len nexts.new ≡ vec_len nexts.old + 1 }
    ensures nexts_capacity { vec_capacity nexts.old ≤ vec_capacity nexts.new }
    ensures levels_len { vec_len levels.new ≤ vec_len levels.old + 1 }
    ensures levels_capacity { vec_capacity levels.old ≤ vec_capacity levels.new }
{
    let place = orders.len();
    let level = Level {
        price: order.price,
        first: place,
        last: place,
        shares: u64::from(order.left),
    };
    match levels.insert(at, level) {
        Ok(()) => {}
        Err(_) => unreachable!(),
    }
    arrive(orders, nexts, order);
}

// An order joins the end of its level, or makes one, among the levels of its queue.
fn join_queue(
    orders: &mut Vec<Resting>,
    nexts: &mut Vec<usize>,
    levels: &mut Vec<Level>,
    order: Resting,
)
    requires orders_room { vec_len orders.old < vec_capacity orders.old }
    requires nexts_room { vec_len nexts.old < vec_capacity nexts.old }
    requires levels_room { vec_len levels.old < vec_capacity levels.old }
    requires open { 0 < order.left }
    requires small { All (λ (l : Level). l.shares < 18446744069414584320) levels.old.items }
    requires indexed { IsIndexed (queue_of order) orders.old.items nexts.old.items levels.old.items }
    ensures orders { orders.new.items ≡ orders.old.items ++ order ∷ [] }
    ensures indexed { IsIndexed (queue_of order) orders.new.items nexts.new.items levels.new.items }
    ensures others { (t : Queue) (ls : List Level) → t ≢ queue_of order → IsIndexed t orders.old.items nexts.old.items ls → IsIndexed t orders.new.items nexts.new.items ls }
    ensures orders_capacity { vec_capacity orders.old ≤ vec_capacity orders.new }
    ensures nexts_len { vec_len nexts.new ≡ vec_len nexts.old + 1 }
    ensures nexts_capacity { vec_capacity nexts.old ≤ vec_capacity nexts.new }
    ensures levels_len { vec_len levels.new ≤ vec_len levels.old + 1 }
    ensures levels_capacity { vec_capacity levels.old ≤ vec_capacity levels.new }
{
    let at = place_of(order.side, levels.as_slice(), order.price);
    if at < levels.len() {
        let found = levels[at].price;
        if found == order.price {
            extend(orders, nexts, levels, at, order);
            return;
        }
    }
    make(orders, nexts, levels, at, order);
}

// An order joins the levels of its side, whether shown or hidden.
pub fn join(orders: &mut Vec<Resting>, nexts: &mut Vec<usize>, half: &mut Half, order: Resting)
    requires orders_room { vec_len orders.old < vec_capacity orders.old }
    requires nexts_room { vec_len nexts.old < vec_capacity nexts.old }
    requires shown_room { vec_len half.old.shown < vec_capacity half.old.shown }
    requires hidden_room { vec_len half.old.hidden < vec_capacity half.old.hidden }
    requires open { 0 < order.left }
    requires shown_small { All (λ (l : Level). l.shares < 18446744069414584320) half.old.shown.items }
    requires hidden_small { All (λ (l : Level). l.shares < 18446744069414584320) half.old.hidden.items }
    requires shown { IsIndexed (shown_of order.side) orders.old.items nexts.old.items half.old.shown.items }
    requires hidden { IsIndexed (hidden_of order.side) orders.old.items nexts.old.items half.old.hidden.items }
    ensures orders { orders.new.items ≡ orders.old.items ++ order ∷ [] }
    ensures shown { IsIndexed (shown_of order.side) orders.new.items nexts.new.items half.new.shown.items }
    ensures hidden { IsIndexed (hidden_of order.side) orders.new.items nexts.new.items half.new.hidden.items }
    ensures others { (t : Queue) (ls : List Level) → t.side ≢ order.side → IsIndexed t orders.old.items nexts.old.items ls → IsIndexed t orders.new.items nexts.new.items ls }
    ensures orders_capacity { vec_capacity orders.old ≤ vec_capacity orders.new }
    ensures nexts_len { vec_len nexts.new ≡ vec_len nexts.old + 1 }
    ensures nexts_capacity { vec_capacity nexts.old ≤ vec_capacity nexts.new }
    ensures shown_len { vec_len half.new.shown ≤ vec_len half.old.shown + 1 }
    ensures shown_capacity { vec_capacity half.old.shown ≤ vec_capacity half.new.shown }
    ensures hidden_len { vec_len half.new.hidden ≤ vec_len half.old.hidden + 1 }
    ensures hidden_capacity { vec_capacity half.old.hidden ≤ vec_capacity half.new.hidden }
    ensures count { half.new.count ≡ half.old.count }
{
    if order.shown {
        join_queue(orders, nexts, &mut half.shown, order);
        return;
    }
    join_queue(orders, nexts, &mut half.hidden, order);
}

// Open shares are a number of 32 bits.
pub fn fits(left: u32)
    ensures { left ≤ 4294967295 }
{}
