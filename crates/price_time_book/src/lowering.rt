//! Orders that give shares to an incoming order, or are lowered.

ghost use Rattle.std.specs.Prelude.{true, false, ◌≡◌, ◌≢◌, ◌<◌, ◌≤◌, ◌+◌, Some, None, IfSome, IfNone, length, option_map, slice_index_or, slice_set, vec_len, vec_capacity, List};
ghost use Rattle.market_types.specs.declared.order.Side.{Side};
ghost use Rattle.price_time_book.specs.declared.levels.Level.{Level};
ghost use Rattle.price_time_book.specs.declared.levels.Queue.{Queue};
ghost use Rattle.price_time_book.specs.declared.resting.Resting.{Resting};
ghost use Rattle.price_time_book.specs.Index.{AreLessened};
ghost use Rattle.price_time_book.specs.Indexed.{IsClear, IsIndexed, IsOpenAt, IsRight, IsSmall, key, nothing, open_orders};
ghost use Rattle.price_time_book.specs.Matched.{after_fill, fill_of};
ghost use Rattle.price_time_book.specs.Next.{next_of};
ghost use Rattle.price_time_book.specs.Orderly.{IsOrderly};
ghost use Rattle.price_time_book.specs.Orders.{changed};
ghost use Rattle.price_time_book.specs.Queues.{better_of, first_on, hidden_of, queue_of, shown_of, top_in};
ghost use Rattle.price_time_book.specs.Sides.{depth_of, opposite_of};

use crate::levels::{Half, Level, Queue, place_of, place_of_best};
use crate::resting::{Fill, Resting};
use crate::search::{is_better, is_within};
use market_types::Side;

// Where the first order of a side stands: among the shown or the hidden ones, its level in its queue, and
// itself in the vector of arrival.
#[derive(Clone, Copy)]
struct First {
    shown: bool,
    level: usize,
    place: usize,
}

// The first open order of a level.
fn front(queue: Queue, orders: &[Resting], nexts: &[usize], level: &Level) -> usize
    requires same { length nexts.now ≡ length orders.now }
    requires right { IsRight queue orders.now nexts.now level.now }
    ensures found { IsOpenAt orders.now (key queue level.now.price) result }
    ensures before { IsClear orders.now (key queue level.now.price) 0 result }
    ensures from { level.now.first ≤ result }
{
    let mut at = level.first;
    while orders[at].left == 0 {
        at = nexts[at];
    }
    let _queue = queue;
    at
}

// The first order of a queue: where its level stands, and where it stands itself. The level's chain then
// begins there, so that each order that has left is passed over once.
fn first_in(
    queue: Queue,
    orders: &[Resting],
    nexts: &[usize],
    levels: &mut Vec<Level>,
) -> Option<(usize, usize)>
    requires { IsIndexed queue orders.now nexts.now levels.old.items }
    ensures first { top_in queue (open_orders orders.now) ≡ option_map (λ p. slice_index_or orders.now p.1 nothing) result }
    ensures level { IfSome result (λ p. p.0 < length levels.new.items) }
    ensures placed { IfSome result (λ p. (d : Level) → IsOpenAt orders.now (key queue (slice_index_or levels.new.items p.0 d).price) p.1) }
    ensures indexed { IsIndexed queue orders.now nexts.now levels.new.items }
    ensures levels_len { vec_len levels.new ≡ vec_len levels.old }
    ensures levels_capacity { vec_capacity levels.new ≡ vec_capacity levels.old }
{
    if levels.is_empty() {
        return None;
    }
    let at = place_of_best(levels.as_slice());
    let level = levels[at];
    let place = front(queue, orders, nexts, &level);
    levels[at] = Level {
        first: place,
        ..level
    };
    Some((at, place))
}

// Of the first shown and the first hidden order of a side, each by its level and its place, the one that
// comes first: at one price the shown one.
fn earlier(
    side: Side,
    orders: &[Resting],
    shown: Option<(usize, usize)>,
    hidden: Option<(usize, usize)>,
) -> Option<First>
    requires shown { IfSome shown (λ p. p.1 < length orders.now) }
    requires hidden { IfSome hidden (λ p. p.1 < length orders.now) }
    ensures first { option_map (λ f. slice_index_or orders.now f.place nothing) result ≡
        better_of side (option_map (λ p. slice_index_or orders.now p.1 nothing) shown) (option_map (λ p. slice_index_or orders.now p.1 nothing) hidden) }
    ensures shown { IfSome result (λ f. f.shown ≡ true → shown ≡ Some (f.level, f.place)) }
    ensures hidden { IfSome result (λ f. f.shown ≡ false → hidden ≡ Some (f.level, f.place)) }
{
    match (shown, hidden) {
        (None, None) => None,
        (Some((level, place)), None) => Some(First {
            shown: true,
            level,
            place,
        }),
        (None, Some((level, place))) => Some(First {
            shown: false,
            level,
            place,
        }),
        (Some((level, place)), Some((hidden_level, hidden_place))) => {
            let hidden_first = is_better(side, orders[hidden_place].price, orders[place].price);
            if hidden_first {
                return Some(First {
                    shown: false,
                    level: hidden_level,
                    place: hidden_place,
                });
            }
            Some(First {
                shown: true,
                level,
                place,
            })
        }
    }
}

// The first order of a side, shown or hidden.
fn first_on(side: Side, orders: &[Resting], nexts: &[usize], half: &mut Half) -> Option<First>
    requires shown { IsIndexed (shown_of side) orders.now nexts.now half.old.shown.items }
    requires hidden { IsIndexed (hidden_of side) orders.now nexts.now half.old.hidden.items }
    ensures first { first_on side (open_orders orders.now) ≡ option_map (λ f. slice_index_or orders.now f.place nothing) result }
    ensures within { IfSome result (λ f. f.place < length orders.now) }
    ensures shown_level { IfSome result (λ f. f.shown ≡ true → f.level < length half.new.shown.items) }
    ensures hidden_level { IfSome result (λ f. f.shown ≡ false → f.level < length half.new.hidden.items) }
    ensures shown_placed { IfSome result (λ f. f.shown ≡ true → (d : Level) → IsOpenAt orders.now (key (shown_of side) (slice_index_or half.new.shown.items f.level d).price) f.place) }
    ensures hidden_placed { IfSome result (λ f. f.shown ≡ false → (d : Level) → IsOpenAt orders.now (key (hidden_of side) (slice_index_or half.new.hidden.items f.level d).price) f.place) }
    ensures shown { IsIndexed (shown_of side) orders.now nexts.now half.new.shown.items }
    ensures hidden { IsIndexed (hidden_of side) orders.now nexts.now half.new.hidden.items }
    ensures shown_len { vec_len half.new.shown ≡ vec_len half.old.shown }
    ensures shown_capacity { vec_capacity half.new.shown ≡ vec_capacity half.old.shown }
    ensures hidden_len { vec_len half.new.hidden ≡ vec_len half.old.hidden }
    ensures hidden_capacity { vec_capacity half.new.hidden ≡ vec_capacity half.old.hidden }
    ensures count { half.new.count ≡ half.old.count }
{
    let before = first_in(Queue { side, shown: true }, orders, nexts, &mut half.shown);
    let behind = first_in(
        Queue { side, shown: false },
        orders,
        nexts,
        &mut half.hidden,
    );
    earlier(side, orders, before, behind)
}

// The order at a place keeps fewer open shares; its level, where it keeps none, leaves.
fn set_left(
    queue: Queue,
    orders: &mut Vec<Resting>,
    levels: &mut Vec<Level>,
    nexts: &[usize],
    at: usize,
    place: usize,
    left: u32,
    intended: u32,
)
    requires level { at < vec_len levels.old }
    requires place { (d : Level) → IsOpenAt orders.old.items (key queue (slice_index_or levels.old.items at d).price) place }
    requires lower { (d : Resting) → left < (slice_index_or orders.old.items place d).left }
    requires indexed { IsIndexed queue orders.old.items nexts.now levels.old.items }
    ensures orders { orders.new.items ≡ slice_set orders.old.items place (record (slice_index_or orders.old.items place nothing) { left = left; intended = intended }) }
    ensures indexed { IsIndexed queue orders.new.items nexts.now levels.new.items }
    ensures orders_len { vec_len orders.new ≡ vec_len orders.old }
    ensures orders_capacity { vec_capacity orders.new ≡ vec_capacity orders.old }
    ensures levels_len { vec_len levels.new ≤ vec_len levels.old }
    ensures levels_capacity { vec_capacity levels.new ≡ vec_capacity levels.old }
{
    let order = orders[place];
    orders[place] = Resting {
        left,
        intended,
        ..order
    };
    let level = levels[at];
    let taken = u64::from(order.left - left);
    if level.shares <= taken {
        let _ = levels.remove(at);
        return;
    }
    levels[at] = Level {
        shares: level.shares - taken,
        ..level
    };
}

// An order with no open shares is counted no more.
fn count_out(count: &mut usize, left: u32)
    requires { left ≡ 0 → 0 < count.old }
    ensures left { left ≡ 0 → count.new + 1 ≡ count.old }
    ensures kept { left ≢ 0 → count.new ≡ count.old }
{
    if left == 0 {
        *count -= 1;
    }
}

// The order at a place of a level keeps fewer open shares and another intended size.
fn lower_in(
    queue: Queue,
    orders: &mut Vec<Resting>,
    levels: &mut Vec<Level>,
    count: &mut usize,
    nexts: &[usize],
    at: usize,
    place: usize,
    left: u32,
    intended: u32,
)
    requires level { at < vec_len levels.old }
    requires place { (d : Level) → IsOpenAt orders.old.items (key queue (slice_index_or levels.old.items at d).price) place }
    requires lower { left < (slice_index_or orders.old.items place nothing).left }
    requires size { left ≤ intended }
    requires indexed { IsIndexed queue orders.old.items nexts.now levels.old.items }
    requires count { count.old ≡ depth_of queue.side (open_orders orders.old.items) }
    requires orderly { IsOrderly (open_orders orders.old.items) }
    ensures list { open_orders orders.new.items ≡ changed (record (slice_index_or orders.old.items place nothing) { left = left; intended = intended }) (open_orders orders.old.items) }
    ensures indexed { IsIndexed queue orders.new.items nexts.now levels.new.items }
    ensures others { (t : Queue) (ls : List Level) → t ≢ queue → IsIndexed t orders.old.items nexts.now ls → IsIndexed t orders.new.items nexts.now ls }
    ensures lessened { AreLessened orders.old.items orders.new.items }
    ensures count { count.new ≡ depth_of queue.side (open_orders orders.new.items) }
    ensures other_count { (t : Side) → t ≢ queue.side →
        depth_of t (open_orders orders.new.items) ≡ depth_of t (open_orders orders.old.items) }
    ensures orderly { IsOrderly (open_orders orders.new.items) }
    ensures small { IsSmall (open_orders orders.old.items) → IsSmall (open_orders orders.new.items) }
    ensures orders_len { vec_len orders.new ≡ vec_len orders.old }
    ensures orders_capacity { vec_capacity orders.new ≡ vec_capacity orders.old }
    ensures levels_len { vec_len levels.new ≤ vec_len levels.old }
    ensures levels_capacity { vec_capacity levels.new ≡ vec_capacity levels.old }
{
    set_left(queue, orders, levels, nexts, at, place, left, intended);
    count_out(count, left);
}

// The order at a place of a level gives up to so many shares.
fn give(
    queue: Queue,
    orders: &mut Vec<Resting>,
    levels: &mut Vec<Level>,
    count: &mut usize,
    nexts: &[usize],
    at: usize,
    place: usize,
    shares: u32,
) -> Fill
    requires some { 0 < shares }
    requires level { at < vec_len levels.old }
    requires place { (d : Level) → IsOpenAt orders.old.items (key queue (slice_index_or levels.old.items at d).price) place }
    requires indexed { IsIndexed queue orders.old.items nexts.now levels.old.items }
    requires count { count.old ≡ depth_of queue.side (open_orders orders.old.items) }
    requires orderly { IsOrderly (open_orders orders.old.items) }
    ensures fill { result ≡ fill_of shares (slice_index_or orders.old.items place nothing) }
    ensures gives { 0 < result.shares }
    ensures filled { open_orders orders.new.items ≡ after_fill result (open_orders orders.old.items) }
    ensures indexed { IsIndexed queue orders.new.items nexts.now levels.new.items }
    ensures others { (t : Queue) (ls : List Level) → t ≢ queue → IsIndexed t orders.old.items nexts.now ls → IsIndexed t orders.new.items nexts.now ls }
    ensures lessened { AreLessened orders.old.items orders.new.items }
    ensures count { count.new ≡ depth_of queue.side (open_orders orders.new.items) }
    ensures other_count { (t : Side) → t ≢ queue.side →
        depth_of t (open_orders orders.new.items) ≡ depth_of t (open_orders orders.old.items) }
    ensures orderly { IsOrderly (open_orders orders.new.items) }
    ensures small { IsSmall (open_orders orders.old.items) → IsSmall (open_orders orders.new.items) }
    ensures orders_len { vec_len orders.new ≡ vec_len orders.old }
    ensures orders_capacity { vec_capacity orders.new ≡ vec_capacity orders.old }
    ensures levels_len { vec_len levels.new ≤ vec_len levels.old }
    ensures levels_capacity { vec_capacity levels.new ≡ vec_capacity levels.old }
{
    let resting = orders[place];
    let taken = shares.min(resting.left);
    let left = resting.left - taken;
    lower_in(
        queue,
        orders,
        levels,
        count,
        nexts,
        at,
        place,
        left,
        resting.intended,
    );
    Fill {
        resting,
        shares: taken,
    }
}

// The first order of a side gives up to so many shares to an incoming order of the other, if that one's limit allows.
pub fn take_first(
    mine: Side,
    orders: &mut Vec<Resting>,
    half: &mut Half,
    nexts: &[usize],
    side: Side,
    limit: u32,
    shares: u32,
) -> Option<Fill>
    requires some { 0 < shares }
    requires side { mine ≡ opposite_of side }
    requires shown { IsIndexed (shown_of mine) orders.old.items nexts.now half.old.shown.items }
    requires hidden { IsIndexed (hidden_of mine) orders.old.items nexts.now half.old.hidden.items }
    requires count { half.old.count ≡ depth_of mine (open_orders orders.old.items) }
    requires orderly { IsOrderly (open_orders orders.old.items) }
    ensures next { result ≡ option_map (fill_of shares) (next_of (open_orders orders.old.items) side limit) }
    ensures gives { IfSome result (λ f. 0 < f.shares) }
    ensures filled { IfSome result (λ f. open_orders orders.new.items ≡ after_fill f (open_orders orders.old.items)) }
    ensures unmatched { IfNone result (orders.new.items ≡ orders.old.items) }
    ensures shown { IsIndexed (shown_of mine) orders.new.items nexts.now half.new.shown.items }
    ensures hidden { IsIndexed (hidden_of mine) orders.new.items nexts.now half.new.hidden.items }
    ensures others { (t : Queue) (ls : List Level) → t.side ≢ mine → IsIndexed t orders.old.items nexts.now ls → IsIndexed t orders.new.items nexts.now ls }
    ensures lessened { AreLessened orders.old.items orders.new.items }
    ensures count { half.new.count ≡ depth_of mine (open_orders orders.new.items) }
    ensures other_count { (t : Side) → t ≢ mine →
        depth_of t (open_orders orders.new.items) ≡ depth_of t (open_orders orders.old.items) }
    ensures orderly { IsOrderly (open_orders orders.new.items) }
    ensures small { IsSmall (open_orders orders.old.items) → IsSmall (open_orders orders.new.items) }
    ensures orders_len { vec_len orders.new ≡ vec_len orders.old }
    ensures orders_capacity { vec_capacity orders.new ≡ vec_capacity orders.old }
    ensures shown_len { vec_len half.new.shown ≤ vec_len half.old.shown }
    ensures shown_capacity { vec_capacity half.new.shown ≡ vec_capacity half.old.shown }
    ensures hidden_len { vec_len half.new.hidden ≤ vec_len half.old.hidden }
    ensures hidden_capacity { vec_capacity half.new.hidden ≡ vec_capacity half.old.hidden }
{
    let first = first_on(mine, orders.as_slice(), nexts, half)?;
    let price = orders[first.place].price;
    if !is_within(side, limit, price) {
        return None;
    }
    if first.shown {
        let queue = Queue {
            side: mine,
            shown: true,
        };
        return Some(give(
            queue,
            orders,
            &mut half.shown,
            &mut half.count,
            nexts,
            first.level,
            first.place,
            shares,
        ));
    }
    let queue = Queue {
        side: mine,
        shown: false,
    };
    Some(give(
        queue,
        orders,
        &mut half.hidden,
        &mut half.count,
        nexts,
        first.level,
        first.place,
        shares,
    ))
}

// The open order at a place keeps fewer open shares and another intended size.
pub fn lower_at(
    mine: Side,
    orders: &mut Vec<Resting>,
    half: &mut Half,
    nexts: &[usize],
    place: usize,
    left: u32,
    intended: u32,
)
    requires within { place < length orders.old.items }
    requires side { (slice_index_or orders.old.items place nothing).side ≡ mine }
    requires lower { left < (slice_index_or orders.old.items place nothing).left }
    requires size { left ≤ intended }
    requires shown { IsIndexed (shown_of mine) orders.old.items nexts.now half.old.shown.items }
    requires hidden { IsIndexed (hidden_of mine) orders.old.items nexts.now half.old.hidden.items }
    requires count { half.old.count ≡ depth_of mine (open_orders orders.old.items) }
    requires orderly { IsOrderly (open_orders orders.old.items) }
    ensures list { open_orders orders.new.items ≡ changed (record (slice_index_or orders.old.items place nothing) { left = left; intended = intended }) (open_orders orders.old.items) }
    ensures shown { IsIndexed (shown_of mine) orders.new.items nexts.now half.new.shown.items }
    ensures hidden { IsIndexed (hidden_of mine) orders.new.items nexts.now half.new.hidden.items }
    ensures others { (t : Queue) (ls : List Level) → t.side ≢ mine → IsIndexed t orders.old.items nexts.now ls → IsIndexed t orders.new.items nexts.now ls }
    ensures lessened { AreLessened orders.old.items orders.new.items }
    ensures count { half.new.count ≡ depth_of mine (open_orders orders.new.items) }
    ensures other_count { (t : Side) → t ≢ mine →
        depth_of t (open_orders orders.new.items) ≡ depth_of t (open_orders orders.old.items) }
    ensures orderly { IsOrderly (open_orders orders.new.items) }
    ensures small { IsSmall (open_orders orders.old.items) → IsSmall (open_orders orders.new.items) }
    ensures orders_len { vec_len orders.new ≡ vec_len orders.old }
    ensures orders_capacity { vec_capacity orders.new ≡ vec_capacity orders.old }
    ensures shown_len { vec_len half.new.shown ≤ vec_len half.old.shown }
    ensures shown_capacity { vec_capacity half.new.shown ≡ vec_capacity half.old.shown }
    ensures hidden_len { vec_len half.new.hidden ≤ vec_len half.old.hidden }
    ensures hidden_capacity { vec_capacity half.new.hidden ≡ vec_capacity half.old.hidden }
{
    let resting = orders[place];
    if resting.shown {
        let queue = Queue {
            side: mine,
            shown: true,
        };
        let at = place_of(mine, half.shown.as_slice(), resting.price);
        lower_in(
            queue,
            orders,
            &mut half.shown,
            &mut half.count,
            nexts,
            at,
            place,
            left,
            intended,
        );
        return;
    }
    let queue = Queue {
        side: mine,
        shown: false,
    };
    let at = place_of(mine, half.hidden.as_slice(), resting.price);
    lower_in(
        queue,
        orders,
        &mut half.hidden,
        &mut half.count,
        nexts,
        at,
        place,
        left,
        intended,
    );
}
