//! The book.

ghost use Rattle.std.specs.Prelude.{false, ◌≡◌, ◌<◌, ◌≤◌, ◌+◌, ◌*◌, ◌-◌, ◌∷◌, ◌++◌, ◌↔◌, [], true, IsTrue, OnErr, OnOk, IfOk, IfSome, IfNone, All, Some, None, length, option_map, slice_get};
ghost use Rattle.price_time_book.specs.Awaited.{AreAwaited};
ghost use Rattle.price_time_book.specs.Indexed.{open_orders};
ghost use Rattle.price_time_book.specs.Matched.{fill_of, after_fill, matched};
ghost use Rattle.price_time_book.specs.Next.{best_at, crossing_of, next_of};
ghost use Rattle.price_time_book.specs.Orderly.{IsOrderly};
ghost use Rattle.price_time_book.specs.Orders.{order_of, order_with, changed, reduced};
ghost use Rattle.price_time_book.specs.Sides.{depth_of};

use crate::chains::{Chains, begin_chains, enter_token};
use crate::index::{ReferenceEntry, enter_reference};
use crate::levels::{Half, Queue, best_in, fits, is_met, join};
use crate::lowering::{lower_at, take_first};
use crate::resting::{Best, Fill, Resting};
use crate::room::{make_room_in_half, make_room_in_two};
use crate::search::{crossing_in, held_at, is_open, open_of, order_of};
use market_types::{AgentNo, Memory, Side, Token, copied};
use std::alloc::Global;
use std::marker::Model;

// The vector of arrival is made anew where half its length exceeds the orders that rest by more than this.
const LEFT_BEHIND: usize = 32;

// For so many orders at least places are made at a time.
const PLACES_AHEAD: usize = 16;

// For how many fills at most room is made without a count of the orders that cross.
const FEW_FILLS: usize = 512;

/// The resting orders of one stock.
///
/// The orders stand in one vector in order of arrival, those that have left at 0 open shares. Over it
/// stand the levels of price of both sides, those of shown and of hidden orders apart, an index by
/// reference and the chains of the agents' orders. Where room is made for more orders and most in the vector have
/// left, all of it is made anew.
#[derive(Drop)]
pub struct Book {
    orders: Vec<Resting>,
    nexts: Vec<usize>,
    buys: Half,
    sells: Half,
    references: Vec<ReferenceEntry>,
    chains: Chains,
    spare: usize,
}

impl Model for Book {
    ghost use Rattle.std.specs.Prelude.{◌≡◌, ◌<◌, ◌≤◌, ◌+◌, vec_len, vec_capacity};
    ghost use Rattle.market_types.specs.Room.{Room};
    ghost use Rattle.market_types.specs.declared.order.Side.TheVariants.{Buy, Sell};
    ghost use Rattle.price_time_book.specs.declared.resting.Resting.{Resting};
    ghost use Rattle.price_time_book.specs.Chains.{IsChained};
    ghost use Rattle.price_time_book.specs.Index.{IsByReference};
    ghost use Rattle.price_time_book.specs.Indexed.{IsIndexed, IsSmall, open_orders};
    ghost use Rattle.price_time_book.specs.Orderly.{IsOrderly};
    ghost use Rattle.price_time_book.specs.Queues.{hidden_of, shown_of};
    ghost use Rattle.price_time_book.specs.Sides.{depth_of};

    ghost Value = { Room Resting };

    ghost view = { λ b. record { list = open_orders b.orders.items; spare = b.spare } };

    ghost invariant = { λ b. record {
      orders_room : vec_len b.orders + b.spare ≤ vec_capacity b.orders;
      nexts_room : vec_len b.nexts + b.spare ≤ vec_capacity b.nexts;
      buys_room : vec_len b.buys.shown + b.spare ≤ vec_capacity b.buys.shown;
      sells_room : vec_len b.sells.shown + b.spare ≤ vec_capacity b.sells.shown;
      hidden_buys_room : vec_len b.buys.hidden + b.spare ≤ vec_capacity b.buys.hidden;
      hidden_sells_room : vec_len b.sells.hidden + b.spare ≤ vec_capacity b.sells.hidden;
      references_room : vec_len b.references + b.spare ≤ vec_capacity b.references;
      befores_room : vec_len b.chains.befores + b.spare ≤ vec_capacity b.chains.befores;
      lasts_begun : 0 < b.spare → 512 ≤ vec_len b.chains.lasts;
      lasts_long : 0 < vec_len b.chains.lasts → 512 ≤ vec_len b.chains.lasts;
      buys : IsIndexed (shown_of Buy) b.orders.items b.nexts.items b.buys.shown.items;
      sells : IsIndexed (shown_of Sell) b.orders.items b.nexts.items b.sells.shown.items;
      hidden_buys : IsIndexed (hidden_of Buy) b.orders.items b.nexts.items b.buys.hidden.items;
      hidden_sells : IsIndexed (hidden_of Sell) b.orders.items b.nexts.items b.sells.hidden.items;
      buy_count : b.buys.count ≡ depth_of Buy (open_orders b.orders.items);
      sell_count : b.sells.count ≡ depth_of Sell (open_orders b.orders.items);
      references : IsByReference b.orders.items b.references.items;
      chained : IsChained b.orders.items b.chains.lasts.items b.chains.befores.items;
      orderly : IsOrderly (open_orders b.orders.items);
      small : IsSmall (open_orders b.orders.items);
    } };
}

impl Book {
    /// The empty book. It takes no memory, and later calls take theirs from `alloc`.
    #[tactic(auto, using(crate::proofs::Befores::chained_none))]
    pub fn new(alloc: Global) -> Book
        ensures { result ≡ record { list = []; spare = 0 } }
    {
        Book {
            orders: Vec::new(alloc),
            nexts: Vec::new(alloc),
            buys: Half {
                shown: Vec::new(alloc),
                hidden: Vec::new(alloc),
                count: 0,
            },
            sells: Half {
                shown: Vec::new(alloc),
                hidden: Vec::new(alloc),
                count: 0,
            },
            references: Vec::new(alloc),
            chains: Chains {
                lasts: Vec::new(alloc),
                befores: Vec::new(alloc),
            },
            spare: 0,
        }
    }

    /// Keeps places for `n` more orders. After want of memory the book is as it was.
    pub fn reserve(&mut self, n: usize) -> Result<(), Memory>
        ensures list { self.new.list ≡ self.old.list }
        ensures room { OnOk result (n ≤ self.new.spare) }
        ensures never_falls { self.old.spare ≤ self.new.spare }
        ensures refused { OnErr result (self.new ≡ self.old) }
    {
        if n <= self.spare {
            return Ok(());
        }
        let more = n.max(PLACES_AHEAD);
        let (entries, resting) = (self.orders.len(), self.len());
        if is_sparse(entries, resting) {
            let packed = self.packed(more)?;
            *self = packed;
            return Ok(());
        }
        prove!(entries / 2 <= resting.saturating_add(LEFT_BEHIND));
        self.widen(more)
    }

    /// A book with the same orders, which may keep any number of places.
    pub fn copy(&self, alloc: Global) -> Result<Book, Memory>
        ensures { IfOk result (λ b. b.list ≡ self.now.list) }
    {
        let Ok((orders, nexts)) = copied_two(alloc, &self.orders, &self.nexts) else {
            return Err(Memory);
        };
        let Ok(buys) = copied_half(alloc, &self.buys) else {
            drop(orders);
            drop(nexts);
            return Err(Memory);
        };
        let Ok(sells) = copied_half(alloc, &self.sells) else {
            drop(orders);
            drop(nexts);
            drop(buys);
            return Err(Memory);
        };
        let Ok(references) = copied(alloc, self.references.as_slice()) else {
            drop(orders);
            drop(nexts);
            drop(buys);
            drop(sells);
            return Err(Memory);
        };
        let Ok((lasts, befores)) = copied_two(alloc, &self.chains.lasts, &self.chains.befores)
        else {
            drop(orders);
            drop(nexts);
            drop(buys);
            drop(sells);
            drop(references);
            return Err(Memory);
        };
        Ok(Book {
            orders,
            nexts,
            buys,
            sells,
            references,
            chains: Chains { lasts, befores },
            spare: 0,
        })
    }

    /// The best price of the shown orders of a side and their open shares at it. `None` where no order of
    /// the side is shown.
    pub fn best(&self, side: Side) -> Option<Best>
        ensures { result ≡ best_at side self.now.list }
    {
        match side {
            Side::Buy => best_in(Queue { side, shown: true }, self.buys.shown.as_slice()),
            Side::Sell => best_in(Queue { side, shown: true }, self.sells.shown.as_slice()),
        }
    }

    /// Matches an incoming order of `side`, which wants `shares` more and trades at no worse price than
    /// `limit`, with the next order of the other side: of those with the best price the earliest shown one,
    /// and where none of them is shown the earliest. It gives the lesser of its open shares and those
    /// wanted, and leaves where none stay open. `None` where nothing crosses, and the book is then as it was.
    pub fn match_next(&mut self, side: Side, limit: u32, shares: u32) -> Option<Fill>
        requires { 0 < shares }
        ensures next { result ≡ option_map (fill_of shares) (next_of self.old.list side limit) }
        ensures gives { IfSome result (λ f. 0 < f.shares) }
        ensures filled { IfSome result (λ f. self.new.list ≡ after_fill f self.old.list) }
        ensures unmatched { IfNone result (self.new.list ≡ self.old.list) }
        ensures room { self.old.spare ≤ self.new.spare }
    {
        let (orders, nexts) = (&mut self.orders, self.nexts.as_slice());
        match side {
            Side::Buy => take_first(
                Side::Sell,
                orders,
                &mut self.sells,
                nexts,
                side,
                limit,
                shares,
            ),
            Side::Sell => take_first(
                Side::Buy,
                orders,
                &mut self.buys,
                nexts,
                side,
                limit,
                shares,
            ),
        }
    }

    /// An order comes to rest. A place was kept for it, its reference is greater than each that is
    /// held, and its agent has no held order with its token.
    pub fn rest(&mut self, order: Resting)
        requires room { 0 < self.old.spare }
        requires shares { 0 < order.left }
        requires intended { order.left ≤ order.intended }
        requires few { length self.old.list < 4294967296 }
        requires later { All (λ o. o.reference < order.reference) self.old.list }
        requires fresh { order_of order.agent order.token self.old.list ≡ None }
        ensures { self.new ≡ record { list = self.old.list ++ order ∷ []; spare = self.old.spare - 1 } }
    {
        fits(order.left);
        let place = self.orders.len();
        enter_reference(&mut self.references, &order, place);
        enter_token(&mut self.chains, &order);
        match order.side {
            Side::Buy => {
                join(&mut self.orders, &mut self.nexts, &mut self.buys, order);
                self.buys.count += 1;
                self.spare -= 1;
            }
            Side::Sell => {
                join(&mut self.orders, &mut self.nexts, &mut self.sells, order);
                self.sells.count += 1;
                self.spare -= 1;
            }
        }
    }

    /// The order that an agent sent under a token. `None` where no such order rests. It has open shares,
    /// no more than its intended size, and no other order has its reference.
    pub fn find(&self, agent: AgentNo, token: &Token) -> Option<&Resting>
        ensures found { option_map (λ o. o.now) result ≡ order_of agent token.now self.now.list }
        ensures live { IfSome result (λ o. (0 < o.now.left) × (o.now.left ≤ o.now.intended)) }
        ensures by_reference { IfSome result (λ o. order_with o.now.reference self.now.list ≡ Some o.now) }
    {
        order_of(self.orders.as_slice(), &self.chains, agent, token)
    }

    /// Lowers the open shares of the order with this reference to `left`, and its intended size by as
    /// much. At 0 it leaves. Gives the order as it was; `None` where no order has this reference, and the
    /// book is then as it was.
    pub fn reduce(&mut self, reference: u64, left: u32) -> Option<Resting>
        requires { IfSome (order_with reference self.old.list) (λ o. left < o.left) }
        ensures was { result ≡ order_with reference self.old.list }
        ensures reduced { IfSome result (λ o. self.new.list ≡ changed (reduced left o) self.old.list) }
        ensures absent { IfNone result (self.new.list ≡ self.old.list) }
        ensures room { self.old.spare ≤ self.new.spare }
    {
        let (at, resting) = held_at(
            self.orders.as_slice(),
            self.references.as_slice(),
            reference,
        )?;
        let intended = resting.intended - (resting.left - left);
        let (orders, nexts) = (&mut self.orders, self.nexts.as_slice());
        match resting.side {
            Side::Buy => {
                lower_at(Side::Buy, orders, &mut self.buys, nexts, at, left, intended);
                Some(resting)
            }
            Side::Sell => {
                lower_at(
                    Side::Sell,
                    orders,
                    &mut self.sells,
                    nexts,
                    at,
                    left,
                    intended,
                );
                Some(resting)
            }
        }
    }

    /// How many orders rest on a side, shown or hidden.
    pub fn depth(&self, side: Side) -> usize
        ensures { result ≡ depth_of side self.now.list }
    {
        match side {
            Side::Buy => self.buys.count,
            Side::Sell => self.sells.count,
        }
    }

    /// How many orders, shown or hidden, cross an incoming order of `side` with this limit: no match has more
    /// fills.
    pub fn crossing(&self, side: Side, limit: u32) -> usize
        ensures { result ≡ crossing_of side limit self.now.list }
    {
        if !self.is_met(side, limit) {
            return 0;
        }
        crossing_in(self.orders.as_slice(), side, limit)
    }

    /// A number that the fills of a match of an incoming order of `side` with this limit, which wants `shares`
    /// shares, do not exceed. It is 0 where nothing crosses. Else it is the lesser of the orders that rest on the other
    /// side and the shares, since each fill has a share; and only where that is large are the orders gone over to count
    /// those that cross.
    pub fn most_fills(&self, side: Side, limit: u32, shares: u32) -> usize
        ensures enough { length (matched self.now.list side limit shares).fills ≤ result }
        ensures few { result ≤ length self.now.list }
    {
        self.know_order();
        if !self.is_met(side, limit) {
            return 0;
        }
        let most = self.depth(side.opposite()).min(shares as usize);
        if most <= FEW_FILLS {
            return most;
        }
        self.crossing(side, limit).min(most)
    }

    /// How many orders rest in the book.
    pub fn len(&self) -> usize
        ensures { result ≡ length self.now.list }
    {
        self.buys.count + self.sells.count
    }

    /// Whether no order rests in the book.
    pub fn is_empty(&self) -> bool
        ensures { IsTrue result ↔ (self.now.list ≡ []) }
    {
        self.len() == 0
    }

    /// What holds of the orders of each book: their references rise, each has open shares and no more
    /// than its intended size, and they are few.
    pub fn know_order(&self)
        ensures { IsOrderly self.now.list }
    {
        let _orders = &self.orders;
    }

    /// The orders in order of arrival.
    pub fn orders(&self, alloc: Global) -> Result<Vec<Resting>, Memory>
        ensures { IfOk result (λ v. v.items ≡ self.now.list) }
    {
        open_of(alloc, self.orders.as_slice())
    }

    // Whether a best price of the other side, of shown or of hidden orders, meets a limit.
    fn is_met(&self, side: Side, limit: u32) -> bool
        ensures { result ≡ false → crossing_of side limit self.now.list ≡ 0 }
    {
        match side {
            Side::Buy => is_met(side, limit, &self.sells),
            Side::Sell => is_met(side, limit, &self.buys),
        }
    }

    // Makes room for `n` more in every vector.
    #[tactic(auto, using(crate::proofs::Befores::chained_anew))]
    fn widen(&mut self, n: usize) -> Result<(), Memory>
        ensures list { self.new.list ≡ self.old.list }
        ensures room { OnOk result (n ≤ self.new.spare) }
        ensures never_falls { self.old.spare ≤ self.new.spare }
        ensures refused { OnErr result (self.new ≡ self.old) }
    {
        if n <= self.spare {
            return Ok(());
        }
        let orders = make_room_in_two(&mut self.orders, &mut self.nexts, n);
        let buys = make_room_in_half(&mut self.buys, n);
        let sells = make_room_in_half(&mut self.sells, n);
        let entries = make_room_in_two(&mut self.references, &mut self.chains.befores, n);
        let alloc = *self.orders.allocator();
        let begun = begin_chains(alloc, &mut self.chains.lasts);
        if orders & buys & sells & entries & begun {
            self.spare = n;
            return Ok(());
        }
        Err(Memory)
    }

    // A book with the same orders and without those that have left, which keeps places for `n` more.
    fn packed(&self, n: usize) -> Result<Book, Memory>
        ensures list { IfOk result (λ b. b.list ≡ self.now.list) }
        ensures room { IfOk result (λ b. n ≤ b.spare) }
    {
        let mut packed = Book::new(*self.orders.allocator());
        let Ok(()) = packed.widen(self.len()) else {
            drop(packed);
            return Err(Memory);
        };
        packed.rest_all(self.orders.as_slice());
        let Ok(()) = packed.widen(n) else {
            drop(packed);
            return Err(Memory);
        };
        Ok(packed)
    }

    // The open orders of a vector come to rest in an empty book, one after another.
    fn rest_all(&mut self, orders: &[Resting])
        requires empty { self.old.list ≡ [] }
        requires room { length (open_orders orders.now) ≤ self.old.spare }
        requires few { length (open_orders orders.now) ≤ 4294967296 }
        requires awaited { AreAwaited orders.now }
        ensures { self.new.list ≡ open_orders orders.now }
    {
        for order in orders {
            if is_open(order) {
                self.rest(*order);
            }
        }
    }
}

// Whether so many orders of the vector of arrival have left, and more than half, that it is made anew.
fn is_sparse(entries: usize, resting: usize) -> bool
    ensures sparse { result ≡ true → 2 * resting + 65 < entries }
    ensures dense { result ≡ false → entries ≤ 2 * resting + 65 }
{
    entries / 2 > resting.saturating_add(LEFT_BEHIND)
}

// Copies of two vectors.
fn copied_two<A: Copy + Drop, B: Copy + Drop>(
    alloc: Global,
    first: &Vec<A>,
    second: &Vec<B>,
) -> Result<(Vec<A>, Vec<B>), Memory>
    ensures first { IfOk result (λ v. v.0.items ≡ first.now.items) }
    ensures second { IfOk result (λ v. v.1.items ≡ second.now.items) }
{
    let Ok(one) = copied(alloc, first.as_slice()) else {
        return Err(Memory);
    };
    let Ok(two) = copied(alloc, second.as_slice()) else {
        drop(one);
        return Err(Memory);
    };
    Ok((one, two))
}

// A copy of a side.
fn copied_half(alloc: Global, half: &Half) -> Result<Half, Memory>
    ensures shown { IfOk result (λ h. h.shown.items ≡ half.now.shown.items) }
    ensures hidden { IfOk result (λ h. h.hidden.items ≡ half.now.hidden.items) }
    ensures count { IfOk result (λ h. h.count ≡ half.now.count) }
{
    let Ok((shown, hidden)) = copied_two(alloc, &half.shown, &half.hidden) else {
        return Err(Memory);
    };
    Ok(Half {
        shown,
        hidden,
        count: half.count,
    })
}
