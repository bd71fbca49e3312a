//! An incoming order meets the resting ones.

ghost use Rattle.std.specs.Prelude.{◌≡◌, ◌<◌, ◌≤◌, ◌+◌, ◌*◌, ◌-◌, ◌++◌, ◌∷◌, [], List, ℕ, ℤ, length, All, IfSome, IfNone, option_map, min, true, Some, None, Bool};
ghost use Rattle.price_time_book.specs.declared.resting.Resting.{Resting};
ghost use Rattle.price_time_book.specs.Matched.{after_fill, fill_of, matched};
ghost use Rattle.price_time_book.specs.Kept.{IsKeptByFills};
ghost use Rattle.price_time_book.specs.Next.{next_of};
ghost use Rattle.price_time_book.specs.Orders.{order_of};
ghost use Rattle.exchange_agent.specs.Enter.{added_feed, remainder, resting_of, way_of};
ghost use Rattle.exchange_agent.specs.Settle.{all_settled, settled, Way};
ghost use Rattle.exchange_agent.specs.Sound.{IsFar, IsSmall, is_trader};
ghost use Rattle.exchange_agent.specs.View.{way_at};

use crate::handled::Handled;
use crate::listing::Listing;
use crate::settle::Taking;
use market_types::{Body, Enter, Feed, Money, Reply, Side, What};
use price_time_book::keeping::{a_fill_keeps, a_match_keeps, matching_goes_on};
use price_time_book::laws::{matching_ends, next_is_best};
use price_time_book::{Fill, Resting};

// The feed is told of an order that comes to rest, unless it is hidden.
fn add_to_feed(taking: &Taking, e: &Enter, reference: u64, left: u32, out: &mut Handled)
    requires feed_room { 0 < out.old.feed.spare }
    ensures feed { out.new.feed.list ≡ out.old.feed.list ++ added_feed taking.now e.now reference left }
    ensures replies { out.new.replies ≡ out.old.replies }
    ensures fee { out.new.fee ≡ out.old.fee }
{
    let shown = e.display == b'Y';
    if shown {
        out.tell(Feed {
            locate: taking.locate,
            tracking: 0,
            time: taking.time,
            what: What::Add {
                reference,
                side: e.side,
                shares: left,
                stock: e.stock,
                price: e.price,
            },
        });
    }
}

impl Listing {
    // The next resting order that crosses gives its shares.
    fn next_fill(&mut self, side: Side, limit: u32, wanted: u32) -> Option<Fill>
        requires { 0 < wanted }
        ensures next { result ≡ option_map (fill_of wanted) (next_of self.old.book.list side limit) }
        ensures gives { IfSome result (λ f. 0 < f.shares) }
        ensures within { IfSome result (λ f. f.shares ≤ wanted) }
        ensures filled { IfSome result (λ f. self.new ≡ record self.old { book = record { list = after_fill f self.old.book.list; spare = self.new.book.spare } }) }
        ensures unmatched { IfNone result (self.new ≡ record self.old { book = record { list = self.old.book.list; spare = self.new.book.spare } }) }
        ensures room { self.old.book.spare ≤ self.new.book.spare }
    {
        self.book.match_next(side, limit, wanted)
    }

    // The order meets the next resting order, if it crosses; gives the shares that it still wants.
    fn meet(
        &mut self,
        taking: &Taking,
        limit: u32,
        wanted: u32,
        cash: &mut Vec<Money>,
        matches: &mut u64,
        out: &mut Handled,
    ) -> Option<u32>
        requires some { 0 < wanted }
        requires few { wanted < 1000000 }
        requires trader { 1 ≤ taking.now.agent }
        requires exists { taking.now.agent ≤ length cash.old.items }
        requires resting { All (λ o. is_trader (length cash.old.items) o ≡ true) self.old.book.list }
        requires traders { length self.old.positions.items ≡ length cash.old.items }
        requires far { IsFar (way_at self.old cash.old.items matches.old out.old) }
        requires room { IfSome (next_of self.old.book.list taking.now.side limit) (λ o. 2 ≤ out.old.replies.spare) }
        requires feed_room { IfSome (next_of self.old.book.list taking.now.side limit) (λ o. 1 ≤ out.old.feed.spare) }
        ensures met { IfSome (next_of self.old.book.list taking.now.side limit) (λ o. way_at self.new cash.new.items matches.new out.new ≡ settled taking.now (fill_of wanted o) (way_at self.old cash.old.items matches.old out.old)) }
        ensures left { IfSome (next_of self.old.book.list taking.now.side limit) (λ o. result ≡ Some (wanted - min o.left wanted)) }
        ensures none { IfNone (next_of self.old.book.list taking.now.side limit) (result ≡ None) }
        ensures unmet { IfNone (next_of self.old.book.list taking.now.side limit) (way_at self.new cash.new.items matches.new out.new ≡ way_at self.old cash.old.items matches.old out.old) }
        ensures fewer { IfSome result (λ left. left < wanted) }
        ensures small { (orders shares : ℕ) → IsSmall orders shares (way_at self.old cash.old.items matches.old out.old) → IfSome result (λ left. IsSmall orders (shares + (wanted - left)) (way_at self.new cash.new.items matches.new out.new)) }
        ensures book_room { self.old.book.spare ≤ self.new.book.spare }
        ensures room { IfSome result (λ left. out.old.replies.spare ≤ out.new.replies.spare + 2) }
        ensures feed_room { IfSome result (λ left. out.old.feed.spare ≤ out.new.feed.spare + 1) }
        ensures same { IfNone result (out.new ≡ out.old) }
    {
        next_is_best();
        let fill = self.next_fill(taking.side, limit, wanted)?;
        self.settle(taking, &fill, cash, matches, out);
        Some(wanted - fill.shares)
    }

    // The order meets resting orders until it wants no more or nothing crosses; gives the shares that it still
    // wants.
    fn cross(
        &mut self,
        taking: &Taking,
        limit: u32,
        shares: u32,
        cash: &mut Vec<Money>,
        matches: &mut u64,
        out: &mut Handled,
    ) -> u32
        requires few { shares < 1000000 }
        requires trader { 1 ≤ taking.now.agent }
        requires exists { taking.now.agent ≤ length cash.old.items }
        requires resting { All (λ o. is_trader (length cash.old.items) o ≡ true) self.old.book.list }
        requires traders { length self.old.positions.items ≡ length cash.old.items }
        requires small { IsSmall 131072 0 (way_at self.old cash.old.items matches.old out.old) }
        requires room { 2 * length (matched self.old.book.list taking.now.side limit shares).fills ≤ out.old.replies.spare }
        requires feed_room { length (matched self.old.book.list taking.now.side limit shares).fills ≤ out.old.feed.spare }
        ensures way { way_at self.new cash.new.items matches.new out.new ≡ all_settled taking.now (matched self.old.book.list taking.now.side limit shares).fills (way_at self.old cash.old.items matches.old out.old) }
        ensures left { result ≡ (matched self.old.book.list taking.now.side limit shares).shares }
        ensures fewer { result ≤ shares }
        ensures book { self.new.book.list ≡ (matched self.old.book.list taking.now.side limit shares).book }
        ensures small { (orders : ℕ) → IsSmall orders 0 (way_at self.old cash.old.items matches.old out.old) → IsSmall orders (shares - result) (way_at self.new cash.new.items matches.new out.new) }
        ensures same { length cash.new.items ≡ length cash.old.items }
        ensures traders { length self.new.positions.items ≡ length self.old.positions.items }
        ensures book_room { self.old.book.spare ≤ self.new.book.spare }
        ensures room { out.old.replies.spare ≤ out.new.replies.spare + 2 * length (matched self.old.book.list taking.now.side limit shares).fills }
        ensures feed_room { out.old.feed.spare ≤ out.new.feed.spare + length (matched self.old.book.list taking.now.side limit shares).fills }
    {
        matching_goes_on();
        matching_ends();
        a_fill_keeps();
        let mut left = shares;
        'fills: while left > 0 {
            match self.meet(taking, limit, left, cash, matches, out) {
                Some(still) => left = still,
                None => return left,
            }
        }
        left
    }

    /// The whole way of an accepted order: through all its matches, and then what is left is canceled or rests.
    /// Room was made for all replies, all feed messages and the order.
    pub fn trade(
        &mut self,
        taking: &Taking,
        e: &Enter,
        reference: u64,
        cash: &mut Vec<Money>,
        matches: &mut u64,
        out: &mut Handled,
    )
        requires same_side { taking.now.side ≡ e.now.side }
        requires few { e.now.shares < 1000000 }
        requires trader { 1 ≤ taking.now.agent }
        requires exists { taking.now.agent ≤ length cash.old.items }
        requires resting { All (λ o. is_trader (length cash.old.items) o ≡ true) self.old.book.list }
        requires later { All (λ o. o.reference < reference) self.old.book.list }
        requires fresh { order_of taking.now.agent e.now.token self.old.book.list ≡ None }
        requires some_orders { length self.old.book.list ≤ 131072 }
        requires traders { length self.old.positions.items ≡ length cash.old.items }
        requires small { IsSmall 131072 0 (way_at self.old cash.old.items matches.old out.old) }
        requires book_room { 0 < self.old.book.spare }
        requires room { 2 * length (matched self.old.book.list taking.now.side e.now.price e.now.shares).fills + 1 ≤ out.old.replies.spare }
        requires feed_room { length (matched self.old.book.list taking.now.side e.now.price e.now.shares).fills + 1 ≤ out.old.feed.spare }
        ensures way { way_at self.new cash.new.items matches.new out.new ≡ way_of taking.now e.now reference (way_at self.old cash.old.items matches.old out.old) }
        ensures small { (orders : ℕ) → IsSmall orders 0 (way_at self.old cash.old.items matches.old out.old) → IsSmall orders e.now.shares (way_at self.new cash.new.items matches.new out.new) }
        ensures same { length cash.new.items ≡ length cash.old.items }
        ensures traders { length self.new.positions.items ≡ length self.old.positions.items }
        ensures few { length self.new.book.list ≤ length self.old.book.list + 1 }
        ensures tested { (p : Resting → Bool) → IsKeptByFills p → ((left : ℕ) → p (resting_of reference taking.now.agent e.now left) ≡ true) → All (λ o. p o ≡ true) self.old.book.list → All (λ o. p o ≡ true) self.new.book.list }
    {
        a_match_keeps();
        let left = self.cross(taking, e.price, e.shares, cash, matches, out);
        self.leave(taking, e, reference, left, out);
    }

    // What is left of an order once its matches are done is canceled or rests.
    fn leave(&mut self, taking: &Taking, e: &Enter, reference: u64, left: u32, out: &mut Handled)
        requires later { All (λ o. o.reference < reference) self.old.book.list }
        requires fresh { order_of taking.now.agent e.now.token self.old.book.list ≡ None }
        requires intended { left ≤ e.now.shares }
        requires some_orders { length self.old.book.list < 4294967296 }
        requires book_room { 0 < self.old.book.spare }
        requires room { 0 < out.old.replies.spare }
        requires feed_room { 0 < out.old.feed.spare }
        ensures way { (cash : List ℤ) (matches : ℕ) → way_at self.new cash matches out.new ≡ remainder taking.now e.now reference left (way_at self.old cash matches out.old) }
        ensures few { length self.new.book.list ≤ length self.old.book.list + 1 }
        ensures positions { self.new.positions.items ≡ self.old.positions.items }
        ensures tested { (p : Resting → Bool) → p (resting_of reference taking.now.agent e.now left) ≡ true → All (λ o. p o ≡ true) self.old.book.list → All (λ o. p o ≡ true) self.new.book.list }
    {
        if left == 0 {
            return;
        }
        if e.tif == 0 {
            out.reply(
                taking.agent,
                Body::Answer(Reply::Canceled {
                    time: taking.time,
                    token: e.token,
                    decrement: left,
                    reason: b'I',
                }),
            );
            return;
        }
        self.book.rest(Resting {
            reference,
            agent: taking.agent,
            token: e.token,
            side: e.side,
            price: e.price,
            intended: e.shares,
            left,
            tif: e.tif,
            shown: e.display == b'Y',
        });
        add_to_feed(taking, e, reference, left, out);
    }
}
