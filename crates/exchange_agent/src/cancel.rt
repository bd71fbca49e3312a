//! Cancels.

ghost use Rattle.std.specs.Prelude.{◌≡◌, ◌<◌, ◌≤◌, ◌++◌, ◌^◌, OnOk, OnErr, IfSome, Some, length, slice_index_or, map};
ghost use Rattle.price_time_book.specs.Orders.{order_with};
ghost use Rattle.exchange_agent.specs.Cancel.{cancel_of, canceled, found_from, lowered_feed, lowering_of, open_of, unheard};
ghost use Rattle.exchange_agent.specs.State.{no_stock, stock_at};
ghost use Rattle.exchange_agent.specs.View.{stock_of};

use crate::exchange::Exchange;
use crate::handled::Handled;
use crate::listing::Listing;
use market_types::{AgentNo, Body, Cancel, Feed, Memory, Reply, Time, Token, What};
use price_time_book::Resting;
use price_time_book::keeping::{a_reduce_keeps, changes_keep};

/// An order that rests, and the number of its stock.
#[derive(Clone, Copy)]
pub struct Found {
    pub stock: usize,
    pub order: Resting,
}

// The order that an agent sent under a token.
fn find_order(stocks: &[Listing], agent: AgentNo, token: &Token) -> Option<Found>
    ensures found { result ≡ found_from 0 agent token.now (map stock_of stocks.now) }
    ensures place { IfSome result (λ f. f.stock < length stocks.now) }
    ensures open { IfSome result (λ f. 0 < f.order.left) }
    ensures intended { IfSome result (λ f. f.order.left ≤ f.order.intended) }
    ensures held { IfSome result (λ f. order_with f.order.reference (slice_index_or (map stock_of stocks.now) f.stock no_stock).book ≡ Some f.order) }
{
    for (i, listing) in stocks.iter().enumerate() {
        if let Some(order) = listing.book.find(agent, token) {
            return Some(Found {
                stock: i,
                order: *order,
            });
        }
    }
    None
}

// The new open shares of an order whose intended size is to be so many.
fn open_after(order: &Resting, shares: u32) -> u32
    requires intended { order.now.left ≤ order.now.intended }
    ensures { result ≡ open_of order.now shares }
{
    shares.saturating_sub(order.intended - order.left)
}

// What the feed says of an order that is lowered.
fn lowering(order: &Resting, left: u32) -> What
    requires { left ≤ order.now.left }
    ensures { result ≡ lowering_of order.now left }
{
    if left == 0 {
        What::Delete {
            reference: order.reference,
        }
    } else {
        What::Cancel {
            reference: order.reference,
            shares: order.left - left,
        }
    }
}

// The feed is told of an order that is lowered, unless it is hidden.
fn tell_lowering(locate: u16, time: Time, order: &Resting, left: u32, out: &mut Handled)
    requires left { left ≤ order.now.left }
    requires feed_room { 0 < out.old.feed.spare }
    ensures feed { out.new.feed.list ≡ out.old.feed.list ++ lowered_feed locate time order.now left }
    ensures replies { out.new.replies ≡ out.old.replies }
    ensures fee { out.new.fee ≡ out.old.fee }
{
    let shown = order.shown;
    if shown {
        out.tell(Feed {
            locate,
            tracking: 0,
            time,
            what: lowering(order, left),
        });
    }
}

impl Exchange {
    // A Cancel is ignored.
    fn ignore_cancel(&mut self)
        requires { self.old.counts.cancels < 2 ^ 63 }
        ensures { self.new ≡ (unheard self.old).state }
    {
        self.counts.cancels += 1;
    }

    // An order is lowered by a Cancel.
    fn lower(
        &mut self,
        time: Time,
        from: AgentNo,
        cancel: &Cancel,
        found: &Found,
        out: &mut Handled,
    )
        requires stock { found.now.stock < length self.old.stocks }
        requires held { order_with found.now.order.reference (stock_at self.old found.now.stock).book ≡ Some found.now.order }
        requires live { 0 < found.now.order.left }
        requires intended { found.now.order.left ≤ found.now.order.intended }
        requires below { cancel.now.shares < found.now.order.intended }
        requires room { 0 < out.old.replies.spare }
        requires feed_room { 0 < out.old.feed.spare }
        ensures state { self.new ≡ (canceled self.old time from cancel.now found.now.stock found.now.order).state }
        ensures replies { out.new.replies.list ≡ out.old.replies.list ++ (canceled self.old time from cancel.now found.now.stock found.now.order).replies }
        ensures feed { out.new.feed.list ≡ out.old.feed.list ++ (canceled self.old time from cancel.now found.now.stock found.now.order).feed }
        ensures fee { out.new.fee ≡ out.old.fee }
    {
        a_reduce_keeps();
        changes_keep();
        let left = open_after(&found.order, cancel.shares);
        self.stocks[found.stock].reduce(&found.order, left);
        out.reply(
            from,
            Body::Answer(Reply::Canceled {
                time,
                token: cancel.token,
                decrement: found.order.left - left,
                reason: b'U',
            }),
        );
        tell_lowering(found.stock as u16 + 1, time, &found.order, left, out);
    }

    /// A Cancel, in every state of the stock.
    pub(crate) fn cancel(
        &mut self,
        time: Time,
        from: AgentNo,
        cancel: &Cancel,
        out: &mut Handled,
    ) -> Result<(), Memory>
        requires { self.old.counts.cancels < 2 ^ 63 }
        ensures state { OnOk result (self.new ≡ (cancel_of self.old time from cancel.now (found_from 0 from cancel.now.token self.old.stocks)).state) }
        ensures replies { OnOk result (out.new.replies.list ≡ out.old.replies.list ++ (cancel_of self.old time from cancel.now (found_from 0 from cancel.now.token self.old.stocks)).replies) }
        ensures feed { OnOk result (out.new.feed.list ≡ out.old.feed.list ++ (cancel_of self.old time from cancel.now (found_from 0 from cancel.now.token self.old.stocks)).feed) }
        ensures fee { out.new.fee ≡ out.old.fee }
        ensures exchange_refused { OnErr result (self.new ≡ self.old) }
        ensures replies_refused { OnErr result (out.new.replies.list ≡ out.old.replies.list) }
        ensures feed_refused { OnErr result (out.new.feed.list ≡ out.old.feed.list) }
    {
        let Ok(()) = out.reserve(1, 1) else {
            return Err(Memory);
        };
        match find_order(self.stocks.as_slice(), from, &cancel.token) {
            Some(found) => {
                if cancel.shares < found.order.intended {
                    self.lower(time, from, cancel, &found, out);
                } else {
                    self.ignore_cancel();
                }
            }
            None => self.ignore_cancel(),
        }
        Ok(())
    }
}
