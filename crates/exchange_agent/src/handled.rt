//! What handling a message gives.

ghost use Rattle.std.specs.Prelude.{◌≡◌, ◌<◌, ◌≤◌, ◌-◌, ◌++◌, ◌∷◌, [], pos, OnOk, OnErr, length, option_map, slice_get};

use market_types::{AgentNo, Body, Feed, FeedList, Memory, Roomy};
use std::alloc::Global;

/// A reply and its receiver.
#[derive(Clone, Copy)]
pub struct Outgoing {
    pub to: AgentNo,
    pub body: Body,
}

/// The replies with their receivers, the feed and the sum of fees of one message.
#[derive(Drop)]
pub struct Handled {
    pub(crate) replies: Roomy<Outgoing>,
    /// The feed in order.
    pub feed: FeedList,
    /// Millionths of a dollar.
    pub fee: i64,
}

impl Handled {
    /// Nothing so far.
    pub fn new(alloc: Global) -> Handled
        ensures { result ≡ record { replies = record { list = []; spare = 0 }; feed = record { list = []; spare = 0 }; fee = pos 0 } }
    {
        Handled {
            replies: Roomy::new(alloc),
            feed: FeedList::new(alloc),
            fee: 0,
        }
    }

    /// Nothing so far, as at first; what is handled next finds the memory of what was.
    pub fn clear(&mut self)
        ensures { self.new ≡ record { replies = record { list = []; spare = 0 }; feed = record { list = []; spare = 0 }; fee = pos 0 } }
    {
        self.replies.clear();
        self.feed.clear();
        self.fee = 0;
    }

    /// The replies with their receivers.
    pub fn replies(&self) -> &[Outgoing]
        ensures { result.now ≡ self.now.replies.list }
    {
        self.replies.as_slice()
    }

    /// How many replies there are.
    pub fn len(&self) -> usize
        ensures { result ≡ length self.now.replies.list }
    {
        self.replies.as_slice().len()
    }

    /// The reply at a place, from 0, with its receiver.
    pub fn get(&self, i: usize) -> Option<(AgentNo, &Body)>
        ensures { option_map (λ r. record { to = r.0; body = r.1.now }) result ≡ slice_get self.now.replies.list i }
    {
        match self.replies.as_slice().get(i) {
            Some(reply) => Some((reply.to, &reply.body)),
            None => None,
        }
    }

    /// Keeps places for so many replies and feed messages.
    pub(crate) fn reserve(&mut self, replies: usize, feed: usize) -> Result<(), Memory>
        ensures replies { self.new.replies.list ≡ self.old.replies.list }
        ensures feed { self.new.feed.list ≡ self.old.feed.list }
        ensures fee { self.new.fee ≡ self.old.fee }
        ensures room { OnOk result (replies ≤ self.new.replies.spare) }
        ensures feed_room { OnOk result (feed ≤ self.new.feed.spare) }
    {
        self.replies.reserve(replies)?;
        self.feed.reserve(feed)
    }

    /// One reply, for which room was made.
    pub(crate) fn reply(&mut self, to: AgentNo, body: Body)
        requires { 0 < self.old.replies.spare }
        ensures { self.new ≡ record self.old { replies = record { list = self.old.replies.list ++ record { to = to; body = body } ∷ []; spare = self.old.replies.spare - 1 } } }
    {
        self.replies.put(Outgoing { to, body });
    }

    /// One feed message, for which room was made.
    pub(crate) fn tell(&mut self, feed: Feed)
        requires { 0 < self.old.feed.spare }
        ensures { self.new ≡ record self.old { feed = record { list = self.old.feed.list ++ feed ∷ []; spare = self.old.feed.spare - 1 } } }
    {
        match self.feed.push(feed) {
            Ok(()) => {}
            Err(_) => unreachable!(),
        }
    }
}
