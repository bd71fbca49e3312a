//! A list of feed messages.

ghost use Rattle.std.specs.Prelude.{◌≡◌, ◌<◌, ◌≤◌, ◌-◌, ◌++◌, ◌∷◌, [], IsOk, IfOk, OnOk, OnErr, length, option_map, slice_get, IsTrue, ◌↔◌};

use crate::Memory;
use crate::feed::Feed;
use crate::roomy::Roomy;
use std::alloc::Global;
use std::marker::Model;

/// A list of feed messages, which counts the places that it keeps for more.
#[derive(Drop)]
pub struct FeedList {
    feeds: Roomy<Feed>,
}

impl Model for FeedList {
    ghost use Rattle.market_types.specs.Room.{Room};
    ghost use Rattle.market_types.specs.declared.feed.Feed.{Feed};

    ghost Value = { Room Feed };

    ghost view = { λ a. a.feeds };
}

impl FeedList {
    /// The empty list.
    pub fn new(alloc: Global) -> FeedList
        ensures { result ≡ record { list = []; spare = 0 } }
    {
        FeedList {
            feeds: Roomy::new(alloc),
        }
    }

    /// How many messages the list has.
    pub fn len(&self) -> usize
        ensures { result ≡ length self.now.list }
    {
        self.feeds.as_slice().len()
    }

    /// Whether the list has none.
    pub fn is_empty(&self) -> bool
        ensures { IsTrue result ↔ (self.now.list ≡ []) }
    {
        self.feeds.as_slice().is_empty()
    }

    /// The message at a place, from 0.
    pub fn get(&self, i: usize) -> Option<&Feed>
        ensures { option_map (λ f. f.now) result ≡ slice_get self.now.list i }
    {
        self.feeds.as_slice().get(i)
    }

    /// The messages in order.
    pub fn as_slice(&self) -> &[Feed]
        ensures { result.now ≡ self.now.list }
    {
        self.feeds.as_slice()
    }

    /// Empties the list. It holds on to its memory, so that what is appended next takes none, though no place counts as kept.
    pub fn clear(&mut self)
        ensures { self.new ≡ record { list = []; spare = 0 } }
    {
        self.feeds.clear();
    }

    /// Makes room for `n` more messages.
    pub fn reserve(&mut self, n: usize) -> Result<(), Memory>
        ensures list { self.new.list ≡ self.old.list }
        ensures room { OnOk result (n ≤ self.new.spare) }
        ensures never_falls { self.old.spare ≤ self.new.spare }
        ensures refused { OnErr result (self.new ≡ self.old) }
    {
        self.feeds.reserve(n)
    }

    /// Appends a message. It can't be refused where room was made.
    pub fn push(&mut self, value: Feed) -> Result<(), Memory>
        ensures pushed { OnOk result (self.new ≡ record { list = self.old.list ++ value ∷ []; spare = self.old.spare - 1 }) }
        ensures within_room { 0 < self.old.spare → IsOk result }
        ensures refused { OnErr result (self.new ≡ self.old) }
    {
        self.feeds.push(value)
    }

    /// Appends the messages of another list.
    pub fn append_copy(&mut self, other: &FeedList) -> Result<(), Memory>
        ensures appended { OnOk result (self.new.list ≡ self.old.list ++ other.now.list) }
        ensures refused { OnErr result (self.new ≡ self.old) }
    {
        self.feeds.append_slice(other.as_slice())
    }

    /// An equal list.
    pub fn copy(&self, alloc: Global) -> Result<FeedList, Memory>
        ensures { IfOk result (λ l. l.list ≡ self.now.list) }
    {
        let mut list = FeedList::new(alloc);
        list.append_copy(self)?;
        Ok(list)
    }
}
