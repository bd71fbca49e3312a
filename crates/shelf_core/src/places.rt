//! The places of keys.

ghost use Rattle.std.specs.Prelude.{◌≡◌, ◌+◌, ◌<◌, ◌^◌, ◌++◌, IfSome, Some, None, true, length, option_map};
ghost use Rattle.shelf_core.specs.Plan.{same_key, is_in, are_distinct, index_of, is_before, rise, fork_or_grid, place_of, has_alone, is_sole, place_in, sole_in, place_count};
ghost use Rattle.shelf_core.specs.Orderly.{IsSmall};

use crate::{Key, ShelfPlan};

impl ShelfPlan {
    /// The place of a key: that of fork `i` is `i`, and the grid keys have the places behind those of the forks in
    /// turn. `None` where the key is neither, and for a grid key where there are no places for the grid.
    pub fn place_of(&self, key: Key) -> Option<u32>
        requires { place_count self.now < 2 ^ 32 }
        ensures { result ≡ place_of self.now key }
    {
        if let Some(fork) = index_of(self.forks.as_slice(), key) {
            return Some(fork as u32);
        }
        let at = index_of(self.grid.as_slice(), key)?;
        self.grid_place(at)
    }

    /// The place of a key, as `place_of` gives it, where the forks' keys and those of the grid rise by segment and event:
    /// the lists are then halved and not walked.
    pub fn rising_place_of(&self, key: Key) -> Option<u32>
        requires places { place_count self.now < 2 ^ 32 }
        requires forks { rise self.now.forks ≡ true }
        requires grid { rise self.now.grid ≡ true }
        ensures { result ≡ place_of self.now key }
    {
        if let Some(fork) = rising_index_of(self.forks.as_slice(), key) {
            return Some(fork as u32);
        }
        let at = rising_index_of(self.grid.as_slice(), key)?;
        self.grid_place(at)
    }

    // The place that the grid key at an index has, where there are places for the grid.
    fn grid_place(&self, at: usize) -> Option<u32>
        requires { place_count self.now < 2 ^ 32 }
        ensures { result ≡ fork_or_grid self.now None (Some at) }
    {
        if self.places == 0 {
            return None;
        }
        Some(self.forks.len() as u32 + (at % self.places as usize) as u32)
    }

    /// Whether a key is a fork key, or a grid key that has a place which no other grid key has.
    pub fn is_sole(&self, key: Key) -> bool
        requires { place_count self.now < 2 ^ 32 }
        ensures { result ≡ is_sole self.now key }
    {
        if is_in(self.forks.as_slice(), key) {
            return true;
        }
        match self.place_of(key) {
            None => false,
            Some(place) => self.has_alone(key, place),
        }
    }

    // Whether no other grid key has this place.
    fn has_alone(&self, key: Key, place: u32) -> bool
        requires { place_count self.now < 2 ^ 32 }
        ensures { result ≡ has_alone self.now key (Some place) }
    {
        self.grid
            .as_slice()
            .iter()
            .all(|k| *k == key || self.place_of(*k) != Some(place))
    }
}

// The place of a key under a plan that may not be laid yet: then there is none.
pub(crate) fn place_in(plan: &Option<ShelfPlan>, key: Key) -> Option<u32>
    requires { IsSmall plan.now }
    ensures { result ≡ place_in plan.now key }
{
    match plan {
        None => None,
        Some(plan) => plan.place_of(key),
    }
}

// Whether a key is sole under a plan that may not be laid yet: then it is not.
pub(crate) fn is_sole_in(plan: &Option<ShelfPlan>, key: Key) -> bool
    requires { IsSmall plan.now }
    ensures { result ≡ sole_in plan.now key }
{
    match plan {
        None => false,
        Some(plan) => plan.is_sole(key),
    }
}

// The place at which a key first stands in a list.
fn index_of(keys: &[Key], key: Key) -> Option<usize>
    ensures first { result ≡ index_of key keys.now }
    ensures within { IfSome result (λ i. i < length keys.now) }
{
    keys.iter().position(|k| *k == key)
}

// The place at which a key stands in a list whose keys rise.
fn rising_index_of(keys: &[Key], key: Key) -> Option<usize>
    requires { rise keys.now ≡ true }
    ensures first { result ≡ index_of key keys.now }
    ensures within { IfSome result (λ i. i < length keys.now) }
{
    let at = keys.partition_point(|k| is_before(*k, key));
    if at < keys.len() && keys[at] == key {
        return Some(at);
    }
    None
}

// Whether a key comes before another, by segment, and in one segment by event.
fn is_before(a: Key, b: Key) -> bool
    ensures { result ≡ is_before a b }
{
    a.segment < b.segment || (a.segment == b.segment && a.event < b.event)
}

// Whether a key stands in a list.
pub(crate) fn is_in(keys: &[Key], key: Key) -> bool
    ensures { result ≡ is_in key keys.now }
{
    keys.iter().any(|k| *k == key)
}
