//! A keeper of a run's events that keeps nothing.

ghost use Rattle.std.specs.Prelude.{◌≡◌};

use kernel_core::{EventSeen, Keeper};
use market_types::{FeedList, Memory};
use std::alloc::Global;

// Takes events and keeps nothing of them.
#[derive(Drop)]
pub(crate) struct Unkept;

impl Keeper for Unkept {
    ghost Told = { Unit {0} };

    ghost told = { λ u. tt };

    ghost with = { λ t e. tt };

    ghost ready = { λ u. Unit {0} };

    ghost is_sure = { Unit {0} };

    fn room(&mut self) -> Result<(), Memory> {
        Ok(())
    }

    fn event(
        &mut self,
        _alloc: Global,
        _seen: &EventSeen,
        _before: &mut FeedList,
        _after: &mut FeedList,
    ) -> Result<(), Memory> {
        Ok(())
    }
}
