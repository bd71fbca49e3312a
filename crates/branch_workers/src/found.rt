//! Ends of segments that a worker waits for.

ghost use Rattle.std.specs.Prelude.{◌≡◌, true, Some, IfOk, IsSome};
ghost use Rattle.shelf_core.specs.Plan.{place_of, is_in};
ghost use Rattle.shelf_core.specs.Made.{Stays};

use crate::rest::rest;
use checkpoint_shelf::{Found, Key, Shelf, ShelfSeat};
use kernel_copy::Checkpoint;
use market_types::Memory;
use std::sync::{Arc, Wait};

// The value of a key, which is looked for again while it isn't there or another seat has it on loan.
pub(crate) fn wait_for<R: Wait>(
    rt: &R,
    shelf: &Shelf<Checkpoint>,
    seat: &mut ShelfSeat<Checkpoint>,
    key: Key,
) -> Result<Arc<Checkpoint>, Memory>
    requires seat { seat.old.shelf ≡ Some shelf.now }
    requires place { IsSome (place_of shelf.now.plan key) }
    ensures same { seat.new.shelf ≡ seat.old.shelf }
    ensures stays { Stays seat.old.view seat.new.view }
    ensures turns { seat.new.view.turns ≡ seat.old.view.turns }
    ensures found { IfOk result (λ a. (a.value.key ≡ key) × (a.value.course ≡ shelf.now.course) × (is_in key seat.new.view.found ≡ true)) }
{
    for _ in rt.forever() {
        let Ok(found) = shelf.find(seat, key) else {
            return Err(Memory);
        };
        match found {
            Found::Here(value) => return Ok(value),
            Found::NotYet(_) => rest(rt),
        }
    }
    unreachable!()
}
