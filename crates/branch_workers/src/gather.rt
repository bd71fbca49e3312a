//! What workers hand back is brought together.

ghost use Rattle.std.specs.Prelude.{◌≡◌, ℕ, ◌+◌, ◌*◌, ◌<◌, ◌≤◌, ◌^◌, ◌++◌, ◌∷◌, [], All, IfOk, true, length, map, sum_by, vec_capacity, vec_len};

use crate::worker::Worker;
use branch_deques::Room;
use checkpoint_shelf::ShelfSeat;
use kernel_copy::{Checkpoint, Outcome};
use market_types::Memory;
use outside::{Ledger, Steps};
use std::alloc::Global;

// The seats of workers, the outcomes of each, and whether all finished.
#[derive(Drop)]
pub(crate) struct Back {
    pub(crate) seats: Vec<ShelfSeat<Checkpoint>>,
    pub(crate) outcomes: Vec<Vec<Outcome>>,
    pub(crate) finished: bool,
}

impl Back {
    // Room for what so many workers hand back.
    pub(crate) fn new(alloc: Global, workers: u32) -> Result<Back, Memory>
        ensures seats { IfOk result (λ b. (b.seats.items ≡ []) × (vec_len b.seats + workers ≤ vec_capacity b.seats)) }
        ensures outcomes { IfOk result (λ b. (b.outcomes.items ≡ []) × (vec_len b.outcomes + workers ≤ vec_capacity b.outcomes)) }
        ensures finished { IfOk result (λ b. b.finished ≡ true) }
    {
        let Ok(seats) = Vec::with_capacity(alloc, workers as usize) else {
            return Err(Memory);
        };
        let Ok(outcomes) = Vec::with_capacity(alloc, workers as usize) else {
            return Err(Memory);
        };
        Ok(Back {
            seats,
            outcomes,
            finished: true,
        })
    }
}

// Takes in what workers hand back, in order: how many steps they counted together.
pub(crate) fn gather<L: Ledger, B: Room>(
    back: &mut Back,
    mut workers: Vec<Worker<L, B>>,
) -> Steps<L>
    requires seats { (back.old.seats.items ≡ []) × (vec_len back.old.seats + length workers.items ≤ vec_capacity back.old.seats) }
    requires outcomes { (back.old.outcomes.items ≡ []) × (vec_len back.old.outcomes + length workers.items ≤ vec_capacity back.old.outcomes) }
    requires finished { back.old.finished ≡ true }
    requires few { length workers.items ≤ 64 }
    requires each { All (λ w. w.steps < 2 ^ 52) workers.items }
    ensures seats { back.new.seats.items ≡ map (λ w. w.seat) workers.items }
    ensures outcomes { back.new.outcomes.items ≡ map (λ w. w.outcomes) workers.items }
    ensures finished { back.new.finished ≡ true → All (λ w. w.finished ≡ true) workers.items }
    ensures steps { result ≡ sum_by (λ w. w.steps) workers.items }
{
    let mut steps = Steps::new();
    while !workers.is_empty() {
        let worker = workers.remove(0);
        let Worker {
            number: _,
            seat,
            lane,
            steps: part,
            outcomes,
            finished,
        } = worker;
        drop(lane);
        steps.join(part);
        back.seats.push_reserved(seat);
        back.outcomes.push_reserved(outcomes);
        back.finished &= finished;
    }
    workers.destroy_empty();
    steps
}
