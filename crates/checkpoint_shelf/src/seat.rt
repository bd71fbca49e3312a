//! A seat at a shelf.

use crate::about::{Held, View};
use crate::shelved::Shelved;
use atomic_table::Seat;
use std::marker::Model;

/// A seat, through which a worker makes its steps. Contracts see the shelf that it is of, and what it knows.
#[derive(Drop)]
pub struct ShelfSeat<C: Shelved> {
    pub(crate) seat: Seat<Held<C>, View<C>>,
    pub(crate) number: u32,
}

impl<C: Shelved> Model for ShelfSeat<C> {
    ghost use Rattle.checkpoint_shelf.specs.declared.about.About.{About};
    ghost use Rattle.checkpoint_shelf.specs.Told.{SeatTold, shelf_of};
    ghost use Rattle.checkpoint_shelf.specs.Holds.{IsSeat};

    ghost Value = { SeatTold C.Course };

    ghost view = { λ s. record { shelf = shelf_of s.seat.table_id s.seat.me.0.about; view = s.seat.me.0.seen } };

    ghost invariant = { λ s. (k : About C C.Course) × IsSeat k s.number s.seat.me };
}
