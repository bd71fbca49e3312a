//! The rule of the table under a shelf, and what its steps tell.

use crate::about::{About, Held, View};
use crate::shelved::Shelved;
use atomic_table::{Join, Play, Split, TableRule};
use std::marker::{Brand, PhantomData};

/// The rule of the table under a shelf: what its words, values and views are at any moment.
pub struct Law<C> {
    of: PhantomData<C>,
}

impl<C: Shelved> TableRule<Held<C>, View<C>, About<C>> for Law<C> {
    ghost use Rattle.checkpoint_shelf.specs.Holds.{Holds, leader};

    ghost holds = { Holds C.key_of C.course_of };

    ghost first = { leader };
}

// The first seat makes a seat.
pub(crate) struct Cuts<C> {
    of: PhantomData<C>,
}

impl<C: Shelved> Split<View<C>> for Cuts<C> {
    ghost use Rattle.checkpoint_shelf.specs.Holds.{leads_on, newcomer};

    ghost left = { leads_on };

    ghost right = { newcomer };
}

// The first seat takes in another.
pub(crate) struct Meets<C> {
    of: PhantomData<C>,
}

impl<C: Shelved> Join<View<C>> for Meets<C> {
    ghost use Rattle.checkpoint_shelf.specs.Holds.{both, nobody};

    ghost both = { both };

    ghost spent = { nobody };
}

pub(crate) struct Claims;

impl<C: Shelved> Play<Held<C>, View<C>> for Claims {
    ghost use Rattle.checkpoint_shelf.specs.Tells.{ClaimTold};

    ghost then = { ClaimTold };
}

pub(crate) struct Reads;

impl<C: Shelved> Play<Held<C>, View<C>> for Reads {
    ghost use Rattle.checkpoint_shelf.specs.Tells.{DoneTold};

    ghost then = { DoneTold };
}

pub(crate) struct Counts;

impl<C: Shelved> Play<Held<C>, View<C>> for Counts {
    ghost use Rattle.checkpoint_shelf.specs.Tells.{CountTold};

    ghost then = { CountTold };
}

pub(crate) struct Stops;

impl<C: Shelved> Play<Held<C>, View<C>> for Stops {
    ghost use Rattle.checkpoint_shelf.specs.Tells.{StopTold};

    ghost then = { StopTold };
}

// The key that a step on a place's word is about, which the number in the word does not show. Each call picks it.
pub(crate) trait Aim {
    ghost use Rattle.shelf_core.specs.declared.plan.Key.{Key};

    ghost key: { Key };
}

impl Aim for Brand {
    ghost key = { record { segment = 0; event = 0 } };
}

pub(crate) struct Looks;

impl<C: Shelved> Play<Held<C>, View<C>> for Looks {
    ghost use Rattle.checkpoint_shelf.specs.Places.{LookTold};

    ghost then = { LookTold };
}

pub(crate) struct Begins<B> {
    of: PhantomData<B>,
}

impl<C: Shelved, B: Aim> Play<Held<C>, View<C>> for Begins<B> {
    ghost use Rattle.checkpoint_shelf.specs.Places.{BeginTold};

    ghost then = { BeginTold B.key };
}

pub(crate) struct Brings;

impl<C: Shelved> Play<Held<C>, View<C>> for Brings {
    ghost use Rattle.checkpoint_shelf.specs.Places.{BringTold};

    ghost then = { BringTold };
}

pub(crate) struct Publishes<B> {
    of: PhantomData<B>,
}

impl<C: Shelved, B: Aim> Play<Held<C>, View<C>> for Publishes<B> {
    ghost use Rattle.checkpoint_shelf.specs.Places.{PublishTold};

    ghost then = { PublishTold B.key };
}

pub(crate) struct Abandons<B> {
    of: PhantomData<B>,
}

impl<C: Shelved, B: Aim> Play<Held<C>, View<C>> for Abandons<B> {
    ghost use Rattle.checkpoint_shelf.specs.Places.{AbandonTold};

    ghost then = { AbandonTold B.key };
}

pub(crate) struct Lends<B> {
    of: PhantomData<B>,
}

impl<C: Shelved, B: Aim> Play<Held<C>, View<C>> for Lends<B> {
    ghost use Rattle.checkpoint_shelf.specs.Places.{LendTold};

    ghost then = { LendTold C.key_of C.course_of B.key };
}

pub(crate) struct Returns<B> {
    of: PhantomData<B>,
}

impl<C: Shelved, B: Aim> Play<Held<C>, View<C>> for Returns<B> {
    ghost use Rattle.checkpoint_shelf.specs.Places.{ReturnTold};

    ghost then = { ReturnTold B.key };
}
