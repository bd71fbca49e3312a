//! What `begin` and `find` answer.

use shelf_core::{Key, PlaceWord};
use std::marker::Model;
use std::sync::Arc;

/// The right, and the duty, to fill the place of a key. Contracts see it as the key.
pub struct Turn {
    pub(crate) key: Key,
}

impl Model for Turn {
    ghost use Rattle.shelf_core.specs.declared.plan.Key.{Key};

    ghost Value = { Key };

    ghost view = { λ t. t.key };
}

/// What `begin` answers.
pub enum Begun {
    /// The seat has the turn.
    Turn(Turn),
    /// The place's word allowed no writing.
    Taken(PlaceWord),
}

/// What `find` answers.
#[derive(Drop)]
pub enum Found<C> {
    /// The value.
    Here(Arc<C>),
    /// The place's word wasn't Ready of the key.
    NotYet(PlaceWord),
}
