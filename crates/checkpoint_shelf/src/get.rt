//! The values of a closed shelf.

ghost use Rattle.std.specs.Prelude.{◌≡◌, Some, None, true, false, IfSome, IfNone};
ghost use Rattle.std.specs.Arc.{arc_value};
ghost use Rattle.shelf_core.specs.Words.{is_ready};
ghost use Rattle.shelf_core.specs.Possible.{word_at};

use crate::closed::ClosedShelf;
use crate::code::decode;
use crate::shelved::Shelved;
use shelf_core::{Key, PlaceWord};
use std::sync::Arc;

// Whether a place's word is Ready of a key.
fn is_ready_of(word: PlaceWord, key: Key) -> bool
    ensures { result ≡ is_ready key (Some word) }
{
    match word {
        PlaceWord::Ready(other) => other == key,
        PlaceWord::Free | PlaceWord::Writing(_) | PlaceWord::Lent(_, _) => false,
    }
}

impl<C: Shelved> ClosedShelf<C> {
    /// The value of a key: `None` where the key has no place, or its place isn't Ready of the key.
    pub fn get(&self, key: Key) -> Option<&Arc<C>>
        ensures none { IfNone result (is_ready key (word_at self.now.system key) ≡ false) }
        ensures some { IfSome result (λ a. (is_ready key (word_at self.now.system key) ≡ true) × (C.key_of (arc_value a.now) ≡ key) × (C.course_of (arc_value a.now) ≡ self.now.course)) }
    {
        let Some(place) = self.plan.rising_place_of(key) else {
            return None;
        };
        let word = decode(self.closed.word(place as usize + 1));
        if !is_ready_of(word, key) {
            return None;
        }
        match self.closed.slots.get(place as usize) {
            Some(value) => Some(value),
            None => None,
        }
    }
}
