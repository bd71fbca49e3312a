//! What the definitions say of small examples. The functions do nothing: each of their clauses is proved by
//! computation.

ghost use Rattle.std.specs.Prelude.{◌≡◌, [], ◌∷◌, Some, None, true, false};
ghost use Rattle.shelf_core.specs.Plan.{place_of, is_sole, rise};
ghost use Rattle.shelf_core.specs.After.{left_by, opening, having_loaded};
ghost use Rattle.shelf_core.specs.Views.{new_view};
ghost use Rattle.shelf_core.specs.Possible.{allows};
ghost use Rattle.shelf_core.specs.declared.words.PlaceWord.TheVariants.{Free as free_word, Ready as ready_word, Lent as lent_word};
ghost use Rattle.shelf_core.specs.declared.words.Seen.TheVariants.{Place as place_seen, Done as done_seen};
ghost use Rattle.shelf_core.specs.Example.{key, shared_plan, fork_plan, two_seats, two_seats_left, answers};

/// By no events the opening system is left.
pub fn no_events()
    ensures { left_by [] ≡ opening }
{}

/// Of two forks and three grid keys with two places, fork `i` has place `i`, and the grid keys have places 2, 3
/// and 2. The forks and the second grid key are sole; a key that is none of them has no place.
pub fn shared_places()
    ensures fork { place_of shared_plan (key 1 3) ≡ Some 1 }
    ensures first { place_of shared_plan (key 2 50) ≡ Some 2 }
    ensures second { place_of shared_plan (key 2 100) ≡ Some 3 }
    ensures third { place_of shared_plan (key 2 150) ≡ Some 2 }
    ensures none { place_of shared_plan (key 2 200) ≡ None }
    ensures sole_fork { is_sole shared_plan (key 1 3) ≡ true }
    ensures shared { is_sole shared_plan (key 2 50) ≡ false }
    ensures sole { is_sole shared_plan (key 2 100) ≡ true }
{}

/// Keys rise where each comes before all behind it: by segment, and in one segment by event.
pub fn rising_keys()
    ensures rise { rise (key 0 9 ∷ key 1 1 ∷ key 1 3 ∷ []) ≡ true }
    ensures turned { rise (key 1 3 ∷ key 1 1 ∷ []) ≡ false }
    ensures twice { rise (key 1 3 ∷ key 1 3 ∷ []) ≡ false }
{}

/// At a fork's place nothing is written over a value; at a place of the grid over that of another key alone.
pub fn places_that_allow_writing()
    ensures free { allows shared_plan 0 (key 0 2) free_word ≡ true }
    ensures fork { allows shared_plan 0 (key 0 2) (ready_word (key 1 3)) ≡ false }
    ensures grid { allows shared_plan 2 (key 2 50) (ready_word (key 2 150)) ≡ true }
    ensures same { allows shared_plan 2 (key 2 50) (ready_word (key 2 50)) ≡ false }
    ensures lent { allows shared_plan 2 (key 2 50) (lent_word (key 2 150) 1) ≡ false }
{}

/// A new seat that loads a fork's word, with its value, knows the fork's key; at the done word it learns that instead.
pub fn what_loads_tell()
    ensures place { (having_loaded (Some fork_plan) (Some (place_seen 0 (ready_word (key 0 2)))) (new_view 1)).known ≡ key 0 2 ∷ [] }
    ensures number { (having_loaded (Some fork_plan) (Some (done_seen 1 true)) (new_view 1)).done_seen ≡ 1 }
    ensures bit { (having_loaded (Some fork_plan) (Some (done_seen 1 true)) (new_view 1)).stopped ≡ true }
    ensures loads { (having_loaded (Some fork_plan) (Some (done_seen 1 true)) (new_view 1)).loads ≡ 1 }
{}

/// Two seats at one fork's place: which of their eighteen events are possible.
pub fn two_seats_possible()
    ensures { answers opening two_seats ≡
        true ∷ false ∷ true ∷ true ∷ false ∷ true ∷ false ∷ false ∷ false ∷
        true ∷ true ∷ false ∷ false ∷ true ∷ true ∷ false ∷ true ∷ true ∷ [] }
{}

/// Two seats at one fork's place: what their eighteen events leave.
pub fn two_seats_end()
    ensures { left_by two_seats ≡ two_seats_left }
{}
