//! Laws of the shared system, of every system, event and view. The functions do nothing: their clauses are for those
//! who hold a system as a fact alone, and make its events by other means than `step`.

ghost use Rattle.std.specs.Prelude.{◌≡◌, ℕ, ◌≤◌, ◌<◌, ◌++◌, ◌∷◌, [], List, Bool, true, false, Some, None};
ghost use Rattle.shelf_core.specs.Plan.{is_in, is_sole, place_of};
ghost use Rattle.shelf_core.specs.Words.{is_held};
ghost use Rattle.shelf_core.specs.Views.{live_view, times, has_turn, other_turns};
ghost use Rattle.shelf_core.specs.Possible.{possible, seen_at};
ghost use Rattle.shelf_core.specs.After.{after};
ghost use Rattle.shelf_core.specs.Orderly.{Orderly};
ghost use Rattle.shelf_core.specs.Law.{Keeps};
ghost use Rattle.shelf_core.specs.Made.{Same, Sees};
ghost use Rattle.shelf_core.specs.Calls.{Began, Refused, LentElsewhere, WritingOwn, LentKnown, Missed};
ghost use Rattle.shelf_core.specs.Settled.{IsBack, IsSettled};
ghost use Rattle.shelf_core.specs.declared.plan.Key.{Key as TheKey};
ghost use Rattle.shelf_core.specs.declared.plan.ShelfPlan.{ShelfPlan as ThePlan};
ghost use Rattle.shelf_core.specs.declared.words.PlaceWord.{PlaceWord as ThePlaceWord};
ghost use Rattle.shelf_core.specs.declared.words.Word.{Word as TheWord};
ghost use Rattle.shelf_core.specs.declared.words.Word.TheVariants.{Done as done_word};
ghost use Rattle.shelf_core.specs.declared.words.Seen.{Seen as TheSeen};
ghost use Rattle.shelf_core.specs.declared.words.Seen.TheVariants.{Done as done_seen};
ghost use Rattle.shelf_core.specs.declared.seat.SeatView.{SeatView as TheView};
ghost use Rattle.shelf_core.specs.declared.system.System.{System as TheSystem};
ghost use Rattle.shelf_core.specs.declared.event.Event.{Event as TheEvent};
ghost use Rattle.shelf_core.specs.declared.event.Event.TheVariants.{Load as load_event};

/// An event that is possible in an orderly system leaves an orderly one, and undoes nothing that lasts.
pub fn one_event()
    ensures orderly { (s : TheSystem) (e : TheEvent) → Orderly s → possible s e ≡ true → Orderly (after s e) }
    ensures keeps { (s : TheSystem) (e : TheEvent) → Orderly s → possible s e ≡ true → Keeps s (after s e) }
{}

/// Each seat that isn't spent may load each word that is there, at any time.
pub fn loads_are_possible()
    ensures { (s : TheSystem) (n : ℕ) (view : TheView) (word : TheWord) (seen : TheSeen) →
        live_view s.views n ≡ Some view → seen_at s word ≡ Some seen → possible s (load_event n word) ≡ true }
{}

/// What a seat that loads the done word sees is no less than what it knew and what it counted itself.
pub fn done_is_kept()
    ensures { (plan : ThePlan) (done : ℕ) (stopped : Bool) (v w : TheView) → Sees plan done_word (done_seen done stopped) v w →
        (v.done_seen ≤ done) × (v.counts ≤ done) × (v.stopped ≡ true → stopped ≡ true) }
{}

/// What a seat that got no turn at the place of a key saw there: nothing lent to itself, nothing that it writes itself
/// but where it has a turn there, and at a sole key of a segment of its own, where it has no turn, the value or a loan of
/// it, which it then knows.
pub fn refusals_tell()
    ensures same { (plan : ThePlan) (key : TheKey) (word : ThePlaceWord) (v w : TheView) → Refused plan key word v w → Same v w }
    ensures elsewhere { (plan : ThePlan) (key : TheKey) (word : ThePlaceWord) (v w : TheView) → Refused plan key word v w →
        v.loan ≡ None → LentElsewhere v word }
    ensures own { (plan : ThePlan) (key : TheKey) (word : ThePlaceWord) (v w : TheView) → Refused plan key word v w →
        WritingOwn plan key v word }
    ensures sole { (plan : ThePlan) (key : TheKey) (word : ThePlaceWord) (v w : TheView) → Refused plan key word v w →
        is_sole plan key ≡ true → 0 < times key.segment v.claims → has_turn key v.turns ≡ false →
        (is_held key (Some word) ≡ true) × (is_in key w.known ≡ true) }
{}

/// What a seat that found no value of a key saw at its place: of a key that it knows a loan to another seat.
pub fn misses_tell()
    ensures same { (plan : ThePlan) (key : TheKey) (word : ThePlaceWord) (v w : TheView) → Missed plan key word v w → Same v w }
    ensures elsewhere { (plan : ThePlan) (key : TheKey) (word : ThePlaceWord) (v w : TheView) → Missed plan key word v w →
        v.loan ≡ None → LentElsewhere v word }
    ensures known { (plan : ThePlan) (key : TheKey) (word : ThePlaceWord) (v w : TheView) → Missed plan key word v w →
        v.loan ≡ None → is_in key v.known ≡ true → LentKnown key v word }
{}

/// A turn is got once: while a seat has the turn of a key it gets no second one. And a turn that was got and spent leaves
/// the turns that the seat had.
pub fn turns_are_single()
    ensures once { (plan : ThePlan) (key : TheKey) (v w : TheView) → Began plan key v w → has_turn key v.turns ≡ false }
    ensures spent { (key : TheKey) (place : ℕ) (turns : List (ℕ × TheKey)) → has_turn key turns ≡ false →
        other_turns key (turns ++ (place, key) ∷ []) ≡ turns }
{}

/// Once one seat took in all others and has no turn and no loan, each place is Free or Ready, all claims are its own,
/// and the done number is its count.
pub fn all_are_back()
    ensures { (s : TheSystem) (view : TheView) → Orderly s → IsBack s view → IsSettled s view }
{}
