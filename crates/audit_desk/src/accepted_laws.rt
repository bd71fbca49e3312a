//! What being accepted gives for reading back.

ghost use Rattle.std.specs.Prelude.{◌≡◌, ℕ, List, Option, Ok};
ghost use Rattle.toml.specs.Data.{Members};
ghost use Rattle.study_rules.specs.Accepted.{StudyTold, study_of};
ghost use Rattle.market_laws.specs.Texts.{AreMessagesSpelled};

/// The orders that the edits of an accepted study inject are ones that a message can hold: each is what an order's bytes spell.
pub fn accepted_messages_are_spelled()
    ensures { (t : Members) (series : Option (List ℕ)) (s : StudyTold) → study_of t series ≡ Ok s → AreMessagesSpelled s.course }
{}
