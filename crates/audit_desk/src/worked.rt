//! What the definitions give on small bundles.

ghost use Rattle.std.specs.Prelude.{◌≡◌, ◌∷◌, [], None, Some, false, true};
ghost use Rattle.feed_rebuild.specs.Worked.{add, delete, executed};
ghost use Rattle.audit_desk.specs.Audited.{audit_of, displayed_over};
ghost use Rattle.audit_desk.specs.Worked.{branch_of, bundle_of, order};

/// A bundle of no branches passes, and so does one whose closing is what its feed tells. With one order fewer in the closing than
/// in the feed, one more, or another number of open shares it doesn't, nor with a message that can't be applied; an order that
/// isn't displayed is not in the feed, and not counted.
#[tactic(auto, unfolding(crate::specs::Audited::audit_of, feed_rebuild::specs::Fold::fold))]
pub fn small_audits()
    ensures empty { audit_of (bundle_of []) ≡ None }
    ensures same { audit_of (bundle_of (branch_of (add 1 7 100 ∷ executed 1 7 40 ∷ []) (order true 7 60 ∷ []) 84 ∷ [])) ≡ None }
    ensures fewer { audit_of (bundle_of (branch_of (add 1 7 100 ∷ []) [] 84 ∷ [])) ≡ Some (record { branch = 0; reference = 7 }) }
    ensures more { audit_of (bundle_of (branch_of [] (order true 7 100 ∷ []) 84 ∷ [])) ≡ Some (record { branch = 0; reference = 7 }) }
    ensures other { audit_of (bundle_of (branch_of (add 1 7 100 ∷ []) (order true 7 99 ∷ []) 84 ∷ [])) ≡ Some (record { branch = 0; reference = 7 }) }
    ensures hidden { audit_of (bundle_of (branch_of [] (order false 7 100 ∷ []) 84 ∷ [])) ≡ None }
    ensures halted { audit_of (bundle_of (branch_of [] [] 72 ∷ [])) ≡ Some (record { branch = 0; reference = 0 }) }
    ensures second { audit_of (bundle_of (branch_of [] [] 84 ∷ branch_of (delete 1 9 ∷ []) [] 84 ∷ branch_of (delete 1 8 ∷ []) [] 84 ∷ [])) ≡ Some (record { branch = 1; reference = 9 }) }
    ensures count { displayed_over (branch_of [] (order true 7 100 ∷ order false 8 100 ∷ []) 84 ∷ branch_of [] (order true 7 100 ∷ []) 84 ∷ []) ≡ 2 }
{}
