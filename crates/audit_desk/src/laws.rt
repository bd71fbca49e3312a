//! What an audit that finds nothing says.

ghost use Rattle.std.specs.Prelude.{All, None, ◌≡◌};
ghost use Rattle.bundle_reader.specs.Told.{BundleTold};
ghost use Rattle.audit_desk.specs.Audited.{audit_of};
ghost use Rattle.audit_desk.specs.Agrees.{Agrees};

/// A bundle in which no branch fails: every branch's feed can be applied from its first message to its last, and tells the
/// closing's displayed orders, field by field and in order, and its trading states. And where it is so, no branch fails.
pub fn a_passed_audit_says_equal()
    ensures passed { (b : BundleTold) → audit_of b ≡ None → All (Agrees b.stocks) b.branches }
    ensures agrees { (b : BundleTold) → All (Agrees b.stocks) b.branches → audit_of b ≡ None }
{}
