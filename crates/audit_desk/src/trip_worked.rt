//! What the definitions give on worked entries.

ghost use Rattle.std.specs.Prelude.{◌≡◌, codes, replicate};
ghost use Rattle.audit_desk.specs.AsRead.{as_read};
ghost use Rattle.audit_desk.specs.Ranges.{IsInRange};
ghost use Rattle.market_laws.specs.Texts.{AreMessagesSpelled, HasMessageTexts};
ghost use Rattle.audit_desk.specs.TripWorked.{canceling, made, read};
ghost use Rattle.trace_bundle.specs.Worked.{quiet_course};

/// Of three edits before events with dated halts, the resume without a feed is read with the halt that has its time.
pub fn a_moved_halt()
    ensures { as_read made ≡ read }
{}

/// The course of two branches without an event has its fields in their ranges, and it is all that reading back asks for.
pub fn a_quiet_course()
    ensures ranges { IsInRange quiet_course }
    ensures spelled { AreMessagesSpelled quiet_course }
{}

/// A token of letters and digits may stand in an order's message, and one of spaces may not.
pub fn injected_cancels()
    ensures letters { HasMessageTexts (canceling (codes "T0001000000001")) }
    ensures spaces { ¬ (HasMessageTexts (canceling (replicate 14 32))) }
{}
