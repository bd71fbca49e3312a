//! What the definitions of edits and dated changes give on worked runs.

ghost use Rattle.std.specs.Prelude.{◌≡◌, ◌∷◌, [], Some, None, false};
ghost use Rattle.market_types.specs.declared.entry.End.TheVariants as why;
ghost use Rattle.market_floor.specs.OpeningWorked.{market, watcher};
ghost use Rattle.kernel_core.specs.Post.{nothing_waits};
ghost use Rattle.kernel_core.specs.Open.{opened};
ghost use Rattle.kernel_core.specs.Step.{end_of};
ghost use Rattle.kernel_core.specs.Worked.{ended, full_run, opening_run, rows};
ghost use Rattle.kernel_core.specs.EditsWorked.{answers, dated_market, dues, gone_on, heard, marks, quieted, reopened, revived, silenced, sold};

/// The run of two watchers that is closed goes on once an order is injected that is due 100 nanoseconds later: the order is
/// the next event, and its answer the one after it.
pub fn a_closed_run_goes_on()
    ensures closed { ended (market 2000 0 (watcher 1000 ∷ watcher 1000 ∷ [])) (full_run (market 2000 0 (watcher 1000 ∷ watcher 1000 ∷ []))) ≡ (Some why.Closed, 2, 8) }
    ensures events { rows (reopened (market 2000 0 (watcher 1000 ∷ watcher 1000 ∷ []))) ≡
        (1, 1000, 0, 1, 1, false, 1000) ∷ (2, 1000, 1, 2, 2, false, 1000) ∷ (3, 1005, 2, 1, 0, false, 1005)
        ∷ (4, 1005, 4, 2, 0, false, 1005) ∷ (5, 1010, 6, 0, 1, false, 1010) ∷ (6, 1010, 7, 0, 2, false, 1010)
        ∷ (6, 1010, 0, 0, 0, false, 0) ∷ (7, 1110, 8, 1, 0, false, 1110) ∷ (8, 1115, 9, 0, 1, false, 1115) ∷ [] }
    ensures end { ended (market 2000 0 (watcher 1000 ∷ watcher 1000 ∷ [])) (reopened (market 2000 0 (watcher 1000 ∷ watcher 1000 ∷ []))) ≡ (Some why.Closed, 2, 10) }
{}

/// A silenced watcher asks for nothing when it wakes, so that no message waits; an order that is injected revives the state.
pub fn a_quiet_run_goes_on()
    ensures quiet { ended (market 2000 0 (watcher 1000 ∷ [])) (quieted (market 2000 0 (watcher 1000 ∷ []))) ≡ (Some why.Quiet, 0, 1) }
    ensures events { rows (revived (market 2000 0 (watcher 1000 ∷ []))) ≡
        (0, 1000, 0, 0, 0, false, 0) ∷ (1, 1000, 0, 1, 1, false, 1000) ∷ (1, 1000, 0, 0, 0, false, 0)
        ∷ (2, 1100, 1, 1, 0, false, 1100) ∷ (3, 1105, 2, 0, 1, false, 1105) ∷ [] }
    ensures end { ended (market 2000 0 (watcher 1000 ∷ [])) (revived (market 2000 0 (watcher 1000 ∷ []))) ≡ (Some why.Quiet, 0, 3) }
{}

/// A watcher that is silenced after it asked gets its quote, which moves its own time and nothing else.
pub fn a_silenced_watcher_counts_no_quote()
    ensures silent { heard (silenced (market 2000 0 (watcher 1000 ∷ []))) ≡ (1010, 0, 1) }
    ensures speaking { heard (full_run (market 2000 0 (watcher 1000 ∷ []))) ≡ (1010, 1, 1) }
{}

/// The latency of a message is drawn at its own number: message 1 has the word 0x903df1a0 of the zero key.
pub fn latencies_are_drawn_by_number()
    ensures none { dues 0 0 (market 2000 0 (watcher 1000 ∷ [])) ≡ (1, 1000) ∷ (2, 1001000) ∷ [] }
    ensures little { dues 0 9 (market 2000 0 (watcher 1000 ∷ [])) ≡ (1, 1005) ∷ (2, 1001000) ∷ [] }
    ensures most { dues 0 4294967295 (market 2000 0 (watcher 1000 ∷ [])) ≡ (1, 2419979656) ∷ (2, 1001000) ∷ [] }
    ensures base { dues 5 9 (market 2000 0 (watcher 1000 ∷ [])) ≡ (1, 1010) ∷ (2, 1001000) ∷ [] }
{}

/// Each kind of edit leaves its mark; halting and resuming alone tell the feed.
pub fn each_kind_leaves_its_mark()
    ensures { marks (market 2000 0 (watcher 1000 ∷ [])) ≡
        (116, 0, 3, 0) ∷ (102, 1, 3, 0) ∷ (104, 2, 3, 1) ∷ (114, 3, 3, 1) ∷ (108, 4, 3, 0) ∷ (112, 5, 3, 0) ∷ (115, 6, 3, 0)
        ∷ (105, 7, 3, 0) ∷ (118, 8, 3, 0) ∷ [] }
{}

/// Of two orders at one price the one before the change of ticks is accepted, and the one at its very nanosecond rejected.
pub fn a_dated_change_comes_first()
    ensures { answers (gone_on dated_market (sold 65 499 ∷ sold 66 500 ∷ []) (opening_run dated_market)) ≡ (65, 1499) ∷ (88, 1500) ∷ [] }
{}

/// The ends in their order: a dropped message, so many events as may be, and no message.
pub fn ends_in_order()
    ensures full { end_of (market 2000 0 (watcher 1000 ∷ [])) (record (opened (market 2000 0 (watcher 1000 ∷ []))) { events = 100; post = record nothing_waits { dropped = 1 } }) ≡ Some why.QueueFull }
    ensures limit { end_of (market 2000 0 (watcher 1000 ∷ [])) (record (opened (market 2000 0 (watcher 1000 ∷ []))) { events = 100; post = nothing_waits }) ≡ Some why.EventLimit }
    ensures quiet { end_of (market 2000 0 (watcher 1000 ∷ [])) (record (opened (market 2000 0 (watcher 1000 ∷ []))) { post = nothing_waits }) ≡ Some why.Quiet }
    ensures going { end_of (market 2000 0 (watcher 1000 ∷ [])) (opened (market 2000 0 (watcher 1000 ∷ []))) ≡ None }
{}
