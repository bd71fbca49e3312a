//! What the definitions give on worked runs.

ghost use Rattle.std.specs.Prelude.{◌≡◌, [], ◌∷◌, Some, true, false};
ghost use Rattle.market_types.specs.declared.entry.End.TheVariants as why;
ghost use Rattle.market_floor.specs.OpeningWorked.{market, watcher};
ghost use Rattle.kernel_core.specs.Due.{due_by, until_time};
ghost use Rattle.kernel_core.specs.Open.{opened};
ghost use Rattle.kernel_core.specs.Worked.{ended, full_run, opening_run, reached, rows, standing};

/// Two watchers of a market that closes at 1005 wake and ask, and the market closes before a quote is heard.
pub fn two_watchers()
    ensures events { rows (full_run (market 1005 0 (watcher 1000 ∷ watcher 1000 ∷ []))) ≡
        (1, 1000, 0, 1, 1, false, 1000) ∷ (2, 1000, 1, 2, 2, false, 1000) ∷ (3, 1005, 2, 1, 0, false, 1005) ∷ (4, 1005, 4, 2, 0, false, 1005) ∷ [] }
    ensures end { ended (market 1005 0 (watcher 1000 ∷ watcher 1000 ∷ [])) (full_run (market 1005 0 (watcher 1000 ∷ watcher 1000 ∷ []))) ≡ (Some why.Closed, 4, 8) }
{}

/// An exchange that computes for 3 nanoseconds puts back what comes before it is free, under the old numbers.
pub fn put_back_run()
    ensures events { rows (full_run (market 2000 3 (watcher 1000 ∷ watcher 1000 ∷ watcher 1003 ∷ []))) ≡
        (1, 1000, 0, 1, 1, false, 1000) ∷ (2, 1000, 1, 2, 2, false, 1000) ∷ (3, 1003, 2, 3, 3, false, 1003)
        ∷ (4, 1005, 3, 1, 0, false, 1008) ∷ (5, 1005, 5, 2, 0, true, 1008) ∷ (6, 1008, 5, 2, 0, false, 1011)
        ∷ (7, 1008, 7, 3, 0, true, 1011) ∷ (8, 1011, 7, 3, 0, false, 1014) ∷ (9, 1013, 9, 0, 1, false, 1013)
        ∷ (10, 1016, 10, 0, 2, false, 1016) ∷ (11, 1019, 11, 0, 3, false, 1019) ∷ [] }
    ensures end { ended (market 2000 3 (watcher 1000 ∷ watcher 1000 ∷ watcher 1003 ∷ [])) (full_run (market 2000 3 (watcher 1000 ∷ watcher 1000 ∷ watcher 1003 ∷ []))) ≡ (Some why.Closed, 3, 12) }
{}

/// Two watchers wake at 1000, and their questions are due at 1005, when the market closes. A run up to a time makes what is due
/// at its very nanosecond, nothing that is due one later, and no more than the most events. A closed state has nothing due.
pub fn two_watchers_up_to_a_time()
    ensures before { due_by (market 1005 0 (watcher 1000 ∷ watcher 1000 ∷ [])) 999 (opened (market 1005 0 (watcher 1000 ∷ watcher 1000 ∷ []))) ≡ false }
    ensures due { due_by (market 1005 0 (watcher 1000 ∷ watcher 1000 ∷ [])) 1000 (opened (market 1005 0 (watcher 1000 ∷ watcher 1000 ∷ []))) ≡ true }
    ensures none { reached (market 1005 0 (watcher 1000 ∷ watcher 1000 ∷ [])) 999 100 ≡ (0, 1000, false) }
    ensures both { reached (market 1005 0 (watcher 1000 ∷ watcher 1000 ∷ [])) 1000 100 ≡ (2, 1000, false) }
    ensures between { reached (market 1005 0 (watcher 1000 ∷ watcher 1000 ∷ [])) 1004 100 ≡ (2, 1000, false) }
    ensures most { reached (market 1005 0 (watcher 1000 ∷ watcher 1000 ∷ [])) 1005 3 ≡ (3, 1005, true) }
    ensures closed { until_time (market 1005 0 (watcher 1000 ∷ watcher 1000 ∷ [])) 5000 100 (opening_run (market 1005 0 (watcher 1000 ∷ watcher 1000 ∷ []))) ≡ full_run (market 1005 0 (watcher 1000 ∷ watcher 1000 ∷ [])) }
    ensures over { standing (market 1005 0 (watcher 1000 ∷ watcher 1000 ∷ [])) 5000 (full_run (market 1005 0 (watcher 1000 ∷ watcher 1000 ∷ []))) ≡ (4, 1005, false) }
{}

/// A message that is put back counts at the time that it is put back to, and no longer at the one that it had.
pub fn put_back_up_to_a_time()
    ensures back { reached (market 2000 3 (watcher 1000 ∷ watcher 1000 ∷ watcher 1003 ∷ [])) 1005 100 ≡ (5, 1005, false) }
    ensures before { reached (market 2000 3 (watcher 1000 ∷ watcher 1000 ∷ watcher 1003 ∷ [])) 1007 100 ≡ (5, 1005, false) }
    ensures again { reached (market 2000 3 (watcher 1000 ∷ watcher 1000 ∷ watcher 1003 ∷ [])) 1008 100 ≡ (7, 1008, false) }
{}
