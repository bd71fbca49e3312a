//! What the definitions give on small examples.

ghost use Rattle.std.specs.Prelude.{◌≡◌, ◌∷◌, [], ◌++◌, codes, negsuc, None};
ghost use Rattle.market_types.specs.declared.entry.End.TheVariants.{Quiet, EventLimit, QueueFull};
ghost use Rattle.study_report.specs.Difference.{first_difference_of};
ghost use Rattle.study_report.specs.Table.{table_of, end_text};
ghost use Rattle.study_report.specs.Worked.{three_branches, four_probes, wakeup, mark, message, two_events, three_events};

/// The table of three branches of a run of six events: two of them get other latencies after two events, the third has
/// no edit.
pub fn table_of_three_branches()
    ensures table { table_of three_branches four_probes
        ≡ codes "branch,parent,stop,events,end,first_difference,volume,spread_sum,range,fees\nroot,,0,6,Closed,0,0,0,0,0\nx,root,2,6,Closed,5,0,0,0,0\ny,root,2,6,Closed,5,0,0,0,0\nz,root,2,6,Closed,0,0,0,0,0\n" }
    ensures header { table_of [] [] ≡ codes "branch,parent,stop,events,end,first_difference\n" }
    ensures negative { table_of (record { name = codes "root"; parent = None; stop = 0; events = 1000000; end = EventLimit; difference = 0; values = negsuc 11 ∷ [] } ∷ []) (codes "a,b" ∷ [])
        ≡ codes "branch,parent,stop,events,end,first_difference,\"a,b\"\nroot,,0,1000000,EventLimit,0,-12\n" }
    ensures quiet { end_text Quiet ≡ codes "Quiet" }
    ensures full { end_text QueueFull ≡ codes "QueueFull" }
{}

/// Runs that part at their third event, one that is longer, and one whose feed alone differs. Edits make no difference.
pub fn small_differences()
    ensures same { first_difference_of (three_events 1010) (three_events 1010) ≡ 0 }
    ensures edits { first_difference_of (three_events 1010) (mark ∷ two_events ++ mark ∷ wakeup 3 1010 [] ∷ mark ∷ []) ≡ 0 }
    ensures time { first_difference_of (three_events 1010) (two_events ++ mark ∷ wakeup 3 1055 [] ∷ []) ≡ 3 }
    ensures longer { first_difference_of two_events (three_events 1010) ≡ 3 }
    ensures shorter { first_difference_of (three_events 1010) two_events ≡ 3 }
    ensures feed { first_difference_of two_events (wakeup 1 1000 [] ∷ wakeup 2 1005 (message ∷ []) ∷ []) ≡ 2 }
    ensures nothing { first_difference_of [] [] ≡ 0 }
{}
