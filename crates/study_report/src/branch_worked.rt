//! What the definitions give on a worked course.

ghost use Rattle.std.specs.Prelude.{◌≡◌, ◌∷◌, [], codes};
ghost use Rattle.branch_tree.specs.declared.stop.Stop.TheVariants.{When};
ghost use Rattle.trace_bundle.specs.Worked.{forked_course, quiet_course, two_watchers};
ghost use Rattle.probe_desk.specs.Columns.{fees};
ghost use Rattle.study_report.specs.Tables.{study_table};

/// The table of two branches without an event, whose runs have closed.
pub fn a_quiet_table()
    ensures { study_table quiet_course (fees ∷ []) (codes "fees" ∷ []) ≡ codes "branch,parent,stop,events,end,first_difference,fees\nroot,,0,0,Closed,0,0\nx,root,0,0,Closed,0,0\n" }
{}

/// The table of a branch that leaves at the time at which two watchers' questions are heard: four of six events came by then.
pub fn a_table_by_time()
    ensures { study_table (forked_course two_watchers (When 1005)) [] [] ≡ codes "branch,parent,stop,events,end,first_difference\nroot,,0,6,Closed,0\nx,root,4,6,Closed,0\n" }
{}
