//! What the definitions give on worked studies, words and statuses.

ghost use Rattle.std.specs.Prelude.{◌≡◌, ◌∷◌, ◌++◌, [], ℕ, Some, None, Ok, codes, length};
ghost use Rattle.outside.specs.Files.{absent, too_long, whole};
ghost use Rattle.abides_run.specs.Output.{audit_line, audited, carried_out, counts_line, crossed, rewound, study_bundle, study_events};
ghost use Rattle.branch_tree.specs.declared.stop.Stop.TheVariants.{When};
ghost use Rattle.abides_run.specs.Worked.{crossing_at, first_stock, header_alone, empty_course, empty_run, late_parent, mark_at, no_branches, no_branches_bytes, slower_at_a_time, target_at, three_branches, three_branches_at, three_branches_study, study_with_series};
ghost use Rattle.abides_run.specs.Rewinds.{lasts_of};
ghost use Rattle.session_desk.specs.declared.act.Act.TheVariants as act;
ghost use Rattle.abides_run.specs.Sessions.{act_word};
ghost use Rattle.abides_run.specs.Words.{asked_of};
ghost use Rattle.abides_run.specs.Verdict.{usage, no_file, file_too_long, refused, no_branch, no_stock, bad_orders, bad_bundle, bad_script, refused_act, no_event, accepted, verdict_on_found, verdict_on_script};
ghost use Rattle.abides_run.specs.Ahead.{bundle_ahead, fetched, study_ahead, verdict};
ghost use Rattle.abides_run.specs.Notes.{note, past_event};
ghost use Rattle.command_words.specs.declared.asked.Request.TheVariants.{File, Large, Bundle};
ghost use Rattle.command_words.specs.declared.asked.Task.TheVariants as task;

use crate::status::Status;

/// The bundle of the empty run has these 402 bytes, and no event is counted.
pub fn empty_bundle()
    ensures bytes { study_bundle empty_course ≡ empty_run }
    ensures size { length empty_run ≡ 402 }
    ensures events { study_events empty_course ≡ 0 }
    ensures counts { counts_line empty_course ≡ codes "accepted: agents 2, stocks 1, branches 1, segments 1\n" }
{}

/// Three branches that leave the root after two of its six events: two events of the root are simulated once for all, and
/// then four for each.
pub fn shared_events_are_counted_once()
    ensures events { study_events three_branches ≡ 18 }
    ensures counts { counts_line three_branches ≡ codes "accepted: agents 3, stocks 1, branches 4, segments 5\n" }
{}

/// Branches that leave at a time. At 1004 two events of the root stand, so three branches that leave it then are as if they
/// left after two events. At 1005 four stand, so two of the root and two of the branch follow. A branch that leaves after one
/// event a parent that has two when it begins goes on from there: of the parent's own events none comes before it.
pub fn events_of_branches_by_time()
    ensures three { study_events (three_branches_at (When 1004)) ≡ 18 }
    ensures one { study_events slower_at_a_time ≡ 8 }
    ensures past { study_events late_parent ≡ 14 }
    ensures lasts { lasts_of late_parent ≡ 6 ∷ 6 ∷ 6 ∷ [] }
{}

/// The words `run s`, `check s`, `table s` and `rewind s root:1` ask for the study `s`, and `big 7` for the large study of the
/// number 7; with no name, an empty one, a further word, or a command that the program does not have they ask for nothing.
pub fn asked_words()
    ensures run { asked_of (codes "run" ∷ codes "s" ∷ []) ≡ Some (File task.Run (codes "s")) }
    ensures check { asked_of (codes "check" ∷ codes "s" ∷ codes "--workers=64" ∷ []) ≡ Some (File task.Check (codes "s")) }
    ensures nameless { asked_of (codes "run" ∷ []) ≡ None }
    ensures empty { asked_of (codes "run" ∷ [] ∷ []) ≡ None }
    ensures further { asked_of (codes "run" ∷ codes "s" ∷ codes "t" ∷ []) ≡ None }
    ensures other { asked_of (codes "ran" ∷ codes "s" ∷ []) ≡ None }
    ensures table { asked_of (codes "table" ∷ codes "s" ∷ []) ≡ Some (File task.Table (codes "s")) }
    ensures rewind { asked_of (codes "rewind" ∷ codes "s" ∷ codes "root:1" ∷ codes "--places=3" ∷ [])
        ≡ Some (File (task.Rewind (record { word = codes "root:1"; branch = codes "root"; event = 1 } ∷ []) 3) (codes "s")) }
    ensures big { asked_of (codes "big" ∷ codes "7" ∷ []) ≡ Some (Large 7) }
    ensures cross { asked_of (codes "cross" ∷ codes "s" ∷ codes "root:1" ∷ codes "ABM" ∷ codes "f" ∷ [])
        ≡ Some (File (task.Cross (crossing_at (codes "root:1") (codes "root") 1 (codes "ABM")) 16) (codes "s")) }
    ensures big_words { asked_of (codes "big" ∷ codes "seven" ∷ []) ≡ None }
    ensures many_workers { asked_of (codes "run" ∷ codes "s" ∷ codes "--workers=65" ∷ []) ≡ None }
{}

/// Faulty words come first, then the study's file, then whether it is the text of a table, then the series file that it
/// names, and then the other rules. The file of a cross is not asked for where a rule is broken.
pub fn order_of_refusals()
    ensures faulty { verdict [] [] ≡ usage }
    ensures missing { verdict [] (codes "run" ∷ codes "s" ∷ []) ≡ no_file (codes "s") }
    ensures absent_study { (study_ahead [] task.Run (codes "s") absent).verdict ≡ no_file (codes "s") }
    ensures long_study { (study_ahead [] task.Run (codes "s") too_long).verdict ≡ file_too_long (codes "s") }
    ensures no_table { verdict ((codes "s", 255 ∷ []) ∷ []) (codes "run" ∷ codes "s" ∷ []) ≡ refused 0 0 }
    ensures no_series { verdict ((codes "s", study_with_series) ∷ []) (codes "run" ∷ codes "s" ∷ []) ≡ no_file (codes "t") }
    ensures large { fetched ((codes "7", study_with_series) ∷ []) (codes "big" ∷ codes "7" ∷ []) ≡ [] }
    ensures fetched { fetched ((codes "s", study_with_series) ∷ []) (codes "run" ∷ codes "s" ∷ []) ≡ codes "s" ∷ codes "t" ∷ [] }
    ensures rules_first { fetched ((codes "s", study_with_series) ∷ (codes "t", []) ∷ []) (codes "cross" ∷ codes "s" ∷ codes "root:1" ∷ codes "ABM" ∷ codes "f" ∷ []) ≡ codes "s" ∷ codes "t" ∷ [] }
    ensures first_rule { verdict ((codes "s", study_with_series) ∷ (codes "t", []) ∷ []) (codes "run" ∷ codes "s" ∷ []) ≡ refused 1 1 }
{}

/// Each run of the three branches has six events. A mark that names no branch comes before one whose event is past the last,
/// and the last event itself is there.
pub fn marks_of_three_branches()
    ensures lasts { lasts_of three_branches ≡ 6 ∷ 6 ∷ 6 ∷ 6 ∷ [] }
    ensures past { verdict_on_found (task.Rewind (mark_at (codes "root:6") (codes "root") 6 ∷ mark_at (codes "z:7") (codes "z") 7 ∷ mark_at (codes "y:8") (codes "y") 8 ∷ []) 16) None three_branches_study
        ≡ no_event (codes "z:7") 6 three_branches_study 0 }
    ensures unnamed { verdict_on_found (task.Rewind (mark_at (codes "z:7") (codes "z") 7 ∷ mark_at (codes "w:1") (codes "w") 1 ∷ []) 16) None three_branches_study ≡ no_branch (codes "w:1") }
    ensures there { verdict_on_found (task.Rewind (mark_at (codes "root:6") (codes "root") 6 ∷ []) 16) None three_branches_study
        ≡ accepted (rewound (target_at 0 6 ∷ []) 16 three_branches_study) }
{}

/// A cross that names no branch comes before one that names no stock, that before a file that breaks a rule, and that before an
/// event past the last.
pub fn crosses_of_three_branches()
    ensures unnamed { verdict_on_found (task.Cross (crossing_at (codes "w:1") (codes "w") 1 (codes "XYZ")) 16) (Some []) three_branches_study ≡ no_branch (codes "w:1") }
    ensures stockless { verdict_on_found (task.Cross (crossing_at (codes "root:7") (codes "root") 7 (codes "XYZ")) 16) (Some []) three_branches_study ≡ no_stock (codes "XYZ") }
    ensures refused { verdict_on_found (task.Cross (crossing_at (codes "root:7") (codes "root") 7 (codes "ABM")) 16) (Some []) three_branches_study ≡ bad_orders 0 }
    ensures past { verdict_on_found (task.Cross (crossing_at (codes "root:7") (codes "root") 7 (codes "ABM")) 16) (Some header_alone) three_branches_study
        ≡ no_event (codes "root:7") 6 three_branches_study 0 }
    ensures there { verdict_on_found (task.Cross (crossing_at (codes "root:6") (codes "root") 6 (codes "ABM")) 16) (Some header_alone) three_branches_study
        ≡ accepted (crossed (target_at 0 6) first_stock [] 16 three_branches_study) }
{}

/// A script that says no acts comes before an act that the tree refuses, and that before one that goes past its branch's last event.
pub fn sessions_of_three_branches()
    ensures asked { asked_of (codes "session" ∷ codes "s" ∷ codes "c" ∷ []) ≡ Some (File (task.Session (codes "c") 16) (codes "s")) }
    ensures no_toml { verdict_on_found (task.Session (codes "c") 16) (Some (255 ∷ [])) three_branches_study ≡ bad_script 64 }
    ensures no_acts { verdict_on_found (task.Session (codes "c") 16) (Some []) three_branches_study ≡ bad_script 64 }
    ensures refused { verdict_on_script 16 three_branches_study (Ok (act.Rewind (codes "root") 7 ∷ act.Values (codes "w") ∷ [])) ≡ refused_act 1 }
    ensures past { verdict_on_script 16 three_branches_study (Ok (act.Undo ∷ act.Rewind (codes "root") 7 ∷ [])) ≡ no_event (codes "act 1") 6 three_branches_study 200 }
    ensures there { verdict_on_script 16 three_branches_study (Ok (act.Rewind (codes "z") 6 ∷ [])) ≡ accepted (carried_out (act.Rewind (codes "z") 6 ∷ []) 16 three_branches_study) }
{}

/// An audit fetches its bundle alone. Of no bytes a frame is cut; a letter that no frame has is a bad frame, an end where the header
/// must stand a bad place; and a bundle of no branches passes.
pub fn audits_of_small_bytes()
    ensures asked { asked_of (codes "audit" ∷ codes "b" ∷ codes "--workers=3" ∷ []) ≡ Some (Bundle (codes "b")) }
    ensures missing { verdict [] (codes "audit" ∷ codes "b" ∷ []) ≡ no_file (codes "b") }
    ensures fetched { fetched [] (codes "audit" ∷ codes "b" ∷ []) ≡ codes "b" ∷ [] }
    ensures long { (bundle_ahead (codes "b") too_long).verdict ≡ file_too_long (codes "b") }
    ensures empty { (bundle_ahead (codes "b") (whole [])).verdict ≡ bad_bundle 1 0 }
    ensures unknown { (bundle_ahead (codes "b") (whole (0 ∷ 1 ∷ codes "x"))).verdict ≡ bad_bundle 2 0 }
    ensures place { (bundle_ahead (codes "b") (whole (0 ∷ 3 ∷ codes "z" ++ (0 ∷ 0 ∷ [])))).verdict ≡ bad_bundle 3 0 }
    ensures passed { (bundle_ahead (codes "b") (whole no_branches_bytes)).verdict ≡ accepted (audited no_branches) }
{}

/// The lines of audits.
pub fn lines_of_audits()
    ensures passed { audit_line no_branches ≡ codes "audit ok: branches 0, orders 0\n" }
    ensures bad_bundle { note [] (Status.BadBundle 1 4) ≡ codes "bad bundle: 1 at 4\n" }
    ensures audit_failed { note [] (Status.AuditFailed 1 1) ≡ codes "audit failed: branch 1, reference 1\n" }
{}

/// The lines of refused crosses.
pub fn lines_of_refused_crosses()
    ensures no_stock { note (codes "XYZ") Status.NoStock ≡ codes "no stock: XYZ\n" }
    ensures bad_orders { note [] (Status.BadOrders 3) ≡ codes "orders refused: record 3\n" }
{}

/// The lines of refused scripts and acts, and the last act that a script may have.
pub fn lines_of_refused_sessions()
    ensures bad_script { note [] (Status.BadScript 64) ≡ codes "script refused: act 64\n" }
    ensures act_refused { note [] (Status.ActRefused 0) ≡ codes "act refused: 0\n" }
    ensures no_event { note (past_event (act_word 63) 6) Status.NoEvent ≡ codes "no event: act 63, last event 6\n" }
{}

/// The lines of refused rewinds.
pub fn lines_of_refused_rewinds()
    ensures no_branch { note (codes "w:1") Status.NoBranch ≡ codes "no branch: w:1\n" }
    ensures no_event { note (past_event (codes "root:7") 6) Status.NoEvent ≡ codes "no event: root:7, last event 6\n" }
{}

/// The line for a missing file.
pub fn line_of_a_missing_file()
    ensures { note (codes "s") Status.NoStudy ≡ codes "no such file: s\n" }
{}
