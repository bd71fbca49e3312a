//! What known command lines ask for.

ghost use Rattle.std.specs.Prelude.{◌≡◌, ◌∷◌, [], codes, Some, None};
ghost use Rattle.command_words.specs.Asked.{asked_of};

use crate::asked::{Request, Task};

/// Lines that are command lines.
pub fn taken_lines()
    ensures run { asked_of (codes "run" ∷ codes "s" ∷ [])
        ≡ Some (record { request = Request.File Task.Run (codes "s"); workers = 1 }) }
    ensures options { asked_of (codes "--workers" ∷ codes "64" ∷ codes "table" ∷ codes "s" ∷ codes "--places=0" ∷ [])
        ≡ Some (record { request = Request.File Task.Table (codes "s"); workers = 64 }) }
    ensures escaped { asked_of (codes "check" ∷ codes "--" ∷ codes "--workers" ∷ [])
        ≡ Some (record { request = Request.File Task.Check (codes "--workers"); workers = 1 }) }
    ensures rewind { asked_of (codes "rewind" ∷ codes "s" ∷ codes "root:0" ∷ codes "--workers" ∷ codes "3" ∷ codes "x-1:0027" ∷ [])
        ≡ Some (record {
          request = Request.File (Task.Rewind (record { word = codes "root:0"; branch = codes "root"; event = 0 } ∷ record { word = codes "x-1:0027"; branch = codes "x-1"; event = 27 } ∷ []) 16) (codes "s");
          workers = 3;
        }) }
    ensures big { asked_of (codes "big" ∷ codes "0107" ∷ [])
        ≡ Some (record { request = Request.Large 107; workers = 1 }) }
    ensures cross { asked_of (codes "cross" ∷ codes "s" ∷ codes "x-1:27" ∷ codes "ABM" ∷ codes "--places=2" ∷ codes "orders.csv" ∷ [])
        ≡ Some (record {
          request = Request.File (Task.Cross (record { mark = record { word = codes "x-1:27"; branch = codes "x-1"; event = 27 }; symbol = codes "ABM"; file = codes "orders.csv" }) 2) (codes "s");
          workers = 1;
        }) }
    ensures no_symbol { asked_of (codes "cross" ∷ codes "s" ∷ codes "root:0" ∷ [] ∷ codes "f" ∷ [])
        ≡ Some (record {
          request = Request.File (Task.Cross (record { mark = record { word = codes "root:0"; branch = codes "root"; event = 0 }; symbol = []; file = codes "f" }) 16) (codes "s");
          workers = 1;
        }) }
    ensures audit { asked_of (codes "audit" ∷ codes "--workers=2" ∷ codes "b" ∷ [])
        ≡ Some (record { request = Request.Bundle (codes "b"); workers = 2 }) }
    ensures session { asked_of (codes "session" ∷ codes "s" ∷ codes "--places=0" ∷ codes "c" ∷ [])
        ≡ Some (record { request = Request.File (Task.Session (codes "c") 0) (codes "s"); workers = 1 }) }
{}

/// Lines that are none.
pub fn refused_lines()
    ensures no_words { asked_of [] ≡ None }
    ensures no_study { asked_of (codes "run" ∷ []) ≡ None }
    ensures empty_study { asked_of (codes "run" ∷ [] ∷ []) ≡ None }
    ensures further_word { asked_of (codes "run" ∷ codes "s" ∷ codes "t" ∷ []) ≡ None }
    ensures unknown_command { asked_of (codes "walk" ∷ codes "s" ∷ []) ≡ None }
    ensures help { asked_of (codes "run" ∷ codes "s" ∷ codes "--help" ∷ []) ≡ None }
    ensures unknown_option { asked_of (codes "run" ∷ codes "s" ∷ codes "-x" ∷ []) ≡ None }
    ensures no_workers { asked_of (codes "run" ∷ codes "s" ∷ codes "--workers=0" ∷ []) ≡ None }
    ensures many_workers { asked_of (codes "run" ∷ codes "s" ∷ codes "--workers=65" ∷ []) ≡ None }
    ensures five_digits { asked_of (codes "run" ∷ codes "s" ∷ codes "--workers=00003" ∷ []) ≡ None }
    ensures many_places { asked_of (codes "run" ∷ codes "s" ∷ codes "--places=129" ∷ []) ≡ None }
    ensures twice { asked_of (codes "run" ∷ codes "s" ∷ codes "--places=1" ∷ codes "--places=1" ∷ []) ≡ None }
    ensures no_marks { asked_of (codes "rewind" ∷ codes "s" ∷ []) ≡ None }
    ensures no_event { asked_of (codes "rewind" ∷ codes "s" ∷ codes "root:" ∷ []) ≡ None }
    ensures eight_digits { asked_of (codes "rewind" ∷ codes "s" ∷ codes "root:00000001" ∷ []) ≡ None }
    ensures no_file { asked_of (codes "cross" ∷ codes "s" ∷ codes "root:0" ∷ codes "ABM" ∷ []) ≡ None }
    ensures empty_file { asked_of (codes "cross" ∷ codes "s" ∷ codes "root:0" ∷ codes "ABM" ∷ [] ∷ []) ≡ None }
    ensures no_mark { asked_of (codes "cross" ∷ codes "s" ∷ codes "root" ∷ codes "ABM" ∷ codes "f" ∷ []) ≡ None }
    ensures second_file { asked_of (codes "cross" ∷ codes "s" ∷ codes "root:0" ∷ codes "ABM" ∷ codes "f" ∷ codes "g" ∷ []) ≡ None }
    ensures empty_bundle { asked_of (codes "audit" ∷ [] ∷ []) ≡ None }
    ensures second_bundle { asked_of (codes "audit" ∷ codes "b" ∷ codes "c" ∷ []) ≡ None }
    ensures places_of_an_audit { asked_of (codes "audit" ∷ codes "b" ∷ codes "--places=129" ∷ []) ≡ None }
    ensures no_script { asked_of (codes "session" ∷ codes "s" ∷ []) ≡ None }
    ensures empty_script { asked_of (codes "session" ∷ codes "s" ∷ [] ∷ []) ≡ None }
    ensures second_script { asked_of (codes "session" ∷ codes "s" ∷ codes "c" ∷ codes "d" ∷ []) ≡ None }
    ensures large_number { asked_of (codes "big" ∷ codes "10000" ∷ []) ≡ None }
{}
