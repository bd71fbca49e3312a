//! A probe whose sum stays at the ends of its type.

use crate::facts::{ends, holds};
use crate::fault_runs::{QUIET, branched_study, ran_with};
use abides_run::Status;
use market_types::Record;
use probe_desk::Probe;
use std::alloc::Global;
use std::process::Abort;
use std::sync::Wait;
use std::thread::Threads;

// It adds one number at each record.
#[derive(Drop)]
struct Adding {
    term: i128,
    total: i128,
}

impl Probe for Adding {
    ghost use Rattle.std.specs.Prelude.{◌∷◌, [], codes};
    ghost use Rattle.program_tests.specs.Adding.{adding};

    ghost title = { λ _. codes "adding" };

    ghost meaning = { λ p. adding p.term };

    ghost numbers = { λ p. p.total ∷ [] };

    fn name(&self) -> &str {
        "adding"
    }

    fn see(&mut self, _event: &Record) {
        self.total = self.total.saturating_add(self.term);
    }

    fn value(&self) -> i128 {
        self.total
    }

    fn restart(&mut self) {
        self.total = 0;
    }
}

// The ends of the type, and what the sums of the three branches then are in every row.
const ENDS: [(i128, &str); 2] = [
    (i128::MAX, "170141183460469231731687303715884105727"),
    (i128::MIN, "-170141183460469231731687303715884105728"),
];

// A probe that adds this.
fn adding_probe(rt: &impl Abort, alloc: Global, term: i128) -> Vec<Box<dyn Probe>> {
    let mut probes: Vec<Box<dyn Probe>> = Vec::new(alloc);
    let probe = Box::new(alloc, Adding { term, total: 0 }).expect(rt, "memory");
    probes.push(probe).expect(rt, "memory");
    probes
}

// The table of three branches where each sum is this.
fn table_of(rt: &impl Abort, alloc: Global, sum: &str) -> String {
    format!(in alloc;
        "branch,parent,stop,events,end,first_difference,adding
root,,0,6,Closed,0,{sum}
x,root,2,6,Closed,5,{sum}
y,root,2,6,Closed,5,{sum}
z,root,2,6,Closed,0,{sum}
"
    )
    .expect(rt, "memory")
}

// The table of a study with a probe that adds this has this sum in each row.
fn stays<R: Abort + Threads + Wait + Sync>(
    rt: &R,
    alloc: Global,
    study: &str,
    term: i128,
    sum: &str,
) {
    let probes = adding_probe(rt, alloc, term);
    let ran = ran_with(rt, alloc, "table s", study, QUIET, probes);
    ends(rt, ran.status, Status::Ok);
    let table = table_of(rt, alloc, sum);
    holds(rt, ran.out.taken() == table.as_bytes());
    drop(table);
    drop(ran);
}

#[test]
fn a_sum_stays_at_the_ends_of_its_type(rt: HostRuntime) {
    let alloc = rt.alloc();
    let study = branched_study(&rt, alloc);
    for (term, sum) in ENDS.iter() {
        stays(&rt, alloc, study.as_str(), *term, sum);
    }
    drop(study);
}
