//! Tables of worked courses.

ghost use Rattle.std.specs.Prelude.{◌≡◌, length, map};
ghost use Rattle.branch_tree.specs.Segments.{segments_in};
ghost use Rattle.market_floor.specs.Opening.{IsOpening};
ghost use Rattle.market_floor.specs.OpeningWorked.{watcher};
ghost use Rattle.kernel_copy.specs.Outcomes.{outcome_told, outcomes_before};
ghost use Rattle.kernel_copy.specs.declared.kept.Keep.TheVariants as keeping;
ghost use Rattle.study_report.specs.BranchWorked.{AreBranches, busy, three_watchers};

use crate::facts::holds;
use crate::one_worker::simulate;
use crate::small_course::three_branches;
use agent_shell::{Kind, TraderSetting};
use branch_tree::{Branch, Name, Stop, plan};
use kernel_copy::{Course, Keep, Outcome};
use market_floor::Opening;
use market_floor::opening_worked::{markets_are_openings, opening};
use market_types::{Record, Sequence, Time};
use probe_desk::{Fees, Probe, Range, SpreadSum, Volume};
use std::alloc::Global;
use std::process::Abort;
use std::sync::Arc;
use study_report::study_table;
use trace_bundle::laws::outcomes_are_a_run;

// Counts the records that were put back.
#[derive(Drop)]
struct PutBacks {
    count: i128,
}

impl Probe for PutBacks {
    ghost use Rattle.std.specs.Prelude.{◌∷◌, [], codes};
    ghost use Rattle.study_report.specs.BranchWorked.{put_backs};

    ghost title = { λ _. codes "put_backs" };

    ghost meaning = { λ _. put_backs };

    ghost numbers = { λ p. p.count ∷ [] };

    fn name(&self) -> &str {
        "put_backs"
    }

    fn see(&mut self, event: &Record) {
        if event.put_back {
            self.count = self.count.saturating_add(1);
        }
    }

    fn value(&self) -> i128 {
        self.count
    }

    fn restart(&mut self) {
        self.count = 0;
    }
}

// A watcher that first wakes at a time.
fn watching(first: Time) -> TraderSetting
    ensures { result ≡ watcher first }
{
    TraderSetting {
        kind: Kind::Watcher,
        group: 0,
        stock: 0,
        first,
        every: 1_000_000,
        wobble: 0,
        delay: 0,
        cash: 0,
    }
}

// Three watchers, the third of which wakes later.
fn three(rt: &impl Abort, alloc: Global) -> Vec<TraderSetting>
    ensures { result.items ≡ three_watchers }
{
    let mut traders = Vec::new(alloc);
    traders.push(watching(1000)).expect(rt, "memory");
    traders.push(watching(1000)).expect(rt, "memory");
    traders.push(watching(1003)).expect(rt, "memory");
    traders
}

// A market of three watchers and an exchange that computes.
fn busy_market(rt: &impl Abort, alloc: Global) -> Opening
    ensures opening { IsOpening result }
    ensures made { result ≡ busy }
{
    markets_are_openings();
    let traders = three(rt, alloc);
    let Ok(o) = opening(alloc, 2000, 100, 3, traders) else {
        panic!(rt; "out of memory");
    };
    o
}

// The root alone.
fn root(rt: &impl Abort, alloc: Global) -> Vec<Branch>
    ensures { AreBranches busy result.items }
{
    let root = Branch {
        name: Name::new(b"root").expect(rt, "a name"),
        parent: 0,
        stop: Stop::At(0),
        edits: Sequence::new(Vec::new(alloc)),
    };
    let mut branches = Vec::new(alloc);
    branches.push(root).expect(rt, "memory");
    branches
}

// The course of the root alone over that market.
fn busy_course(rt: &impl Abort, alloc: Global) -> Arc<Course> {
    let plan = plan(alloc, root(rt, alloc), 100).expect(rt, "a plan");
    let course = Course::new(busy_market(rt, alloc), plan);
    Arc::new(alloc, course).expect(rt, "memory")
}

// A probe of each kind.
fn four_probes(rt: &impl Abort, alloc: Global) -> [Box<dyn Probe>; 4] {
    [
        Box::new(alloc, Volume::new()).expect(rt, "memory"),
        Box::new(alloc, SpreadSum::new()).expect(rt, "memory"),
        Box::new(alloc, Range::new()).expect(rt, "memory"),
        Box::new(alloc, Fees::new()).expect(rt, "memory"),
    ]
}

// Whether this is the table of a run.
fn is_table(
    alloc: Global,
    course: &Course,
    ran: &Vec<Outcome>,
    probes: &mut [Box<dyn Probe>],
    wanted: &[u8],
) -> bool
    requires { map outcome_told ran.now.items ≡ outcomes_before course.now keeping.Entries (length (segments_in course.now.plan)) }
{
    outcomes_are_a_run();
    match study_table(alloc, course, ran, probes) {
        Ok(text) => text.as_slice() == wanted,
        Err(_) => false,
    }
}

const OF_FOUR_PROBES: &[u8] =
    b"branch,parent,stop,events,end,first_difference,volume,spread_sum,range,fees\nroot,,0,6,Closed,0,0,0,0,0\nx,root,2,6,Closed,5,0,0,0,0\ny,root,2,6,Closed,5,0,0,0,0\nz,root,2,6,Closed,0,0,0,0,0\n";

#[test]
fn four_probes_on_three_branches(rt: HostRuntime) {
    let alloc = rt.alloc();
    let mut probes = four_probes(&rt, alloc);
    let course = three_branches(&rt, alloc, Stop::At(2));
    let ran = simulate(&rt, alloc, &course, Keep::Entries);
    holds(
        &rt,
        is_table(alloc, &course, &ran.outcomes, &mut probes, OF_FOUR_PROBES),
    );
    drop(ran);
    drop(course);
    drop(probes);
}

const OF_NO_PROBE: &[u8] =
    b"branch,parent,stop,events,end,first_difference\nroot,,0,6,Closed,0\nx,root,2,6,Closed,5\ny,root,2,6,Closed,5\nz,root,2,6,Closed,0\n";

#[test]
fn no_probe_on_three_branches(rt: HostRuntime) {
    let alloc = rt.alloc();
    let course = three_branches(&rt, alloc, Stop::At(2));
    let ran = simulate(&rt, alloc, &course, Keep::Entries);
    holds(
        &rt,
        is_table(alloc, &course, &ran.outcomes, &mut [], OF_NO_PROBE),
    );
    drop(ran);
    drop(course);
}

// A probe of what was put back.
fn put_backs(rt: &impl Abort, alloc: Global) -> [Box<dyn Probe>; 1] {
    [Box::new(alloc, PutBacks { count: 0 }).expect(rt, "memory")]
}

const OF_PUT_BACKS: &[u8] =
    b"branch,parent,stop,events,end,first_difference,put_backs\nroot,,0,11,Closed,0,2\n";

// Two messages find the exchange busy and are put back.
#[test]
fn a_probe_of_what_was_put_back(rt: HostRuntime) {
    let alloc = rt.alloc();
    let mut probes = put_backs(&rt, alloc);
    let course = busy_course(&rt, alloc);
    let ran = simulate(&rt, alloc, &course, Keep::Entries);
    holds(
        &rt,
        is_table(alloc, &course, &ran.outcomes, &mut probes, OF_PUT_BACKS),
    );
    holds(
        &rt,
        is_table(alloc, &course, &ran.outcomes, &mut probes, OF_PUT_BACKS),
    );
    drop(ran);
    drop(course);
    drop(probes);
}
