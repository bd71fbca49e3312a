ghost use Rattle.std.specs.Prelude.{◌≡◌, All, length};
ghost use Rattle.study_report.specs.Difference.{IsNumbered};
ghost use Rattle.study_report.specs.declared.row.TableRow.{TableRow};

use crate::facts::{equal, holds};
use branch_tree::Name;
use market_types::{Body, EditMark, End, Entry, FeedList, Record, Sequence, Trace};
use probe_desk::{Fees, Probe, Range, SpreadSum, Volume};
use std::alloc::Global;
use std::process::Abort;
use study_report::{TableRow, first_difference, table};

// A row of so many zeros; without a parent for the root.
fn row(
    rt: &impl Abort,
    alloc: Global,
    name: &[u8],
    parent: Option<Name>,
    stop: u32,
    difference: u32,
    values: usize,
) -> TableRow
    ensures { length result.values ≡ values }
{
    let zeros: Vec<i128> = vec![in alloc; 0; values].expect(rt, "memory");
    TableRow {
        name: Name::new(name).expect(rt, "a name"),
        parent,
        stop,
        events: 6,
        end: End::Closed,
        difference,
        values: Sequence::new(zeros),
    }
}

// Appends a row of so many values.
fn add(rt: &impl Abort, rows: &mut Vec<TableRow>, values: usize, row: TableRow)
    requires rows { All (λ (r : TableRow). length r.values ≡ values) rows.old.items }
    requires row { length row.values ≡ values }
    ensures { All (λ (r : TableRow). length r.values ≡ values) rows.new.items }
{
    let _ = values;
    rows.push(row).expect(rt, "memory");
}

// The row of a branch of the root at event 2, with four values.
fn fork_row(rt: &impl Abort, alloc: Global, name: &[u8], difference: u32) -> TableRow
    ensures { length result.values ≡ 4 }
{
    row(rt, alloc, name, Name::new(b"root"), 2, difference, 4)
}

// The rows of the root and of three branches.
fn four_rows(rt: &impl Abort, alloc: Global) -> Vec<TableRow>
    ensures { All (λ (r : TableRow). length r.values ≡ 4) result.items }
{
    let mut rows = root_row(rt, alloc, 4);
    add(rt, &mut rows, 4, fork_row(rt, alloc, b"x", 5));
    add(rt, &mut rows, 4, fork_row(rt, alloc, b"y", 5));
    add(rt, &mut rows, 4, fork_row(rt, alloc, b"z", 0));
    rows
}

// The root's row alone, with so many values.
fn root_row(rt: &impl Abort, alloc: Global, values: usize) -> Vec<TableRow>
    ensures { All (λ (r : TableRow). length r.values ≡ values) result.items }
{
    let mut rows = Vec::new(alloc);
    let root = row(rt, alloc, b"root", None, 0, 0, values);
    add(rt, &mut rows, values, root);
    rows
}

// A probe of each kind.
fn four_probes(rt: &impl Abort, alloc: Global) -> [Box<dyn Probe>; 4] {
    [
        Box::new(alloc, Volume::new()).expect(rt, "memory"),
        Box::new(alloc, SpreadSum::new()).expect(rt, "memory"),
        Box::new(alloc, Range::new()).expect(rt, "memory"),
        Box::new(alloc, Fees::new()).expect(rt, "memory"),
    ]
}

// Whether this is the table of rows.
fn is_table(alloc: Global, rows: &[TableRow], probes: &[Box<dyn Probe>], wanted: &[u8]) -> bool
    requires { All (λ (r : TableRow). length r.values ≡ length probes.now) rows.now }
{
    match table(alloc, rows, probes) {
        Ok(text) => text.as_slice() == wanted,
        Err(_) => false,
    }
}

const OF_THREE: &[u8] =
    b"branch,parent,stop,events,end,first_difference,volume,spread_sum,range,fees\nroot,,0,6,Closed,0,0,0,0,0\nx,root,2,6,Closed,5,0,0,0,0\ny,root,2,6,Closed,5,0,0,0,0\nz,root,2,6,Closed,0,0,0,0,0\n";

#[test]
fn a_table_of_three_branches(rt: HostRuntime) {
    let alloc = rt.alloc();
    let probes = four_probes(&rt, alloc);
    let rows = four_rows(&rt, alloc);
    holds(&rt, is_table(alloc, rows.as_slice(), &probes, OF_THREE));
}

const OF_NO_PROBE: &[u8] = b"branch,parent,stop,events,end,first_difference\nroot,,0,6,Closed,0\n";

// So many probes of fees.
fn fees(rt: &impl Abort, alloc: Global, count: u32) -> Vec<Box<dyn Probe>> {
    let mut probes: Vec<Box<dyn Probe>> = Vec::new(alloc);
    for _ in 0..count {
        let probe = Box::new(alloc, Fees::new()).expect(rt, "memory");
        probes.push(probe).expect(rt, "memory");
    }
    probes
}

// How long the table of the root is with so many probes of fees.
fn length_of_table(rt: &impl Abort, alloc: Global, count: u32) -> usize {
    let probes = fees(rt, alloc, count);
    let rows = root_row(rt, alloc, probes.len());
    table(alloc, rows.as_slice(), probes.as_slice())
        .expect(rt, "memory")
        .len()
}

#[test]
fn no_probe_and_a_thousand(rt: HostRuntime) {
    let alloc = rt.alloc();
    let rows = root_row(&rt, alloc, 0);
    holds(&rt, is_table(alloc, rows.as_slice(), &[], OF_NO_PROBE));
    let wanted = OF_NO_PROBE.len() + 1000 * 5 + 1000 * 2;
    equal(&rt, length_of_table(&rt, alloc, 1000), wanted);
}

// A wakeup of this number and this time.
fn wakeup(alloc: Global, number: u32, time: u64) -> Record
    ensures { result.number ≡ number }
{
    Record {
        number,
        time,
        seq: 0,
        from: 1,
        to: 1,
        put_back: false,
        until: time,
        fee: 0,
        body: Body::Wake,
        before: FeedList::new(alloc),
        after: FeedList::new(alloc),
    }
}

// The edit before an event.
fn mark(alloc: Global, number: u32) -> EditMark {
    EditMark {
        events: number,
        time: 1000,
        branch: 0,
        index: 0,
        letter: b'h',
        feed: FeedList::new(alloc),
    }
}

// So many wakeups, each after an edit; from the third on they come at this time.
fn run(rt: &impl Abort, alloc: Global, count: u32, later: u64) -> Trace
    ensures { IsNumbered result.list }
{
    let mut trace = Trace::new(alloc);
    for number in 0..count {
        let Ok(()) = trace.push(Entry::Edit(mark(alloc, number))) else {
            panic!(rt; "out of memory");
        };
        let time = if number < 2 { 1000 } else { later };
        let event = wakeup(alloc, number + 1, time);
        let Ok(()) = trace.push(Entry::Event(event)) else {
            panic!(rt; "out of memory");
        };
    }
    trace
}

#[test]
fn runs_part_at_their_first_difference(rt: HostRuntime) {
    let alloc = rt.alloc();
    let base = run(&rt, alloc, 3, 1010);
    let same = run(&rt, alloc, 3, 1010);
    let other = run(&rt, alloc, 3, 1055);
    let short = run(&rt, alloc, 2, 1010);
    equal(&rt, first_difference(&base, &same), 0);
    equal(&rt, first_difference(&base, &other), 3);
    equal(&rt, first_difference(&base, &short), 3);
    equal(&rt, first_difference(&short, &base), 3);
}
