//! Tables of branches, with no probe and with many.

use crate::facts::{equal, holds};
use crate::runs::{Ended, alone, is_ended, is_whole, ran_past, sized};
use crate::worked_examples::branched;
use abides_run::Status;
use outside::OpenGate;
use probe_desk::{Probe, Volume};
use std::alloc::Global;
use std::process::Abort;
use std::sync::Wait;
use std::thread::Threads;

const WITHOUT_PROBES: &str =
    "branch,parent,stop,events,end,first_difference\nroot,,0,6,Closed,0\nx,root,2,6,Closed,5\ny,root,2,6,Closed,5\nz,root,2,6,Closed,0\n";

// So many probes of traded shares.
fn volumes(rt: &impl Abort, alloc: Global, count: u32) -> Vec<Box<dyn Probe>> {
    let mut probes: Vec<Box<dyn Probe>> = Vec::new(alloc);
    for _ in 0..count {
        let probe = Box::new(alloc, Volume::new()).expect(rt, "memory");
        probes.push(probe).expect(rt, "memory");
    }
    probes
}

// The table of three branches with so many of them.
fn table<R: Abort + Threads + Wait + Sync>(
    rt: &R,
    alloc: Global,
    count: u32,
    size: usize,
) -> Ended {
    let text = branched(rt, alloc);
    let around = alone(text.as_str(), sized(size, 4096));
    let probes = volumes(rt, alloc, count);
    let ended = ran_past(rt, alloc, &["table", "s"], &around, probes, &OpenGate);
    drop(text);
    holds(rt, is_ended(&ended, Status::Ok, 18));
    ended
}

#[test]
fn branches_are_compared_without_probes(rt: HostRuntime) {
    let ended = table(&rt, rt.alloc(), 0, 4000);
    holds(&rt, is_whole(&ended, 18, WITHOUT_PROBES.as_bytes()));
    drop(ended);
}

#[test]
fn a_thousand_probes_have_their_columns(rt: HostRuntime) {
    let ended = table(&rt, rt.alloc(), 1000, 20_000);
    // each column adds `,volume` to the first line and `,0` to the four others
    let wanted = WITHOUT_PROBES.len() + 1000 * (7 + 4 * 2);
    equal(&rt, ended.out.taken().len(), wanted);
    holds(&rt, ended.out.taken().ends_with(b",0,0,0\n"));
    drop(ended);
}
