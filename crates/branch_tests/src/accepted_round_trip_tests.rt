//! A study whose branch injects an order, read back.

use crate::facts::{equal, holds};
use audit_desk::run_and_read;
use bundle_reader::Bundle;
use outside::{Counted, Steps};
use std::alloc::Global;
use std::process::Abort;
use std::sync::Wait;
use std::thread::Threads;
use study_file::{RawStudy, read_tables};
use study_rules::AcceptError;

const STUDY: &str = "version = 1
key = \"0000000000000000000000000000000000000000000000000000000000000000\"
open = 1000
close = 2000
events = 100
exchange = { group = 0, delay = 0 }
latency = { base = [[5]], jitter = [[0]] }
stock = [{ symbol = \"ABM\", bands = [[0, 100]], add = -20, take = 30, series = \"rule\", start = 100000, mean = 100000, pull = 0, shock = 0, every = 1000000 }]
agent = [{ kind = \"watcher\", group = 0, stock = \"ABM\", first = 1000, every = 1000000 }]
branch = [{ name = \"i\", parent = \"root\", at = 0, edit = [{ kind = \"inject\", agent = 1, after = 100, message = \"4f5430303031303030303030303031530000006441424d2020202020000186a00001869f4142494459504e000000004e4e\" }] }]
";

// The study with texts in place of others.
fn changed(rt: &impl Abort, alloc: Global, changes: &[(&str, &str)]) -> RawStudy {
    let mut text = String::from_str(alloc, STUDY).expect(rt, "memory");
    for (old, new) in changes.iter() {
        text = text.replacen(alloc, *old, new, 1).expect(rt, "memory");
    }
    read_tables(alloc, text.as_bytes()).expect(rt, "tables")
}

// How many agents, stocks and branches a bundle has, and how many entries each of its two branches.
fn sizes_of(bundle: &Bundle) -> [usize; 5] {
    match bundle.branches.as_slice() {
        [root, fork] => [
            bundle.agents as usize,
            bundle.stocks as usize,
            2,
            root.entries.len(),
            fork.entries.len(),
        ],
        _ => [0; 5],
    }
}

// What is read of a study, or the rule that refuses it; 99 where there is no memory.
fn read_of<R: Threads + Wait + Sync>(
    rt: &R,
    alloc: Global,
    raw: &RawStudy,
) -> Result<[usize; 5], u32> {
    let mut steps: Steps<Counted> = Steps::new();
    let read = run_and_read(rt, alloc, raw, None, &mut steps);
    let _ = steps.close();
    match read {
        Ok(bundle) => Ok(sizes_of(&bundle)),
        Err(AcceptError::Refused(refusal)) => Err(refusal.rule),
        Err(AcceptError::Memory) => Err(99),
    }
}

// What is read of the study with texts in place of others.
fn read_with<R: Abort + Threads + Wait + Sync>(
    rt: &R,
    alloc: Global,
    changes: &[(&str, &str)],
) -> Result<[usize; 5], u32> {
    read_of(rt, alloc, &changed(rt, alloc, changes))
}

const SECOND: (&str, &str) = ("version = 1", "version = 2");

const CHANGES: [&[(&str, &str)]; 3] = [
    &[],
    &[SECOND, ("at = 0", "when = 1000")],
    &[SECOND, ("at = 0", "when = 2000")],
];

#[test]
fn studies_are_read_back(rt: HostRuntime) {
    for changes in CHANGES.iter() {
        holds(
            &rt,
            read_with(&rt, rt.alloc(), changes) == Ok([2, 1, 2, 3, 6]),
        );
    }
    equal(
        &rt,
        read_with(&rt, rt.alloc(), &[("4f54", "4f20")]).err(),
        Some(35),
    );
}
