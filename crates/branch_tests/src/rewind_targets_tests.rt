ghost use Rattle.std.specs.Prelude.{◌≡◌, []};

use crate::facts::{equal, holds};
use branch_tree::{Branch, BranchPlan, Name, Stop, plan};
use command_words::{Request, Task, ask};
use market_rules::Edit;
use market_types::Sequence;
use rewind_desk::{Aimed, Past, Target, aim, first_past};
use std::alloc::Global;
use std::process::Abort;

// A branch with no edits.
fn branch(rt: &impl Abort, alloc: Global, name: &str, parent: u16, stop: Stop) -> Branch
    ensures parent { result.parent ≡ parent }
    ensures stop { result.stop ≡ stop }
    ensures edits { result.edits ≡ [] }
{
    let edits: Vec<Edit> = Vec::new(alloc);
    Branch {
        name: Name::new(name.as_bytes()).expect(rt, "a name"),
        parent,
        stop,
        edits: Sequence::new(edits),
    }
}

// The plan of `root`, `x` from it at 2 and `x-1` from `x` at 4.
fn tree(rt: &impl Abort, alloc: Global) -> BranchPlan {
    let mut branches = Vec::new(alloc);
    let root = branch(rt, alloc, "root", 0, Stop::At(0));
    branches.push(root).expect(rt, "memory");
    let child = branch(rt, alloc, "x", 0, Stop::At(2));
    branches.push(child).expect(rt, "memory");
    let last = branch(rt, alloc, "x-1", 1, Stop::At(4));
    branches.push(last).expect(rt, "memory");
    plan(alloc, branches, 100).expect(rt, "a plan")
}

// What stands between a line's spaces.
fn words_of(rt: &impl Abort, alloc: Global, line: &str) -> Vec<String> {
    let mut words = Vec::new(alloc);
    for word in line.split(' ') {
        let word = String::from_str(alloc, word).expect(rt, "memory");
        words.push(word).expect(rt, "memory");
    }
    words
}

// What the marks of words come to in a tree, where they ask for a rewind.
fn aimed_in(alloc: Global, plan: &BranchPlan, words: &[String]) -> Option<Aimed> {
    match ask(alloc, words) {
        Ok(Some(asked)) => match &asked.request {
            Request::File(Task::Rewind(marks, _), _) => aim(alloc, plan, marks.as_slice()).ok(),
            _ => None,
        },
        _ => None,
    }
}

// What the marks of a line come to in that tree.
fn aimed(rt: &impl Abort, alloc: Global, line: &str) -> Option<Aimed> {
    let words = words_of(rt, alloc, line);
    aimed_in(alloc, &tree(rt, alloc), words.as_slice())
}

// Whether all marks of a line name branches, or the mark of this index is the first that doesn't.
fn misses(rt: &impl Abort, alloc: Global, line: &str, wanted: Option<usize>) -> bool {
    match aimed(rt, alloc, line) {
        Some(Aimed::At(_)) => wanted.is_none(),
        Some(Aimed::NoBranch(index)) => wanted == Some(index),
        None => false,
    }
}

// Whether a line's marks name these targets.
fn aims_at(rt: &impl Abort, alloc: Global, line: &str, wanted: &[Target]) -> bool {
    match aimed(rt, alloc, line) {
        Some(Aimed::At(targets)) => targets.as_slice() == wanted,
        _ => false,
    }
}

const LINES: [(&str, Option<usize>); 4] = [
    ("rewind s root:0 x-1:0007 x:2", None),
    ("rewind s root:1 w:1 v:1", Some(1)),
    ("rewind s roo:1", Some(0)),
    ("rewind s x:1 x:1 x-:1", Some(2)),
];

#[test]
fn marks_name_whole_branches(rt: HostRuntime) {
    let alloc = rt.alloc();
    for (line, wanted) in LINES.iter() {
        holds(&rt, misses(&rt, alloc, line, *wanted));
    }
    let wanted = [
        Target {
            branch: 0,
            event: 0,
        },
        Target {
            branch: 2,
            event: 7,
        },
        Target {
            branch: 1,
            event: 2,
        },
    ];
    holds(
        &rt,
        aims_at(&rt, alloc, "rewind s root:0 x-1:0007 x:2", &wanted),
    );
    equal(&rt, first_past(&[6, 2, 7], &wanted), None);
    let past = Some(Past { index: 1, last: 6 });
    equal(&rt, first_past(&[6, 1, 6], &wanted), past);
}
