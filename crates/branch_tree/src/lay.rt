//! The segments of a tree of branches.

ghost use Rattle.std.specs.Prelude.{◌≡◌, ◌<◌, ◌≤◌, ◌+◌, ◌^◌, ℕ, [], ◌++◌, IfOk, OnOk, length, slice_index_or};
ghost use Rattle.branch_tree.specs.Plan.{Plan};
ghost use Rattle.branch_tree.specs.Planned.{IsTree};
ghost use Rattle.branch_tree.specs.Segments.{parts, origin_of, segments_before, segments_in, numbers_of};

use crate::branch::Branch;
use crate::cuts::{cuts, place_of};
use crate::lists::{add, count_from};
use crate::segment::Segment;
use crate::stop::Stop;
use market_types::{Memory, Sequence};
use std::alloc::Global;

// The segments of one branch join those of the branches before it.
fn add_parts(
    segments: &mut Vec<Segment>,
    limit: u32,
    branch: u16,
    origin: Option<u32>,
    from: Stop,
    cuts: &[Stop],
) -> Result<(), Memory>
    requires { length segments.old.items + (length cuts.now + 1) < 2 ^ 32 }
    ensures { OnOk result (segments.new.items ≡ segments.old.items ++ parts limit branch (length segments.old.items) origin from cuts.now) }
{
    let mut parent = origin;
    let mut start = from;
    for cut in cuts {
        let number = segments.len() as u32;
        let stop = *cut;
        add(
            segments,
            Segment {
                branch,
                start,
                stop,
                parent,
            },
        )?;
        parent = Some(number);
        start = stop;
    }
    add(
        segments,
        Segment {
            branch,
            start,
            stop: Stop::At(limit),
            parent,
        },
    )
}

// What the first segment of the branch after those whose numbers are given goes on from.
fn origin(
    alloc: Global,
    branches: &[Branch],
    limit: u32,
    numbers: &[Sequence<u32>],
    branch: u16,
) -> Result<Option<u32>, Memory>
    requires tree { IsTree branches.now limit }
    requires exists { branch < length branches.now }
    requires next { branch ≡ length numbers.now }
    requires before { (b : ℕ) → b < length numbers.now → slice_index_or numbers.now b [] ≡ numbers_of (record { branches = branches.now; limit = limit }) b }
    ensures { IfOk result (λ o. o ≡ origin_of branches.now branch) }
{
    if branch == 0 {
        return Ok(None);
    }
    let b = &branches[usize::from(branch)];
    let cuts = cuts(alloc, branches, b.parent)?;
    let place = place_of(b.stop, cuts.as_slice());
    let fork = numbers[usize::from(b.parent)].as_slice()[place];
    Ok(Some(fork))
}

/// The segments of a tree, and the numbers of each branch's.
#[derive(Drop)]
pub struct Laid {
    pub segments: Vec<Segment>,
    pub numbers: Vec<Sequence<u32>>,
}

/// The segments of all branches.
pub fn all_segments(alloc: Global, branches: &[Branch], limit: u32) -> Result<Laid, Memory>
    requires tree { IsTree branches.now limit }
    requires few { length branches.now ≤ 256 }
    ensures segments { IfOk result (λ l. l.segments.items ≡ segments_in (record { branches = branches.now; limit = limit })) }
    ensures short { IfOk result (λ l. length l.segments.items < 2 ^ 32) }
    ensures count { IfOk result (λ l. length l.numbers.items ≡ length branches.now) }
    ensures numbers { IfOk result (λ l. (b : ℕ) → b < length branches.now → slice_index_or l.numbers.items b [] ≡ numbers_of (record { branches = branches.now; limit = limit }) b) }
{
    let mut segments = Vec::new(alloc);
    let mut numbers = Vec::new(alloc);
    for i in 0..branches.len() {
        let stops = cuts(alloc, branches, i as u16)?;
        let parent = origin(alloc, branches, limit, numbers.as_slice(), i as u16)?;
        let first = segments.len() as u32;
        add_parts(
            &mut segments,
            limit,
            i as u16,
            parent,
            branches[i].stop,
            stops.as_slice(),
        )?;
        let own = count_from(alloc, first, stops.len() as u32 + 1)?;
        add(&mut numbers, Sequence::new(own))?;
    }
    Ok(Laid { segments, numbers })
}
