//! The segments that go on from a segment's end.

ghost use Rattle.std.specs.Prelude.{◌≡◌, ◌<◌, ◌^◌, ℕ, [], IfOk, length, slice_index_or};
ghost use Rattle.branch_tree.specs.Segments.{is_child, children_from};

use crate::lists::add;
use crate::segment::Segment;
use market_types::{Memory, Sequence};
use std::alloc::Global;

// Whether a segment goes on from another's end.
fn goes_from(g: &Segment, segment: u32) -> bool
    ensures { result ≡ is_child segment g.now.parent }
{
    match g.parent {
        Some(parent) => parent == segment,
        None => false,
    }
}

// The numbers of the segments that go on from a segment's end.
fn children(alloc: Global, segments: &[Segment], segment: u32) -> Result<Vec<u32>, Memory>
    requires { length segments.now < 2 ^ 32 }
    ensures { IfOk result (λ v. v.items ≡ children_from segment 0 segments.now) }
{
    let mut numbers = Vec::new(alloc);
    for i in 0..segments.len() {
        if goes_from(&segments[i], segment) {
            add(&mut numbers, i as u32)?;
        }
    }
    Ok(numbers)
}

/// The children of each segment.
pub fn all_children(alloc: Global, segments: &[Segment]) -> Result<Vec<Sequence<u32>>, Memory>
    requires { length segments.now < 2 ^ 32 }
    ensures count { IfOk result (λ v. length v.items ≡ length segments.now) }
    ensures children { IfOk result (λ v. (s : ℕ) → s < length segments.now → slice_index_or v.items s [] ≡ children_from s 0 segments.now) }
{
    let mut all = Vec::new(alloc);
    for i in 0..segments.len() {
        let list = children(alloc, segments, i as u32)?;
        add(&mut all, Sequence::new(list))?;
    }
    Ok(all)
}
