//! What runs by segments give.

ghost use Rattle.std.specs.Prelude.{◌≡◌, ◌<◌, ◌≤◌, ℕ, ◌+◌, ◌^◌, None, Some, All, length, sum_by};
ghost use Rattle.std.specs.List.{flat_map};
ghost use Rattle.market_types.specs.Timely.{IsTimely};
ghost use Rattle.branch_tree.specs.declared.stop.Stop.TheVariants.{At};
ghost use Rattle.branch_tree.specs.Plan.{branch_at};
ghost use Rattle.branch_tree.specs.Segments.{segments_in, segment_at, last_of};
ghost use Rattle.kernel_core.specs.Edited.{edited};
ghost use Rattle.kernel_core.specs.Until.{behind, until};
ghost use Rattle.kernel_copy.specs.Courses.{CourseTold, IsCourse};
ghost use Rattle.kernel_copy.specs.UntilStop.{until_stop};
ghost use Rattle.kernel_copy.specs.Full.{opening_run, full, full_run};
ghost use Rattle.kernel_copy.specs.Reached.{IsReached};
ghost use Rattle.kernel_copy.specs.Segmentwise.{segment_end, segment_run, segment_entries, started_at, parent_end, from_count, own_count, distinct, chain_of};

use crate::course::{Course, is_tree};
use branch_tree::BranchPlan;
use exchange_agent::laws::books_stay_short;
use market_floor::Opening;
use std::sync::Arc;

/// Branches that run segment by segment, each from its parent's end, give each branch's full run.
///
/// For every tree of branches, also where a state is ended before a stop.
pub fn branches_by_segments(o: &Opening, plan: &BranchPlan)
    requires { plan.now.limit ≡ o.now.limit }
    ensures first { (s : ℕ) → s < length (segments_in plan.now) → (segment_at plan.now s).parent ≡ None → segment_end o.now plan.now (segment_at plan.now s) ≡ until_stop o.now (segment_at plan.now s).stop (opening_run o.now) }
    ensures next { (s q : ℕ) → s < length (segments_in plan.now) → (segment_at plan.now s).parent ≡ Some q → (segment_at plan.now q).branch ≡ (segment_at plan.now s).branch → segment_end o.now plan.now (segment_at plan.now s) ≡ until_stop o.now (segment_at plan.now s).stop (segment_end o.now plan.now (segment_at plan.now q)) }
    ensures fork { (s q : ℕ) → s < length (segments_in plan.now) → (segment_at plan.now s).parent ≡ Some q → (segment_at plan.now q).branch < (segment_at plan.now s).branch → segment_end o.now plan.now (segment_at plan.now s) ≡ until_stop o.now (segment_at plan.now s).stop (edited (segment_at plan.now s).branch (branch_at plan.now.branches (segment_at plan.now s).branch).edits (segment_end o.now plan.now (segment_at plan.now q))) }
    ensures copy { (s : ℕ) → s < length (segments_in plan.now) → segment_end o.now plan.now (segment_at plan.now s) ≡ behind (parent_end o.now plan.now (segment_at plan.now s).parent).entries (segment_run o.now plan.now (segment_at plan.now s)) }
    ensures last { (b : ℕ) → b < length plan.now.branches → full_run o.now plan.now b ≡ segment_end o.now plan.now (segment_at plan.now (last_of plan.now.branches b)) }
    ensures entries { (b : ℕ) → b < length plan.now.branches → (full_run o.now plan.now b).entries ≡ flat_map (λ (s : ℕ). segment_entries o.now plan.now (segment_at plan.now s)) (chain_of plan.now b) }
    ensures adds { (s : ℕ) → s < length (segments_in plan.now) → from_count o.now plan.now (segment_at plan.now s) + own_count o.now plan.now (segment_at plan.now s) ≡ (segment_end o.now plan.now (segment_at plan.now s)).state.events }
    ensures counts { (b : ℕ) → b < length plan.now.branches → (full_run o.now plan.now b).state.events ≡ sum_by (λ (s : ℕ). own_count o.now plan.now (segment_at plan.now s)) (chain_of plan.now b) }
    ensures after { (s e : ℕ) → s < length (segments_in plan.now) → from_count o.now plan.now (segment_at plan.now s) ≤ e → full o.now plan.now (segment_at plan.now s).branch e ≡ behind (parent_end o.now plan.now (segment_at plan.now s).parent).entries (until o.now e (started_at o.now plan.now (segment_at plan.now s))) }
    ensures before { (s q e : ℕ) → s < length (segments_in plan.now) → (segment_at plan.now s).parent ≡ Some q → (segment_at plan.now q).branch < (segment_at plan.now s).branch → e < (segment_end o.now plan.now (segment_at plan.now q)).state.events → full o.now plan.now (segment_at plan.now s).branch e ≡ full o.now plan.now (segment_at plan.now q).branch e }
    ensures ends { (s : ℕ) → s < length (segments_in plan.now) → segment_end o.now plan.now (segment_at plan.now s) ≡ full o.now plan.now (segment_at plan.now s).branch (segment_end o.now plan.now (segment_at plan.now s)).state.events }
    ensures stays { (s n e : ℕ) → s < length (segments_in plan.now) → (segment_at plan.now s).stop ≡ At n → (segment_end o.now plan.now (segment_at plan.now s)).state.events ≤ e → e ≤ n → full o.now plan.now (segment_at plan.now s).branch e ≡ segment_end o.now plan.now (segment_at plan.now s) }
    ensures within { (s : ℕ) → s < length (segments_in plan.now) → (segment_end o.now plan.now (segment_at plan.now s)).state.events ≤ o.now.limit }
{
    is_tree(plan);
}

/// Each state of a course is one in which its branches' edits can be made, after at most 255 times 16 of them, and the times of
/// all feeds are below 2 ^ 48.
pub fn courses_stay_in_range()
    ensures states { (c : CourseTold) (b e : ℕ) → IsCourse c → b < length c.plan.branches → IsReached c.opening 4080 (full c.opening c.plan b e).state }
    ensures entries { (c : CourseTold) (b e : ℕ) → IsCourse c → b < length c.plan.branches → All IsTimely (full c.opening c.plan b e).entries }
    ensures ends { (c : CourseTold) (s : ℕ) → IsCourse c → s < length (segments_in c.plan) → IsReached c.opening 4080 (segment_end c.opening c.plan (segment_at c.plan s)).state }
    ensures segments { (c : CourseTold) (s : ℕ) → IsCourse c → s < length (segments_in c.plan) → All IsTimely (segment_entries c.opening c.plan (segment_at c.plan s)) }
{
    books_stay_short();
}

/// The segments of a course have few events: each at most 1,000,000 of its own, and all together fewer than 2 ^ 52. So a
/// counter of steps that stands at 2 ^ 63 or below has room for them.
pub fn segments_have_few_events(course: &Arc<Course>)
    ensures each { (s : ℕ) → s < length (segments_in course.now.value.plan) → own_count course.now.value.opening course.now.value.plan (segment_at course.now.value.plan s) ≤ 1000000 }
    ensures all { distinct course.now.value.opening course.now.value.plan < 2 ^ 52 }
{
    course.know_course();
    is_tree(course.plan());
}
