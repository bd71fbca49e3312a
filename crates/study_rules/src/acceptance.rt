//! Accepting a study.

ghost use Rattle.std.specs.Prelude.{◌≡◌, None, Some, Ok, Err, IfOk, IfErr, option_map};
ghost use Rattle.toml.specs.View.{table_view};
ghost use Rattle.study_market.specs.declared.early_refusal.Refusal.{Refusal};
ghost use Rattle.study_market.specs.FirstBroken.{first_of_rules};
ghost use Rattle.study_rules.specs.FirstBroken.{branch_rules};
ghost use Rattle.study_market.specs.Judged.{IsOpened};
ghost use Rattle.branch_tree.specs.Tree.{IsRooted, plan_refusal};
ghost use Rattle.study_rules.specs.Branches.{branches_of};
ghost use Rattle.study_rules.specs.Accepted.{plan_of, told_with, study_of, study_told};

use crate::branches;
use crate::study::{AcceptError, Study};
use branch_tree::{Branch, BranchPlan, PlanError, plan};
use kernel_copy::Course;
use market_floor::Opening;
use market_types::Memory;
use std::alloc::Global;
use std::sync::Arc;
use study_file::{RawStudy, Table};
use study_market::{ReadError, Refusal, group_number, read_opening, stride};

// The tree of branches that make one.
fn branch_plan(alloc: Global, branches: Vec<Branch>, limit: u32) -> Result<BranchPlan, Memory>
    requires rooted { IsRooted branches.items }
    requires planned { plan_refusal branches.items limit ≡ None }
    ensures { IfOk result (λ p. p ≡ record { branches = branches.items; limit = limit }) }
{
    match plan(alloc, branches, limit) {
        Ok(plan) => Ok(plan),
        Err(PlanError::Memory) => Err(Memory),
        Err(_) => unreachable!(),
    }
}

// What the branches of an accepted study share.
fn accepted_course(
    alloc: Global,
    table: &Table,
    opening: Opening,
    branches: Vec<Branch>,
) -> Result<Course, Memory>
    requires accepted { IsOpened (table_view table.now) opening }
    requires branches { first_of_rules branch_rules (table_view table.now) ≡ None }
    requires said { branches.items ≡ branches_of (table_view table.now) }
    ensures { IfOk result (λ c. c ≡ record { opening = opening; plan = plan_of (table_view table.now) }) }
{
    match branch_plan(alloc, branches, opening.limit) {
        Ok(plan) => Ok(Course::new(opening, plan)),
        Err(memory) => {
            drop(opening);
            Err(memory)
        }
    }
}

// What an accepted study says.
fn accepted_study(
    alloc: Global,
    table: &Table,
    opening: Opening,
    branches: Vec<Branch>,
) -> Result<Study, Memory>
    requires accepted { IsOpened (table_view table.now) opening }
    requires branches { first_of_rules branch_rules (table_view table.now) ≡ None }
    requires said { branches.items ≡ branches_of (table_view table.now) }
    ensures { IfOk result (λ s. study_told s ≡ told_with (table_view table.now) opening) }
{
    let course = accepted_course(alloc, table, opening, branches)?;
    match Arc::new(alloc, course) {
        Ok(course) => Ok(Study {
            course,
            stride: stride(table),
            groups: group_number(table),
        }),
        Err(_) => Err(Memory),
    }
}

// What the rules of branches say of a study that breaks none of those before them, or the study.
fn accept_branches(alloc: Global, table: &Table, opening: Opening) -> Result<Study, AcceptError>
    requires { IsOpened (table_view table.now) opening }
    ensures accepted { IfOk result (λ s. (first_of_rules branch_rules (table_view table.now) ≡ None) × (study_told s ≡ told_with (table_view table.now) opening)) }
    ensures refused { IfErr result (λ e. (r : Refusal) → e ≡ AcceptError.Refused r → first_of_rules branch_rules (table_view table.now) ≡ Some r) }
{
    match branches(alloc, table) {
        Ok(branches) => match accepted_study(alloc, table, opening, branches) {
            Ok(study) => Ok(study),
            Err(Memory) => Err(AcceptError::Memory),
        },
        Err(error) => {
            drop(opening);
            Err(error)
        }
    }
}

/// The study that the tables say, with the bytes of its series file where it names one.
///
/// # Errors
/// The first broken rule of the study; or want of memory.
pub fn accept(alloc: Global, raw: &RawStudy, series: Option<&[u8]>) -> Result<Study, AcceptError>
    ensures accepted { IfOk result (λ s. study_of (table_view raw.now.table) (option_map (λ text. text.now) series.entry) ≡ Ok (study_told s)) }
    ensures refused { IfErr result (λ e. (r : Refusal) → e ≡ AcceptError.Refused r → study_of (table_view raw.now.table) (option_map (λ text. text.now) series.entry) ≡ Err r) }
{
    match read_opening(alloc, &raw.table, series) {
        Ok(opening) => accept_branches(alloc, &raw.table, opening),
        Err(ReadError::Refused(refusal)) => Err(AcceptError::Refused(refusal)),
        Err(ReadError::Memory) => Err(AcceptError::Memory),
    }
}
