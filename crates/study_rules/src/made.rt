//! The branches of a study.

ghost use Rattle.std.specs.Prelude.{◌≡◌, ◌≤◌, ◌<◌, ◌+◌, ◌*◌, ◌++◌, ◌||◌, true, pos, List, map, length, None, Some, IfOk, IfErr, IfSome, All};
ghost use Rattle.std.specs.List.{filter_map};
ghost use Rattle.toml.specs.View.{table_view, view};
ghost use Rattle.branch_tree.specs.declared.branch.Branch.{Branch};
ghost use Rattle.branch_tree.specs.Names.{is_name as name_text};
ghost use Rattle.branch_tree.specs.Tree.{IsRooted, plan_refusal};
ghost use Rattle.agent_shell.specs.declared.setting.Kind.{Kind};
ghost use Rattle.study_file.specs.Values.{is_between, first_failing};
ghost use Rattle.study_market.specs.MarketRules.{size_of, limits_broken as rule_5, squares_broken as rule_7};
ghost use Rattle.study_market.specs.StockRules.{stocks, stock_count_broken as rule_10};
ghost use Rattle.study_market.specs.declared.early_refusal.Refusal.{Refusal};
ghost use Rattle.study_market.specs.FirstBroken.{first_of_rules};
ghost use Rattle.study_market.specs.Trial.{failing_from};
ghost use Rattle.study_market.specs.AgentRules.{agents, counts_broken as rule_25};
ghost use Rattle.study_rules.specs.Entries.{entry_of, name_in, is_timed as timed_in, stop_in, edits_in};
ghost use Rattle.study_rules.specs.BranchRules.{events_of, first_edit, forms_broken as forms_of};
ghost use Rattle.study_rules.specs.EditRules.{edit_in as edit_of, is_edit, edits_broken as rule_35};
ghost use Rattle.study_rules.specs.FirstBroken.{branch_rules, shape_rules};
ghost use Rattle.study_rules.specs.Branches.{root_branch, number_named as number_of, stop_of, branch_of, branches_of, IsHeaded};
ghost use Rattle.study_rules.specs.Scope.{kinds_of};
ghost use Rattle.study_rules.specs.Fitting.{word_of, AreEditsAmong};

use crate::edit_rules::edit_in;
use crate::entries::{branch_edits, branch_name, branch_stop, is_timed, parent_name};
use crate::keys::few_branches;
use crate::names::place_named;
use crate::refusal::hold_shape;
use crate::scope::{Scope, study_scope};
use crate::stops::work_broken;
use crate::study::AcceptError;
use branch_tree::{Branch, Name, Stop};
use market_rules::Edit;
use market_types::{Memory, Sequence};
use std::alloc::Global;
use study_file::{Table, Value};
use study_market::Refusal;

// The root, which has no edits.
fn root(alloc: Global) -> Branch
    ensures { result ≡ root_branch }
{
    let Some(name) = Name::new(b"root") else {
        unreachable!()
    };
    Branch {
        name,
        parent: 0,
        stop: Stop::At(0),
        edits: Sequence::empty(alloc),
    }
}

// The name of a branch.
fn read_name(branch: &Value) -> Name
    requires { name_text (name_in (view branch.now)) ≡ true }
    ensures { result ≡ name_in (view branch.now) }
{
    match Name::new(branch_name(branch).as_bytes()) {
        Some(name) => name,
        None => unreachable!(),
    }
}

// The number of the branch of a name; the root is 0.
fn number_named(branches: &[Value], name: &str) -> u16
    requires few { length branches.now ≤ 255 }
    ensures { result ≡ number_of (map view branches.now) name.now }
{
    match place_named(branches, name) {
        Some(at) => at as u16 + 1,
        None => 0,
    }
}

// Where a branch leaves its parent: at a time, or at an event number of at most 1,000,000.
fn read_stop(branch: &Value) -> Stop
    requires { (timed_in (view branch.now) || is_between (pos 0) (pos 1000000) (stop_in (view branch.now))) ≡ true }
    ensures { result ≡ stop_of (view branch.now) }
{
    let number = branch_stop(branch).unsigned_abs();
    if is_timed(branch) {
        Stop::When(number)
    } else {
        Stop::At(number as u32)
    }
}

// The edit that an entry says.
fn read_edit(alloc: Global, scope: &Scope<'_>, entry: &Value) -> Result<Option<Edit>, Memory>
    ensures { IfOk result (λ e. e ≡ edit_of scope.now (entry_of (view entry.now))) }
{
    match entry.as_table() {
        Some(edit) => edit_in(alloc, scope, edit),
        None => Ok(None),
    }
}

// Appends the edits that the entries say to the list, in order. Stops at the first entry that says no edit and returns its
// place, where the first entry's place is `place`; returns None if each entry says an edit.
fn push_edits(
    alloc: Global,
    scope: &Scope<'_>,
    place: u32,
    entries: &[Value],
    edits: &mut Vec<Edit>,
) -> Result<Option<u32>, Memory>
    requires few { place + length entries.now ≤ 16 }
    ensures place { IfOk result (λ found. found ≡ failing_from (is_edit scope.now) place (map view entries.now)) }
    ensures low { IfOk result (λ found. IfSome found (λ at. at < 16)) }
    ensures said { IfOk result (λ found. found ≡ None → edits.new.items ≡ edits.old.items ++ filter_map (λ d. edit_of scope.now (entry_of d)) (map view entries.now)) }
{
    match entries.split_first() {
        Some((entry, rest)) => match read_edit(alloc, scope, entry)? {
            Some(edit) => {
                edits.push(edit)?;
                push_edits(alloc, scope, place + 1, rest, edits)
            }
            None => Ok(Some(place)),
        },
        None => Ok(None),
    }
}

/// The edits that at most 16 entries say; or the place of the first that says none.
pub fn read_edits(
    alloc: Global,
    scope: &Scope<'_>,
    entries: &[Value],
) -> Result<Result<Vec<Edit>, u32>, Memory>
    requires few { length entries.now ≤ 16 }
    ensures kept { IfOk result (λ read. IfOk read (λ _. first_failing (is_edit scope.now) (map view entries.now) ≡ None)) }
    ensures said { IfOk result (λ read. IfOk read (λ edits. edits.items ≡ filter_map (λ d. edit_of scope.now (entry_of d)) (map view entries.now))) }
    ensures broken { IfOk result (λ read. IfErr read (λ at. first_failing (is_edit scope.now) (map view entries.now) ≡ Some at)) }
    ensures low { IfOk result (λ read. IfErr read (λ at. at < 16)) }
{
    let mut edits = Vec::new(alloc);
    match push_edits(alloc, scope, 0, entries, &mut edits) {
        Ok(None) => Ok(Ok(edits)),
        Ok(Some(at)) => {
            drop(edits);
            Ok(Err(at))
        }
        Err(memory) => {
            drop(edits);
            Err(memory)
        }
    }
}

// The branch that an entry says beside all of them; or the place of the first of its edits that is none.
fn read_branch(
    alloc: Global,
    scope: &Scope<'_>,
    branches: &[Value],
    branch: &Value,
) -> Result<Result<Branch, u32>, Memory>
    requires few { length branches.now ≤ 255 }
    requires headed { IsHeaded (view branch.now) }
    requires forms { forms_of (edits_in (view branch.now)) ≡ None }
    ensures kept { IfOk result (λ read. IfOk read (λ _. first_failing (is_edit scope.now) (edits_in (view branch.now)) ≡ None)) }
    ensures said { IfOk result (λ read. IfOk read (λ b. b ≡ branch_of scope.now (map view branches.now) (view branch.now))) }
    ensures broken { IfOk result (λ read. IfErr read (λ at. first_failing (is_edit scope.now) (edits_in (view branch.now)) ≡ Some at)) }
    ensures low { IfOk result (λ read. IfErr read (λ at. at < 16)) }
{
    match read_edits(alloc, scope, branch_edits(branch))? {
        Ok(edits) => Ok(Ok(Branch {
            name: read_name(branch),
            parent: number_named(branches, parent_name(branch)),
            stop: read_stop(branch),
            edits: Sequence::new(edits),
        })),
        Err(at) => Ok(Err(at)),
    }
}

// Appends the branches that the entries say to the list, in order; `branches` are all of the study's entries of branches, among
// which parents are found by name. Stops at the first edit that cannot be read and returns its place; returns None if each can.
// Each entry has 16 places, one for each edit that it may have, and those of the first entry begin at `place`.
fn push_branches(
    alloc: Global,
    scope: &Scope<'_>,
    branches: &[Value],
    place: u32,
    entries: &[Value],
    list: &mut Vec<Branch>,
) -> Result<Option<u32>, Memory>
    requires few { length branches.now ≤ 255 }
    requires room { place + 16 * length entries.now ≤ 4096 }
    requires headed { All IsHeaded (map view entries.now) }
    requires forms { first_edit forms_of place (map view entries.now) ≡ None }
    ensures place { IfOk result (λ found. found ≡ first_edit (first_failing (is_edit scope.now)) place (map view entries.now)) }
    ensures said { IfOk result (λ found. found ≡ None → list.new.items ≡ list.old.items ++ map (branch_of scope.now (map view branches.now)) (map view entries.now)) }
{
    match entries.split_first() {
        Some((entry, rest)) => match read_branch(alloc, scope, branches, entry)? {
            Ok(branch) => {
                list.push(branch)?;
                push_branches(alloc, scope, branches, place + 16, rest, list)
            }
            Err(at) => Ok(Some(place + at)),
        },
        None => Ok(None),
    }
}

// The branches that a study says whose branches and edits have their keys; or the first edit that is none.
fn read_branches(alloc: Global, table: &Table) -> Result<Result<Vec<Branch>, u32>, Memory>
    requires limits { rule_5 (table_view table.now) ≡ None }
    requires square { rule_7 (table_view table.now) ≡ None }
    requires stocks { rule_10 (table_view table.now) ≡ None }
    requires traders { rule_25 (table_view table.now) ≡ None }
    requires shape { first_of_rules shape_rules (table_view table.now) ≡ None }
    ensures kept { IfOk result (λ read. IfOk read (λ _. rule_35 (table_view table.now) ≡ None)) }
    ensures said { IfOk result (λ read. IfOk read (λ list. list.items ≡ branches_of (table_view table.now))) }
    ensures broken { IfOk result (λ read. IfErr read (λ place. rule_35 (table_view table.now) ≡ Some place)) }
{
    let entries = few_branches(table);
    let scope = study_scope(table);
    let mut list = Vec::new(alloc);
    list.push(root(alloc))?;
    match push_branches(alloc, &scope, entries, 0, entries, &mut list) {
        Ok(None) => Ok(Ok(list)),
        Ok(Some(place)) => {
            drop(list);
            Ok(Err(place))
        }
        Err(memory) => {
            drop(list);
            Err(memory)
        }
    }
}

// The branches that a study says, the root first; or the first broken rule of them.
fn judged_branches(alloc: Global, table: &Table) -> Result<Vec<Branch>, AcceptError>
    requires limits { rule_5 (table_view table.now) ≡ None }
    requires square { rule_7 (table_view table.now) ≡ None }
    requires stocks { rule_10 (table_view table.now) ≡ None }
    requires traders { rule_25 (table_view table.now) ≡ None }
    ensures kept { IfOk result (λ _. first_of_rules branch_rules (table_view table.now) ≡ None) }
    ensures value { IfOk result (λ list. list.items ≡ branches_of (table_view table.now)) }
    ensures refused { IfErr result (λ e. (r : Refusal) → e ≡ AcceptError.Refused r → first_of_rules branch_rules (table_view table.now) ≡ Some r) }
{
    if let Err(refusal) = hold_shape(table) {
        return Err(AcceptError::Refused(refusal));
    }
    match read_branches(alloc, table) {
        Ok(Ok(branches)) => match work_broken(table) {
            Some(place) => {
                drop(branches);
                Err(AcceptError::Refused(Refusal { rule: 36, place }))
            }
            None => Ok(branches),
        },
        Ok(Err(place)) => Err(AcceptError::Refused(Refusal { rule: 35, place })),
        Err(Memory) => Err(AcceptError::Memory),
    }
}

/// The branches that a study says, the root first, or the first broken rule of them, where none of the rules of the limits, the
/// latencies' size and the counts of stocks and traders is broken. They make a tree that a plan takes, and the edits of each can
/// be made where there are the study's stocks, traders by kind and latency groups.
///
/// # Errors
/// The first broken rule of the branches; or want of memory.
pub fn branches(alloc: Global, table: &Table) -> Result<Vec<Branch>, AcceptError>
    requires limits { rule_5 (table_view table.now) ≡ None }
    requires square { rule_7 (table_view table.now) ≡ None }
    requires stocks { rule_10 (table_view table.now) ≡ None }
    requires traders { rule_25 (table_view table.now) ≡ None }
    ensures kept { IfOk result (λ _. first_of_rules branch_rules (table_view table.now) ≡ None) }
    ensures value { IfOk result (λ list. list.items ≡ branches_of (table_view table.now)) }
    ensures rooted { IfOk result (λ list. IsRooted list.items) }
    ensures planned { IfOk result (λ list. plan_refusal list.items (events_of (table_view table.now)) ≡ None) }
    ensures edits { (kinds : List Kind) → map word_of kinds ≡ kinds_of (agents (table_view table.now)) → IfOk result (λ list. All (λ (b : Branch). AreEditsAmong (length (stocks (table_view table.now))) kinds (size_of (table_view table.now)) b.edits) list.items) }
    ensures refused { IfErr result (λ e. (r : Refusal) → e ≡ AcceptError.Refused r → first_of_rules branch_rules (table_view table.now) ≡ Some r) }
{
    judged_branches(alloc, table)
}
