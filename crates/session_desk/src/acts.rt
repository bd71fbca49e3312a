//! The act that a table of a script says.

ghost use Rattle.std.specs.Prelude.{◌≡◌, IfOk};
ghost use Rattle.toml.specs.View.{table_view};
ghost use Rattle.study_rules.specs.Scope.{scope_of_opening};
ghost use Rattle.session_desk.specs.Acts.{name_in as name_of, new_name_in, event_in as event_of, edits_in as edits_of, fork_in as fork_of, edit_in as edit_of, rewind_in as rewind_of, close_in as close_of, values_in as values_of, act_of_kind as kind_act_of, act_in as act_of};

use crate::act::Act;
use crate::keys::has_act_keys;
use branch_tree::{Name, is_name};
use market_rules::Edit;
use market_types::{Memory, Sequence};
use std::alloc::Global;
use study_file::{Table, has_between, is_kind, list_at, number_at, string_at};
use study_rules::{Study, read_edit_list};

// The name of a branch at a key, of 1 to 32 bytes.
fn name_in(act: &Table, key: &str) -> Option<Name>
    ensures { result ≡ name_of key.now (table_view act.now) }
{
    Name::new(string_at(act, key).as_bytes())
}

// The name of a new branch, which has no byte but `a` to `z`, `0` to `9`, `_` and `-`.
fn new_name_in(act: &Table) -> Option<Name>
    ensures { result ≡ new_name_in (table_view act.now) }
{
    if is_name(string_at(act, "name")) {
        name_in(act, "name")
    } else {
        None
    }
}

// The event number at a key.
fn event_in(act: &Table, key: &str) -> Option<u32>
    ensures { result ≡ event_of key.now (table_view act.now) }
{
    if has_between(act, key, 0, 9_999_999) {
        Some(number_at(act, key) as u32)
    } else {
        None
    }
}

// The edits of an act, where they keep the rules of a branch's edits.
fn edits_in(alloc: Global, study: &Study, act: &Table) -> Result<Option<Sequence<Edit>>, Memory>
    ensures { IfOk result (λ found. found ≡ edits_of (scope_of_opening study.now.course.value.opening) (table_view act.now)) }
{
    match read_edit_list(alloc, study, list_at(act, "edit"))? {
        Some(edits) => Ok(Some(Sequence::new(edits))),
        None => Ok(None),
    }
}

fn fork_in(alloc: Global, study: &Study, act: &Table) -> Result<Option<Act>, Memory>
    ensures { IfOk result (λ found. found ≡ fork_of (scope_of_opening study.now.course.value.opening) (table_view act.now)) }
{
    let Some(name) = new_name_in(act) else {
        return Ok(None);
    };
    let Some(parent) = name_in(act, "parent") else {
        return Ok(None);
    };
    let Some(at) = event_in(act, "at") else {
        return Ok(None);
    };
    match edits_in(alloc, study, act)? {
        Some(edits) => Ok(Some(Act::Fork {
            name,
            parent,
            at,
            edits,
        })),
        None => Ok(None),
    }
}

fn edit_in(alloc: Global, study: &Study, act: &Table) -> Result<Option<Act>, Memory>
    ensures { IfOk result (λ found. found ≡ edit_of (scope_of_opening study.now.course.value.opening) (table_view act.now)) }
{
    let Some(name) = name_in(act, "name") else {
        return Ok(None);
    };
    match edits_in(alloc, study, act)? {
        Some(edits) => Ok(Some(Act::Edit { name, edits })),
        None => Ok(None),
    }
}

fn rewind_in(act: &Table) -> Option<Act>
    ensures { result ≡ rewind_of (table_view act.now) }
{
    let name = name_in(act, "name")?;
    let event = event_in(act, "event")?;
    Some(Act::Rewind { name, event })
}

fn close_in(act: &Table) -> Option<Act>
    ensures { result ≡ close_of (table_view act.now) }
{
    let name = name_in(act, "name")?;
    Some(Act::Close { name })
}

fn values_in(act: &Table) -> Option<Act>
    ensures { result ≡ values_of (table_view act.now) }
{
    let name = name_in(act, "name")?;
    Some(Act::Values { name })
}

// The act that a table says which has the keys of its kind.
fn act_of_kind(alloc: Global, study: &Study, act: &Table) -> Result<Option<Act>, Memory>
    ensures { IfOk result (λ found. found ≡ kind_act_of (scope_of_opening study.now.course.value.opening) (table_view act.now)) }
{
    if is_kind(act, "fork") {
        fork_in(alloc, study, act)
    } else if is_kind(act, "undo") {
        Ok(Some(Act::Undo))
    } else if is_kind(act, "edit") {
        edit_in(alloc, study, act)
    } else if is_kind(act, "rewind") {
        Ok(rewind_in(act))
    } else if is_kind(act, "close") {
        Ok(close_in(act))
    } else if is_kind(act, "values") {
        Ok(values_in(act))
    } else {
        Ok(None)
    }
}

/// The act that a table says beside an accepted study. There is none where it hasn't the keys of its kind with their types and
/// no other, where an event number is out of its range, a name is none, or the edits break a rule of a branch's edits.
pub fn act_in(alloc: Global, study: &Study, act: &Table) -> Result<Option<Act>, Memory>
    ensures { IfOk result (λ found. found ≡ act_of (scope_of_opening study.now.course.value.opening) (table_view act.now)) }
{
    if has_act_keys(act) {
        act_of_kind(alloc, study, act)
    } else {
        Ok(None)
    }
}
