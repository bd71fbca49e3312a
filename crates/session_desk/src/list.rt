//! The acts of a script's entries.

ghost use Rattle.std.specs.Prelude.{◌≡◌, ◌≤◌, ◌+◌, ◌⊎◌, ◌++◌, None, Ok, Err, map, length, IfOk, IfErr};
ghost use Rattle.std.specs.List.{filter_map};
ghost use Rattle.toml.specs.View.{view};
ghost use Rattle.study_market.specs.Trial.{failing_from};
ghost use Rattle.study_rules.specs.Entries.{entry_of};
ghost use Rattle.study_rules.specs.Scope.{scope_of_opening};
ghost use Rattle.session_desk.specs.Acts.{act_in as act_of, is_act};
ghost use Rattle.session_desk.specs.Script.{acts_of as acts_said};

use crate::act::{Act, ScriptError};
use crate::acts::act_in;
use market_types::Memory;
use std::alloc::Global;
use study_file::Value;
use study_rules::Study;

// The act that an entry says.
fn read_act(alloc: Global, study: &Study, entry: &Value) -> Result<Option<Act>, Memory>
    ensures { IfOk result (λ found. found ≡ act_of (scope_of_opening study.now.course.value.opening) (entry_of (view entry.now))) }
{
    match entry.as_table() {
        Some(act) => act_in(alloc, study, act),
        None => Ok(None),
    }
}

// Appends the acts that the entries say to the list, in order. Stops at the first entry that says no act and returns its place,
// where the first entry's place is `place`; returns None if each entry says an act.
fn push_acts(
    alloc: Global,
    study: &Study,
    place: u32,
    entries: &[Value],
    acts: &mut Vec<Act>,
) -> Result<Option<u32>, Memory>
    requires few { place + length entries.now ≤ 64 }
    ensures place { IfOk result (λ found. found ≡ failing_from (is_act (scope_of_opening study.now.course.value.opening)) place (map view entries.now)) }
    ensures said { IfOk result (λ found. found ≡ None → acts.new.items ≡ acts.old.items ++ filter_map (λ d. act_of (scope_of_opening study.now.course.value.opening) (entry_of d)) (map view entries.now)) }
{
    match entries.split_first() {
        Some((entry, rest)) => match read_act(alloc, study, entry)? {
            Some(act) => {
                acts.push(act)?;
                push_acts(alloc, study, place + 1, rest, acts)
            }
            None => Ok(Some(place)),
        },
        None => Ok(None),
    }
}

/// The acts that at most 64 entries say beside an accepted study, or the first that says none.
pub fn acts_of(alloc: Global, study: &Study, entries: &[Value]) -> Result<Vec<Act>, ScriptError>
    requires { length entries.now ≤ 64 }
    ensures acts { IfOk result (λ acts. acts_said (scope_of_opening study.now.course.value.opening) (map view entries.now) ≡ Ok acts.items) }
    ensures refused { IfErr result (λ e. (e ≡ ScriptError.Memory) ⊎ (acts_said (scope_of_opening study.now.course.value.opening) (map view entries.now) ≡ Err e)) }
{
    let mut acts = Vec::new(alloc);
    match push_acts(alloc, study, 0, entries, &mut acts) {
        Ok(None) => Ok(acts),
        Ok(Some(at)) => Err(ScriptError::BadAct(at)),
        Err(Memory) => Err(ScriptError::Memory),
    }
}
