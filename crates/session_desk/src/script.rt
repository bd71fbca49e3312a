//! Reading the script of a session.

ghost use Rattle.std.specs.Prelude.{◌≡◌, ◌≤◌, ◌⊎◌, ℕ, None, Some, Ok, Err, length, IfOk, IfErr, All};
ghost use Rattle.toml.specs.View.{table_view};
ghost use Rattle.study_file.specs.Tables.{table_of};
ghost use Rattle.session_desk.specs.Fitting.{FitsOpening};
ghost use Rattle.session_desk.specs.Script.{acts_in as acts_said, forks_by_time as by_time, script_of};

use crate::act::{Act, ScriptError};
use crate::keys::{few_entries, is_script};
use crate::list::acts_of;
use std::alloc::Global;
use study_file::{RawStudy, StudyError, Table, read_tables};
use study_rules::Study;

// Whether a branch of a study leaves its parent at a time.
fn forks_by_time(study: &Study) -> bool
    ensures { result ≡ by_time study.now.course.value }
{
    study
        .course
        .plan()
        .branches()
        .iter()
        .any(|branch| branch.stop.is_time())
}

// The table that the bytes of a script say.
fn table(alloc: Global, bytes: &[u8]) -> Result<RawStudy, ScriptError>
    ensures table { IfOk result (λ raw. table_of bytes.now ≡ Some (table_view raw.table)) }
    ensures refused { IfErr result (λ e. (e ≡ ScriptError.Memory) ⊎ ((e ≡ ScriptError.NotToml) × (table_of bytes.now ≡ None))) }
{
    match read_tables(alloc, bytes) {
        Ok(raw) => Ok(raw),
        Err(StudyError::NotToml) => Err(ScriptError::NotToml),
        Err(StudyError::Memory) => Err(ScriptError::Memory),
    }
}

// The acts of a table beside an accepted study.
fn acts_in(alloc: Global, study: &Study, script: &Table) -> Result<Vec<Act>, ScriptError>
    ensures acts { IfOk result (λ acts. acts_said study.now.course.value (table_view script.now) ≡ Ok acts.items) }
    ensures refused { IfErr result (λ e. (e ≡ ScriptError.Memory) ⊎ (acts_said study.now.course.value (table_view script.now) ≡ Err e)) }
{
    if !is_script(script) || forks_by_time(study) {
        return Err(ScriptError::BadAct(64));
    }
    acts_of(alloc, study, few_entries(script))
}

/// The acts that the bytes of a script say beside an accepted study, in order.
///
/// # Errors
/// The bytes are no TOML table; the first bad act, or 64 for the whole; or want of memory.
pub fn read_script(alloc: Global, bytes: &[u8], study: &Study) -> Result<Vec<Act>, ScriptError>
    ensures acts { IfOk result (λ acts. script_of study.now.course.value bytes.now ≡ Ok acts.items) }
    ensures refused { IfErr result (λ e. (e ≡ ScriptError.Memory) ⊎ (script_of study.now.course.value bytes.now ≡ Err e)) }
    ensures place { IfErr result (λ e. (i : ℕ) → e ≡ ScriptError.BadAct i → i ≤ 64) }
    ensures fit { IfOk result (λ acts. All (FitsOpening study.now.course.value.opening) acts.items) }
    ensures few { IfOk result (λ acts. length acts.items ≤ 64) }
{
    match table(alloc, bytes) {
        Ok(raw) => {
            let acts = acts_in(alloc, study, &raw.table);
            drop(raw);
            acts
        }
        Err(error) => Err(error),
    }
}
