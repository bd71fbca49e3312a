//! The edits that a list of entries says beside an accepted study.

ghost use Rattle.std.specs.Prelude.{◌≡◌, map, option_map, IfOk, IfSome};
ghost use Rattle.toml.specs.View.{view};
ghost use Rattle.kernel_copy.specs.Courses.{AreEdits};
ghost use Rattle.study_rules.specs.EditRules.{edit_list_in};
ghost use Rattle.study_rules.specs.Scope.{scope_of_opening};

use crate::keys::forms_broken;
use crate::made::read_edits;
use crate::scope::opening_scope;
use crate::study::Study;
use market_rules::Edit;
use market_types::Memory;
use std::alloc::Global;
use study_file::Value;

/// The edits that a list of entries says beside an accepted study, where it keeps the rules of a branch's edits: there are at
/// most 16, each has its keys with their types and no other, and each speaks of the study's stocks, traders and latency groups
/// with numbers in their ranges. They can then be made at the study's opening.
pub fn read_edit_list(
    alloc: Global,
    study: &Study,
    entries: &[Value],
) -> Result<Option<Vec<Edit>>, Memory>
    ensures said { IfOk result (λ found. option_map (λ edits. edits.items) found ≡ edit_list_in (scope_of_opening study.now.course.value.opening) (map view entries.now)) }
    ensures fit { IfOk result (λ found. IfSome found (λ edits. AreEdits study.now.course.value.opening edits.items)) }
{
    if forms_broken(entries).is_some() {
        return Ok(None);
    }
    match read_edits(alloc, &opening_scope(study), entries)? {
        Ok(edits) => Ok(Some(edits)),
        Err(_) => Ok(None),
    }
}
