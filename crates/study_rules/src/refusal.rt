//! Which rule of its branches a study breaks first, as far as the keys of their edits.

ghost use Rattle.std.specs.Prelude.{◌≡◌, None, Some, OnOk, IfErr};
ghost use Rattle.toml.specs.View.{table_view};
ghost use Rattle.study_market.specs.FirstBroken.{first_of_rules};
ghost use Rattle.study_rules.specs.FirstBroken.{shape_rules};

use crate::keys::{branch_keys_broken, edit_keys_broken};
use crate::names::{names_broken, parents_broken};
use crate::stops::stops_broken;
use study_file::Table;
use study_market::Refusal;

// The rule of this number, where it is broken at a place.
fn hold(rule: u32, broken: Option<u32>) -> Result<(), Refusal>
    ensures held { OnOk result (broken ≡ None) }
    ensures refused { IfErr result (λ r. (r ≡ record { rule = rule; place = r.place }) × (broken ≡ Some r.place)) }
{
    match broken {
        Some(place) => Err(Refusal { rule, place }),
        None => Ok(()),
    }
}

/// Whether the rules of the branches hold before that of what their edits say.
///
/// # Errors
/// The first broken one of them.
pub fn hold_shape(table: &Table) -> Result<(), Refusal>
    ensures held { OnOk result (first_of_rules shape_rules (table_view table.now) ≡ None) }
    ensures refused { IfErr result (λ r. first_of_rules shape_rules (table_view table.now) ≡ Some r) }
{
    hold(30, branch_keys_broken(table))?;
    hold(31, names_broken(table))?;
    hold(32, parents_broken(table))?;
    hold(33, stops_broken(table))?;
    hold(34, edit_keys_broken(table))
}
