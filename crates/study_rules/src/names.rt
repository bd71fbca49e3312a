//! The rules of branches' names and parents.

ghost use Rattle.std.specs.Prelude.{◌≡◌, ◌<◌, map, take, length, None, IfSome};
ghost use Rattle.toml.specs.View.{table_view, view};
ghost use Rattle.study_file.specs.Tables.{is_named};
ghost use Rattle.study_rules.specs.BranchRules.{names_of, place_named as place_in, branch_keys_broken as rule_30, names_broken as rule_31, parents_broken as rule_32};

use crate::beside_rule::{BesideRule, first_beside};
use crate::entries::{branch_name, parent_name};
use crate::keys::few_branches;
use branch_tree::is_name;
use study_file::{Table, Value};

// Whether the root or one of the first so many branches has this name.
fn is_known(branches: &[Value], count: usize, name: &str) -> bool
    ensures { result ≡ is_named (names_of (map view (take count branches.now))) name.now }
{
    "root" == name
        || branches
            .iter()
            .take(count)
            .any(|branch| branch_name(branch) == name)
}

// A branch has a name, and neither the root nor a branch before it has that one.
struct HasNewName;

impl BesideRule for HasNewName {
    ghost use Rattle.study_rules.specs.BranchRules.{has_new_name};

    ghost kept_by = { λ _. has_new_name };

    fn is_kept(&self, branches: &[Value], count: usize, branch: &Value) -> bool {
        let name = branch_name(branch);
        is_name(name) && !is_known(branches, count, name)
    }
}

// A branch's parent is the root or a branch before it.
struct HasParent;

impl BesideRule for HasParent {
    ghost use Rattle.study_rules.specs.BranchRules.{has_parent};

    ghost kept_by = { λ _. has_parent };

    fn is_kept(&self, branches: &[Value], count: usize, branch: &Value) -> bool {
        is_known(branches, count, parent_name(branch))
    }
}

/// The first branch whose name isn't 1 to 32 bytes of `a` to `z`, `0` to `9`, `_` and `-`, or is the root's or one's before it.
pub fn names_broken(table: &Table) -> Option<u32>
    requires { rule_30 (table_view table.now) ≡ None }
    ensures { result ≡ rule_31 (table_view table.now) }
{
    first_beside(&HasNewName, few_branches(table))
}

/// The first branch whose parent is neither the root nor before it.
pub fn parents_broken(table: &Table) -> Option<u32>
    requires { rule_30 (table_view table.now) ≡ None }
    ensures { result ≡ rule_32 (table_view table.now) }
{
    first_beside(&HasParent, few_branches(table))
}

/// The place of the branch of a name; the root is none of them.
pub fn place_named(branches: &[Value], name: &str) -> Option<usize>
    ensures place { result ≡ place_in (map view branches.now) name.now }
    ensures within { IfSome result (λ at. at < length branches.now) }
{
    branches
        .iter()
        .position(|branch| branch_name(branch) == name)
}
