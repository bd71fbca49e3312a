//! What the answer tells of a script.

ghost use Rattle.std.specs.Prelude.{◌≡◌, ◌≤◌, ℕ, List, None, Some, Ok, Err, All, length};
ghost use Rattle.toml.specs.Data.{Members};
ghost use Rattle.kernel_copy.specs.Courses.{CourseTold};
ghost use Rattle.study_file.specs.Tables.{table_of};
ghost use Rattle.session_desk.specs.declared.act.Act.{Act};
ghost use Rattle.session_desk.specs.declared.act.ScriptError.TheVariants.{NotToml, BadAct};
ghost use Rattle.session_desk.specs.Script.{script_of};
ghost use Rattle.session_desk.specs.Fitting.{FitsOpening};
ghost use Rattle.session_desk.specs.Told.{AreSaidBy, IsFirstBad};

/// The acts of a script are those that its entries say, one by one in order.
pub fn acts_are_told_one_by_one()
    ensures { (c : CourseTold) (bytes : List ℕ) (t : Members) (acts : List Act) → table_of bytes ≡ Some t → script_of c bytes ≡ Ok acts → AreSaidBy c t acts }
{}

/// What is told of a refused script is its first bad act, or 64 for the whole; or that the bytes are no TOML table.
pub fn the_first_bad_act_is_told()
    ensures bad { (c : CourseTold) (bytes : List ℕ) (t : Members) (n : ℕ) → table_of bytes ≡ Some t → script_of c bytes ≡ Err (BadAct n) → IsFirstBad c t n }
    ensures no_table { (c : CourseTold) (bytes : List ℕ) → script_of c bytes ≡ Err NotToml → table_of bytes ≡ None }
{}

/// A script says 1 to 64 acts, and their edits can be made at the study's opening.
pub fn acts_fit_the_opening()
    ensures count { (c : CourseTold) (bytes : List ℕ) (acts : List Act) → script_of c bytes ≡ Ok acts → (1 ≤ length acts) × (length acts ≤ 64) }
    ensures fit { (c : CourseTold) (bytes : List ℕ) (acts : List Act) → script_of c bytes ≡ Ok acts → All (FitsOpening c.opening) acts }
{}
