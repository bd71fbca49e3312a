//! Laws of what words ask for.

ghost use Rattle.std.specs.Prelude.{◌≡◌, ℕ, List, ◌∷◌, ◌++◌, Some, true};
ghost use Rattle.std.specs.Str.Parse.{digits_value};
ghost use Rattle.command_words.specs.Numbers.{is_digits};
ghost use Rattle.command_words.specs.Marks.{IsSpelled, is_branch_name, mark_of};
ghost use Rattle.command_words.specs.declared.mark.Mark.{Mark};

/// Each branch name with a colon and 1 to 7 digits is a mark, and each mark is written so.
pub fn marks_are_spelled()
    ensures read { (branch digits : List ℕ) → is_branch_name branch ≡ true → is_digits 7 digits ≡ true
        → mark_of (branch ++ 58 ∷ digits) ≡ Some (record { word = branch ++ 58 ∷ digits; branch = branch; event = digits_value 10 digits }) }
    ensures spelled { (word : List ℕ) (mark : Mark) → mark_of word ≡ Some mark → IsSpelled word mark }
{}
