//! What the definitions give on known numbers.

ghost use Rattle.std.specs.Prelude.{◌≡◌, ◌++◌, codes, length, replicate};
ghost use Rattle.study_file.specs.LargeStudy.{key_of, large_study};

/// The keys of the numbers 7 and 4,095.
pub fn keys()
    ensures seven { key_of 7 ≡ replicate 63 48 ++ codes "7" }
    ensures three_digits { key_of 4095 ≡ replicate 61 48 ++ codes "fff" }
{}

/// The study of the number 7 with 20,000 events has 2960 bytes.
pub fn length_of_a_study()
    ensures { length (large_study 7 20000) ≡ 2960 }
{}
