//! What the definitions say of small examples. The functions do nothing: each of their clauses is proved by
//! computation.

ghost use Rattle.std.specs.Prelude.{◌≡◌, [], ◌∷◌, Some, None, codes};
ghost use Rattle.outside.specs.Rose.{Rose, raised};
ghost use Rattle.outside.specs.Files.{held, content, absent, too_long, whole};
ghost use Rattle.outside.specs.Taken.{appended};
ghost use Rattle.outside.specs.Fakes.{accepted};

/// Of two files under one name the first is held; under another name none is.
pub fn held_example()
    ensures first { held ((codes "a", codes "1") ∷ (codes "b", codes "22") ∷ (codes "b", codes "3") ∷ []) (codes "b") ≡ Some (codes "22") }
    ensures none { held ((codes "a", codes "1") ∷ []) (codes "ab") ≡ None }
{}

/// Two bytes are answered whole where two are asked for, and are too many where one is.
pub fn content_example()
    ensures fits { content (Some (codes "22")) 2 ≡ whole (codes "22") }
    ensures long { content (Some (codes "22")) 1 ≡ too_long }
    ensures none { content None 2 ≡ absent }
{}

/// A sink that has taken "ab" and takes "c" has taken "abc".
pub fn appended_example()
    ensures told { appended (Some (codes "ab")) (codes "c") ≡ Some (codes "abc") }
    ensures untold { appended None (codes "c") ≡ None }
{}

/// A count that stands still did not rise, unless it stands at its last value.
pub fn rose_example()
    ensures greater { Rose 3 4 }
    ensures still { ¬ (Rose 3 3) }
    ensures last { Rose 18446744073709551615 18446744073709551615 }
    ensures next { raised 3 ≡ 4 }
    ensures stands { raised 18446744073709551615 ≡ 18446744073709551615 }
{}

/// A sink with room for five bytes, two a call, whose second call is to fail: the first call takes two bytes of
/// three, the second none, and with four bytes taken the third call takes one. With five taken, a call takes
/// nothing of an empty piece, and fails at any other.
pub fn accepted_example()
    ensures first { accepted (record { bytes = []; room = 5; most = 2; failing = 2 ∷ []; calls = 0; faults = 0 }) (codes "abc") ≡ Some 2 }
    ensures second { accepted (record { bytes = codes "ab"; room = 5; most = 2; failing = 2 ∷ []; calls = 1; faults = 0 }) (codes "abc") ≡ None }
    ensures third { accepted (record { bytes = codes "abcd"; room = 5; most = 2; failing = 2 ∷ []; calls = 2; faults = 0 }) (codes "abc") ≡ Some 1 }
    ensures full { accepted (record { bytes = codes "abcde"; room = 5; most = 2; failing = 2 ∷ []; calls = 2; faults = 0 }) (codes "a") ≡ None }
    ensures empty { accepted (record { bytes = codes "abcde"; room = 5; most = 2; failing = 2 ∷ []; calls = 2; faults = 0 }) [] ≡ Some 0 }
{}
