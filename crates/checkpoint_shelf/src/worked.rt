//! What the definitions say of small examples. The functions do nothing: each of their clauses is proved by computation.

ghost use Rattle.std.specs.Prelude.{◌≡◌, true, false, Some, None};
ghost use Rattle.shelf_core.specs.Example.{key};
ghost use Rattle.shelf_core.specs.declared.words.ClaimWord.TheVariants.{Taken as taken_word};
ghost use Rattle.shelf_core.specs.declared.words.PlaceWord.TheVariants.{Free as free_word, Writing as writing_word, Ready as ready_word, Lent as lent_word};
ghost use Rattle.checkpoint_shelf.specs.Codes.{place_code, claim_code, done_code, place_word_in, claim_word_in};

/// The words of a place as numbers: the kind in two bits, a seat in six, an event in 24 and a segment in twelve.
pub fn place_words()
    ensures free { place_code free_word ≡ 0 }
    ensures writing { place_code (writing_word 3) ≡ 13 }
    ensures ready { place_code (ready_word (key 1 50)) ≡ 4294980098 }
    ensures lent { place_code (lent_word (key 1 50) 3) ≡ 4294980111 }
    ensures writing_back { place_word_in 13 ≡ writing_word 3 }
    ensures ready_back { place_word_in 4294980098 ≡ ready_word (key 1 50) }
    ensures lent_back { place_word_in 4294980111 ≡ lent_word (key 1 50) 3 }
{}

/// The word of a segment, and the done word, whose lowest bit is the stop bit, as numbers.
pub fn other_words()
    ensures taken { claim_code (taken_word 3) ≡ 4 }
    ensures taken_back { claim_word_in 4 ≡ taken_word 3 }
    ensures running { done_code 3 false ≡ 6 }
    ensures stopped { done_code 3 true ≡ 7 }
{}
