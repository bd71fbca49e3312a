//! What the system gives a program.

ghost use Rattle.std.specs.Prelude.{◌≡◌, drop};

/// The words of a command line: all that the system gives a program but the first, which is the program's name. Takes no memory.
pub fn words_behind_name(given: Vec<String>) -> Vec<String>
    ensures { result.items ≡ drop 1 given.items }
{
    let mut words = given;
    if !words.is_empty() {
        drop(words.remove(0));
    }
    words
}
