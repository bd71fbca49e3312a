//! The arguments of a rewind.

ghost use Rattle.std.specs.Prelude.{◌≡◌, IfOk, map};
ghost use Rattle.std.specs.List.{list_all};
ghost use Rattle.command_words.specs.Marks.{is_name_byte, is_branch_name, mark_of, marks_of};

use crate::number::read_number;
use crate::text::Text;
use plain_lists::{Memory, Sequence};
use std::alloc::Global;

/// A branch and the number of one of its events.
#[derive(Drop)]
pub struct Mark<'a> {
    /// The whole argument as it was given.
    pub word: Text<'a>,
    /// The branch's name: 1 to 32 bytes of `a` to `z`, `0` to `9`, `_` and `-`.
    pub branch: Text<'a>,
    /// The number of the event, of 1 to 7 digits.
    pub event: u32,
}

fn is_name_byte(b: u8) -> bool
    ensures { result ≡ is_name_byte b }
{
    b.is_ascii_lowercase() || b.is_ascii_digit() || b == b'_' || b == b'-'
}

fn are_name_bytes(text: &[u8]) -> bool
    ensures { result ≡ list_all is_name_byte text.now }
{
    text.iter().all(|b| is_name_byte(*b))
}

fn is_branch_name(text: &str) -> bool
    ensures { result ≡ is_branch_name text.now }
{
    matches!(text.len(), 1..=32) && are_name_bytes(text.as_bytes())
}

// The mark that a word writes.
pub fn read_mark<'a>(word: &'a str) -> Option<Mark<'a>>
    ensures { result ≡ mark_of word.now }
{
    let (branch, event) = word.split_once(':')?;
    let event = read_number(7, event)?;
    if !is_branch_name(branch) {
        return None;
    }
    Some(Mark {
        word: Text::new(word),
        branch: Text::new(branch),
        event,
    })
}

// The mark of each word, where each has one.
pub fn read_marks<'a>(
    alloc: Global,
    words: &[&'a str],
) -> Result<Option<Sequence<Mark<'a>>>, Memory>
    ensures { IfOk result (λ marks. marks ≡ marks_of (map (λ word. word.now) words.now)) }
{
    let mut marks = Vec::new(alloc);
    for word in words {
        let Some(mark) = read_mark(word) else {
            return Ok(None);
        };
        marks.push(mark)?;
    }
    Ok(Some(Sequence::new(marks)))
}
