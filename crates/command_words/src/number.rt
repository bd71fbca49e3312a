//! Numbers as the words write them.

ghost use Rattle.std.specs.Prelude.{◌≡◌, ◌≤◌};
ghost use Rattle.std.specs.List.{list_all};
ghost use Rattle.std.specs.Char.{is_ascii_digit};
ghost use Rattle.command_words.specs.Numbers.{is_digits, number_of, count_of};

fn are_digits(text: &[u8]) -> bool
    ensures { result ≡ list_all is_ascii_digit text.now }
{
    text.iter().all(|b| b.is_ascii_digit())
}

// Whether a text is 1 to `most` ASCII digits.
fn is_digits(most: usize, text: &str) -> bool
    ensures { result ≡ is_digits most text.now }
{
    !text.is_empty() && text.len() <= most && are_digits(text.as_bytes())
}

// The number that 1 to `most` ASCII digits write.
pub fn read_number(most: usize, text: &str) -> Option<u32>
    requires { most ≤ 9 }
    ensures { result ≡ number_of most text.now }
{
    if is_digits(most, text) {
        text.parse().ok()
    } else {
        None
    }
}

// A number of one to four ASCII digits in this range.
pub fn read_count(least: u32, greatest: u32, text: &str) -> Option<u32>
    ensures { result ≡ count_of least greatest text.now }
{
    let number = read_number(4, text)?;
    if least <= number && number <= greatest {
        Some(number)
    } else {
        None
    }
}
