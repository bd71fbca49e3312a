//! Numbers as the fields of a file write them.

ghost use Rattle.std.specs.Prelude.{◌≡◌, ◌≤◌, ◌<◌, ◌^◌, true};
ghost use Rattle.std.specs.Int.{is_in_range};
ghost use Rattle.std.specs.List.{list_all};
ghost use Rattle.study_market.specs.Records.{is_digits, number_after};
ghost use Rattle.reopening_desk.specs.Fields.{number_in};

fn is_digit(byte: u8) -> bool
    ensures { result ≡ is_in_range 48 57 byte }
{
    matches!(byte, b'0'..=b'9')
}

fn each_is_digit(text: &[u8]) -> bool
    ensures { result ≡ list_all (is_in_range 48 57) text.now }
{
    text.iter().all(|byte| is_digit(*byte))
}

// Whether a text is 1 to so many digits.
fn is_digits(most: usize, text: &[u8]) -> bool
    ensures { result ≡ is_digits most text.now }
{
    1 <= text.len() && text.len() <= most && each_is_digit(text)
}

// The number that digits say after those of another number, which is below 100,000,000,000,000.
fn number_after(number: u64, text: &[u8]) -> u64
    requires digits { list_all (is_in_range 48 57) text.now ≡ true }
    requires small { number_after number text.now < 10 ^ 14 }
    ensures { result ≡ number_after number text.now }
{
    match text.split_first() {
        Some((digit, rest)) => number_after(number * 10 + u64::from(*digit - b'0'), rest),
        None => number,
    }
}

/// The number that 1 to so many digits say; another text says none.
pub fn read_number(most: usize, text: &[u8]) -> Option<u64>
    requires { most ≤ 14 }
    ensures { result ≡ number_in most text.now }
{
    if is_digits(most, text) {
        Some(number_after(0, text))
    } else {
        None
    }
}
