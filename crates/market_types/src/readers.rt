//! Readers of numbers and names, which refuse what is out of range.

ghost use Rattle.std.specs.Prelude.{◌≡◌, ◌≤◌, length};
ghost use Rattle.std.specs.List.{list_all};
ghost use Rattle.std.specs.Char.{is_ascii_graphic, is_ascii_alphanumeric};
ghost use Rattle.market_types.specs.Readers.{price_of, shares_of, symbol_of, token_of, is_symbol, is_token, padded};

use crate::error::TypeError;
use crate::order::{Symbol, Token};

/// A price with four implied decimals: 1 to 1,999,999,900.
pub fn read_price(n: u64) -> Result<u32, TypeError>
    ensures { result ≡ price_of n }
{
    match n {
        1..=1_999_999_900 => Ok(n as u32),
        _ => Err(TypeError::BadPrice),
    }
}

/// A size in shares: 1 to 999,999.
pub fn read_shares(n: u64) -> Result<u32, TypeError>
    ensures { result ≡ shares_of n }
{
    match n {
        1..=999_999 => Ok(n as u32),
        _ => Err(TypeError::BadShares),
    }
}

/// A symbol of 1 to 8 visible ASCII bytes, padded with spaces on the right.
pub fn read_symbol(text: &[u8]) -> Result<Symbol, TypeError>
    ensures { result ≡ symbol_of text.now }
{
    if !is_symbol(text) {
        return Err(TypeError::BadSymbol);
    }
    Ok(Symbol(padded_right(text)))
}

/// A token of 1 to 14 ASCII letters and digits, padded with spaces on the right.
pub fn read_token(text: &[u8]) -> Result<Token, TypeError>
    ensures { result ≡ token_of text.now }
{
    if !is_token(text) {
        return Err(TypeError::BadToken);
    }
    Ok(Token(padded_right(text)))
}

fn is_symbol(text: &[u8]) -> bool
    ensures { result ≡ is_symbol text.now }
{
    matches!(text.len(), 1..=8) && is_visible(text)
}

fn is_token(text: &[u8]) -> bool
    ensures { result ≡ is_token text.now }
{
    matches!(text.len(), 1..=14) && is_alphanumeric(text)
}

fn is_visible(text: &[u8]) -> bool
    ensures { result ≡ list_all is_ascii_graphic text.now }
{
    text.iter().all(|b| b.is_ascii_graphic())
}

fn is_alphanumeric(text: &[u8]) -> bool
    ensures { result ≡ list_all is_ascii_alphanumeric text.now }
{
    text.iter().all(|b| b.is_ascii_alphanumeric())
}

// The text with spaces on its right.
fn padded_right<const N: usize>(text: &[u8]) -> [u8; N]
    requires { length text.now ≤ N }
    ensures { result ≡ padded N text.now }
{
    let mut bytes = [b' '; N];
    bytes[..text.len()].copy_from_slice(text);
    bytes
}
