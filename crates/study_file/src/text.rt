//! The text of the large study.

ghost use Rattle.std.specs.Prelude.{◌≡◌, ◌++◌, IfOk, IsOk, string_bytes};
ghost use Rattle.study_file.specs.LargeStudy.{branches, head, key_of, large_study, makers, market, momentum_traders, noise_traders, traders, value_traders};

use plain_lists::Memory;
use std::alloc::{AllocError, Global};

// The key of a number.
fn key(alloc: Global, number: u32) -> Result<String, AllocError>
    ensures { IfOk result (λ text. string_bytes text ≡ key_of number) }
{
    format!(in alloc; "{number:064x}")
}

// The lines up to the limit on events.
fn head(alloc: Global, number: u32, events: u32) -> Result<String, AllocError>
    ensures { IfOk result (λ text. string_bytes text ≡ head number events) }
{
    let key = key(alloc, number)?;
    format!(in alloc;
        r#"version = 1
key = "{key}"
open = 34200000000000
close = 36000000000000
events = {events}
"#
    )
}

// The market.
fn market(alloc: Global) -> Result<String, AllocError>
    ensures { IfOk result (λ text. string_bytes text ≡ market) }
{
    let text = r#"stride = 1000
exchange = { group = 0, delay = 1000 }
[latency]
base = [[1000, 50000], [50000, 80000]]
jitter = [[0, 20000], [20000, 20000]]
[[stock]]
symbol = "ABM"
bands = [[0, 100]]
add = -2000
take = 3000
series = "rule"
start = 500000
mean = 500000
pull = 10000
shock = 200
every = 1000000000
[[stock]]
symbol = "XYZ"
bands = [[0, 100], [1000000, 500]]
add = -2000
take = 3000
series = "rule"
start = 1000000
mean = 1010000
pull = 5000
shock = 500
every = 1000000000
[[change]]
time = 34800000000000
stock = "XYZ"
kind = "fee"
add = -1000
take = 2000
"#;
    String::from_str(alloc, text)
}

// Two makers of a stock.
fn makers(alloc: Global, symbol: &str) -> Result<String, AllocError>
    ensures { IfOk result (λ text. string_bytes text ≡ makers symbol.now) }
{
    format!(in alloc;
        r#"[[agent]]
kind = "maker"
group = 0
stock = "{symbol}"
first = 34200000000000
every = 2000000000
wobble = 500000000
delay = 2000
size = 200
half = 200
step = 100
levels = 3
pause = 100
count = 2
spread = 250000000
"#
    )
}

// Thirty noise traders of a stock.
fn noise_traders(alloc: Global, symbol: &str) -> Result<String, AllocError>
    ensures { IfOk result (λ text. string_bytes text ≡ noise_traders symbol.now) }
{
    format!(in alloc;
        r#"[[agent]]
kind = "noise"
group = 1
stock = "{symbol}"
first = 34201000000000
every = 5000000000
wobble = 4000000000
delay = 20000
size = 100
count = 30
spread = 100000000
"#
    )
}

// Fifteen value traders of a stock.
fn value_traders(alloc: Global, symbol: &str) -> Result<String, AllocError>
    ensures { IfOk result (λ text. string_bytes text ≡ value_traders symbol.now) }
{
    format!(in alloc;
        r#"[[agent]]
kind = "value"
group = 1
stock = "{symbol}"
first = 34201000000000
every = 5000000000
wobble = 4000000000
delay = 20000
size = 100
noise = 500
margin = 200
count = 15
spread = 200000000
"#
    )
}

// Three momentum traders of a stock.
fn momentum_traders(alloc: Global, symbol: &str) -> Result<String, AllocError>
    ensures { IfOk result (λ text. string_bytes text ≡ momentum_traders symbol.now) }
{
    format!(in alloc;
        r#"[[agent]]
kind = "momentum"
group = 1
stock = "{symbol}"
first = 34202000000000
every = 5000000000
wobble = 4000000000
delay = 20000
size = 100
short = 5
long = 20
count = 3
spread = 300000000
"#
    )
}

// All traders of a stock.
fn traders(alloc: Global, symbol: &str) -> Result<String, AllocError>
    ensures { IfOk result (λ text. string_bytes text ≡ traders symbol.now) }
{
    let text = makers(alloc, symbol)?;
    let text = with(text, noise_traders(alloc, symbol))?;
    let text = with(text, value_traders(alloc, symbol))?;
    with(text, momentum_traders(alloc, symbol))
}

// A text and another behind it, where there was memory for that.
fn with(text: String, more: Result<String, AllocError>) -> Result<String, AllocError>
    ensures more { IfOk result (λ _. IsOk more) }
    ensures text { IfOk result (λ both. IfOk more (λ more. string_bytes both ≡ string_bytes text ++ string_bytes more)) }
{
    match more {
        Ok(more) => joined(text, more),
        Err(error) => {
            drop(text);
            Err(error)
        }
    }
}

// Two texts in one.
fn joined(text: String, more: String) -> Result<String, AllocError>
    ensures { IfOk result (λ both. string_bytes both ≡ string_bytes text ++ string_bytes more) }
{
    let mut text = text;
    let done = text.push_str(more.as_str());
    drop(more);
    match done {
        Ok(()) => Ok(text),
        Err(error) => {
            drop(text);
            Err(error)
        }
    }
}

// The branches.
fn branches(alloc: Global) -> Result<String, AllocError>
    ensures { IfOk result (λ text. string_bytes text ≡ branches) }
{
    let text = r#"[[branch]]
name = "tick5"
parent = "root"
at = 5000
edit = [{ kind = "tick", stock = "ABM", bands = [[0, 500]] }]
[[branch]]
name = "fee0"
parent = "root"
at = 5000
edit = [{ kind = "fee", stock = "ABM", add = 0, take = 0 }]
[[branch]]
name = "halt"
parent = "root"
at = 10000
edit = [{ kind = "halt", stock = "ABM" }]
[[branch]]
name = "resume"
parent = "halt"
at = 12000
edit = [{ kind = "resume", stock = "ABM" }]
[[branch]]
name = "slow"
parent = "root"
at = 10000
edit = [{ kind = "latency", from = 1, to = 0, base = 500000, jitter = 20000 }]
[[branch]]
name = "drop"
parent = "root"
at = 15000
edit = [{ kind = "series", stock = "XYZ", offset = -20000 }]
[[branch]]
name = "calm"
parent = "drop"
at = 15000
edit = [{ kind = "silence", agent = 3 }]
"#;
    String::from_str(alloc, text)
}

/// The text of the large study of a number, which its key gives in hexadecimal digits, with a limit on the events of a
/// branch: two stocks with fifty traders each, and eight branches with the root.
///
/// # Errors
/// Want of memory alone.
pub fn study_text(alloc: Global, number: u32, events: u32) -> Result<String, Memory>
    ensures { IfOk result (λ text. string_bytes text ≡ large_study number events) }
{
    let text = head(alloc, number, events)?;
    let text = with(text, market(alloc))?;
    let text = with(text, traders(alloc, "ABM"))?;
    let text = with(text, traders(alloc, "XYZ"))?;
    Ok(with(text, branches(alloc))?)
}
