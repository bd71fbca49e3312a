//! Order tokens.

ghost use Rattle.std.specs.Prelude.{◌≡◌, ◌+◌, ◌%◌, ◌<◌};
ghost use Rattle.agent_shell.specs.Tokens.{token_of};

use market_types::{AgentNo, Token};

// The last digit of a number.
fn digit(number: u32) -> u8
    ensures { result ≡ 48 + number % 10 }
{
    b'0' + (number % 10) as u8
}

// The n-th token of an agent: `T`, the agent in four digits and n in nine.
pub(crate) fn token_of(agent: AgentNo, n: u32) -> Token
    ensures { result ≡ token_of agent n }
{
    let a0 = u32::from(agent);
    let a1 = a0 / 10;
    let a2 = a1 / 10;
    let a3 = a2 / 10;
    let n1 = n / 10;
    let n2 = n1 / 10;
    let n3 = n2 / 10;
    let n4 = n3 / 10;
    let n5 = n4 / 10;
    let n6 = n5 / 10;
    let n7 = n6 / 10;
    let n8 = n7 / 10;
    Token([
        b'T',
        digit(a3),
        digit(a2),
        digit(a1),
        digit(a0),
        digit(n8),
        digit(n7),
        digit(n6),
        digit(n5),
        digit(n4),
        digit(n3),
        digit(n2),
        digit(n1),
        digit(n),
    ])
}
