use crate::facts::holds;
use agent_shell::Shell;
use market_types::{Reply, Side};
use std::process::Abort;

// Takes a reply where the account is small.
fn take(rt: &impl Abort, shell: &mut Shell, reply: &Reply) {
    let account = shell.account();
    let position = account.position;
    let cash = account.cash;
    assert!(rt; -1_000_000 < position);
    assert!(rt; position < 1_000_000);
    assert!(rt; -1_000_000_000_000 < cash);
    assert!(rt; cash < 1_000_000_000_000);
    shell.take_reply(reply);
}

// The order buys 100, of which 10 are executed at a dollar (10,000): they take 100 * 10,000 * 10 = 10,000,000 from 1,000.
// The copy still holds the other 90 after the order is gone.
#[test]
fn an_order_is_executed_and_removed(rt: HostRuntime) {
    let mut shell = Shell::open(rt.alloc(), 37, 1_000).expect(&rt, "out of memory");
    shell.reserve(1).expect(&rt, "out of memory");
    let token = shell.next_token();
    shell
        .join(token, Side::Buy, 100)
        .expect(&rt, "out of memory");
    let executed = Reply::Executed {
        time: 5,
        token,
        shares: 10,
        price: 10_000,
        flag: b'R',
        number: 1,
    };
    take(&rt, &mut shell, &executed);
    let account = shell.account();
    holds(&rt, account.position == 10 && account.cash == -9_999_000);
    let copy = shell.copy().expect(&rt, "out of memory");
    let rejected = Reply::Rejected {
        time: 5,
        token,
        reason: b'H',
    };
    take(&rt, &mut shell, &rejected);
    holds(&rt, shell.open_token(0).is_none());
    drop(shell);
    holds(
        &rt,
        (copy.open_len() == 1) & (copy.tokens() == 1) & (copy.agent() == 37),
    );
    drop(copy);
}
