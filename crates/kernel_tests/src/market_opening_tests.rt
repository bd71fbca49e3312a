//! An opening made in code.

use crate::facts::equal;
use agent_shell::{Kind, TraderSetting};
use market_floor::group_number;
use market_floor::opening_worked::opening;

// A watcher of a group.
fn watcher(group: u8) -> TraderSetting {
    TraderSetting {
        kind: Kind::Watcher,
        group,
        stock: 0,
        first: 1000,
        every: 1_000_000,
        wobble: 0,
        delay: 0,
        cash: 0,
    }
}

#[test]
fn agents_are_in_their_groups(rt: HostRuntime) {
    let alloc = rt.alloc();
    let traders = vec![in alloc; watcher(3), watcher(4)].expect(&rt, "out of memory");
    let o = opening(alloc, 2000, 100, 3, traders).expect(&rt, "out of memory");
    assert!(rt; o.traders.len() == 2);
    equal(&rt, group_number(&o, 0), 0);
    equal(&rt, group_number(&o, 1), 3);
    equal(&rt, group_number(&o, 2), 4);
    drop(o);
}
