//! The mail when it is sent to, copied and full.

ghost use Rattle.std.specs.Prelude.{◌≡◌, ◌<◌, ◌+◌, ◌^◌, ◌∷◌, []};
ghost use Rattle.latency_model.specs.Tables.{group_count};
ghost use Rattle.market_floor.specs.OpeningWorked.{market, watcher};

use crate::facts::{equal, holds};
use agent_shell::{Kind, TraderSetting};
use kernel_core::Mail;
use latency_model::Groups;
use market_floor::opening_worked::opening;
use market_floor::{Opening, Posting};
use market_types::{Body, Cancel, Inbound, Message, Token};
use std::alloc::Global;
use std::process::Abort;

// A market of one watcher.
fn one_watcher(rt: &impl Abort, alloc: Global) -> Opening
    ensures { result ≡ market 2000 0 (watcher 1000 ∷ []) }
{
    let watcher = TraderSetting {
        kind: Kind::Watcher,
        group: 0,
        stock: 0,
        first: 1000,
        every: 1_000_000,
        wobble: 0,
        delay: 0,
        cash: 0,
    };
    let traders = vec![in alloc; watcher].expect(rt, "out of memory");
    opening(alloc, 2000, 100, 0, traders).expect(rt, "out of memory")
}

// Its latencies, with a jitter of 9 on the base of 5.
fn with_jitter(rt: &impl Abort, alloc: Global, o: &Opening) -> Groups
    requires { group_count o.now.groups ≡ 1 }
    ensures { group_count result ≡ 1 }
{
    let mut groups = o.groups.copy(alloc).expect(rt, "out of memory");
    groups.set(0, 0, 5, 9);
    groups
}

// Mail in which nothing waits.
fn opened(rt: &impl Abort, alloc: Global) -> Mail
    ensures numbers { result.next_seq ≡ 0 }
    ensures drops { result.dropped ≡ 0 }
{
    Mail::new(alloc).expect(rt, "out of memory")
}

// Equal mail.
fn copied(rt: &impl Abort, alloc: Global, mail: &Mail) -> Mail
    ensures { result ≡ mail.now }
{
    mail.copy(alloc).expect(rt, "out of memory")
}

// The watcher asks 7 nanoseconds after 1000.
fn ask(mail: &mut Mail, o: &Opening, groups: &Groups)
    requires opening { o.now ≡ market 2000 0 (watcher 1000 ∷ []) }
    requires groups { group_count groups.now ≡ 1 }
    requires few { mail.old.next_seq + mail.old.dropped < 2 ^ 32 }
    ensures { mail.new.next_seq + mail.new.dropped ≡ mail.old.next_seq + mail.old.dropped + 1 }
{
    let question = Posting::To {
        to: 0,
        body: Body::Ask(0),
        extra: 7,
    };
    mail.send(o, groups, 1, 1000, question);
}

// The watcher wants to wake at a time.
fn wake(mail: &mut Mail, o: &Opening, groups: &Groups, time: u64)
    requires opening { o.now ≡ market 2000 0 (watcher 1000 ∷ []) }
    requires groups { group_count groups.now ≡ 1 }
    requires few { mail.old.next_seq + mail.old.dropped < 2 ^ 32 }
    ensures { mail.new.next_seq + mail.new.dropped ≡ mail.old.next_seq + mail.old.dropped + 1 }
{
    mail.send(o, groups, 1, 1000, Posting::WakeAt(time));
}

// A cancel of the watcher is injected.
fn cancel(mail: &mut Mail, time: u64)
    requires { mail.old.next_seq + mail.old.dropped < 2 ^ 32 }
    ensures { mail.new.next_seq + mail.new.dropped ≡ mail.old.next_seq + mail.old.dropped + 1 }
{
    let token = Token(*b"T0001000000001");
    mail.inject(1, time, Inbound::Cancel(Cancel { token, shares: 0 }));
}

// So many cancels are injected, each of which is due before the one before it.
fn fill(mail: &mut Mail, cancels: u32)
    requires { mail.old.next_seq + mail.old.dropped + cancels < 2 ^ 32 }
    ensures { mail.new.next_seq + mail.new.dropped ≡ mail.old.next_seq + mail.old.dropped + cancels }
{
    for i in 0..cancels {
        cancel(mail, u64::from(cancels - i));
    }
}

// The next message leaves; its number.
fn take(mail: &mut Mail) -> Option<u64>
    ensures { mail.new.next_seq + mail.new.dropped ≡ mail.old.next_seq + mail.old.dropped }
{
    let seq = least(mail);
    mail.drop_least();
    seq
}

// The number of the next message that leaves.
fn least(mail: &Mail) -> Option<u64> {
    match mail.least() {
        Some(m) => Some(m.seq),
        None => None,
    }
}

// How many messages wait, the next number, and how many messages were dropped.
fn counts(mail: &Mail) -> (u32, u64, u64) {
    (mail.len(), mail.next_seq(), mail.dropped())
}

// The time, the number, the sender and the receiver of a message.
fn row(m: &Message) -> (u64, u64, u16, u16) {
    (m.time, m.seq, m.from, m.to)
}

const MOVED: [(u64, u64, u16, u16); 3] = [(1200, 2, 1, 1), (1500, 0, 1, 0), (1500, 1, 1, 0)];

const UNMOVED: [(u64, u64, u16, u16); 3] = [(1017, 1, 1, 0), (1200, 2, 1, 1), (1500, 0, 1, 0)];

// Whether these messages wait.
fn waits(rt: &impl Abort, alloc: Global, mail: &Mail, hoped: &[(u64, u64, u16, u16)]) -> bool {
    let messages = mail.messages(alloc).expect(rt, "out of memory");
    let are_these = messages.iter().map(row).eq(hoped.iter().copied());
    drop(messages);
    are_these
}

// The message that is put back: when it was due, and its number.
fn put_back(mail: &mut Mail, until: u64) -> Option<(u64, u64)> {
    let (time, seq) = match mail.least() {
        Some(m) => (m.time, m.seq),
        None => return None,
    };
    mail.delay_least(until);
    Some((time, seq))
}

#[test]
fn messages_are_due_by_their_own_draws(rt: HostRuntime) {
    let alloc = rt.alloc();
    let o = one_watcher(&rt, alloc);
    let groups = with_jitter(&rt, alloc, &o);
    let mut mail = opened(&rt, alloc);
    cancel(&mut mail, 1500);
    ask(&mut mail, &o, &groups);
    wake(&mut mail, &o, &groups, 1200);
    let copy = copied(&rt, alloc, &mail);
    equal(&rt, put_back(&mut mail, 1500), Some((1017, 1)));
    holds(&rt, waits(&rt, alloc, &mail, &MOVED));
    holds(&rt, waits(&rt, alloc, &copy, &UNMOVED));
    drop(copy);
    drop(mail);
    drop(groups);
    drop(o);
}

#[test]
fn full_mail_drops_what_is_to_join(rt: HostRuntime) {
    let alloc = rt.alloc();
    let o = one_watcher(&rt, alloc);
    let mut mail = opened(&rt, alloc);
    fill(&mut mail, 65_536);
    let mut copy = copied(&rt, alloc, &mail);
    cancel(&mut copy, 0);
    wake(&mut copy, &o, &o.groups, 1200);
    equal(&rt, counts(&copy), (65_536, 65_536, 2));
    equal(&rt, take(&mut copy), Some(65_535));
    wake(&mut copy, &o, &o.groups, 0);
    equal(&rt, least(&copy), Some(65_536));
    equal(&rt, counts(&copy), (65_536, 65_537, 2));
    equal(&rt, counts(&mail), (65_536, 65_536, 0));
    drop(copy);
    drop(mail);
    drop(o);
}
