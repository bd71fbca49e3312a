ghost use Rattle.std.specs.Prelude.{◌≡◌, ◌<◌, ◌≤◌, ◌+◌, ◌-◌, [], All, length};

use crate::facts::{equal, holds};
use event_queue::Queue;
use market_types::{Body, Message};
use std::alloc::Global;
use std::process::Abort;

const PUSHES: u64 = 4_000;

fn wakeup(time: u64, seq: u64) -> Message {
    Message {
        time,
        seq,
        from: 1,
        to: 1,
        body: Body::Wake,
    }
}

// A message joins under the next number.
fn join(queue: &mut Queue, time: u64, next: u64)
    requires room { 0 < queue.old.spare }
    requires few { length queue.old.list ≤ next }
    requires small { next < 10000 }
    requires before { All (λ m. m.seq < next) queue.old.list }
    ensures before { All (λ m. m.seq < next + 1) queue.new.list }
    ensures few { length queue.new.list ≤ next + 1 }
    ensures spare { queue.new.spare ≡ queue.old.spare - 1 }
{
    queue.push_body(time, next, 1, 1, &Body::Wake);
}

// When a message comes, and its number.
fn key(message: Option<Message>) -> Option<(u64, u64)> {
    let message = message?;
    Some((message.time, message.seq))
}

// Ends a test where two messages differ, and prints their keys where these do.
fn same(rt: &impl Abort, told: Option<Message>, hoped: Option<Message>) {
    equal(rt, key(told), key(hoped));
    holds(rt, told == hoped);
}

// A question of agent 1 to the exchange.
fn question(time: u64, seq: u64) -> Message {
    Message {
        time,
        seq,
        from: 1,
        to: 0,
        body: Body::Ask(0),
    }
}

// A question joins under the next number.
fn ask(queue: &mut Queue, time: u64, next: u64)
    requires room { 0 < queue.old.spare }
    requires few { length queue.old.list ≤ next }
    requires small { next < 10000 }
    requires before { All (λ m. m.seq < next) queue.old.list }
    ensures before { All (λ m. m.seq < next + 1) queue.new.list }
    ensures few { length queue.new.list ≤ next + 1 }
    ensures spare { queue.new.spare ≡ queue.old.spare - 1 }
{
    queue.push_body(time, next, 1, 0, &Body::Ask(0));
}

// The least message is put back to a time.
fn put_back(queue: &mut Queue, time: u64, next: u64) -> Option<Message>
    requires before { All (λ m. m.seq < next) queue.old.list }
    ensures before { All (λ m. m.seq < next) queue.new.list }
    ensures same { length queue.new.list ≡ length queue.old.list }
    ensures spare { queue.new.spare ≡ queue.old.spare }
{
    let least = queue.peek_least().copied();
    queue.delay_least(time);
    least
}

// The least message leaves.
fn leave(queue: &mut Queue, next: u64) -> Option<Message>
    requires before { All (λ m. m.seq < next) queue.old.list }
    ensures before { All (λ m. m.seq < next) queue.new.list }
    ensures fewer { length queue.new.list ≤ length queue.old.list }
    ensures spare { queue.old.spare ≤ queue.new.spare }
{
    let least = queue.peek_least().copied();
    queue.drop_least();
    least
}

// The queue as a plain program: a list that each call walks.
#[derive(Drop)]
struct PlainQueue {
    messages: Vec<Message>,
}

// Whether a message is due before another.
fn is_before(a: &Message, b: &Message) -> bool {
    a.time < b.time || (a.time == b.time && a.seq < b.seq)
}

impl PlainQueue {
    fn push(&mut self, rt: &impl Abort, m: Message) {
        holds(rt, self.messages.push(m).is_ok());
    }

    fn least(&self) -> Option<Message> {
        let mut least: Option<Message> = None;
        for m in &self.messages {
            match least {
                Some(x) if is_before(&x, m) => {}
                _ => least = Some(*m),
            }
        }
        least
    }

    // The place of the message of a number.
    fn place_of(&self, seq: u64) -> Option<usize> {
        for (i, m) in self.messages.iter().enumerate() {
            if m.seq == seq {
                return Some(i);
            }
        }
        None
    }

    fn pop_least(&mut self) -> Option<Message> {
        let least = self.least()?;
        let at = self.place_of(least.seq)?;
        if at >= self.messages.len() {
            return None;
        }
        Some(self.messages.remove(at))
    }
}

// Compares a list of messages, and all that leaves a queue, with what leaves the plain queue.
fn assert_same(rt: &impl Abort, listed: &[Message], queue: &mut Queue, plain: &mut PlainQueue) {
    equal(rt, listed.len(), plain.messages.len());
    for message in listed {
        let least = plain.pop_least();
        holds(rt, Some(*message) == least);
        same(rt, queue.peek_least().copied(), least);
        queue.drop_least();
    }
    equal(rt, queue.len(), 0);
    queue.drop_least();
    same(rt, queue.peek_least().copied(), None);
}

// The least message of both is put back to a time.
fn put_back_both(rt: &impl Abort, queue: &mut Queue, plain: &mut PlainQueue, time: u64, next: u64)
    requires before { All (λ m. m.seq < next) queue.old.list }
    ensures before { All (λ m. m.seq < next) queue.new.list }
    ensures same { length queue.new.list ≡ length queue.old.list }
    ensures spare { queue.new.spare ≡ queue.old.spare }
{
    let least = plain.pop_least();
    same(rt, put_back(queue, time, next), least);
    if let Some(m) = least {
        plain.push(rt, Message { time, ..m });
    }
}

// Compares lists of what waits, and all that leaves a copy of a queue, with what leaves the plain queue.
fn assert_copied(rt: &impl Abort, alloc: Global, queue: &Queue, plain: &mut PlainQueue) {
    let listed = queue.messages(alloc).expect(rt, "memory");
    let mut copy = queue.copy(alloc).expect(rt, "memory");
    assert_same(rt, listed.as_slice(), &mut copy, plain);
    equal(rt, queue.len(), listed.len());
    drop(copy);
}

// A wakeup joins both, and the least message of both is put back, leaves or stays.
fn one_step(rt: &impl Abort, queue: &mut Queue, plain: &mut PlainQueue, next: u64)
    requires room { 0 < queue.old.spare }
    requires few { length queue.old.list ≤ next }
    requires small { next < 10000 }
    requires before { All (λ m. m.seq < next) queue.old.list }
    ensures before { All (λ m. m.seq < next + 1) queue.new.list }
    ensures few { length queue.new.list ≤ next + 1 }
    ensures spare { queue.old.spare ≤ queue.new.spare + 1 }
{
    let time = next.wrapping_mul(7919) % 101;
    join(queue, time, next);
    plain.push(rt, wakeup(time, next));
    if next % 5 == 3 {
        put_back_both(rt, queue, plain, time + 50, next + 1);
    } else if next % 5 < 3 {
        same(rt, leave(queue, next + 1), plain.pop_least());
    }
    equal(rt, queue.len(), plain.messages.len());
}

#[test]
fn agrees_with_a_plain_list(rt: HostRuntime) {
    let mut queue = Queue::new(rt.alloc());
    assert!(rt; queue.reserve(PUSHES as usize).is_ok());
    let mut plain = PlainQueue {
        messages: Vec::new(rt.alloc()),
    };
    for next in 0..PUSHES {
        one_step(&rt, &mut queue, &mut plain, next);
    }
    assert_copied(&rt, rt.alloc(), &queue, &mut plain);
    drop(queue);
}

// Messages join an empty queue under the numbers from 0 on, each a question or a wakeup, and each at its time.
fn join_all(queue: &mut Queue, messages: &[(bool, u64)])
    requires none { queue.old.list ≡ [] }
    requires few { length messages.now ≤ 10000 }
    requires room { length messages.now ≤ queue.old.spare }
    ensures before { All (λ m. m.seq < length messages.now) queue.new.list }
{
    for i in 0..messages.len() {
        let (is_question, time) = messages[i];
        if is_question {
            ask(queue, time, i as u64);
        } else {
            join(queue, time, i as u64);
        }
    }
}

// These messages leave, each a question or a wakeup, with its time and its number.
fn leave_all(rt: &impl Abort, queue: &mut Queue, next: u64, messages: &[(bool, u64, u64)])
    requires { All (λ m. m.seq < next) queue.old.list }
    ensures { All (λ m. m.seq < next) queue.new.list }
{
    for message in messages {
        let (is_question, time, seq) = *message;
        let hoped = if is_question {
            question(time, seq)
        } else {
            wakeup(time, seq)
        };
        same(rt, leave(queue, next), Some(hoped));
    }
}

const FOUR_WAKEUPS: [(bool, u64); 4] = [(false, 1005), (false, 1003), (false, 1004), (false, 1009)];

const FOUR_LEAVE: [(bool, u64, u64); 4] = [
    (false, 1005, 0),
    (false, 1006, 1),
    (false, 1006, 2),
    (false, 1009, 3),
];

#[test]
fn puts_back_the_least_among_several(rt: HostRuntime) {
    let mut queue = Queue::new(rt.alloc());
    assert!(rt; queue.reserve(4).is_ok());
    join_all(&mut queue, &FOUR_WAKEUPS);
    same(&rt, put_back(&mut queue, 1006, 4), Some(wakeup(1003, 1)));
    same(&rt, put_back(&mut queue, 1006, 4), Some(wakeup(1004, 2)));
    equal(&rt, queue.len(), 4);
    leave_all(&rt, &mut queue, 4, &FOUR_LEAVE);
    same(&rt, put_back(&mut queue, 1010, 4), None);
    drop(queue);
}

const FIVE_MESSAGES: [(bool, u64); 5] = [
    (false, 1004),
    (true, 1004),
    (true, 1003),
    (false, 1003),
    (true, 1001),
];

const LAST_LEAVE: [(bool, u64, u64); 4] = [
    (false, 1004, 0),
    (true, 1004, 1),
    (false, 1004, 3),
    (true, 1006, 2),
];

#[test]
fn delivers_wakeups_and_questions_in_one_order(rt: HostRuntime) {
    let mut queue = Queue::new(rt.alloc());
    assert!(rt; queue.reserve(5).is_ok());
    join_all(&mut queue, &FIVE_MESSAGES);
    same(&rt, put_back(&mut queue, 1002, 5), Some(question(1001, 4)));
    same(&rt, leave(&mut queue, 5), Some(question(1002, 4)));
    same(&rt, put_back(&mut queue, 1006, 5), Some(question(1003, 2)));
    same(&rt, put_back(&mut queue, 1004, 5), Some(wakeup(1003, 3)));
    equal(&rt, queue.len(), 4);
    leave_all(&rt, &mut queue, 5, &LAST_LEAVE);
    same(&rt, leave(&mut queue, 5), None);
    drop(queue);
}
