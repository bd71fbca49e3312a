//! The mail.

ghost use Rattle.std.specs.Prelude.{◌≡◌, ◌<◌, ◌≤◌, ◌+◌, ◌^◌, IfOk, IfSome, IfNone, option_map, length};
ghost use Rattle.std.specs.List.Sorted.{IsPermutation, IsSortedBy};
ghost use Rattle.market_types.specs.Limits.{most_waiting};
ghost use Rattle.event_queue.specs.InOrder.{in_order};
ghost use Rattle.event_queue.specs.Waiting.{before, least};
ghost use Rattle.market_floor.specs.Posted.{posting_of};
ghost use Rattle.market_floor.specs.Postings.{IsAddressed};
ghost use Rattle.kernel_core.specs.Post.{IsOrderly, joins, nothing_waits, put_back, taken};
ghost use Rattle.kernel_core.specs.Send.{injected, sent, under_way};
ghost use Rattle.kernel_core.specs.Sendable.{IsGrouped};

use crate::jitter::Jitter;
use event_queue::Queue;
use latency_model::Groups;
use market_floor::{Opening, Posting, PostingSeen, group_number};
use market_types::{AgentNo, Body, Inbound, MOST_WAITING, Memory, Message, Time};
use std::alloc::Global;
use std::marker::Model;

/// The waiting messages, the next number and the count of dropped messages.
#[derive(Drop)]
pub struct Mail {
    queue: Queue,
    next_seq: u64,
    dropped: u64,
    jitter: Jitter,
}

impl Model for Mail {
    ghost use Rattle.kernel_core.specs.Post.{Post};
    ghost use Rattle.kernel_core.specs.Sendable.{IsMail};

    ghost Value = { Post };

    ghost view = { λ p. record { waiting = p.queue.list; next_seq = p.next_seq; dropped = p.dropped } };

    ghost invariant = { λ p. IsMail p.queue p.next_seq };
}

// How long the message of a number is under way, in nanoseconds.
fn latency(
    jitter: &mut Jitter,
    o: &Opening,
    groups: &Groups,
    from: AgentNo,
    to: AgentNo,
    seq: u64,
) -> Time
    requires fits { IsGrouped o.now groups.now }
    requires sender { from ≤ length o.now.traders }
    requires receiver { to ≤ length o.now.traders }
    ensures value { result ≡ under_way o.now groups.now from to seq }
    ensures bound { result < 2 ^ 60 }
{
    let word = jitter.word(&o.key, seq);
    groups.delay(group_number(o, from), group_number(o, to), word)
}

// A queue with room for as many messages as may wait.
fn roomy(mut queue: Queue) -> Result<Queue, Memory>
    requires { length queue.list ≤ most_waiting }
    ensures list { IfOk result (λ q. q.list ≡ queue.list) }
    ensures room { IfOk result (λ q. most_waiting ≤ length q.list + q.spare) }
{
    let Ok(()) = queue.reserve(MOST_WAITING - queue.len()) else {
        drop(queue);
        return Err(Memory);
    };
    Ok(queue)
}

impl Mail {
    /// Nothing waits, with room for as many messages as may wait.
    pub fn new(alloc: Global) -> Result<Mail, Memory>
        ensures { IfOk result (λ p. p ≡ nothing_waits) }
    {
        let Ok(queue) = roomy(Queue::new(alloc)) else {
            return Err(Memory);
        };
        Ok(Mail {
            queue,
            next_seq: 0,
            dropped: 0,
            jitter: Jitter::new(),
        })
    }

    /// Equal mail, with room for as many messages as may wait.
    pub fn copy(&self, alloc: Global) -> Result<Mail, Memory>
        ensures { IfOk result (λ p. p ≡ self.now) }
    {
        let Ok(copy) = self.queue.copy(alloc) else {
            return Err(Memory);
        };
        let Ok(queue) = roomy(copy) else {
            return Err(Memory);
        };
        Ok(Mail {
            queue,
            next_seq: self.next_seq,
            dropped: self.dropped,
            jitter: Jitter::new(),
        })
    }

    /// The message that is next. `None` where none waits.
    pub fn least(&self) -> Option<&Message>
        ensures least { option_map (λ m. m.now) result ≡ least self.now.waiting }
    {
        self.queue.peek_least()
    }

    /// How many messages wait.
    pub fn len(&self) -> u32
        ensures { result ≡ length self.now.waiting }
    {
        self.queue.len() as u32
    }

    /// The number of the next message that joins.
    pub fn next_seq(&self) -> u64
        ensures { result ≡ self.now.next_seq }
    {
        self.next_seq
    }

    /// How many messages were dropped.
    pub fn dropped(&self) -> u64
        ensures { result ≡ self.now.dropped }
    {
        self.dropped
    }

    /// No more messages wait than may, and each has a number of its own that was given.
    pub fn know_order(&self)
        ensures { IsOrderly self.now }
    {
        self.queue.numbers_rise();
    }

    /// The waiting messages in order of time, and at one time of number.
    pub fn messages(&self, alloc: Global) -> Result<Vec<Message>, Memory>
        ensures listed { IfOk result (λ v. v.items ≡ in_order self.now.waiting) }
        ensures same { IfOk result (λ v. IsPermutation self.now.waiting v.items) }
        ensures sorted { IfOk result (λ v. IsSortedBy before v.items) }
    {
        self.queue.messages(alloc)
    }

    /// The next message leaves. Where none waits, nothing changes.
    pub fn drop_least(&mut self)
        ensures left { IfSome (least self.old.waiting) (λ m. self.new ≡ taken self.old m) }
        ensures few { length self.new.waiting ≤ most_waiting }
        ensures none { IfNone (least self.old.waiting) (self.new ≡ self.old) }
    {
        self.queue.drop_least();
    }

    /// The next message is put back to a time, in nanoseconds past midnight, under its old number. Where
    /// none waits, nothing changes.
    pub fn delay_least(&mut self, time: Time)
        ensures back { IfSome (least self.old.waiting) (λ m. self.new ≡ put_back self.old m time) }
        ensures same { length self.new.waiting ≡ length self.old.waiting }
        ensures few { length self.new.waiting ≤ most_waiting }
        ensures none { IfNone (least self.old.waiting) (self.new ≡ self.old) }
    {
        self.queue.delay_least(time);
    }

    // A message of these parts joins under the next number, or is dropped.
    fn join(&mut self, time: Time, from: AgentNo, to: AgentNo, body: &Body)
        requires numbers { self.old.next_seq < 2 ^ 48 }
        requires drops { self.old.dropped + 1 < 2 ^ 64 }
        ensures joins { self.new ≡ joins self.old (λ seq. record { time = time; seq = seq; from = from; to = to; body = body.now }) }
        ensures counted { self.new.next_seq + self.new.dropped ≡ self.old.next_seq + self.old.dropped + 1 }
    {
        if self.queue.len() < MOST_WAITING {
            let seq = self.next_seq;
            self.queue.push_body(time, seq, from, to, body);
            self.next_seq = seq + 1;
        } else {
            self.dropped += 1;
        }
    }

    /// A posting of an agent that leaves at a time, in nanoseconds past midnight, joins under the next number and is due after
    /// its latency, or is dropped. What it says is read where it stands.
    pub fn post(
        &mut self,
        o: &Opening,
        groups: &Groups,
        from: AgentNo,
        leave: Time,
        posting: PostingSeen,
    )
        requires fits { IsGrouped o.now groups.now }
        requires addressed { IsAddressed (length o.now.traders) (length o.now.stocks) from (posting_of posting) }
        requires leaves { leave < 2 ^ 60 }
        requires numbers { self.old.next_seq < 2 ^ 48 }
        requires drops { self.old.dropped + 1 < 2 ^ 64 }
        ensures sent { self.new ≡ sent o.now groups.now from leave self.old (posting_of posting.entry) }
        ensures counted { self.new.next_seq + self.new.dropped ≡ self.old.next_seq + self.old.dropped + 1 }
    {
        match posting {
            PostingSeen::To { to, body, extra } => {
                let seq = self.next_seq;
                let under_way = latency(&mut self.jitter, o, groups, from, to, seq);
                self.join(leave + extra + under_way, from, to, body);
            }
            PostingSeen::WakeAt(time) => self.join(time, from, from, &Body::Wake),
        }
    }

    /// A posting of an agent that leaves at a time, in nanoseconds past midnight, joins under the next
    /// number and is due after its latency, or is dropped.
    pub fn send(
        &mut self,
        o: &Opening,
        groups: &Groups,
        from: AgentNo,
        leave: Time,
        posting: Posting,
    )
        requires fits { IsGrouped o.now groups.now }
        requires addressed { IsAddressed (length o.now.traders) (length o.now.stocks) from posting }
        requires leaves { leave < 2 ^ 60 }
        requires numbers { self.old.next_seq < 2 ^ 48 }
        requires drops { self.old.dropped + 1 < 2 ^ 64 }
        ensures sent { self.new ≡ sent o.now groups.now from leave self.old posting }
        ensures counted { self.new.next_seq + self.new.dropped ≡ self.old.next_seq + self.old.dropped + 1 }
    {
        match &posting {
            Posting::To { to, body, extra } => {
                let seen = PostingSeen::To {
                    to: *to,
                    body,
                    extra: *extra,
                };
                self.post(o, groups, from, leave, seen);
            }
            Posting::WakeAt(time) => {
                self.post(o, groups, from, leave, PostingSeen::WakeAt(*time));
            }
        }
    }

    /// An order of a trader joins under the next number and is due at a time, in nanoseconds past
    /// midnight, whatever the latency, or is dropped.
    pub fn inject(&mut self, from: AgentNo, time: Time, order: Inbound)
        requires numbers { self.old.next_seq < 2 ^ 48 }
        requires drops { self.old.dropped + 1 < 2 ^ 64 }
        ensures injected { self.new ≡ injected from time order self.old }
        ensures counted { self.new.next_seq + self.new.dropped ≡ self.old.next_seq + self.old.dropped + 1 }
    {
        let body = Body::Order(order);
        self.join(time, from, 0, &body);
    }
}
