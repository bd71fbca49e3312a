//! How what an agent posts joins the mail.

ghost use Rattle.std.specs.Prelude.{◌≡◌, ◌<◌, ◌≤◌, ◌+◌, ◌^◌, length, map, All};
ghost use Rattle.latency_model.specs.Tables.{group_count};
ghost use Rattle.market_floor.specs.Opening.{IsOpening};
ghost use Rattle.market_floor.specs.Posted.{posting_of, to_exchange, to_receiver};
ghost use Rattle.market_floor.specs.Postings.{IsAddressed};
ghost use Rattle.kernel_core.specs.Send.{all_sent};
ghost use Rattle.kernel_core.specs.Sendable.{IsGrouped};

use crate::Mail;
use crate::mail_laws::openings_are_grouped;
use agent_shell::Sending;
use exchange_agent::Outgoing;
use latency_model::Groups;
use market_floor::{Opening, PostingSeen, Postings};
use market_types::{AgentNo, Time};

// Each reply of the exchange, which leaves at a time, joins in turn, or is dropped.
fn send_replies(
    mail: &mut Mail,
    o: &Opening,
    groups: &Groups,
    from: AgentNo,
    leave: Time,
    replies: &[Outgoing],
)
    requires fits { IsGrouped o.now groups.now }
    requires addressed { All (λ r. IsAddressed (length o.now.traders) (length o.now.stocks) from (to_receiver r)) replies.now }
    requires leaves { leave < 2 ^ 60 }
    requires numbers { mail.old.next_seq + length replies.now < 2 ^ 48 }
    requires drops { mail.old.dropped + length replies.now < 2 ^ 64 }
    ensures mail { mail.new ≡ all_sent o.now groups.now from leave mail.old (map to_receiver replies.now) }
    ensures numbers { mail.new.next_seq ≤ mail.old.next_seq + length replies.now }
    ensures drops { mail.new.dropped ≤ mail.old.dropped + length replies.now }
{
    for reply in replies {
        let seen = PostingSeen::To {
            to: reply.to,
            body: &reply.body,
            extra: 0,
        };
        mail.post(o, groups, from, leave, seen);
    }
}

// What a trader sends to the exchange, seen where it is.
fn sending_seen(sending: &Sending) -> PostingSeen<'_>
    ensures { posting_of result ≡ to_exchange sending.now }
{
    match sending {
        Sending::To { body, extra } => PostingSeen::To {
            to: 0,
            body,
            extra: *extra,
        },
        Sending::WakeAt(time) => PostingSeen::WakeAt(*time),
    }
}

// Each sending of a trader, which leaves at a time, joins in turn, or is dropped.
fn send_sendings(
    mail: &mut Mail,
    o: &Opening,
    groups: &Groups,
    from: AgentNo,
    leave: Time,
    sends: &[Sending],
)
    requires fits { IsGrouped o.now groups.now }
    requires addressed { All (λ s. IsAddressed (length o.now.traders) (length o.now.stocks) from (to_exchange s)) sends.now }
    requires leaves { leave < 2 ^ 60 }
    requires numbers { mail.old.next_seq + length sends.now < 2 ^ 48 }
    requires drops { mail.old.dropped + length sends.now < 2 ^ 64 }
    ensures mail { mail.new ≡ all_sent o.now groups.now from leave mail.old (map to_exchange sends.now) }
    ensures drops { mail.new.dropped ≤ mail.old.dropped + length sends.now }
{
    for sending in sends {
        mail.post(o, groups, from, leave, sending_seen(sending));
    }
}

// Each posting of an agent that leaves at a time joins in turn, or is dropped.
pub(crate) fn send_all(
    mail: &mut Mail,
    o: &Opening,
    groups: &Groups,
    from: AgentNo,
    leave: Time,
    postings: &Postings,
)
    requires opening { IsOpening o.now }
    requires groups { group_count o.now.groups ≡ group_count groups.now }
    requires addressed { All (λ x. IsAddressed (length o.now.traders) (length o.now.stocks) from x) postings.now }
    requires leaves { leave < 2 ^ 60 }
    requires numbers { mail.old.next_seq + length postings.now < 2 ^ 48 }
    requires drops { mail.old.dropped + length postings.now < 2 ^ 64 }
    ensures mail { mail.new ≡ all_sent o.now groups.now from leave mail.old postings.now }
    ensures drops { mail.new.dropped ≤ mail.old.dropped + length postings.now }
{
    openings_are_grouped();
    let (replies, sends) = postings.lists();
    send_replies(mail, o, groups, from, leave, replies);
    send_sendings(mail, o, groups, from, leave, sends);
}
