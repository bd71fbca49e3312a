//! Laws of the definitions for a caller of the mail.

ghost use Rattle.std.specs.Prelude.{◌≡◌, ◌<◌, ◌≤◌, ◌+◌, ℕ, List, [], ◌∷◌, ◌++◌, Some, All, length};
ghost use Rattle.market_types.specs.Limits.{most_waiting};
ghost use Rattle.market_types.specs.declared.message.Message.{Message};
ghost use Rattle.market_types.specs.declared.order.Inbound.{Inbound};
ghost use Rattle.latency_model.specs.Tables.{Tables, group_count};
ghost use Rattle.event_queue.specs.Waiting.{joined, least};
ghost use Rattle.market_floor.specs.Opening.{IsOpening};
ghost use Rattle.market_floor.specs.Postings.{IsAddressed, IsAmong, earliest_of};
ghost use Rattle.kernel_core.specs.Post.{IsOrderly, Post, joins, nothing_waits, put_back, taken};
ghost use Rattle.kernel_core.specs.Send.{all_sent, injected, message_of, sent};
ghost use Rattle.kernel_core.specs.Sendable.{IsGrouped};
ghost use Rattle.kernel_core.specs.SoundMail.{IsSoundMail};

use market_floor::{Opening, Posting};

/// A message joins under the next number where there is room; else it is counted as dropped, and the mail is
/// otherwise as it was.
pub fn a_message_joins_or_is_dropped()
    ensures room { (p : Post) (m : ℕ → Message) → length p.waiting < most_waiting → joins p m ≡ record { waiting = joined (m p.next_seq) p.waiting; next_seq = p.next_seq + 1; dropped = p.dropped } }
    ensures full { (p : Post) (m : ℕ → Message) → most_waiting ≤ length p.waiting → joins p m ≡ record p { dropped = p.dropped + 1 } }
    ensures counted { (p : Post) (m : ℕ → Message) → (joins p m).next_seq + (joins p m).dropped ≡ p.next_seq + p.dropped + 1 }
    ensures held { (p : Post) (m : ℕ → Message) → (joins p m).next_seq + length p.waiting ≡ p.next_seq + length (joins p m).waiting }
{}

/// Postings join one by one, and each of them is numbered or dropped.
pub fn postings_join_one_by_one()
    ensures next { (o : Opening) (groups : Tables) (from leave : ℕ) (p : Post) (xs : List Posting) (x : Posting) →
        all_sent o groups from leave p (xs ++ x ∷ []) ≡ sent o groups from leave (all_sent o groups from leave p xs) x }
    ensures counted { (o : Opening) (groups : Tables) (from leave : ℕ) (p : Post) (xs : List Posting) →
        (all_sent o groups from leave p xs).next_seq + (all_sent o groups from leave p xs).dropped ≡ p.next_seq + p.dropped + length xs }
{}

/// Each agent is in one of the groups of the tables in force, where these have as many groups as those of an
/// opening in its ranges.
pub fn openings_are_grouped()
    ensures { (o : Opening) (groups : Tables) → IsOpening o → group_count o.groups ≡ group_count groups → IsGrouped o groups }
{}

/// What a run keeps of the mail holds before the first message. It stays as messages are sent that may be, as
/// orders of traders are injected, and as the next message leaves or is put back in an event.
pub fn mail_stays_sound()
    ensures begun { (traders stocks time : ℕ) → IsSoundMail traders stocks time 0 nothing_waits }
    ensures sent { (o : Opening) (groups : Tables) (traders stocks time events from leave : ℕ) (p : Post) (xs : List Posting) →
        time ≤ leave → All (λ x. IsAddressed traders stocks from x) xs → All (λ x. time ≤ earliest_of time x) xs →
        IsSoundMail traders stocks time events p → IsSoundMail traders stocks time events (all_sent o groups from leave p xs) }
    ensures injected { (traders stocks time events from at : ℕ) (order : Inbound) (p : Post) →
        1 ≤ from → from ≤ traders → time ≤ at →
        IsSoundMail traders stocks time events p → IsSoundMail traders stocks time events (injected from at order p) }
    ensures taken { (traders stocks time events : ℕ) (p : Post) (m : Message) → least p.waiting ≡ Some m →
        IsSoundMail traders stocks time events p → IsSoundMail traders stocks m.time (events + 1) (taken p m) }
    ensures put_back { (traders stocks time events until : ℕ) (p : Post) (m : Message) → least p.waiting ≡ Some m → m.time ≤ until →
        IsSoundMail traders stocks time events p → IsSoundMail traders stocks m.time (events + 1) (put_back p m until) }
    ensures next { (traders stocks time events : ℕ) (p : Post) (m : Message) → least p.waiting ≡ Some m →
        IsSoundMail traders stocks time events p → IsAmong traders stocks m }
    ensures soonest { (traders stocks time events : ℕ) (p : Post) (m : Message) → least p.waiting ≡ Some m →
        IsSoundMail traders stocks time events p → time ≤ m.time }
{}
