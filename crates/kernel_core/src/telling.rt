//! What an event does on the floor, and how a keeper is told of it.

ghost use Rattle.std.specs.Prelude.{◌≡◌, ◌<◌, ◌≤◌, ◌+◌, ℕ, [], pos, true, All, IfOk, OnOk, OnErr, length, nat_lt};
ghost use Rattle.market_types.specs.Limits.{last_time};
ghost use Rattle.market_types.specs.Timely.{AreTimely};
ghost use Rattle.market_rules.specs.Changes.{dated_by};
ghost use Rattle.market_floor.specs.Postings.{IsAmong};
ghost use Rattle.market_floor.specs.Reaction.{ArePosted, IsTold, reaction};
ghost use Rattle.market_floor.specs.Ruled.{ruled};
ghost use Rattle.market_floor.specs.Sound.{FitsFloor, IsSoundFloor};
ghost use Rattle.kernel_core.specs.Seen.{seen_told};

use crate::keeper::{EventSeen, Keeper};
use market_floor::laws::floors_stay_sound;
use market_floor::{Floor, Happening, Opening};
use market_types::{FeedList, Memory, Message, Time};
use std::alloc::Global;

// The dated changes that are due at a time are made on the floor, where the first so many were made before and the caller says
// whether one is due. Their feed takes the place of what a list told, which keeps its memory.
fn rule_into(
    alloc: Global,
    o: &Opening,
    applied: usize,
    is_due: bool,
    time: Time,
    floor: &mut Floor,
    before: &mut FeedList,
) -> Result<(), Memory>
    requires fits { FitsFloor o.now floor.old }
    requires due { is_due ≡ nat_lt applied (dated_by o.now.dated time) }
    ensures floor { OnOk result (floor.new ≡ (ruled o.now applied time floor.old).floor) }
    ensures feed { OnOk result (before.new.list ≡ (ruled o.now applied time floor.old).feed) }
    ensures times { OnOk result (All (λ f. f.time ≤ time) before.new.list) }
    ensures sound { (n : ℕ) → IsSoundFloor n floor.old → IsSoundFloor n floor.new }
    ensures stocks { length floor.new.exchange.stocks ≡ length floor.old.exchange.stocks }
    ensures traders { length floor.new.parties ≡ length floor.old.parties }
    ensures refused { OnErr result (floor.new ≡ floor.old) }
{
    if !is_due {
        before.clear();
        return Ok(());
    }
    let Ok(feed) = floor.rule(alloc, o, applied, time) else {
        return Err(Memory);
    };
    *before = feed;
    Ok(())
}

// What a message does on the floor: the dated changes up to its time are made, where the caller says whether one is due, and then
// it is delivered, or does nothing where its receiver is busy until later. The answer is the receiver's own time afterwards, in
// nanoseconds past midnight. What happened takes the place of all that was told.
pub(crate) fn meet(
    alloc: Global,
    o: &Opening,
    applied: usize,
    is_due: bool,
    busy: Time,
    m: &Message,
    floor: &mut Floor,
    out: &mut Happening,
) -> Result<Time, Memory>
    requires fits { FitsFloor o.now floor.old }
    requires sound { IsSoundFloor 1000000 floor.old }
    requires among { IsAmong (length floor.old.parties) (length floor.old.exchange.stocks) m.now }
    requires start { o.now.start ≤ m.now.time }
    requires close { m.now.time ≤ o.now.close }
    requires early { m.now.time ≤ last_time }
    requires due { is_due ≡ nat_lt applied (dated_by o.now.dated m.now.time) }
    ensures until_back { IfOk result (λ t. m.now.time < busy → t ≡ busy) }
    ensures until { IfOk result (λ t. busy ≤ m.now.time → t ≡ m.now.time + (reaction o.now (ruled o.now applied m.now.time floor.old).floor m.now).delay) }
    ensures hour { IfOk result (λ t. busy ≤ m.now.time → t ≤ m.now.time + 3600000000000) }
    ensures floor_back { OnOk result (m.now.time < busy → floor.new ≡ (ruled o.now applied m.now.time floor.old).floor) }
    ensures floor { OnOk result (busy ≤ m.now.time → floor.new ≡ (reaction o.now (ruled o.now applied m.now.time floor.old).floor m.now).floor) }
    ensures feed_back { OnOk result (m.now.time < busy → out.new.after.list ≡ []) }
    ensures fee_back { OnOk result (m.now.time < busy → out.new.fee ≡ pos 0) }
    ensures told { OnOk result (busy ≤ m.now.time → IsTold (reaction o.now (ruled o.now applied m.now.time floor.old).floor m.now) out.new) }
    ensures posted { OnOk result (busy ≤ m.now.time → ArePosted (length floor.old.parties) (length floor.old.exchange.stocks) m.now out.new.postings) }
    ensures before { OnOk result (out.new.before.list ≡ (ruled o.now applied m.now.time floor.old).feed) }
    ensures timely_before { OnOk result (AreTimely out.new.before.list) }
    ensures timely_after { OnOk result (AreTimely out.new.after.list) }
    ensures sound { (n : ℕ) → IsSoundFloor n floor.old → IsSoundFloor (n + 1) floor.new }
    ensures stocks { length floor.new.exchange.stocks ≡ length floor.old.exchange.stocks }
    ensures traders { length floor.new.parties ≡ length floor.old.parties }
    ensures refused { OnErr result (floor.new ≡ floor.old) }
{
    floors_stay_sound();
    if m.time < busy {
        let Ok(()) = rule_into(alloc, o, applied, is_due, m.time, floor, &mut out.before) else {
            return Err(Memory);
        };
        out.after.clear();
        out.fee = 0;
        return Ok(busy);
    }
    let Ok(()) = floor.deliver(alloc, o, applied, is_due, m, out) else {
        return Err(Memory);
    };
    Ok(m.time + out.delay)
}

// A keeper is told an event. The answer is whether it took it. It is the one place that calls a keeper, so that LLVM puts what the
// keeper does into the loop over events.
pub(crate) fn tell<K: Keeper>(
    alloc: Global,
    seen: &EventSeen,
    out: &mut Happening,
    keeper: &mut K,
) -> bool
    requires room { K.ready keeper.old }
    requires before { AreTimely out.old.before.list }
    requires after { AreTimely out.old.after.list }
    ensures taken { result ≡ true → K.told keeper.new ≡ K.with (K.told keeper.old) (seen_told seen.now out.old.before.list out.old.after.list) }
    ensures sure { K.is_sure → result ≡ true }
    ensures postings { out.new.postings ≡ out.old.postings }
{
    match keeper.event(alloc, seen, &mut out.before, &mut out.after) {
        Ok(()) => true,
        Err(Memory) => false,
    }
}
