ghost use Rattle.std.specs.Prelude.{◌≡◌, [], IfOk, length};

use crate::facts::holds;
use bundle_frames::{
    ClosingAgent, ClosingCounts, ClosingOrder, ClosingStock, EventHead, Written, put_all,
    put_branch, put_end, put_header, put_parts, put_parts_with_feed,
};
use market_types::{
    Body, EditMark, Entry, Feed, FeedList, Memory, Record, Sequence, Side, Token, What,
};
use std::alloc::Global;

const COUNTS: ClosingCounts = ClosingCounts {
    end: b'-',
    events: 1,
    time: 1000,
    next_seq: 1,
    waiting: 0,
    dropped: 0,
    enters: 0,
    cancels: 0,
    orders: 1,
    matches: 0,
};

const STOCK: ClosingStock = ClosingStock {
    stock: 0,
    state: b'T',
    last: 0,
    matched: 0,
    fees: 0,
    offset: 0,
    live: 1,
};

const ORDER: ClosingOrder = ClosingOrder {
    reference: 1,
    agent: 1,
    token: Token(*b"T0001000000001"),
    side: Side::Buy,
    intended: 100,
    left: 100,
    stock: 0,
    price: 100_000,
    tif: 99_999,
    shown: true,
};

const HEAD: EventHead = EventHead {
    number: 1,
    time: 1000,
    seq: 0,
    from: 1,
    to: 0,
    put_back: false,
    until: 1000,
    fee: 0,
};

fn wakeup(alloc: Global) -> Record
    ensures before { result.before.list ≡ [] }
    ensures after { result.after.list ≡ [] }
{
    Record {
        number: 1,
        time: 1000,
        seq: 0,
        from: 1,
        to: 1,
        put_back: false,
        until: 1000,
        fee: 0,
        body: Body::Wake,
        before: FeedList::new(alloc),
        after: FeedList::new(alloc),
    }
}

fn edit(alloc: Global) -> EditMark
    ensures { result.feed.list ≡ [] }
{
    EditMark {
        events: 1,
        time: 1000,
        branch: 0,
        index: 0,
        letter: b'T',
        feed: FeedList::new(alloc),
    }
}

fn agent(alloc: Global) -> Result<ClosingAgent, Memory>
    ensures { IfOk result (λ a. length a.positions ≡ 1) }
{
    let mut positions = Vec::new(alloc);
    positions.push(100)?;
    Ok(ClosingAgent {
        agent: 1,
        silenced: false,
        time: 1000,
        tokens: 1,
        draws: 0,
        cash: 0,
        own_cash: 0,
        own_position: 100,
        live: 1,
        quotes: 0,
        positions: Sequence::new(positions),
    })
}

const ENDED: Feed = Feed {
    locate: 0,
    tracking: 0,
    time: 1000,
    what: What::System { code: b'C' },
};

const ALL: usize = 11 + 16 + 14 + 45 + 20 + 47 + 45 + 68 + 46 + 46 + 46 + 80 + 5;

// The frames before a trace, and whether each call went well.
fn puts_head(out: &mut Vec<u8>) -> bool {
    put_header(out, 2, 1, 1).is_ok()
        & put_branch(out, 0, 65_535, 0, b"root").is_ok()
        & ENDED.put(out).is_ok()
}

// Those of an event and of an edit.
fn puts_entries(alloc: Global, out: &mut Vec<u8>) -> bool {
    let event = Entry::Event(wakeup(alloc));
    let is_put = event.put(out).is_ok();
    drop(event);
    let edit = Entry::Edit(edit(alloc));
    let both = is_put & edit.put(out).is_ok();
    drop(edit);
    both
}

// Those of events by their parts.
fn puts_parts(out: &mut Vec<u8>) -> bool {
    put_parts(out, &HEAD, &Body::Ask(0)).is_ok()
        & put_parts_with_feed(out, &HEAD, &Body::Wake, &[], &[]).is_ok()
}

// Those of a closing state and of the end.
fn puts_closing(out: &mut Vec<u8>, agent: &ClosingAgent) -> bool
    requires { length agent.now.positions ≡ 1 }
{
    COUNTS.put(out).is_ok()
        & put_all(out, &[STOCK, STOCK]).is_ok()
        & put_all(out, &[ORDER]).is_ok()
        & agent.put(out).is_ok()
        & put_end(out, 1).is_ok()
}

#[test]
fn each_frame_has_its_length(rt: HostRuntime) {
    let alloc = rt.alloc();
    let mut out = Vec::new(alloc);
    holds(&rt, puts_head(&mut out));
    holds(&rt, puts_entries(alloc, &mut out));
    holds(&rt, puts_parts(&mut out));
    let agent = agent(alloc).expect(&rt, "memory");
    holds(&rt, puts_closing(&mut out, &agent));
    drop(agent);
    holds(&rt, out.len() == ALL);
}
