use crate::facts::{equal, holds};
use market_types::{Body, Entry, Feed, FeedList, Record, Roomy, Trace, What};
use std::alloc::Global;
use std::process::Abort;

fn closing(time: u64) -> Feed {
    Feed {
        locate: 0,
        tracking: 0,
        time,
        what: What::System { code: b'C' },
    }
}

fn event(alloc: Global, number: u32, feed: FeedList) -> Record {
    Record {
        number,
        time: 1000,
        seq: 0,
        from: 1,
        to: 1,
        put_back: false,
        until: 1000,
        fee: -3,
        body: Body::Wake,
        before: FeedList::new(alloc),
        after: feed,
    }
}

// Two closings in a list, and whether each call went well.
fn joins_two(feed: &mut FeedList) -> bool {
    feed.reserve(2).is_ok() & feed.push(closing(1)).is_ok() & feed.push(closing(2)).is_ok()
}

// Whether the messages of a list have these times.
fn have_times(feed: &FeedList, times: &[u64]) -> bool {
    for (message, time) in feed.as_slice().iter().zip(times) {
        if message.time != *time {
            return false;
        }
    }
    feed.len() == times.len()
}

// A copy of a list of two is appended to it.
fn append_itself(rt: &impl Abort, alloc: Global, feed: &mut FeedList) {
    let copy = feed.copy(alloc).expect(rt, "memory");
    holds(rt, feed.append_copy(&copy).is_ok());
    holds(rt, copy.len() == 2);
    drop(copy);
}

#[test]
fn feeds_grow_and_are_copied(rt: HostRuntime) {
    let alloc = rt.alloc();
    let mut feed = FeedList::new(alloc);
    holds(&rt, feed.is_empty() & feed.get(0).is_none());
    holds(&rt, joins_two(&mut feed));
    append_itself(&rt, alloc, &mut feed);
    holds(&rt, feed.len() == 4);
    holds(&rt, have_times(&feed, &[1, 2, 1, 2]));
    drop(feed);
}

// Whether the second entry of a trace is event 7 with a fee of -3 and two feed messages.
fn has_event_next(trace: &Trace) -> bool {
    match trace.get(1) {
        Some(Entry::Event(last)) => {
            (last.number == 7) & (last.fee == -3) & (last.after.len() == 2)
        }
        _ => false,
    }
}

// A trace of event 7.
fn one_event(rt: &impl Abort, alloc: Global) -> Trace {
    let mut feed = FeedList::new(alloc);
    holds(rt, joins_two(&mut feed));
    let mut trace = Trace::new(alloc);
    holds(rt, trace.reserve(1).is_ok());
    holds(rt, trace.push(Entry::Event(event(alloc, 7, feed))).is_ok());
    trace
}

// A trace of one entry is appended twice to an empty one.
fn append_twice(rt: &impl Abort, longer: &mut Trace, trace: &Trace) {
    holds(rt, longer.append_copy(trace).is_ok());
    holds(rt, longer.append_copy(trace).is_ok());
    equal(rt, (trace.len(), longer.len()), (1, 2));
}

#[test]
fn traces_grow_and_are_copied(rt: HostRuntime) {
    let trace = one_event(&rt, rt.alloc());
    let mut longer = Trace::new(rt.alloc());
    append_twice(&rt, &mut longer, &trace);
    drop(trace);
    holds(&rt, has_event_next(&longer));
    drop(longer);
}

// Four numbers join, the last of them by a list, and whether each call went well.
fn joins_four(numbers: &mut Roomy<u32>, last: Vec<u32>) -> bool {
    numbers.reserve(1).is_ok()
        & numbers.push(5).is_ok()
        & numbers.append_slice(&[6, 7]).is_ok()
        & numbers.append(last).is_ok()
}

#[test]
fn numbers_grow(rt: HostRuntime) {
    let last = [8].to_vec(rt.alloc()).expect(&rt, "memory");
    let mut numbers: Roomy<u32> = Roomy::new(rt.alloc());
    holds(&rt, joins_four(&mut numbers, last));
    holds(&rt, numbers.as_slice() == [5, 6, 7, 8].as_slice());
}
