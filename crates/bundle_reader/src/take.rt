//! One frame more.

ghost use Rattle.std.specs.Prelude.{◌≡◌, None, Option, if◌then◌else◌};
ghost use Rattle.bundle_frames.specs.declared.closing.Closing.{Closing as ClosingOf};
ghost use Rattle.bundle_reader.specs.declared.frame.Frame.TheVariants as kind;
ghost use Rattle.bundle_reader.specs.Told.{begun_told, branch_told, reading_told, whole_told};
ghost use Rattle.bundle_reader.specs.Order.{branch_of, is_closed, more_closing, take_closing, take_counts, take_first, take_header, take_next, taken, with_branch};
ghost use Rattle.bundle_reader.specs.Reads.{Puts, Takes};

use crate::bundle::{Bundle, Told};
use crate::entries::{Last, take_entry};
use crate::opening::take_opening;
use crate::reading::{Begun, Misplaced, Reading, Whole};
use crate::{BranchFrame, Frame, closing};
use bundle_frames::Closing;
use market_types::{Feed, FeedList, Memory, Sequence, Trace};
use std::alloc::Global;

impl Reading {
    // What was read with one frame more, where the frame may stand there.
    #[tactic(auto, unfolding(crate::specs::Order::taken))]
    pub(crate) fn take(self, alloc: Global, frame: Frame) -> Result<Reading, Misplaced>
        ensures { Takes (taken (reading_told self) frame) result }
    {
        match self {
            Reading::Start => header(alloc, frame),
            Reading::Between(whole) => next(alloc, whole, frame),
            Reading::Opening(whole, begun) => first(alloc, whole, begun, frame),
            Reading::Entries(whole, begun, entries, last) => {
                take_entry(alloc, whole, begun, entries, last, frame)
            }
            Reading::Ended(whole, begun, entries, ended) => {
                counts(alloc, whole, begun, entries, ended, frame)
            }
            Reading::Closing(whole, begun, entries, ended, closing) => {
                part(alloc, whole, begun, entries, ended, closing, frame)
            }
            Reading::End(bundle) => {
                drop(frame);
                Reading::End(bundle).refused(Misplaced::Order)
            }
        }
    }
}

// The header, which comes first.
fn header(alloc: Global, frame: Frame) -> Result<Reading, Misplaced>
    ensures { Takes (take_header frame) result }
{
    match frame {
        Frame::Header(header) => Ok(Reading::Between(Whole {
            header,
            branches: Sequence::empty(alloc),
        })),
        other => {
            drop(other);
            Err(Misplaced::Order)
        }
    }
}

// A branch or the end, behind a whole branch.
fn next(alloc: Global, whole: Whole, frame: Frame) -> Result<Reading, Misplaced>
    ensures { Takes (take_next (whole_told whole) frame) result }
{
    match frame {
        Frame::Branch(branch) => next_branch(alloc, whole, branch),
        Frame::End(branches) => end(whole, branches),
        other => {
            drop(other);
            Reading::Between(whole).refused(Misplaced::Order)
        }
    }
}

// The branch of the next number, where one is to come.
fn next_branch(alloc: Global, whole: Whole, branch: BranchFrame) -> Result<Reading, Misplaced>
    ensures { Takes (take_next (whole_told whole) (kind.Branch branch)) result }
{
    let count = whole.branches.len();
    if count < usize::from(whole.header.branches) && usize::from(branch.branch) == count {
        let begun = Begun {
            name: branch.name,
            parent: branch.parent,
            stop: branch.stop,
            opening: FeedList::new(alloc),
        };
        Ok(Reading::Opening(whole, begun))
    } else {
        drop(branch);
        Reading::Between(whole).refused(Misplaced::Order)
    }
}

// The end, where no branch is to come and its number of branches is the header's.
fn end(whole: Whole, branches: u16) -> Result<Reading, Misplaced>
    ensures { Takes (take_next (whole_told whole) (kind.End branches)) result }
{
    let all = whole.header.branches;
    if whole.branches.len() == usize::from(all) && branches == all {
        Ok(Reading::End(Bundle {
            agents: whole.header.agents,
            stocks: whole.header.stocks,
            branches: whole.branches,
        }))
    } else {
        Reading::Between(whole).refused(Misplaced::Order)
    }
}

// A message of the opening.
fn first(alloc: Global, whole: Whole, begun: Begun, frame: Frame) -> Result<Reading, Misplaced>
    ensures { Takes (take_first (whole_told whole) (begun_told begun) frame) result }
{
    match frame {
        Frame::Message(message) => take_opening(alloc, whole, begun, message),
        other => {
            drop(other);
            Reading::Opening(whole, begun).refused(Misplaced::Order)
        }
    }
}

// The counters, with which a closing begins.
fn counts(
    alloc: Global,
    whole: Whole,
    begun: Begun,
    entries: Trace,
    ended: Feed,
    frame: Frame,
) -> Result<Reading, Misplaced>
    ensures { Takes (take_counts (whole_told whole) (begun_told begun) entries.list ended frame) result }
{
    match frame {
        Frame::Counts(counts) => {
            let closing = Closing {
                counts,
                stocks: Sequence::empty(alloc),
                orders: Sequence::empty(alloc),
                agents: Sequence::empty(alloc),
            };
            Ok(Reading::Closing(whole, begun, entries, ended, closing))
        }
        other => {
            drop(other);
            Reading::Ended(whole, begun, entries, ended).refused(Misplaced::Order)
        }
    }
}

// A part of a closing, or what follows it.
fn part(
    alloc: Global,
    whole: Whole,
    begun: Begun,
    entries: Trace,
    ended: Feed,
    mut closing: Closing,
    frame: Frame,
) -> Result<Reading, Misplaced>
    ensures { Takes (take_closing (whole_told whole) (begun_told begun) entries.list ended closing frame) result }
{
    let stocks = whole.header.stocks;
    match frame {
        Frame::Stock(stock) => {
            let put = closing::put_stock(&mut closing, stocks, stock);
            with_part(whole, begun, entries, ended, closing, put)
        }
        Frame::Order(order) => {
            let put = closing::put_order(&mut closing, stocks, order);
            with_part(whole, begun, entries, ended, closing, put)
        }
        Frame::Agent(agent) => {
            let put = closing::put_agent(&mut closing, stocks, whole.header.agents, agent);
            with_part(whole, begun, entries, ended, closing, put)
        }
        other => behind(alloc, whole, begun, entries, ended, closing, other),
    }
}

// A closing with one part more, where it was put.
fn with_part(
    whole: Whole,
    begun: Begun,
    entries: Trace,
    ended: Feed,
    closing: Closing,
    put: Result<(), Misplaced>,
) -> Result<Reading, Misplaced>
    ensures { (after : Option ClosingOf) → Puts after closing put → Takes (more_closing (whole_told whole) (begun_told begun) entries.list ended after) result }
{
    let next = Reading::Closing(whole, begun, entries, ended, closing);
    match put {
        Ok(()) => Ok(next),
        Err(why) => next.refused(why),
    }
}

// A branch that was read whole.
fn whole_branch(begun: Begun, entries: Trace, ended: Feed, closing: Closing) -> Told
    ensures { branch_told result ≡ branch_of (begun_told begun) entries.list ended closing }
{
    Told {
        name: begun.name,
        parent: begun.parent,
        stop: begun.stop,
        opening: begun.opening,
        entries,
        ended,
        closing,
    }
}

// What follows a closing that is whole.
fn behind(
    alloc: Global,
    mut whole: Whole,
    begun: Begun,
    entries: Trace,
    ended: Feed,
    closing: Closing,
    frame: Frame,
) -> Result<Reading, Misplaced>
    ensures { Takes (if is_closed whole.header closing then take_next (with_branch (whole_told whole) (branch_of (begun_told begun) entries.list ended closing)) frame else None) result }
{
    if closing.stocks.len() != usize::from(whole.header.stocks)
        || closing.agents.len() != usize::from(whole.header.agents)
    {
        drop(frame);
        return Reading::Closing(whole, begun, entries, ended, closing).refused(Misplaced::Order);
    }
    let told = whole_branch(begun, entries, ended, closing);
    if let Err(Memory) = whole.branches.push(told) {
        drop(frame);
        return Reading::Between(whole).refused(Misplaced::Memory);
    }
    next(alloc, whole, frame)
}
