//! Laws of courses: every study that the rules accept gives one.

ghost use Rattle.std.specs.Prelude.{◌<◌, ℕ, List, All, length};
ghost use Rattle.exchange_agent.specs.Runs.{Act};
ghost use Rattle.branch_tree.specs.Segments.{segment_at, segments_in};
ghost use Rattle.kernel_copy.specs.Courses.{CourseTold, IsCourse};
ghost use Rattle.kernel_copy.specs.Full.{full};
ghost use Rattle.kernel_copy.specs.Segmentwise.{after};
ghost use Rattle.feed_rebuild.specs.Feeds.{entries_feed};
ghost use Rattle.market_laws.specs.Small.{IsSmallExchange, IsSmallFeed};
ghost use Rattle.market_laws.specs.History.{IsMetAs};
ghost use Rattle.market_laws.specs.Market.{IsConservedMarket, IsStateOf, exchange_of};

use crate::small::{live_orders_are_small, matches_are_told};
use exchange_agent::laws::runs_are_conserved;
use kernel_copy::laws::courses_stay_in_range;
use price_time_book::keeping::{a_match_keeps, a_reduce_keeps, fills_add_up, orderly_books_stay};
use price_time_book::laws::{matching_ends, next_is_best};

/// Each state of each branch of a course, at any event number, is one whose exchange met messages of traders and
/// changes of rules since the opening: its state is what they leave, and the run's feed what they tell.
pub fn runs_are_what_the_exchange_met()
    ensures { (c : CourseTold) (b e : ℕ) → IsCourse c → b < length c.plan.branches →
        (acts : List Act) × IsMetAs c.opening (full c.opening c.plan b e) acts }
{
    a_match_keeps();
    a_reduce_keeps();
    fills_add_up();
    orderly_books_stay();
    matching_ends();
    next_is_best();
}

/// In each state of each branch of a course: the settled cash of all traders and all fees are together the opening
/// cash; the positions of each stock sum to zero; its matched shares are those that the run's feed tells as executed;
/// and no two of its live orders cross. So it is in each closing and in each state that is rewound to.
pub fn markets_are_conserved()
    ensures { (c : CourseTold) (b e : ℕ) → IsCourse c → b < length c.plan.branches →
        IsConservedMarket c.opening (full c.opening c.plan b e) }
{
    runs_are_what_the_exchange_met();
    courses_stay_in_range();
    runs_are_conserved();
    matches_are_told();
}

/// In each state of each branch of a course: at most 16,384 orders rest, each with a reference, an agent, a price and
/// shares in their ranges; no more orders were accepted than there were events; and each message of the run's feed is
/// in the same ranges.
pub fn live_orders_of_courses_are_small()
    ensures orders { (c : CourseTold) (b e : ℕ) → IsCourse c → b < length c.plan.branches →
        let r = full c.opening c.plan b e in
        IsSmallExchange (length c.opening.traders) r.state.events (exchange_of r) }
    ensures feed { (c : CourseTold) (b e : ℕ) → IsCourse c → b < length c.plan.branches →
        let r = full c.opening c.plan b e in
        All (IsSmallFeed (length c.opening.stocks) (exchange_of r).counts.orders (exchange_of r).counts.matches) (entries_feed r.entries) }
{
    runs_are_what_the_exchange_met();
    live_orders_are_small();
}

/// Each state of a segment of a course, and so each that is rewound to, is one of a branch's full run: the laws of
/// branches speak of it too.
pub fn segments_stand_on_branches()
    ensures states { (c : CourseTold) (s e : ℕ) → IsCourse c → s < length (segments_in c.plan) →
        IsStateOf c.opening c.plan (segment_at c.plan s).branch (after c.opening c.plan (segment_at c.plan s) e) }
    ensures branches { (c : CourseTold) (s : ℕ) → IsCourse c → s < length (segments_in c.plan) →
        (segment_at c.plan s).branch < length c.plan.branches }
{}
