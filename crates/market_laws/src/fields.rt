//! Laws of what the entries of a course's runs hold, field by field.

ghost use Rattle.std.specs.Prelude.{◌<◌, ℕ, All, length};
ghost use Rattle.bundle_reader.specs.Bundle.{HasFeed};
ghost use Rattle.kernel_copy.specs.Courses.{CourseTold, IsCourse};
ghost use Rattle.kernel_copy.specs.Full.{full};
ghost use Rattle.market_laws.specs.Fields.{HasFeedInRange, HasMark};
ghost use Rattle.market_laws.specs.Market.{exchange_of};
ghost use Rattle.market_laws.specs.Texts.{AreMessagesSpelled, HasEventTexts, HasStockTexts};

use crate::laws::{live_orders_of_courses_are_small, runs_are_what_the_exchange_met};
use crate::named::feeds_name_their_stocks;
use kernel_copy::laws::courses_stay_in_range;

/// Before each event of a run stand trading actions, after it messages on orders; a halt or a resume of a branch has
/// at most the one trading action of its own time, and any other edit has no feed.
pub fn feeds_are_of_their_kinds()
    ensures { (c : CourseTold) (b e : ℕ) → All HasFeed (full c.opening c.plan b e).entries }
{}

/// Each field of each message of a run's feed is in its range: its numbers are small, its stock is one of the
/// opening's, and its time is in the hours.
pub fn feeds_stay_in_range()
    ensures { (c : CourseTold) (b e : ℕ) → IsCourse c → b < length c.plan.branches →
        All HasFeedInRange (full c.opening c.plan b e).entries }
{
    courses_stay_in_range();
    runs_are_what_the_exchange_met();
    live_orders_of_courses_are_small();
    feeds_name_their_stocks();
}

/// Each edit of a run is marked with at most 1,000,000 events, a time of the day, one of 256 branches and one of 16
/// places there.
pub fn edits_are_marked()
    ensures { (c : CourseTold) (b e : ℕ) → IsCourse c → b < length c.plan.branches →
        All HasMark (full c.opening c.plan b e).entries }
{}

/// The texts of each event's order or reply are in their ranges, and so are those of the stocks that a run leaves, where
/// those of the orders are that the branches' edits inject: traders send symbols of the opening's stocks and tokens of
/// their own, and the exchange replies with what it was sent. A trading state, also one that a quote tells, is a byte.
pub fn texts_stay_in_range()
    ensures events { (c : CourseTold) (b e : ℕ) → IsCourse c → AreMessagesSpelled c →
        All HasEventTexts (full c.opening c.plan b e).entries }
    ensures stocks { (c : CourseTold) (b e : ℕ) → IsCourse c → AreMessagesSpelled c →
        All HasStockTexts (exchange_of (full c.opening c.plan b e)).stocks }
{}
