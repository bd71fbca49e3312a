//! Laws of what the feed of an exchange tells: for every list of messages and changes.

ghost use Rattle.std.specs.Prelude.{◌≡◌, ◌++◌, ℕ, ℤ, Bool, List, Result, Ok, length};
ghost use Rattle.std.specs.List.{AllByRecursion};
ghost use Rattle.exchange_agent.specs.Open.{IsOpening, opened};
ghost use Rattle.exchange_agent.specs.Runs.{Act, IsPossible, run};
ghost use Rattle.exchange_agent.specs.declared.told.StockRules.{StockRules};
ghost use Rattle.market_laws.specs.Feeds.{feed_over};
ghost use Rattle.market_laws.specs.Shown.{IsShownBy};
ghost use Rattle.feed_rebuild.specs.Fold.{Told, fold, told_by};
ghost use Rattle.market_types.specs.declared.feed.Feed.{Feed};

use price_time_book::keeping::matching_goes_on;
use price_time_book::laws::{matching_ends, next_is_best};

/// From an opening on, whatever messages and changes come: each message of the feed can be applied to what was told
/// before it, and what is told in the end is the exchange's displayed orders, stock by stock, and its trading states.
pub fn feeds_tell_the_books()
    ensures { (rules : List StockRules) (cash : List ℤ) (hidden : Bool) (acts : List Act) →
        IsOpening rules cash →
        AllByRecursion (IsPossible (length cash) (length rules)) acts →
        (t : Told) ×
        (fold (length rules) (feed_over (opened rules cash hidden) acts) ≡ Ok t) ×
        IsShownBy (run (opened rules cash hidden) acts) t }
{
    matching_ends();
    matching_goes_on();
    next_is_best();
}

/// What a feed tells goes on from what the first part of it told.
pub fn folds_go_on()
    ensures told { (r : Result Told ℕ) (before after : List Feed) →
        told_by r (before ++ after) ≡ told_by (told_by r before) after }
    ensures folded { (stocks : ℕ) (before after : List Feed) →
        fold stocks (before ++ after) ≡ told_by (fold stocks before) after }
{}
