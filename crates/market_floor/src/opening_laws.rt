//! Laws of openings.

ghost use Rattle.std.specs.Prelude.{◌<◌, ◌≤◌, ℕ, length, slice_index_or};
ghost use Rattle.fundamental_series.specs.Made.{first_time_of};
ghost use Rattle.latency_model.specs.Tables.{group_count};
ghost use Rattle.market_floor.specs.Groups.{group_of};
ghost use Rattle.market_floor.specs.Opening.{IsOpening, no_series};

use crate::opening::Opening;

/// Each stock has a value from the start on.
pub fn stocks_have_values()
    ensures { (o : Opening) (k : ℕ) → IsOpening o → k < length o.stocks → first_time_of (slice_index_or o.series k no_series) ≤ o.start }
{}

/// The group of each agent is one of the tables' groups.
pub fn agents_have_groups()
    ensures { (o : Opening) (agent : ℕ) → IsOpening o → agent ≤ length o.traders → group_of o agent < group_count o.groups }
{}
