//! Laws of what a feed says beside its numbers: which stock, and when.

ghost use Rattle.std.specs.Prelude.{◌≡◌, List, All};
ghost use Rattle.market_types.specs.declared.feed.Feed.{Feed};
ghost use Rattle.exchange_agent.specs.Runs.{Act};
ghost use Rattle.exchange_agent.specs.State.{State};
ghost use Rattle.market_laws.specs.Feeds.{feed_by, feed_over};
ghost use Rattle.market_laws.specs.Named.{NamesItsStock, time_of};

/// From any state on, whatever messages and changes come, each message of the feed that gives a symbol gives that
/// of the stock whose locate it has, which no message and no change of rules alters.
pub fn feeds_name_their_stocks()
    ensures { (s : State) (acts : List Act) → All (NamesItsStock s) (feed_over s acts) }
{}

/// What a message or a change has told has its time.
pub fn feeds_tell_the_time()
    ensures { (s : State) (a : Act) → All (λ (m : Feed). m.time ≡ time_of a) (feed_by s a) }
{}
