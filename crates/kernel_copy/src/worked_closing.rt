//! What the definition gives on a worked run.

ghost use Rattle.std.specs.Prelude.{◌≡◌, ◌∷◌, [], pos, false};
ghost use Rattle.kernel_core.specs.Worked.{full_run};
ghost use Rattle.market_floor.specs.OpeningWorked.{market, watcher};
ghost use Rattle.kernel_copy.specs.Closing.{closing_at};

/// A market that closes at its opening, before its one watcher wakes: the state at the end is closed after no event, and
/// the wakeup still waits.
pub fn the_empty_run()
    ensures counts { (closing_at (market 1000 0 (watcher 2000 ∷ [])) (full_run (market 1000 0 (watcher 2000 ∷ []))).state).counts ≡
        record { end = 67; events = 0; time = 1000; next_seq = 1; waiting = 1; dropped = 0; enters = 0; cancels = 0; orders = 0; matches = 0 } }
    ensures stocks { (closing_at (market 1000 0 (watcher 2000 ∷ [])) (full_run (market 1000 0 (watcher 2000 ∷ []))).state).stocks ≡
        record { stock = 0; state = 84; last = 0; matched = 0; fees = pos 0; offset = pos 0; live = 0 } ∷ [] }
    ensures orders { (closing_at (market 1000 0 (watcher 2000 ∷ [])) (full_run (market 1000 0 (watcher 2000 ∷ []))).state).orders ≡ [] }
    ensures agents { (closing_at (market 1000 0 (watcher 2000 ∷ [])) (full_run (market 1000 0 (watcher 2000 ∷ []))).state).agents ≡
        record { agent = 0; silenced = false; time = 1000; tokens = 0; draws = 0; cash = pos 0; own_cash = pos 0; own_position = pos 0; live = 0; quotes = 0; positions = pos 0 ∷ [] }
        ∷ record { agent = 1; silenced = false; time = 1000; tokens = 0; draws = 0; cash = pos 0; own_cash = pos 0; own_position = pos 0; live = 0; quotes = 0; positions = pos 0 ∷ [] } ∷ [] }
{}
