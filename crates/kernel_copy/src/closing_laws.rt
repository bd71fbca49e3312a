//! Laws of closings.

ghost use Rattle.std.specs.Prelude.{◌≡◌, All, length};
ghost use Rattle.kernel_core.specs.State.{State};
ghost use Rattle.kernel_copy.specs.Closing.{closing_at};
ghost use Rattle.market_floor.specs.declared.opening.Opening.{Opening};

/// Each agent of a closing has a position in each stock.
pub fn agents_have_all_positions()
    ensures { (o : Opening) (s : State) → All (λ a. length a.positions ≡ length s.floor.exchange.stocks) (closing_at o s).agents }
{}
