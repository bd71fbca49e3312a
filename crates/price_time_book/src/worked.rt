//! What the definitions give on worked examples.

ghost use Rattle.std.specs.Prelude.{◌≡◌, ◌∷◌, [], Some, None, true, false};
ghost use Rattle.price_time_book.specs.Chains.{chain_of};
ghost use Rattle.price_time_book.specs.Matched.{fill_of, after_fill, matched};
ghost use Rattle.price_time_book.specs.Next.{beats, best_at, crossing_of, next_of};
ghost use Rattle.price_time_book.specs.Orders.{order_with, changed, reduced};
ghost use Rattle.price_time_book.specs.Priced.{best_priced, first_priced};
ghost use Rattle.price_time_book.specs.Queues.{best_in, first_on, hidden_of, shown_of, top_in};
ghost use Rattle.price_time_book.specs.Sides.{depth_of};
ghost use Rattle.price_time_book.specs.Worked.{bought, dear, early, given, late, three_sells, veiled, veiled_sells};

use market_types::Side;

/// Three sells are swept by an order to buy 700 shares at 10.01 dollars: the two at 10.00 come first,
/// the earlier of them before the later, and 100 shares stay unmatched.
pub fn sweep()
    ensures fills { (bought 100100 700).fills ≡
        given (early 200) 200 ∷ given (late 300) 300 ∷ given (dear 100) 100 ∷ [] }
    ensures book { (bought 100100 700).book ≡ [] }
    ensures left { (bought 100100 700).shares ≡ 100 }
    ensures within_limit { bought 100000 700 ≡ record {
      fills = given (early 200) 200 ∷ given (late 300) 300 ∷ [];
      book = dear 100 ∷ [];
      shares = 200;
    } }
    ensures in_part { bought 100100 250 ≡ record {
      fills = given (early 200) 200 ∷ given (late 300) 50 ∷ [];
      book = dear 100 ∷ late 250 ∷ [];
      shares = 0;
    } }
    ensures none_below { bought 99999 700 ≡ record { fills = []; book = three_sells; shares = 700 } }
    ensures none_of_its_side { next_of three_sells Side.Sell 1 ≡ None }
{}

/// The best price of three sells has the shares of two of them, and an order to buy crosses one more
/// from 10.01 dollars on.
pub fn depth()
    ensures best { best_at Side.Sell three_sells ≡ Some (record { price = 100000; shares = 500 }) }
    ensures empty { best_at Side.Buy three_sells ≡ None }
    ensures depth { depth_of Side.Sell three_sells ≡ 3 }
    ensures crossing { crossing_of Side.Buy 100099 three_sells ≡ 2 }
    ensures all_cross { crossing_of Side.Buy 100100 three_sells ≡ 3 }
    ensures none_crosses { crossing_of Side.Buy 99999 three_sells ≡ 0 }
{}

/// The second of three sells is found by its reference, and it is lowered or leaves.
pub fn change()
    ensures with { order_with 2 three_sells ≡ Some (early 200) }
    ensures reduced { (reduced 50 (early 200)).intended ≡ 150 }
    ensures removed { changed (early 0) three_sells ≡ dear 100 ∷ late 300 ∷ [] }
    ensures lowered { changed (early 50) three_sells ≡ dear 100 ∷ early 50 ∷ late 300 ∷ [] }
{}

/// Of two sells at 10.00 dollars the first isn't shown: an order to buy meets the shown one before it, and
/// it before the one at 10.01. The best price has the shares of shown orders alone, and it is that of a
/// shown order though a hidden one has a better; the hidden one is met first even so. Where no order of
/// the side is shown there is no best price.
pub fn hidden()
    ensures fills { (matched veiled_sells Side.Buy 100100 700).fills ≡
        given (late 300) 300 ∷ given (veiled (early 200)) 200 ∷ given (dear 100) 100 ∷ [] }
    ensures in_part { matched veiled_sells Side.Buy 100000 350 ≡ record {
      fills = given (late 300) 300 ∷ given (veiled (early 200)) 50 ∷ [];
      book = dear 100 ∷ veiled (early 150) ∷ [];
      shares = 0;
    } }
    ensures best { best_at Side.Sell veiled_sells ≡ Some (record { price = 100000; shares = 300 }) }
    ensures behind { best_at Side.Sell (dear 100 ∷ veiled (early 200) ∷ []) ≡ Some (record { price = 100100; shares = 100 }) }
    ensures met { next_of (dear 100 ∷ veiled (early 200) ∷ []) Side.Buy 100100 ≡ Some (veiled (early 200)) }
    ensures none_shown { best_at Side.Sell (veiled (early 200) ∷ []) ≡ None }
    ensures depth { depth_of Side.Sell veiled_sells ≡ 3 }
    ensures crossing { crossing_of Side.Buy 100000 veiled_sells ≡ 2 }
{}

/// Of two sells the better price comes first, hidden or not; at one price the shown one comes before the hidden
/// one, and of two that are shown neither beats the other, so the one that arrived first stays first.
pub fn which_comes_first()
    ensures price { beats Side.Sell (veiled (early 200)) (dear 100) ≡ true }
    ensures worse { beats Side.Sell (dear 100) (veiled (early 200)) ≡ false }
    ensures shown { beats Side.Sell (late 300) (veiled (early 200)) ≡ true }
    ensures hidden { beats Side.Sell (veiled (early 200)) (late 300) ≡ false }
    ensures equal { beats Side.Sell (late 300) (early 200) ≡ false }
{}

/// The shown orders of a side are one queue and its hidden ones another, each with its first order and its best
/// price. The first order of the side is the better of the two. By price and time alone the hidden one at 10.00
/// would be first, and the best price would have its shares too.
pub fn queues()
    ensures shown { top_in (shown_of Side.Sell) veiled_sells ≡ Some (late 300) }
    ensures hidden { top_in (hidden_of Side.Sell) veiled_sells ≡ Some (veiled (early 200)) }
    ensures first { first_on Side.Sell veiled_sells ≡ Some (late 300) }
    ensures best_shown { best_in (shown_of Side.Sell) veiled_sells ≡ Some (record { price = 100000; shares = 300 }) }
    ensures best_hidden { best_in (hidden_of Side.Sell) veiled_sells ≡ Some (record { price = 100000; shares = 200 }) }
    ensures by_price { first_priced Side.Sell veiled_sells ≡ Some (veiled (early 200)) }
    ensures best_by_price { best_priced Side.Sell veiled_sells ≡ Some (record { price = 100000; shares = 500 }) }
{}

/// An agent's orders are in the chain of its number. Agents whose numbers differ by 512 share one.
pub fn which_chain()
    ensures own { chain_of 3 ≡ 3 }
    ensures last { chain_of 511 ≡ 511 }
    ensures shared { chain_of 515 ≡ 3 }
{}
