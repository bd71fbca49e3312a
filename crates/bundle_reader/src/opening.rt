//! The feed of an opening.

ghost use Rattle.std.specs.Prelude.{◌≡◌};
ghost use Rattle.bundle_reader.specs.Told.{begun_told, whole_told};
ghost use Rattle.bundle_reader.specs.Order.{opens, take_opening as take_opening_of};
ghost use Rattle.bundle_reader.specs.Reads.{Takes};

use crate::entries::Last;
use crate::reading::{Begun, Misplaced, Reading, Whole};
use market_types::{Feed, FeedList, Memory, Trace, What};
use std::alloc::Global;

// Whether a message may stand at a place of the opening of so many stocks: a system event, a directory for each stock, a
// trading action for each.
fn opens(stocks: u16, at: usize, what: &What) -> bool
    ensures { result ≡ opens stocks at what.now }
{
    if at == 0 {
        matches!(what, What::System { .. })
    } else if at <= usize::from(stocks) {
        matches!(what, What::Directory { .. })
    } else {
        matches!(what, What::Trading { .. })
    }
}

// One message more. Behind the last one the entries begin.
pub(crate) fn take_opening(
    alloc: Global,
    whole: Whole,
    mut begun: Begun,
    message: Feed,
) -> Result<Reading, Misplaced>
    ensures { Takes (take_opening_of (whole_told whole) (begun_told begun) message) result }
{
    let stocks = whole.header.stocks;
    if !opens(stocks, begun.opening.len(), &message.what) {
        return Reading::Opening(whole, begun).refused(Misplaced::Order);
    }
    if let Err(Memory) = begun.opening.push(message) {
        return Reading::Opening(whole, begun).refused(Misplaced::Memory);
    }
    if begun.opening.len() == 1 + 2 * usize::from(stocks) {
        let last = Last::Apart(FeedList::new(alloc));
        Ok(Reading::Entries(whole, begun, Trace::new(alloc), last))
    } else {
        Ok(Reading::Opening(whole, begun))
    }
}
