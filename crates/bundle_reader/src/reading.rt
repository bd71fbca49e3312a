//! What was read of a bundle so far.

ghost use Rattle.std.specs.Prelude.{◌≡◌, Err, option_map};
ghost use Rattle.bundle_reader.specs.Told.{bundle_told, reading_told};
ghost use Rattle.bundle_reader.specs.Order.{stocks_known, is_whole, whole_bundle};

use crate::HeaderFrame;
use crate::bundle::{Bundle, Told};
use crate::entries::Last;
use branch_tree::Name;
use bundle_frames::Closing;
use market_types::{Feed, FeedList, Memory, Sequence, Trace};

// The header, and the branches that were read whole.
#[derive(Drop)]
pub(crate) struct Whole {
    pub header: HeaderFrame,
    pub branches: Sequence<Told>,
}

// A branch up to its entries.
#[derive(Drop)]
pub(crate) struct Begun {
    pub name: Name,
    pub parent: u16,
    pub stop: u32,
    pub opening: FeedList,
}

// How far a bundle was read.
#[derive(Drop)]
pub(crate) enum Reading {
    Start,
    Between(Whole),
    Opening(Whole, Begun),
    Entries(Whole, Begun, Trace, Last),
    Ended(Whole, Begun, Trace, Feed),
    Closing(Whole, Begun, Trace, Feed, Closing),
    End(Bundle),
}

// Why a frame was not taken.
#[derive(Clone, Copy)]
pub(crate) enum Misplaced {
    // It may not stand there.
    Order,
    Memory,
}

impl From<Memory> for Misplaced {
    ghost use Rattle.bundle_reader.specs.declared.reading.Misplaced.TheVariants as misplaced;

    ghost from_gives = { λ _ e. e ≡ misplaced.Memory };

    fn from(_refused: Memory) -> Misplaced {
        Misplaced::Memory
    }
}

impl Reading {
    // Whether the end was read.
    pub(crate) fn is_whole(&self) -> bool
        ensures { result ≡ is_whole (reading_told self.now) }
    {
        matches!(self, Reading::End(_))
    }

    // The bundle, where the end was read.
    pub(crate) fn bundle(self) -> Option<Bundle>
        ensures { option_map bundle_told result ≡ whole_bundle (reading_told self) }
    {
        match self {
            Reading::End(bundle) => Some(bundle),
            other => {
                drop(other);
                None
            }
        }
    }

    // Lets go of what was read, where a frame was not taken.
    pub(crate) fn refused(self, why: Misplaced) -> Result<Reading, Misplaced>
        ensures { result ≡ Err why }
    {
        drop(self);
        Err(why)
    }

    // How many stocks there are, where the header was read.
    pub(crate) fn stocks(&self) -> Option<u16>
        ensures { result ≡ stocks_known (reading_told self.now) }
    {
        match self {
            Reading::Start => None,
            Reading::Between(whole) => Some(whole.header.stocks),
            Reading::Opening(whole, _) => Some(whole.header.stocks),
            Reading::Entries(whole, _, _, _) => Some(whole.header.stocks),
            Reading::Ended(whole, _, _, _) => Some(whole.header.stocks),
            Reading::Closing(whole, _, _, _, _) => Some(whole.header.stocks),
            Reading::End(bundle) => Some(bundle.stocks),
        }
    }
}
