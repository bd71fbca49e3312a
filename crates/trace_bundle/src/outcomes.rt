//! The outcomes of segments in order of number.

use crate::ran::RunOutcomes;
use bundle_frames::Closing;
use kernel_copy::{Kept, Outcome};

impl RunOutcomes for Vec<Outcome> {
    ghost use Rattle.std.specs.Prelude.{length};
    ghost use Rattle.trace_bundle.specs.Outcomes.{all_told, outcome_at};

    ghost count = { λ v. length v.items };

    ghost kept_of = { λ v s. (outcome_at (all_told v.items) s).kept };

    ghost closing_of = { λ v s. (outcome_at (all_told v.items) s).closing };

    fn kept(&self, segment: u32) -> &Kept {
        &self[segment as usize].kept
    }

    fn closing(&self, segment: u32) -> &Closing {
        &self[segment as usize].closing
    }
}
