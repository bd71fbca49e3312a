//! What a probe is.

ghost use Rattle.std.specs.Prelude.{◌≡◌, ℕ, ℤ, List, IfSome};
ghost use Rattle.market_types.specs.Told.{event_told};
ghost use Rattle.probe_desk.specs.Probe.{Meaning};
ghost use Rattle.probe_desk.specs.Sums.{meaning_of};

use crate::Column;
use market_types::Record;

/// An object that keeps a list of numbers, which each record changes. What it is to compute is its meaning: the list
/// that it opens with, the list after a record, and the number that a list says. No call changes name or meaning.
pub trait Probe: Drop {
    /// The bytes of its name, the head of its column.
    ghost title: { Self → List ℕ };

    /// What it computes, from its settings.
    ghost meaning: { Self → Meaning };

    /// The list that it keeps.
    ghost numbers: { Self → List ℤ };

    /// Its name. Takes no memory.
    fn name(&self) -> &str
        ensures { result.now ≡ title self.now };

    /// Sees one record, delivered or put back. Sums stay at the ends of the i128.
    fn see(&mut self, event: &Record)
        ensures numbers { numbers self.new ≡ (meaning self.old).after (numbers self.old) (event_told event.now) }
        ensures meaning { meaning self.new ≡ meaning self.old }
        ensures title { title self.new ≡ title self.old };

    /// The number of its column, for what it has seen since it was restarted.
    fn value(&self) -> i128
        ensures { result ≡ (meaning self.now).value (numbers self.now) };

    /// The column of every table that it is the probe of, if it is one of those. Takes no memory.
    fn column(&self) -> Option<Column>
        ensures { IfSome result (λ k. meaning self.now ≡ meaning_of k) }
    {
        None
    }

    /// Opens anew, as before a branch.
    fn restart(&mut self)
        ensures numbers { numbers self.new ≡ (meaning self.old).opening }
        ensures meaning { meaning self.new ≡ meaning self.old }
        ensures title { title self.new ≡ title self.old };
}
