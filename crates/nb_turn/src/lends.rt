// `value` has a file of its own: its clause names the row of `Held`, which the file that declares `Held` cannot import.
ghost use Rattle.std.specs.Prelude.{◌≡◌, Some};
ghost use Rattle.nb_turn.specs.Views.{number_of};
ghost use Rattle.nb_turn.specs.Passes.{held_sees};
ghost use types.Logic.{sem};
ghost use Rattle.nb_turn.specs.Lent.{LendsValue};

use crate::chronicle::Chronicle;
use crate::types::Held;

impl<T: Chronicle> Held<T> {
    /// The value. When the borrow ends, it is what was written through it, and nothing else has changed.
    pub fn value(&mut self) -> &mut T
        ensures* writes_back { sem 𝓛 (LendsValue T.row T.Origin.row T.Line.row T.Chronicle self.entry result) }
        ensures now { result.now ≡ self.old.value }
    {
        &mut self.value
    }

    /// The number of the pass that has the turn, which is that of the first of its parts.
    pub fn number(&self) -> u64
        ensures number { result ≡ self.now.hold.number }
        ensures first { number_of (held_sees self.now).parts ≡ Some result }
    {
        self.hold.number
    }
}
