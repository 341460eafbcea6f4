ghost use Rattle.std.specs.Prelude.{◌≡◌, length, Some};
ghost use Rattle.std.specs.List.{AllByRecursion};
ghost use Rattle.nb_turn.specs.Lines.{LonePart, OwnAre};
ghost use Rattle.nb_turn.specs.Views.{number_of};
ghost use Rattle.nb_turn.specs.Passes.{sees};

use crate::chronicle::Chronicle;
use crate::types::Pass;

impl<T: Chronicle> Pass<T> {
    /// Its number, which is that of the first of its parts.
    pub fn number(&self) -> u64
        ensures number { result ≡ self.now.number }
        ensures first { number_of (sees self.now).parts ≡ Some result }
    {
        self.number
    }

    /// How many lines it has seen.
    pub fn seen(&self) -> u64
        ensures { result ≡ length (sees self.now).seen }
    {
        self.seen
    }

    /// Does nothing. It tells that what the pass has seen begins with what each of its parts had seen last, and that the lines of
    /// each part's number among all that the pass has seen are exactly that part's own.
    pub fn witness(&self)
        ensures parts { AllByRecursion (LonePart T.maker (sees self.now).seen) (sees self.now).parts }
        ensures own { AllByRecursion (OwnAre T.maker (sees self.now).seen) (sees self.now).parts }
    {
        let _number = self.number;
    }
}
