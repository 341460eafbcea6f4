ghost use Rattle.std.specs.Prelude.{◌≡◌, ℕ, List, length};

use std::collections::LinkedList;

/// What is handed from pass to pass by a turn. It is seen as an origin, and a list of lines that only grows; each line has the
/// number of the pass that made it.
pub trait Chronicle {
    /// What it was made of.
    type Origin;
    /// One line.
    type Line;

    /// Its origin.
    ghost origin: { Self → Self.Origin };

    /// Its lines.
    ghost history: { Self → List Self.Line };

    /// The number of the pass that made a line.
    ghost maker: { Self.Line → ℕ };

    /// How many lines it has.
    fn lines(&self) -> u64
        ensures { result ≡ length (history self.now) };
}

/// What a pass knows. No value of it is made.
pub struct View<O, L> {
    /// The origin of the value. A seat that was joined away has none.
    pub origin: Option<O>,
    /// The lines that the pass has seen.
    pub seen: LinkedList<L>,
    /// Its own number, and then those of the passes joined into it, each with the lines that the pass of that number had seen
    /// last.
    pub parts: LinkedList<(u64, LinkedList<L>)>,
    /// What its swaps of 1 into the word of the turn, and its settings of a bit in the word of numbers, found: each as the word's
    /// number and a value.
    pub found: LinkedList<(u64, u64)>,
    /// Whether it has the turn.
    pub holds: bool,
}
