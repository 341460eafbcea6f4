ghost use Rattle.std.specs.Prelude.{◌≡◌};
ghost use Rattle.nb_turns.specs.Lines.{maker_of, turn_of};

use nb_entry::Entry;

/// One thing that a turn did, told in the order in which it was done. `by` is the number of who asked, 8 bytes wide. All lines
/// of one turn have its number, 8 bytes wide: one above that of the line before them, or 0 where there is none.
#[derive(Clone, Copy)]
pub enum Line {
    /// The entry of a request is recorded, and every later stop leaves it.
    Commit {
        by: u64,
        turn: u64,
        entry: Entry,
    },
    /// An entry that was in doubt is kept.
    Adopted {
        by: u64,
        turn: u64,
        entry: Entry,
    },
    /// The entry of a request could not be made durable, and is in doubt.
    Doubt {
        by: u64,
        turn: u64,
        entry: Entry,
    },
    /// The disk failed between these two counts of its faults.
    Fault {
        by: u64,
        turn: u64,
        before: u64,
        after: u64,
    },
}

impl Line {
    /// The number of who asked.
    pub fn by(&self) -> u64
        ensures { result ≡ maker_of self.now }
    {
        match *self {
            Line::Commit { by, .. }
            | Line::Adopted { by, .. }
            | Line::Doubt { by, .. }
            | Line::Fault { by, .. } => by,
        }
    }

    /// The number of its turn.
    pub fn turn(&self) -> u64
        ensures { result ≡ turn_of self.now }
    {
        match *self {
            Line::Commit { turn, .. }
            | Line::Adopted { turn, .. }
            | Line::Doubt { turn, .. }
            | Line::Fault { turn, .. } => turn,
        }
    }
}
