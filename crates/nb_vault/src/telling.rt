// The lines of a turn.

ghost use Rattle.std.specs.Prelude.{◌≡◌, ◌≤◌, ◌+◌, ◌++◌, length, vec_capacity, vec_len};
ghost use Rattle.nb_turns.specs.Lines.{next_turn};
ghost use Rattle.nb_vault.specs.Parts.{line_of, lines_of};

use nb_entry::Entry;
use nb_turns::Line;

// What became of an entry in a turn.
#[derive(Clone, Copy)]
pub(crate) enum Fate {
    // it was in doubt, and is kept
    Kept,
    Recorded,
    InDoubt,
}

impl Fate {
    // The line that tells it.
    fn line(self, by: u64, turn: u64, entry: Entry) -> Line
        ensures { result ≡ line_of self by turn entry }
    {
        match self {
            Fate::Kept => Line::Adopted { by, turn, entry },
            Fate::Recorded => Line::Commit { by, turn, entry },
            Fate::InDoubt => Line::Doubt { by, turn, entry },
        }
    }
}

// Appends a line for each entry.
pub(crate) fn push_lines(lines: &mut Vec<Line>, fate: Fate, by: u64, turn: u64, entries: &[Entry])
    requires { vec_len lines.old + length entries.now ≤ vec_capacity lines.old }
    ensures items { lines.new.items ≡ lines.old.items ++ lines_of fate by turn entries.now }
    ensures room { vec_capacity lines.new ≡ vec_capacity lines.old }
{
    for entry in entries {
        lines.push_reserved(fate.line(by, turn, *entry));
    }
}

// The number of the turn behind these lines.
pub(crate) fn next_turn(lines: &Vec<Line>) -> u64
    requires { next_turn lines.now.items ≤ length lines.now.items }
    ensures { result ≡ next_turn lines.now.items }
{
    match lines.last() {
        Some(line) => line.turn() + 1,
        None => 0,
    }
}
