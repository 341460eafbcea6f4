//! The lock-free turn: one value, handed from pass to pass, of which each pass knows what became of it while others had it. (The
//! crate `nb_turns` is another thing: it defines what one turn of several requests may do.)
//!
//! A [`Turn`] holds a value that is a [`Chronicle`]: it has an origin, and lines that only grow, each with the number of the pass
//! that made it. A [`Pass`] takes the turn by [`Turn::try_take`], which waits for nobody, or by [`Turn::take`], which waits; it
//! then has the value in a [`Held`], appends lines of its own number, and gives it back by [`Turn::give`]. [`Turn::split`] makes a
//! pass of a new number, below [`MAX_PASSES`], [`Turn::join`] ends one, and [`Turn::close`] ends the turn. There is no lock: the
//! turn is one atomic swap, and its place in memory is the kit's `atomic_table`.
//!
//! A contract sees a pass as a [`View`] (`specs/Views.antt`): the origin; the lines that it has seen; its number and those of the
//! passes joined into it, each with the lines that the pass of that number had seen last; what its swaps and settings of a bit
//! found. A pass's own lines are those of its number among the lines that it had seen last. At taking (`specs/Told.antt`, `Meets`)
//! the value has the pass's origin, and its lines begin with all that the pass had seen; for each of its numbers its own lines
//! are exactly the value's lines of that number. The same is so at `close`. After `give` the pass has seen all lines.
//!
//! What holds of the words, the slot and all views between any two steps stands in `specs/Rule.antt`. A crate above cites
//! `specs/Passes.antt` (which also hands on the `TableId` that tells turns apart), `Told`, `Views`, `Lines` and `Faults`, and of the lemmas
//! `number_at` of `proofs/Rules.antt` and `first_again` and `lone_own` of `proofs/Lists.antt`.
//!
//! Left to others: that a pass gets on. No clause says that a turn is ever given back, that `take` ends, or that a thread is not
//! passed over. Passes and turns that are used together belong together: that is a condition of each call (`Belongs`).
//!
//! Not said: that a number's bit is set exactly where a pass of that number was made: the rule has it one way, each number that stands in a view
//! or made a line has its bit set. That a found word is what a swap, or setting a bit, found in a word of the table: found words are told by the
//! step that the code names, so that a [`Turn::try_take`] that is always Busy, or a [`Turn::split`] that is always Taken, is refused by tests
//! alone. That two passes of one turn have different numbers, that one [`Held`] is out at a time and that all passes have one origin: the rule
//! has it, and no clause of a call. How long `try_take` looks; that [`Turn::open`] finds memory; and of lines that others made before another
//! pass took the turn a pass knows nothing until it takes it or is joined. Only [`Turn::take`] and [`Turn::close`] may wait. That [`Turn::split`] takes no memory: it is given no allocator. `T: Drop` is asked
//! of the value since a slot is emptied and filled by exchanges, which drop nothing when they run.
#![tactic(auto)]

mod chronicle;
mod fault;
pub mod laws;
mod lends;
mod open;
mod pass;
mod plays;
mod split;
mod take;
mod types;
mod wait;
mod words;

pub use chronicle::{Chronicle, View};
pub use fault::{Busy, NoMemory, SplitFault};
pub use types::{Held, Pass, Turn};
pub use words::MAX_PASSES;
