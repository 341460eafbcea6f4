//! Turns of a house, over lists alone: what a turn of several requests may do, the lines that tell it, and what a caller was
//! answered over several turns. (The crate `nb_turn` is another thing: the lock-free turn, by which threads hand one value on.)
//!
//! A turn (`specs/Turns.antt`) takes from 1 to [`MAX_REQUESTS`] requests and goes on from a state of the house to another: it
//! decides them one after another, and what they record is one item; or the disk failed in it, and an item may be in doubt; or
//! too many turns failed before it. Which marks, places and replies come of it are functions of how it went. Its [`Line`]s
//! (`specs/Lines.antt`) tell what was kept of a doubt, what it recorded or left in doubt, and that the disk failed. What one
//! caller was answered (`specs/Callers.antt`) is its turns in order, each with the lines that others made before it.
//!
//! What holds of all turns, of all runs and of all that a caller was answered stands in `specs/Laws.antt` and is proved by the
//! functions of [`laws`]. The rules of a house and the bytes of its refusals are parameters.
//!
//! Left to others: the rules, the bytes, and that a vault on a disk makes no other turns than these.
//!
//! Not said: which bytes replies and refusals have; and that the lines of others are those of turns too: a caller's clause says whose they are
//! not, and that their turns have lower numbers.
#![tactic(auto)]

pub mod laws;
mod limits;
mod line;
mod mark;

pub use limits::{MAX_FAULTS, MAX_REQUESTS};
pub use line::Line;
pub use mark::Mark;
