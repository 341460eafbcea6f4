//! The desk: a vault that many callers ask, each in a thread of its own.
//!
//! A [`Desk`] is a turn (nb_turn) over a vault (nb_vault). The holder of a [`Pass`] asks by [`Desk::try_ask`], which waits for nobody,
//! or by [`Desk::ask`], which waits; [`Desk::try_ask_all`] and [`Desk::ask_all`] ask for several requests at once. A pass is seen as
//! its `View`: what the vault was opened with, the lines that it has seen, its number and those joined into it.
//!
//! What is promised (`specs/Asks.antt`, `Gives`, `Tries`): where the turn was taken, there was a vault that met what the pass knew, it
//! made one turn (`Went` of nb_vault), and the pass has seen all its lines. They are what the pass had seen, then lines of others, of
//! which none is the pass's, and then those of its turn, under the next number, and nothing else (`Follows` of nb_turns); states over
//! them, the reply, durability and faults are those of the vault's own answer. Where the turn was held nothing was asked, and the pass
//! has found the word 1. [`laws`] say what follows for several passes.
//!
//! Left to others: frames, sending the replies, the clock, and that a pass gets on: no clause says that a turn is ever given back.
//!
//! Not said: that [`Desk::open`] finds memory where there is some; that a try is not always Busy, since found words are told by the step that
//! the code names; that anyone gives the turn back, that [`Desk::ask`] ends, who is next; that [`Desk::try_ask`] waits for nobody: it has no
//! bound `Wait`, and it returns; that asking takes no memory: the calls are given no allocator; what was opened before does: what is answered
//! does not depend on it, and `bench/run` counts the hashes that it takes out of a turn; and that the disk stood still between two turns of a
//! pass: others asked meanwhile. A trial of `vaults` has a try that is served.
#![tactic(auto)]

mod asked;
mod desk;
mod handed;
pub mod laws;

pub use asked::{Asked, AskedAll};
pub use desk::{Desk, Pass};
pub use handed::DeskVault;
pub use nb_turn::{NoMemory, SplitFault};
