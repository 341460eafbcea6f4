//! The statement of an account: what moved on it, line by line, with the balance behind each movement.
//!
//! [`write`] sends to a sink the statement of an account of a [`Vault`](nb_vault::Vault): a heading, a line for each entry that moves money
//! on the account, and a closing line. The whole text is a function of the list of entries and the account (`specs/Statement.antt`), and what an
//! entry moves on an account is one of an entry and an account (`specs/Movements.antt`, [`movement_of`]).
//!
//! What is promised: what is written is the statement of the vault's entries, and behind a write that failed a part from its front, perhaps none and
//! not all of it; an account that nobody holds is refused exactly, before anything is written, and so may want of memory be told; 0 is the house's own,
//! which nobody holds and which is told. What the text says of money is proved by the functions of [`laws`]: the balance in each line is that of the list up to its entry, the
//! one in the closing line that of the whole list, and Legal lists that move the same on an account have the same statement of it.
//!
//! Left to others: opening the vault, and what of a refusal is told outside.
//!
//! Not said: how many writes are made, and how much memory is taken. At most [`PIECE`] bytes wait; what waits is handed to the sink where the next line
//! has no room behind it, and at the end. The clause of a private function says that no line is put by a write before 4,096 bytes wait, and no clause
//! of [`write`], since a sink does not tell its calls.
#![tactic(auto)]

mod fault;
pub mod laws;
mod lines;
mod movement;
mod sending;
mod statement;

pub use fault::StatementFault;
pub use movement::{Movement, Way, movement_of};
pub use sending::PIECE;
pub use statement::write;
