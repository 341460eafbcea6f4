//! What answers frames over a journal: a batch, as `batch` and `follow` do it, and a drill.
//!
//! [`answer_batch`] opens the vault that the disk holds, lets [`nb_batch::answer_frames`] answer the frames of a source, and tells how that ends the program, as
//! an [`Ending`](nb_commands::Ending). [`drill`] makes a journal first, answers the frames that a seed gives (`nb_play`) over it, at one moment, with nobody to
//! hear the replies, and sends one line of what came of them: how many orders there were, how many are paid and refused, and the money in all accounts.
//!
//! What is promised of a batch (`specs/Batch.antt`, `Batch`): which requests were answered, the states that the house came to, what was read and sent, byte for
//! byte, what a stop at any moment leaves of the disk, and by its status what was left of the input; or that the journal was not opened, and then nothing was
//! taken, sent or written. Fewer whole frames than a batch answers, and nothing else, end well over a journal, unless something fails or memory is wanting. Of a drill
//! (`specs/Drill.antt`): where its line was sent all frames were answered, and over a disk that tells its content the line is that of the last list.
//!
//! Left to others: the words, and at which of them this is done (`nb_run`); the real terminal, file and clock, and the lock on the file.
//!
//! Not said: that [`answer_batch`] and [`drill`] find memory where there is some; an order between the bytes sent and
//! the disk's moments: that an entry is durable before its reply is sent is said for each request by `Vault::answer` and `send_reply`. That a
//! fault is told in the turn in which the disk failed, and that settling goes by the byte of the gate: the contract of `Vault::answer` says both
//! of each turn. What stands behind the last gate, free by the format. What a real file keeps: `tests/kill`
//! reads it after each kill, and what a failure of power leaves is not tried. How many bytes a read asks for, but that less
//! than a piece is read ahead of the last answer. What a clock that stops telling gave.
#![tactic(auto)]

mod batch;
mod drilling;
mod tally;

pub use batch::{Batched, answer_batch};
pub use drilling::drill;
