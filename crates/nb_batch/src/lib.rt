//! One batch: the frames of a source are answered in order, by a house whose entries are durable, or by a standby that takes them in.
//!
//! [`answer_frames`] reads pieces of the source, takes one frame of them after another, asks the clock, lets the vault answer, and sends the
//! reply; it reads on only where less than a frame waits. Where the vault answers none, the reply is the refusal that says why. A standby
//! ([`Answerer::Standby`]) follows a primary (`nb_standby`): its frames are records, its replies acknowledgements, and it asks no clock. Where a
//! write fails, or so many frames were answered, some of the last piece stay unanswered.
//!
//! What is promised (`specs/Batch.antt`, `Served`): the frames that were answered are the first of the bytes that were taken; they were
//! answered by a run of turns (`RunOfOnes` of nb_turns; of a standby `AcknowledgesAll` of nb_standby), whose replies are what was sent; a stop at any moment leaves the entries of
//! one of the states of that run, without what is in doubt in it or with it; and how the batch ended says what is left of the input,
//! how far it was read, and what failed. The entry of a request that was answered stays, whatever comes behind it
//! ([`laws::acknowledged_stays`]), and so do all entries that an acknowledgement counts ([`laws::told_stays`]). What is opened over what a stop in a batch left
//! is one of the states of its run ([`laws::stop_in_run_is_step`]).
//!
//! [`ship_from`] sends the records of a vault's entries, for a standby to follow, in pieces of at most 64 KiB.
//!
//! Left to others: opening the vault, what of a batch's end is told outside, and the words of the program.
//!
//! Not said: into how many writes replies and records are cut, and when more is read: a source and a sink tell their bytes, and not their calls. That a write which failed is not tried
//! again. That there is memory.
#![tactic(auto)]

mod answering;
mod batch;
mod fetch;
pub mod laws;
mod send;
mod shipping;

pub use answering::Answerer;
pub use batch::{BatchEnd, MOST_FRAMES, answer_frames, limit};
pub use send::{Sent, send_all};
pub use shipping::{ShipFault, ship_from};
