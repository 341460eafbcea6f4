//! The server: workers side by side, each of which serves the links of its port, one session after another, all against one vault.
//!
//! [`serve_all`] opens a desk over the vault, splits a pass off for each worker, and runs each worker in a thread of its own. Behind the
//! threads the passes are joined and the desk is closed. What came of it is told by the vault, the workers and a [`WorkerEnd`] for each:
//! the number of the pass that it asked with, the record of each session, and why it stopped.
//!
//! What is promised (`specs/Served.antt`, `AllSessions`): there is one chronicle, the vault's lines; each session of each worker meets
//! what `session` of nb_session promises, over first lines of the chronicle; the records of one number follow one another without a gap,
//! and each line of that number stands within one of them; each link that was given was taken back. [`laws`] say what follows where
//! nothing fails.
//!
//! That the workers run side by side, and that each line has the number of a pass that a worker asked with, is shown by the stored run of `houses` alone.
//!
//! Left to others: words, files and sockets.
//!
//! Not said: that [`serve_all`] and its sessions find memory where there is some; that workers run side by side; that each line has the number
//! of a pass that a worker asked with, and that no number is found to have been given before; that a link which was given comes back, where the
//! port does not tell its links: that none stays out is said, and a link can not be dropped; that the gate is passed under the worker's number
//! and the session's; that a server returns: a turn of the desk may wait for ever; that a worker stops at once where its port failed, and gives
//! each link back before it takes the next: a port is seen at entry and at return; why a worker asked with the pass of number 0; what was read
//! and written on links where the port does not tell those taken back, and the moments of a clock that no longer tells; that a reply was sent
//! behind its turn's write: each turn of a session says so by itself, and a list of all sessions has no disk of each moment; and that a port
//! failed at a count of 2^64 - 1, where it does not rise. The trials of `houses` hold one session up until another one has its reply, and keep
//! which numbers passed the gate.
#![tactic(auto)]

mod job;
pub mod laws;
mod running;
mod server;
mod worker;

pub use server::{MAX_WORKERS, Served, serve_all};
pub use worker::{How, Worker, WorkerEnd};
