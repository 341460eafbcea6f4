//! What the program does on a real machine: it opens the journal's file, listens, dials, and does what is left.
//!
//! [`open_journal`] opens the file of a journal for this process alone, and its folder, and gives the disk over both. [`do_job`] does a
//! [`Job`](nb_commands::Job) over what the words of the job name: to serve it listens on a port for each worker, to buy it dials the house and
//! the seller, and to sell it listens on one port and dials the house. Where one of these cannot be opened the job is not begun, and the
//! status is [`NOT_OPENED`], or 6 for want of memory. Else [`nb_work::work`] does the job, over the adapters of `nb_net` and of `nb_system`. Who buys at a terminal is told there how many bytes came of the seller.
//!
//! What a job comes to is said in `specs/Doing.antt`: something could not be opened, and the disk is the one handed in; or it was worked as [`nb_work::work`]
//! says, over as many workers and new ports that give as many links as it names, and the new links that it needs.
//!
//! Left to others: which command the words are, and whether it has a file or makes one; to hold standard input and output, to print the status.
//!
//! Not said, since no clause can: what the real system answers, and so whether a file is there, whether its lock keeps other programs away, whether what is not
//! opened could have been, and which of the two statuses that has, and who is at the other end of a link. Nor is it said which word is listened or dialled at, which address
//! it names, on which port a worker listens, how long its links wait, and what a terminal is told.
//! `examples/check` tries the files, and `tests/serve`, `tests/buy` and `tests/shop` try the sockets.
#![tactic(auto)]

mod files;
mod jobs;
mod links;
mod watched;

pub use files::open_journal;
pub use jobs::{NOT_OPENED, do_job};
