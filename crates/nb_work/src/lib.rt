//! Work over links: what a job comes to, over a disk, workers and dialled links that are handed in.
//!
//! [`work`] does a [`Job`](nb_commands::Job). For `serve` it opens the vault on the disk and serves the links of all workers
//! ([`nb_server::serve_all`]). Its contract (`specs/Work.antt`) says what stands after each status: over a journal that was not opened,
//! or where there was no memory to begin, no byte was written and the workers are those handed in; else every line of the vault is told, with what came of each worker.
//! For `buy` it opens the wallet on the disk and makes the purchase over the dialled links ([`nb_buy::buy`]). What stands then
//! (`specs/Buying.antt`) is what that says, from what the wallet's items make a consumer again. For `sell` it opens the stall on the
//! disk and sells on the links that its one worker's port gives, one after the other, over the dialled link to the house
//! ([`nb_sell::sell_link`]). What stands then (`specs/Selling.antt`) is a run of the merchant on each of them, from what the
//! stall's items and the shelf make a merchant again.
//!
//! Left to others: to listen, to dial, to open the file.
//!
//! Not said: that want of memory is told only where memory was wanting, since no clause bounds it; that a server's turns are those of its workers alone, as of
//! [`nb_server::serve_all`]; that each port gives as many links as the job says, which `nb_platform` says, who makes them. `tests/serve`, `tests/buy` and `tests/shop` try the sockets.
#![tactic(auto)]

mod buying;
pub mod laws;
mod selling;
mod working;

pub use working::{Dials, Worked, work};
