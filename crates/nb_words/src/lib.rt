//! The words of the program: which command they are, and with which numbers.
//!
//! [`command_of`] reads them. It looks itself for no words, an empty word, one that begins with `-` and a call for help; `clap` reads what
//! is left, as one command with one level of commands below it, each with positions that have to be there, and behind them such as may be
//! missing, all read as texts; the numbers are read from these.
//! `src/table.rt` has, for each command, a row of its name and its positions, and one of the ranges of its numbers. Its contract is over the words alone (`specs/Words.antt`): what is told of `clap` on the way
//! stands in `specs/Table.antt`, and is no part of it.
//!
//! [`port_of`] says which port is that of a worker, behind the first one's.
//!
//! Left to others: which file the words name, and what is done.
//!
//! Not said: that [`command_of`] finds memory where there is some.
#![tactic(auto)]

pub mod laws;
mod table;
mod words;

pub use words::{Command, MAX_LINKS, MAX_WORKERS, command_of, limits, port_of};
