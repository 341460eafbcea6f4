//! A script, played: the world that it sets up, taken on by what happens, and the report of it.
//!
//! [`play`] reads a script (`nb_script`), makes the world of what it sets up, whose house has no fees, takes it on by the events of its lines
//! (`nb_simulator`), and appends the report. What is promised of a script that is read is one sentence (`specs/Playing.antt`): there is a set-up, which is
//! the script's, and the text is the report of the world behind it and the events of the lines. So each law of `nb_simulator` over lists of events that
//! premises a lawful set-up alone speaks of what is reported. Which events a line stands for is told by the world behind those before it: `serve` by the number of the call that it makes.
//!
//! The report (`specs/Report.antt`) is a text of the world and of two lists: its accounts and its purchases. They are told by what stands in the world and
//! by their order, and not by how they were found; by a function of [`laws`] a world has one report.
//!
//! Left to others: where a script comes from and where a report goes.
//!
//! Not said: that there is memory for the script's world, its events or the report.
#![tactic(auto)]

mod happening;
pub mod laws;
mod playing;
mod report;
mod rows;
mod stock;

pub use playing::play;
