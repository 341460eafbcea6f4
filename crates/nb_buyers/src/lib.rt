//! The consumers of a world that runs.
//!
//! [`Buyers`] are seen as the list of the consumers of a world of `nb_world`: a call takes the one at a place on, and its contract says how by the rules of
//! `nb_parties` (`Doing.antt` of `nb_packets/specs`). What it did is a [`Did`](nb_packets::Did). Each keeps the items of its journal, and a restart starts it
//! again with these (`buying.rt`). That a restart reads these, and that consumers are found by their numbers, without going through the others, is how it is
//! built: no contract promises it. What is promised of a call without memory is that nothing changed.
//!
//! Left to others: the packets (`nb_packets`), the merchants (`nb_sellers`), the house, the network and the clock, and which packet reaches whom
//! (`nb_simulator`).
//!
//! Not said: that there is memory for a consumer more or for a step.
#![tactic(auto)]

mod buyers;
mod buying;

pub use buyers::Buyers;
