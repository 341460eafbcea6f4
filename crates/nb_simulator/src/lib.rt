//! A world of a simulation that runs: consumers, merchants and a house that do what the crates of the program do, over one network.
//!
//! A [`World`] is seen as the world of `nb_world`, whose steps are defined there, with the real parties of `nb_parties`. It is made of a [`Setup`]
//! ([`World::new`]), and [`World::step`] takes it on by one event: to the world of that definition, or to none where the event does not fit, and nothing
//! changes then. What is made is behind no event, and what is behind some events is by a step behind these and one more (`IsBehind` of `specs/Laws.antt`): so a
//! caller has that its world is the set-up's behind the events of its own calls, by their clauses alone, and with that each law of [`laws`].
//!
//! Its nodes are those of `nb_buyers` and `nb_sellers`, its packets and calls those of `nb_packets`. That packets and calls are found by their numbers, without going
//! through the others, and that all memory that an event needs is taken before anything changes, is how it is built: no contract promises it. What is
//! promised of a step without memory is that nothing changed.
//!
//! Left to others: which events happen, and what is told of a world.
//!
//! Not said: that there is memory for a world or an event.
#![tactic(auto)]

pub mod laws;
mod setup;
mod verdict;
mod world;

pub use nb_world::Event;
pub use setup::{Setup, SetupFault};
pub use world::{Stepped, World};
