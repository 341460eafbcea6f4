//! Numbers in the order in which they were added, each found without going over the others.
//!
//! [`Numbers`] are seen as the list of them. A number is added only where it is not there ([`Numbers::add`]). [`Numbers::place_of`] tells the place of a
//! number, and [`Numbers::as_slice`] lends all in order. What a map has that stands beside a list of pairs is said in `specs/Beside.antt`, for the crates
//! above.
//!
//! Not said: that no number stands there twice, which follows from how they are added; that a look-up goes through no list: the clauses see a list, the
//! code has a map from a number to its place; that there is memory for a number more.
#![tactic(auto)]

mod numbers;

pub use numbers::Numbers;
