//! The world of a simulation: parties, a house and a network, as plain data.
//!
//! A world has the packets ever made, consumers and merchants, the calls that the house was asked, the list of entries that every
//! stop leaves and the one that the house works on, and a clock. An [`Event`] takes it on: a packet is delivered, once, again or
//! never, in any order; a call goes through its turn, one phase after another; a stop leaves the durable entries, with or without
//! the one that is being written; a node starts again; somebody puts a packet of its own on the network.
//!
//! Which events fit, and what each does, is a function from a world to a world or none (`specs/Steps.antt`), a row for each event.
//! What a node does and what the verdict on a request is are parameters (`Rules` of `specs/World.antt`). What holds of every list
//! of events stands in `specs/Laws.antt`, what follows for orders and money in `specs/Headline.antt`, and how the turns of a house
//! on a disk are events in `specs/Ties.antt`. The functions of [`laws`] prove it.
//!
//! Left to others: what nodes do, the verdict, the bytes of a disk, threads.
//!
//! Not said: what nodes do, that what they make is right and which bodies are spelled as they should be, all of which are parameters; that a
//! party has one node: an event of a party is one of the first node that is it; that a packet arrives or a call is answered: no event has to
//! happen; faults of a disk: in a world a fault and its settling are a stop; and that the verdicts of a house on a disk are those of a world: the
//! law takes the house that goes by them, and which one a vault's is, `nb_vault` says.
#![tactic(auto)]

mod call;
mod event;
pub mod laws;
mod packet;
mod turning;

pub use call::{Call, CallPhase};
pub use event::Event;
pub use packet::{Maker, Packet, Sending};
pub use turning::{Acknowledged, Origin, Stage, Turning, Verdict};
