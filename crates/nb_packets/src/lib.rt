//! The packets of a world that runs, what a node's step puts among them, and the calls that they make of the house.
//!
//! A packet, a [`Parcel`], keeps the message that a node sent (`packet.rt`); `nb_simulator` spells it where the house reads it. What a node did at a
//! step is a [`Did`]: [`carry_out`] keeps what the step keeps, and [`send`] puts what was sent among the packets (`did.rt`). A packet that reaches
//! the house is a call of it: how a call comes to a phase, whom a reply goes to and what a stop leaves stand in `calls.rt`, over the steps of
//! `nb_world` and `specs/Calls.antt`. That packets and calls are found by their numbers, without going through the others, is how it is built: no
//! contract promises it. Room for a packet, an item or an entry is the caller's to make; [`make_room`] makes it for an item, and changes nothing
//! without memory.
//!
//! Left to others: the nodes (`nb_buyers`, `nb_sellers`), and when any of this happens (`nb_simulator`).
//!
//! Not said: that there is memory for an item more.
#![tactic(auto)]

mod calls;
mod did;
mod packet;

pub use calls::{
    acknowledge, addressee, asker_of, call_at, come_to, hand_out, left_by_stop, let_go, may_answer,
};
pub use did::{Did, carry_out, make_room, send};
pub use packet::{Content, Parcel};
