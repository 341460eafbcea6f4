//! A standby: a second house whose journal holds what a first one recorded, entry by entry.
//!
//! The primary ships each entry of its list as a [`Shipped`] record: the entry's place, the entry, and a tag under the house's key; [`ship`]
//! appends its frame. The standby has a vault over a journal of the same head, version and rate. [`follow`] takes one record in and appends an
//! acknowledgement, which tells in a [`code`] what came of it, and how many entries stand then. On this stream, which is no session, frames of
//! the kind [`SHIPPED_FRAME`] are records, and those of the kind [`ACKNOWLEDGED_FRAME`] acknowledgements.
//!
//! The layouts stand in `specs/Spelling.antt`, each as a function of the value, and in `specs/Reading.antt`, field by field with the place of
//! each; that they are the two sides of one thing is proved by the functions of [`laws`]. What following does stands in `specs/Following.antt`.
//! `specs/World.antt` has a primary that grows, the records that it ever shipped, and a standby that any of these reach in any order, whose disk
//! fails and which stops at any moment. In every such world the standby's list is a front of the primary's, where it began so, with nothing in doubt
//! and what was shipped the primary's; and what was acknowledged as taken in stays. A whole run of [`follow`] over records that were shipped is such a run (`specs/Laws.antt`).
//!
//! Left to others: how frames come and go, which records are shipped when, and that nobody but the house has its key.
//!
//! Not said: that no memory is taken, beyond that what a call appends to keeps its capacity: none is given an allocator.
#![tactic(auto)]

mod acknowledged;
pub mod code;
mod following;
pub mod laws;
mod limits;
mod shipped;

pub use acknowledged::Acknowledged;
pub use following::follow;
pub use limits::{ACKNOWLEDGED_FRAME, ACKNOWLEDGED_ROOM, PRIMARY, SHIPPED_FRAME, SHIPPED_ROOM};
pub use nb_units::Malformed;
pub use shipped::{Shipped, ship, ship_with};
