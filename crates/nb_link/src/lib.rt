//! What a session and a server see of a network: a link to one peer, a port that gives links one after another, and a gate that a
//! session passes.
//!
//! The layers above are written over the traits [`Link`], [`Port`] and [`Gate`] alone. A contract sees a link as one record: the
//! bytes that are still to come, those that were sent, and its reads that gave bytes, where it tells them, and two counts, of its
//! failed reads and of its failed writes. A read changes nothing of what a write does, and a write nothing of what a read does. A
//! port is seen as how many links it may still give, how many it gave and did not take back, its count of failures, and where it
//! tells them the links to come and those taken back, each as it was then. No count falls, and a call answers that it failed only
//! where its count rose in it.
//!
//! [`MemLink`] and [`MemPort`] hold all in memory and tell all of it. Calls chosen when one is made fail, and no others, but for
//! want of memory. A gate has no contract: what passes it is for trials to see, by a gate of their own, and into how many writes bytes
//! are cut by a link of their own.
//!
//! Left to others: the adapters to the system.
//!
//! Not said: that a maker, a read and a write of a [`MemLink`] find memory where there is some; into how many writes bytes are cut, and which
//! points of a gate are passed, since a link tells no writes and a gate nothing; that a link that was taken back is one that was given: what a
//! port took back is told; and what a buffer holds after a failed read and behind the bytes that a read gave. The trials of `houses` call each,
//! and see the writes and the points by a link and a gate of their own.
#![tactic(auto)]

mod gate;
mod link;
mod memory;
mod port;

pub use gate::{Gate, OpenGate, Point};
pub use link::{Link, Reading};
pub use memory::{MemLink, MemPort};
pub use port::{Port, PortOut};
