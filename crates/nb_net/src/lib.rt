//! The network: a link over a connected stream of TCP, a port over its listener, and a link that dials.
//!
//! A [`TcpLink`] stands over a [`Socket`], a [`TcpPort`] over a [`Listener`], a [`DialLink`] over a [`Dialler`]: the calls that they make
//! of the system, one each. What is trusted of [`StdSocket`], [`StdListener`] and [`StdDialler`], which are those of std, is a line or a
//! few for each call of the system. They tell no bytes; over a socket that tells its bytes the link tells them, and so its clauses say
//! what it takes and sends.
//!
//! A link waits as its [`Limits`] say, [`HOUSE`] or [`PARTY`], where it is made. It counts the bytes that it gives against the lengths in the headers of
//! frames, and so knows its [`Place`]: it waits a time for its first byte, one for the next frame, and one for the rest of a frame that
//! has begun. What is waited for is waited for from the first read on that finds it missing. A write that sends no byte for a time fails. Each
//! write is sent at once, and a peer that is silent is asked whether it is there. A read or write that was interrupted is tried again.
//!
//! A link that is given back is ended: shut down for writing, and then read and dropped up to its end, for a time and up to [`MAX_DROPPED`]
//! bytes. A port closes its listener before it gives its last link. It gives no link where a look for a connection gave an error of
//! that connection, or it could not be set up: it counts that and waits for the next one, at most [`MAX_TRIES`] times in one call.
//!
//! A link that dials does so where it is made, and at the first write of an exchange over a link that is over. A read, a write or an accept of
//! the system that fails or is interrupted raises the count of the link's reads, of its writes, or of the port; a write that takes nothing is
//! one that failed, and so is one whose dial failed. A count stays at 2^64 - 1. No count rises where a shutdown, a close or a look whether the
//! other side ended the link fails, or where a link that dials could not be made.
//!
//! Left to others: to bind.
//!
//! Not said, since no clause can: what bytes a real connection brings or takes, that it is set as it should be, that a call of the system returns
//! when it should, and that [`TcpLink::of`], [`TcpLink::over`] and [`DialLink::to`] give a link where they can. Tests send bytes both ways
//! over the loopback, and meet peers that close, drip, are silent, and never read. A port waits for a connection as long as none comes.
#![tactic(auto)]

mod dial;
pub mod laws;
mod limits;
mod link;
mod place;
mod port;
mod socket;
mod std_socket;

pub use dial::DialLink;
pub use limits::{ALIVE_BETWEEN, ALIVE_IDLE, ALIVE_TRIES, HOUSE, Limits, MAX_DROPPED, PARTY, SPAN};
pub use link::TcpLink;
pub use place::Place;
pub use port::{MAX_TRIES, TcpPort};
pub use socket::{AcceptOut, DialOut, Dialler, Listener, SetOut, Socket, SocketRead, SocketWrite};
pub use std_socket::{StdDialler, StdListener, StdSocket};
