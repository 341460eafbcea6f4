//! The frames that come over a link, and the bytes that are sent to it.
//!
//! A wire is a link and the reader of frames ([`nb_frame::Frames`]) that its bytes are fed to. [`next_frame`] gives the next frame that came,
//! or why none comes any more: the link ended, a read of it failed, or what came is no frame. It reads on, by [`read_on`], only where less than
//! a frame waits, and each read asks for a whole piece. [`send`] sends all of some bytes, in as many writes as the link wants, up to one that
//! fails; [`send_behind`] sends nothing more to a link where an earlier write failed, so that no message stands behind a part of one.
//!
//! What was received is seen as the frames (`specs/Received.antt`), and what was sent as the bytes (`specs/Sent.antt`), two records apart from
//! each other: neither speaks of the other, so that reads and writes may come in any order. Of each a law says that one part behind another is
//! one ([`laws::received_in_parts`], [`laws::sent_in_parts`]), and [`laws::received_first`], [`laws::received_all`],
//! [`laws::received_up_to_a_fault`] that what was received of a link from its first byte on, where it tells its bytes to the end, are the first frames of
//! these, and up to its end or a fault all of them, however they came.
//!
//! Left to others: which frame is wanted of which link, what a frame asks for, and who closes the link.
//!
//! Not said: that a call of the link which failed is not tried again, since a call that works may have raised its count too. The stored run of `houses`
//! shows it, over a link of which each call fails in turn.
#![tactic(auto)]

pub mod laws;
mod reading;
mod receiving;
mod sending;

pub use reading::{ReadOn, read_on};
pub use receiving::{Fetched, LinkEnd, next_frame};
pub use sending::{Sent, send, send_behind};
