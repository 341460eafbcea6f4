//! Frames from a stream that comes in pieces of any size, cut anywhere, and the writing of a frame.
//!
//! [`Frames`] is fed one piece after another and gives out the frames of what it was fed, in order. Behind them it tells that
//! more is wanted, or the first fault with its place in the stream. It is seen as the bytes since the last feed, how many of them
//! were given out, and how many were given out in all (`specs/State.antt`). That what it gives out are the frames, the rest
//! and the fault of all pieces joined, whatever the pieces were, is proved by the functions of [`laws`].
//!
//! All memory is taken by [`Frames::new`]. What waits is moved to the front at most once a feed.
//!
//! [`write_frame`] appends the one spelling of a frame, and [`write_header`] its header alone, for a body that is made in its place behind it.
//!
//! Left to others: where pieces come from, what a frame asks for, and what a frame is, which `nb_units` says.
//!
//! Not said: that there is memory for the buffer; and that [`Frames::feed`] takes no memory and moves what waits at most once: it has room for
//! 1,114,120 bytes from its start on, within which an append succeeds.
#![tactic(auto)]

mod fault;
pub mod laws;
mod look;
mod stream;
mod writing;

pub use fault::FrameFault;
pub use stream::{FrameAt, Frames, MAX_HELD, MAX_PIECE, Next};
pub use writing::{write_frame, write_header};
