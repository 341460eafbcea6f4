//! What a drill sends: frames that a seed gives, for as many orders as are asked for.
//!
//! [`drill_frames`] gives the frame at a place. Eight consumers and eight merchants are enrolled, each consumer's account is funded, and
//! each order is sent twice. Who buys from whom, and for what price, is drawn by a linear congruential generator ([`number_at`]). What
//! each frame is stands in `specs/Drill.antt`, as a function of the seed and the place. [`DrillSource`] gives all of them one behind the other, as bytes;
//! [`DrillClock`] stands at the moment of each request, and [`NullSink`] takes the replies.
//!
//! Not said: that there is memory for a frame; how many steps a number takes; and what a house answers to these frames, which its decision says.
#![tactic(auto)]

mod clock;
mod draws;
mod frames;
pub mod laws;
mod sink;
mod source;

pub use clock::DrillClock;
pub use draws::{draw, number_at};
pub use frames::{MAX_ORDERS, MOMENT, PARTIES, drill_frames, drill_head, entry_count, frame_count};
pub use sink::NullSink;
pub use source::DrillSource;
