//! The forms of a link and a port that hold all in memory and tell all of it. The calls that are to fail are chosen when one is
//! made.

mod link;
mod plan;
mod port;

pub use link::MemLink;
pub use port::MemPort;
