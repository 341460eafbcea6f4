//! What the programs of a consumer and of a merchant share: a line to a peer, and the keeping of an item before a message is sent.
//!
//! A line (`specs/Lines.antt`) is a wire, which is a link with the reader of its frames, and how all that was sent to it went. A [`Side`] is what a program holds
//! beside a link for one. What goes over a line is seen as the frames that were received and the bytes that were sent, and one part behind another is one
//! ([`laws::goes_in_parts`]).
//!
//! [`keep`] and [`keep_some`] append an item, or none, to a journal that is at rest (`specs/Keeping.antt`): it grew by that and by nothing else, or the
//! item was not kept, and [`Lost`] says why.
//!
//! Left to others: which frame is wanted of which line, and what a step keeps and sends.
#![tactic(auto)]

mod keeping;
pub mod laws;
mod lost;
mod side;

pub use keeping::{keep, keep_some};
pub use lost::Lost;
pub use side::Side;
