//! The words that every other layer speaks in: identifiers, amounts of money, fixed secrets and digests, lists of
//! bytes, and the reading and writing of fields.
//!
//! A [`Cut`] is seen as a list of bytes and a place in it: each read gives the field that stands at the place, or the
//! first reason why none stands there, and then the place has not moved. A [`Pen`] appends fields to a vector whose
//! [`room`] was made before. A [`Small`] and a [`Blob`] are seen as the list of their bytes, and an [`Epoid`] is
//! 16 bytes that are read and written.
//!
//! What a field is stands once, in `specs/Fields.antt`; what a frame of the protocol is, in `specs/Frames.antt`. That
//! a field is read exactly where its spelling stands, when each fault comes, and that a stream of bytes has one list of
//! frames, is proved by the functions of [`laws`] and [`frames`].
//!
//! How wide fields are stands in [`width`]; how long a memo is at most is [`MAX_MEMO`], and how long a hidden part, an order, a [`Small`] and
//! a [`Buffer`] are at most are sums of it and of widths. [`is_reason`] tests the code of a reason for which an order is refused.
//!
//! Left to others: in which order fields make an order, an entry or a message, which values each may have, and the reading of
//! frames from a stream that comes in pieces.
//!
//! Not said: that [`room`] and [`Blob::of`] answer Ok where memory is there, since no clause can say that memory is left; the stored run of `layouts`
//! has each of them answer so.
#![tactic(auto)]

mod blob;
mod buffer;
mod charter;
mod cut;
mod epoid;
pub mod frames;
mod ids;
pub mod laws;
mod limits;
mod malformed;
mod memory;
mod number;
mod pen;
mod reason;
mod small;
pub mod width;

pub use blob::Blob;
pub use buffer::{Buffer, MAX_BUFFER};
pub use charter::Charter;
pub use cut::{Cut, CutFault};
pub use epoid::Epoid;
pub use ids::{AcctId, Digest, PartyId, Price, Secret, Tag};
pub use limits::{
    FEE_VERSION, FIRST_VERSION, HEAD, MAX_CAP, MAX_HIDDEN, MAX_MEMO, MAX_ORDER, MAX_RATE,
};
pub use malformed::{Malformed, allow};
pub use memory::{NoMemory, room};
pub use number::{decimal_of, u32_of};
pub use pen::Pen;
pub use reason::{FIRST_REASON, LAST_REASON, is_reason};
pub use small::{MAX_SMALL, Small};
