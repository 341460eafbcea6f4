//! Messages: what one frame says, for each kind, and the house's replies, as bytes.
//!
//! A [`Message`] has a variant for each of the sixteen kinds. [`read_body`] gives the message that a body spells, the place of the first
//! field that fails, or says that there was no memory; [`write_message`] appends the one frame of a message. The layouts stand in `specs/Bodies.antt`, as a function of the
//! message, and in `specs/Reading.antt`, field by field with the place of each. That they are the two sides of one thing, for every kind,
//! is proved by the functions of [`laws`].
//!
//! [`write_reply`] appends the one frame of a reply. Which bytes these are stands in `specs/ReplyBytes.antt`, as a
//! function of the reply and of the keys that it is signed and sealed under; no reply has more than [`LONGEST_REPLY`]
//! bytes. No memory is taken. A [`Draft`] is a reply with its keys before a byte of it is made, seen as the bytes of its frame; it is written with
//! the states of keys that are kept. A reply is a message
//! ([`laws::reply_is_message`]). What is sealed in a status is a [`StatusText`], in `specs/StatusText.antt`.
//!
//! Left to others: what is replied, what is sealed in the other messages, keys and seals, and the reading of frames from a stream.
//!
//! Not said: that there is memory for a message or its frame; that a part of goods is copied once, since the clauses see lists of bytes; and what
//! the seals in a message hide: who has the key opens them, and `nb_body`, `nb_ticket`, `nb_endorse` and [`StatusText`] read what they hid.
#![tactic(auto)]

mod draft;
mod grant;
mod labels;
pub mod laws;
mod lengths;
mod message;
mod node;
mod opening;
mod reading;
mod reply;
mod status;
mod writing;

pub use draft::{Draft, write_each};
pub use labels::{
    GOODS_HEAD_LABEL, GOODS_REQUEST_LABEL, PAYMENT_LABEL, PRICE_REQUEST_LABEL, QUOTE_LABEL,
    STATUS_LABEL,
};
pub use lengths::{
    MAX_SEALED_GOODS_REQUEST, MAX_SEALED_HEAD, MAX_SEALED_PAYMENT, MAX_SEALED_PRICE_REQUEST,
    MAX_SEALED_QUOTE,
};
pub use message::Message;
pub use nb_body::{BodyFault, End};
pub use node::{Reason, RestartFault, Step, To};
pub use opening::{open_receipt, sealed, unsealed};
pub use reading::read_body;
pub use reply::{LONGEST_REPLY, REPLY_ROOM, limits, write_reply};
pub use status::{MOST_STATUS, StatusText};
pub use writing::write_message;
