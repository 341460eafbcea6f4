//! What a consumer keeps, and what it knows of one purchase.
//!
//! An [`Item`] is what is kept of one step; its bytes stand in `specs/Spelling.antt`, and read field by field in `specs/Reading.antt`. What holds of
//! all items is proved by the functions of [`laws`].
//!
//! A [`Wallet`] is who buys. It stands in the 80 bytes of the head of its journal, and any 80 bytes are the head of one (`specs/Head.antt`).
//!
//! A [`Purchase`] is how it was started, how far it has come ([`Stage`]), and the sealed goods that came ([`Held`]). Behind a receipt, a quote, a part,
//! an order or a status it is at the stage that `specs/Stages.antt` says. Where it is closed with the receipt of a payment, whether the key opens the
//! goods is looked up each time. Sealed goods come in parts. One copy of them is held, with the state of their digest, so that no part is hashed
//! twice.
//!
//! What a price is asked for ([`price_text`], its digest [`request_digest`]), and the order of a purchase ([`order_for`]), stand in `specs/Orders.antt`. An
//! order's bytes ([`order_text`]) are those of `nb_epo`.
//!
//! Left to others: which purchases there are, what is sent and how what comes is opened (`nb_asking`), and what is done at a message.
//!
//! Not said: that there is memory for an item, an order or a part; that parts are copied once, held once and hashed once: the clauses see the bytes joined,
//! and the state of the digest is held beside the parts; how often goods are opened.
#![tactic(auto)]

mod head;
mod held;
mod item;
pub mod laws;
mod limits;
mod ordering;
mod purchase;
mod wallet;

pub use held::Held;
pub use item::{Item, SessionTicket};
pub use ordering::{order_for, order_text, price_text, request_digest};
pub use purchase::{
    Change, Purchase, Stage, ordered_from, raised_from, stage_ended, wanted_from, with_head,
};
pub use wallet::{Start, Wallet};
