//! Records of the protocol that need no key: what the house is asked, and what a consumer and a merchant seal for each other.
//!
//! Asked of the house are an [`EndorsedOrder`], a [`StatusQuery`], an [`Enrolment`] and a [`Funding`]; the fifth request, that for a ticket,
//! is `nb_ticket`'s. Sealed under the key of a session are a [`PriceRequest`], a [`Quote`], a [`GoodsRequest`], a [`GoodsHead`] and a
//! [`PaymentRequest`]. Each is read by `read` and spelled by `spelled`.
//!
//! The layouts stand in `specs/Spelling.antt`, each as a function of the value, and in `specs/Reading.antt`, field by field with the place
//! of each. That they are the two sides of one thing is proved by the functions of [`laws`]: what was spelled is read as that value, and
//! what was read is spelled as those bytes. Which values fields may have, and how long some
//! records are, stands in `src/limits.rt`; how long the others are is said by [`laws::lengths`].
//!
//! Two types more stand here, since both messages and what a consumer keeps speak of them, and neither of these stands on the other: [`BodyFault`], why
//! bytes were not read by a reader that takes memory (`specs/Reads.antt`), and [`End`], how a purchase ended.
//!
//! Left to others: frames and kinds, keys, seals and tags, what an order says, and what comes of a request. No memory is taken.
//!
//! Not said: whose tags these are, and under which keys and labels the texts are sealed; `nb_escrow` tests the first, the nodes seal the second.
#![tactic(auto)]

mod end;
mod endorsed;
mod enrolment;
mod fault;
mod funding;
mod goods_head;
mod goods_request;
pub mod laws;
mod limits;
mod payment_request;
mod price_request;
mod query;
mod quote;

pub use end::End;
pub use endorsed::{EndorsedBytes, EndorsedOrder};
pub use enrolment::Enrolment;
pub use fault::BodyFault;
pub use funding::Funding;
pub use goods_head::GoodsHead;
pub use goods_request::GoodsRequest;
pub use limits::{
    CONSUMER_ROLE, GOODS_HEAD_BYTES, GOODS_PLACE, GOODS_REQUEST_BYTES, MAX_AMOUNT, MAX_ENDORSED,
    MAX_PAYMENT_REQUEST, MAX_PRICE_REQUEST, MAX_REQUEST, MERCHANT_ROLE, QUOTE_BYTES, TRANSACTION,
};
pub use payment_request::PaymentRequest;
pub use price_request::PriceRequest;
pub use query::StatusQuery;
pub use quote::Quote;
