//! What a consumer sends, and how what the house and its merchant answer is opened.
//!
//! What a consumer sends stands in `specs/Messages.antt`, a call for each message: [`ticket_request`] and [`status_query`] to the house,
//! [`price_request`], [`goods_request`] and [`payment`] to a merchant, sealed under the key of their session. What is sealed for a consumer is opened by a
//! call for each text, which answers [`Reason::Seal`](nb_msgs::Reason::Seal) where it does not open: [`open_granted`] and [`open_status`] what the house says, [`open_quote`] and [`open_head`]
//! what a merchant says. A receipt alone is opened by `nb_msgs`.
//!
//! Left to others: what is kept, and what is known of a purchase (`nb_wallet`); when a message is sent, and what is done at one (`nb_consumer`).
//!
//! Not said: that there is memory for a message; and that who sealed a text is the house or the merchant: whoever has the key seals alike.
#![tactic(auto)]

mod reading;
mod sending;

pub use reading::{open_granted, open_head, open_quote, open_status};
pub use sending::{goods_request, payment, price_request, status_query, ticket_request};
