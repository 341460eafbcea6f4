//! How long the parts of messages are at most. Each is the longest text that a part seals, with what a seal has more.

use nb_body::{
    GOODS_HEAD_BYTES, GOODS_REQUEST_BYTES, MAX_ENDORSED, MAX_PAYMENT_REQUEST, MAX_PRICE_REQUEST,
    QUOTE_BYTES,
};
use nb_units::width::{LENGTH, PARTY, SEAL};

/// The most bytes of a request for a price, sealed.
pub const MAX_SEALED_PRICE_REQUEST: usize = SEAL + MAX_PRICE_REQUEST;

/// The most bytes of a quote, sealed.
pub const MAX_SEALED_QUOTE: usize = SEAL + QUOTE_BYTES;

/// The most bytes of a request for goods, sealed.
pub const MAX_SEALED_GOODS_REQUEST: usize = SEAL + GOODS_REQUEST_BYTES;

/// The most bytes of the head of a part of the goods, sealed.
pub const MAX_SEALED_HEAD: usize = SEAL + GOODS_HEAD_BYTES;

/// The most bytes of an order for its merchant, sealed.
pub const MAX_SEALED_PAYMENT: usize = SEAL + MAX_PAYMENT_REQUEST;

// The most bytes of a body without a part of goods at its end: those of an endorsed order, the merchant's number and the endorsement
// behind its length.
pub(crate) const MOST_FRONT: usize = PARTY + LENGTH + MAX_ENDORSED;
