//! The labels under which parts of messages are sealed: those that a consumer and a merchant seal for each other under their session key, by the
//! kind of the message, and that of a status.

/// The label of a request for a price.
pub const PRICE_REQUEST_LABEL: [u8; 4] = *b"m001";

/// The label of a quote.
pub const QUOTE_LABEL: [u8; 4] = *b"m002";

/// The label of a request for goods.
pub const GOODS_REQUEST_LABEL: [u8; 4] = *b"m003";

/// The label of the head of a part of the goods.
pub const GOODS_HEAD_LABEL: [u8; 4] = *b"m004";

/// The label of an order for its merchant.
pub const PAYMENT_LABEL: [u8; 4] = *b"m005";

/// The label of a status. What the tag of a status query is over begins with it too.
pub const STATUS_LABEL: [u8; 4] = *b"stat";
