//! The values and the lengths that fields may have, and how long some records are. Each length is a sum of these and of the widths of
//! fields.

use nb_units::width::{ACCOUNT, DIGEST, EPOID, LENGTH, MONEY, PRODUCT, SEAL, SECRET};
use nb_units::{MAX_MEMO, MAX_ORDER};

/// The role of a party that buys.
pub const CONSUMER_ROLE: u8 = 1;

/// The role of a party that sells.
pub const MERCHANT_ROLE: u8 = 2;

/// The most that one fund puts into an account, in the house's smallest unit of money.
pub const MAX_AMOUNT: u64 = 1_000_000_000_000_000_000;

/// The most bytes of what a consumer says to a merchant as it asks for a price.
pub const MAX_REQUEST: usize = 64;

/// The most bytes of an endorsement, sealed: the order behind its length, the merchant's account, the memo behind its length, and the
/// key of the goods.
pub const MAX_ENDORSED: usize = SEAL + LENGTH + MAX_ORDER + ACCOUNT + LENGTH + MAX_MEMO + SECRET;

/// The width of a consumer's own number of a purchase, in bytes.
pub const TRANSACTION: usize = 8;

/// The width of a number of bytes of goods, in bytes: of how many there are, or of a place among them.
pub const GOODS_PLACE: usize = 8;

/// The most bytes of a request for a price, before it is sealed.
pub const MAX_PRICE_REQUEST: usize = TRANSACTION + PRODUCT + LENGTH + MAX_REQUEST;

/// The bytes of a quote, before it is sealed.
pub const QUOTE_BYTES: usize = TRANSACTION + PRODUCT + MONEY;

/// The bytes of a request for goods, before it is sealed.
pub const GOODS_REQUEST_BYTES: usize = TRANSACTION + GOODS_PLACE;

/// The bytes of the head of a part of the goods, before it is sealed.
pub const GOODS_HEAD_BYTES: usize = TRANSACTION + EPOID + 2 * GOODS_PLACE + DIGEST;

/// The most bytes of an order for its merchant, before it is sealed.
pub const MAX_PAYMENT_REQUEST: usize = TRANSACTION + LENGTH + MAX_ORDER;
