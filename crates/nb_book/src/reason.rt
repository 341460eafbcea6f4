//! Why an order is refused, as the codes of refused entries. What a code says of the two numbers `a` and `b` that
//! stand beside it is true of the list before the entry. Moments are in seconds since 1970-01-01 00:00 UTC, prices and
//! balances in the house's smallest unit of money.

/// The account that the consumer named is not its own, which is `b`: `a` is another number.
pub const CONSUMER_ACCOUNT: u8 = 31;

/// The account to be credited is not the merchant's, which is `b`: `a` is another number.
pub const MERCHANT_ACCOUNT: u8 = 32;

/// The price, `a`, is 0 or above [`MAX_PRICE`](crate::MAX_PRICE), which is `b`.
pub const PRICE_RANGE: u8 = 33;

/// The moment, `a`, is more than [`MAX_AGE`](crate::MAX_AGE) after that of the identifier, `b`.
pub const TOO_OLD: u8 = 34;

/// The moment of the identifier, `a`, is more than [`MAX_AHEAD`](crate::MAX_AHEAD) after the moment, `b`.
pub const TOO_EARLY: u8 = 35;

/// What is in the consumer's account, `a`, is below the price, `b`.
pub const BALANCE_LOW: u8 = 36;

/// The nonce that the consumer showed is not its own, which is `b`: `a` is another number.
pub const CONSUMER_NONCE: u8 = 37;
