//! How wide the fields are, in bytes. What is made of fields is as long as their widths are together.

/// A code, one of which says what an entry, a receipt or a refusal is.
pub const CODE: usize = 1;

/// The byte before a field that may be absent.
pub const FLAG: usize = 1;

/// The length of a text, which stands before it.
pub const LENGTH: usize = 4;

/// The number of a party.
pub const PARTY: usize = 4;

/// The number of an account.
pub const ACCOUNT: usize = 4;

/// The merchant's number for a product.
pub const PRODUCT: usize = 4;

/// The nonce of an account or of a request.
pub const NONCE: usize = 8;

/// A price, an amount or a balance.
pub const MONEY: usize = 8;

/// A moment in seconds.
pub const MOMENT: usize = 8;

/// The place of an entry, or how many entries there are.
pub const PLACE: usize = 8;

/// A number that a receipt or a refusal shows.
pub const SHOWN: usize = 8;

/// The identifier of an order.
pub const EPOID: usize = 16;

/// A digest.
pub const DIGEST: usize = 32;

/// A key.
pub const SECRET: usize = 32;

/// A tag.
pub const TAG: usize = 32;

/// What a seal has more than the text that is sealed.
pub const SEAL: usize = 32;
