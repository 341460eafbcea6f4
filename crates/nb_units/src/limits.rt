//! How many entries a house may hold, how long its head is, which versions and rates its journal may have, and the most bytes of
//! what parties write. Those of a hidden part and of an order follow from [`MAX_MEMO`] and the widths of the fields.

use crate::width::{ACCOUNT, DIGEST, EPOID, LENGTH, MONEY, NONCE, PARTY, PRODUCT, SEAL, TAG};

/// The most entries that a house can be made for, and the most items of its journal.
pub const MAX_CAP: u32 = 1_000_000;

/// The bytes of the head of a house.
pub const HEAD: usize = 80;

/// The version of a journal whose house keeps no fee.
pub const FIRST_VERSION: u8 = 1;

/// The version of a journal whose house keeps a fee of each payment, at its rate.
pub const FEE_VERSION: u8 = 2;

/// The highest rate of a fee, in thousandths of the price.
pub const MAX_RATE: u16 = 1000;

/// The most bytes of a memo, which is a party's own note.
pub const MAX_MEMO: usize = 64;

/// The most bytes of the hidden part of an order, sealed, which are 112: account, nonce, and the memo behind its length.
pub const MAX_HIDDEN: usize = SEAL + ACCOUNT + NONCE + LENGTH + MAX_MEMO;

/// The most bytes of an order, which are 280: consumer, merchant, product, price, identifier, three digests, the hidden part behind its
/// length, and the tag.
pub const MAX_ORDER: usize = PARTY
    + PARTY
    + PRODUCT
    + MONEY
    + EPOID
    + 3 * DIGEST
    + LENGTH
    + MAX_HIDDEN
    + TAG;
