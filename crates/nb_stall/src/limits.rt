//! How an item of a stall begins, how long it is at most, and how many serial numbers there are.

use nb_body::TRANSACTION;
use nb_endorse::RECEIPT_BYTES;
use nb_units::MAX_ORDER;
use nb_units::width::{LENGTH, PARTY};

/// The width of what an item begins with, its kind, in bytes.
pub const ITEM_KIND: usize = 1;

/// The most bytes of an item: those of one with an order, which is longer than a sealed receipt.
pub const MAX_ITEM: usize = ITEM_KIND + PARTY + TRANSACTION + LENGTH + MAX_ORDER;

/// The last serial number of a merchant. The first is 1.
pub const LAST_SERIAL: u32 = u32::MAX;

// The kind of an item, one byte wide.
pub(crate) const QUOTED_ITEM: u8 = 1;

pub(crate) const DELIVERED_ITEM: u8 = 2;

pub(crate) const ENDORSED_ITEM: u8 = 3;

pub(crate) const SETTLED_ITEM: u8 = 4;

/// The most bytes of the receipt that is passed on to a consumer.
pub const MAX_PART: usize = RECEIPT_BYTES;
