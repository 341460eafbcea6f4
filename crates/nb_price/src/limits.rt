//! How long a shelf and a name are, how much a product may cost, and the marks of a line.

/// The most bytes of a shelf: 256 MiB.
pub const MAX_SHELF: usize = 1 << 28;

/// The most bytes of a product's name.
pub const MAX_NAME: usize = 64;

/// The most that a product may cost: 10^9. The least is 1.
pub const MAX_PRICE: u32 = 1_000_000_000;

/// What stands behind the number, the price and the name of an item.
pub const SEMICOLON: u8 = b';';

/// What stands behind the length of its goods.
pub const LINE_FEED: u8 = b'\n';

// The most digits of a number of 32 bits.
pub(crate) const MAX_DIGITS: usize = 10;
