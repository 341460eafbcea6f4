//! How long goods, sealed goods and their parts are, and the label that goods are sealed under.

use nb_units::width::SEAL;

/// Goods are sealed under this label.
pub const GOODS_LABEL: [u8; 4] = *b"good";

/// The most bytes of goods: 64 MiB.
pub const MAX_GOODS: usize = 1 << 26;

/// The most bytes of sealed goods: those of the longest goods, and their iv.
pub const MAX_SEALED: usize = MAX_GOODS + SEAL;

/// The bytes of a part of sealed goods. The last part has the bytes that are left.
pub const PART_BYTES: usize = 1_000_000;
