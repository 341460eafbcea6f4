//! The kinds of kept items, each the first byte of one.

/// A purchase was started.
pub(crate) const STARTED: u8 = 0x01;

/// A ticket was granted for it.
pub(crate) const GRANTED: u8 = 0x02;

/// Its price was quoted, and the goods are wanted.
pub(crate) const WANTED: u8 = 0x03;

/// It was ordered.
pub(crate) const ORDERED: u8 = 0x04;

/// It is over.
pub(crate) const ENDED: u8 = 0x05;

/// A part of the sealed goods came, which is not the last.
pub(crate) const PART: u8 = 0x06;

/// The parts that came are forgotten.
pub(crate) const FORGOTTEN: u8 = 0x08;
