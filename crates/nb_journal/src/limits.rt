pub use nb_units::width::LENGTH;
pub use nb_units::{HEAD, MAX_CAP};

/// The bytes of the magic.
pub const MAGIC_BYTES: usize = 8;

/// The bytes of a cap.
pub const CAP: usize = 4;

/// The bytes of a rate.
pub const RATE: usize = 2;

/// The zeros behind a rate.
pub const ZEROS: usize = 2;

/// The bytes before the first gate: magic, cap, head, rate, zeros.
pub const FRONT: u64 = 96;

/// The bytes of a journal without items: its front, and a gate.
pub const EMPTY: usize = FRONT as usize + 1;

/// The most bytes of an image that is laid on a disk.
pub const MAX_IMAGE: usize = 268_435_456;

/// The most bytes of one write of an image that is laid on a disk.
pub const PIECE: usize = 65_536;

/// The bytes of a gate and of the length behind it.
pub const LEAD: usize = 1 + LENGTH;

/// The bytes that an item takes beside its own: those of its gate and its length.
pub const AROUND: u64 = LEAD as u64;

/// The most bytes of an item.
pub const MAX_ITEM: u32 = 2_097_152;

/// The zeros that are written behind an item whose next gate reaches a multiple of this place, and which is not longer than
/// [`MAX_AHEAD_ITEM`], so that the appends up to the next multiple fall on bytes that the file has.
pub const AHEAD: usize = 131_072;

/// The most bytes of an item behind which zeros are written.
pub const MAX_AHEAD_ITEM: usize = 32_768;

/// The bytes that one read of a disk asks for while a journal is opened, where an item is not longer.
pub const WINDOW: usize = 65_536;

/// A gate that is open.
pub const OPEN: u8 = 0xA5;

/// A gate that is closed, as it is written. Every byte but an open gate's is read as closed.
pub const CLOSED: u8 = 0;
