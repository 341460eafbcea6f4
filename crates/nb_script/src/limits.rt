//! How long a script is, and how much it may say.

/// The most bytes of a script: 1 MiB.
pub const MAX_SCRIPT: usize = 1_048_576;

/// The most lines of a script.
pub const MAX_LINES: u32 = 10_000;

/// The most entries that a script's house can have.
pub const MAX_SCRIPT_CAP: u32 = 10_000;

/// The most bytes of the goods of a shelf line.
pub const MAX_LENGTH: u32 = 2_000_000;

/// The most bytes of the goods of all shelf lines together: 256 MiB.
pub const MAX_ALL_GOODS: u64 = 268_435_456;

/// The most hexadecimal digits of an injected body.
pub const MAX_BODY_DIGITS: usize = 2_000;

// What stands between words.
pub(crate) const SPACE: u8 = b' ';

// What ends a line.
pub(crate) const LINE_FEED: u8 = b'\n';
