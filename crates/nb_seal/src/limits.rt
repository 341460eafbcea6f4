/// The bytes of a digest, of a code, of an iv, and of a key of seals or of a keystream.
pub const CODE_BYTES: usize = 32;

/// The bytes of a block of SHA-256, which are the most that a key of a code may have.
pub const BLOCK_BYTES: usize = 64;

/// The most bytes of a text that is sealed: 2^39.
pub const MAX_TEXT: usize = 1 << 39;

/// The bytes of a keystream that are used: 2^40.
pub const MAX_KEYSTREAM: u64 = 1 << 40;
