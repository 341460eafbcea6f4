//! How long links wait: one table for all of them.

/// How long a link waits, each in milliseconds.
#[derive(Clone, Copy)]
pub struct Limits {
    /// From the first read on, for its first byte.
    pub first: u32,
    /// From the first read behind a frame on, for the first byte of the next one.
    pub between: u32,
    /// From the first read behind the first bytes of a frame on, for the rest of it,
    pub frame: u32,
    /// and so long more for each [`SPAN`] of bytes that its body has.
    pub more: u32,
    /// For a write that sends no byte.
    pub write: u32,
    /// For the end of a link that is given back, behind which it is let go.
    pub end: u32,
    /// For a connection that is dialled.
    pub dial: u32,
}

/// The limits of a link that a house reads.
pub const HOUSE: Limits = Limits {
    first: 10_000,
    between: 60_000,
    frame: 30_000,
    more: 1_000,
    write: 30_000,
    end: 2_000,
    dial: 10_000,
};

/// The limits of a link that a buyer or a seller reads: the other side answers each frame at once.
pub const PARTY: Limits = Limits {
    first: 60_000,
    between: 60_000,
    frame: 30_000,
    more: 1_000,
    write: 30_000,
    end: 2_000,
    dial: 10_000,
};

/// The bytes of a frame's body for which a link waits [`Limits::more`].
pub const SPAN: u32 = 16_384;

/// The most bytes that are read and dropped of a link that is given back.
pub const MAX_DROPPED: usize = 67_108_864;

/// The seconds without a byte behind which TCP asks whether the peer is there.
pub const ALIVE_IDLE: u8 = 30;

/// The seconds between two such questions.
pub const ALIVE_BETWEEN: u8 = 10;

/// How many of them stay without an answer until the connection is ended.
pub const ALIVE_TRIES: u8 = 3;
