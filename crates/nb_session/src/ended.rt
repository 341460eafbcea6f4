use nb_frame::FrameFault;
use nb_turns::Mark;

/// The most frames that one session answers.
pub const MOST_FRAMES: usize = 10_000;

/// How a session ended.
#[derive(Clone, Copy)]
pub enum SessionEnd {
    /// The link ended at a frame's end, and every frame was answered.
    Clean,
    /// The link ended within a frame, and every whole one was answered. The place is the number of bytes that were read, 8 bytes wide.
    Cut { place: u64 },
    /// What was read holds what is no frame, and every frame before it was answered.
    BadFrame(FrameFault),
    /// A read failed. Every whole frame that was read was answered.
    ReadFault,
    /// A write failed. The replies of all turns before the last one were sent, and not all of the last one's.
    WriteFault,
    /// [`MOST_FRAMES`] frames were answered, and all replies were sent.
    Spent,
    /// There was no memory, and nothing was read.
    NoMemory,
}

/// What is kept of a session.
#[derive(Drop)]
pub struct Record {
    /// The number that it was given, 4 bytes wide.
    pub number: u32,
    /// How many lines of the vault its pass had seen before it, and how many behind it, 8 bytes wide each.
    pub seen_before: u64,
    pub seen_after: u64,
    /// What the clock gave for each frame that was answered, in seconds since 1970-01-01 00:00 UTC, 8 bytes wide each.
    pub moments: Vec<u64>,
    /// How each of them was answered.
    pub marks: Vec<Mark>,
    /// How it ended.
    pub end: SessionEnd,
}
