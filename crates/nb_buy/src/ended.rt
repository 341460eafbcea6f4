use crate::peer::{Over, Peer};

/// The most frames that are read for one purchase, from both links together.
pub const MOST_FRAMES: u32 = 10_000;

/// How a purchase ended for now.
#[derive(Clone, Copy)]
pub enum BuyEnd {
    /// It was paid, and all of its goods were written.
    Paid,
    /// It is over, and no goods were had: it was refused, or the key of the receipt does not open them. Nothing was written.
    Unpaid,
    /// It was paid, and a write of the goods failed. A part of them was written, from their front.
    SinkFault,
    /// It is not over, and nothing more comes over the link that was waited for. Nothing was written.
    Stopped {
        /// Whose link it is.
        peer: Peer,
        /// Why.
        why: Over,
    },
    /// It is not over, and [`MOST_FRAMES`] frames were read. Nothing was written.
    Spent,
    /// A step could not be taken, or there was no memory to begin, or for goods that no frame had just opened. Nothing of that step was sent, and nothing was written.
    Lost(Lost),
}

/// Why nothing more was done.
#[derive(Clone, Copy)]
pub enum Lost {
    /// There was no memory.
    NoMemory,
    /// The wallet's journal holds as many items as it may hold, and the step keeps one.
    Full { cap: u32 },
    /// The disk failed between these two counts of its faults. Whether the step's item stands in the journal is in doubt.
    DiskFault { before: u64, after: u64 },
}
