/// The most frames that are read of one consumer's link.
pub const MOST_FRAMES: u32 = 10_000;

/// How selling on a consumer's link ended.
#[derive(Clone, Copy)]
pub enum SellEnd {
    /// Nothing more is sold on this link: it ended or failed, held a bad frame or gave its last of [`MOST_FRAMES`] frames; or a step was ignored; or the house's link
    /// ended or held a bad frame.
    Ended,
    /// The house's link failed.
    ServerFault,
    /// The disk failed between these two counts of its faults. Whether the step's item stands in the journal is in doubt. Nothing of the step was sent.
    DiskFault { before: u64, after: u64 },
    /// The stall's journal holds as many items as it may hold, and a step keeps one. Nothing of the step was sent.
    Full { cap: u32 },
    /// There was no memory. Nothing of the step stands in the journal, and nothing of it was sent; the merchant may know its item.
    NoMemory,
}
