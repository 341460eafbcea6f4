/// Why a step was not taken.
#[derive(Clone, Copy)]
pub enum Lost {
    /// There was no memory.
    NoMemory,
    /// The journal holds as many items as it may hold, and the step keeps one.
    Full { cap: u32 },
    /// The disk failed between these two counts of its faults. Whether the step's item stands in the journal is in doubt.
    DiskFault { before: u64, after: u64 },
}
