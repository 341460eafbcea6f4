/// The most slots of an index: 4,000,000.
pub const MAX_SLOTS: u32 = 4_000_000;
