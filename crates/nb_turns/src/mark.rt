/// How a request was answered.
#[derive(Clone, Copy, PartialEq, Eq)]
pub enum Mark {
    /// It was decided over so many entries: this is the place of what it records.
    At(u64),
    /// The disk failed in its turn, between these two counts of its faults.
    Fault { before: u64, after: u64 },
    /// Too many turns failed before, and nothing was done.
    Worn,
}
