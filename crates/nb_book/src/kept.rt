use nb_entry::Entry;

/// A payment or a refusal, and its place.
#[derive(Clone, Copy)]
pub struct Kept {
    /// The number of entries before it, 8 bytes wide.
    pub at: u64,
    /// A payment or a refusal.
    pub entry: Entry,
}
