use nb_entry::Entry;
use nb_units::Charter;
use std::collections::LinkedList;

/// What a vault was opened with. No value of it is made: it is what contracts speak of.
pub struct Origin {
    /// The entries that stood on the disk.
    pub entries: LinkedList<Entry>,
    /// What the house was made with: the bytes of the journal's head, its version and its rate.
    pub charter: Charter,
    /// The most entries that may be held.
    pub cap: u32,
    /// The disk's count of faults before it was opened, 8 bytes wide.
    pub faults: u64,
}
