use nb_entry::MAX_ITEM_ENTRIES;

/// The most requests of one turn: each may record an entry, and what a turn records is one item.
pub const MAX_REQUESTS: usize = MAX_ITEM_ENTRIES;

/// After so many turns that failed since it was opened a house answers no more.
pub const MAX_FAULTS: u32 = 1000;
