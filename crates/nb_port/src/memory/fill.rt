/// What stands in the ranges that were written since the last sync that was done.
#[derive(Clone, Copy)]
pub enum Fill {
    /// What stood there before, and nothing past the end at that sync.
    Old,
    /// What was written, by a write that failed too.
    New,
    /// This byte at each place.
    Byte(u8),
}
