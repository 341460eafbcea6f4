use nb_units::Blob;

/// One step of a disk in memory. A call makes two, and a stop within it is one between them.
#[derive(Drop)]
pub enum DiskStep {
    /// Nothing changes.
    Pause,
    /// Bytes were written at a place.
    Wrote { place: usize, bytes: Blob },
    /// A write of bytes at a place failed.
    Tore { place: usize, bytes: Blob },
    /// All that was written before stays.
    Synced,
}
