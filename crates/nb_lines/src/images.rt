use nb_port::{Fill, MemDisk};
use nb_units::{Blob, NoMemory};
use std::alloc::Global;

/// What a stop at a moment leaves of a disk, where its calls go that far. What was not synced is as it was or as it is, where the word is `old` or
/// `new`, or the byte whose number the word is; there is no image where it is none of these.
pub fn image(
    alloc: Global,
    disk: &MemDisk,
    moment: u64,
    fill: &str,
) -> Result<Option<Blob>, NoMemory> {
    if moment / 2 + moment % 2 > disk.calls() {
        return Ok(None);
    }
    match filled(fill) {
        Some(fill) => Ok(Some(disk.image(alloc, moment, fill)?)),
        None => Ok(None),
    }
}

fn filled(word: &str) -> Option<Fill> {
    match word {
        "old" => Some(Fill::Old),
        "new" => Some(Fill::New),
        _ => Some(Fill::Byte(word.parse::<u8>().ok()?)),
    }
}
