// What a disk in memory holds, and what a stop leaves of it.

use crate::telling::SHOWN;
use crate::trial::Trial;
use nb_lines::Told;
use nb_port::MemDisk;
use nb_units::{Blob, NoMemory};

// The byte that stands in place of those that are not sure to stay, where it is asked whether all stays.
const OTHER: &str = "238";

impl Trial {
    /// `disk`: how many calls of the last disk were made, what it holds, and whether a stop now leaves that.
    pub fn disk(&self, told: &mut Told) -> Result<(), NoMemory> {
        match &self.left {
            Some(disk) => held(told, disk, &self.content),
            None => told.unclear(),
        }
    }

    /// `image MOMENT FILL`: what a stop at the moment leaves of the disk that is held, with what was not synced as it was, as it is, or
    /// filled with a byte. The disks of the next runs begin with it.
    pub fn image(&mut self, told: &mut Told, words: &[&str]) -> Result<(), NoMemory> {
        match self.image_at(words)? {
            Some(image) => {
                told.bytes_up_to("", image.as_slice(), SHOWN);
                self.content = Vec::from_slice(self.alloc(), image.as_slice())?;
                Ok(())
            }
            None => told.unclear(),
        }
    }

    fn image_at(&self, words: &[&str]) -> Result<Option<Blob>, NoMemory> {
        match (&self.held, words) {
            (Some(disk), [moment, fill]) => {
                nb_lines::image(self.alloc(), disk, nb_lines::number(*moment), *fill)
            }
            _ => Ok(None),
        }
    }
}

// The calls of a disk, its content, beside the one that it began with, and whether that stays.
fn held(told: &mut Told, disk: &MemDisk, before: &[u8]) -> Result<(), NoMemory> {
    let calls = disk.calls();
    beside(
        told.show("", &calls).text(" calls; "),
        disk.content(),
        before,
        "as before",
    );
    told.text("; ");
    match nb_lines::image(told.alloc(), disk, calls.saturating_mul(2), OTHER)? {
        Some(image) => beside(told, image.as_slice(), disk.content(), "which stays"),
        None => return told.unclear(),
    }
    told.done()
}

// Bytes; or, where they are those of another list, the word for that.
fn beside(told: &mut Told, bytes: &[u8], others: &[u8], same: &str) {
    if bytes == others {
        told.text(same);
    } else {
        told.bytes_up_to("", bytes, SHOWN);
    }
}
