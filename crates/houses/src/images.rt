// What the disk of the last session holds, and what a stop leaves of it.

use crate::house::House;
use nb_lines::Told;
use nb_port::MemDisk;
use nb_units::{Blob, NoMemory};
use nb_vault::Vault;

impl House {
    /// `calls`: how many calls of the disk were made behind those of opening.
    pub fn calls(&self, told: &mut Told) -> Result<(), NoMemory> {
        match &self.left {
            Some(left) => {
                let calls = left.disk.calls().saturating_sub(self.opening);
                told.show("", &calls).text(" calls").done()
            }
            None => told.unclear(),
        }
    }

    /// `content`: what the disk holds.
    pub fn content(&self, told: &mut Told) -> Result<(), NoMemory> {
        match &self.left {
            Some(left) => told.bytes("", left.disk.content()).done(),
            None => told.unclear(),
        }
    }

    // The image at so many moments behind those of opening, with what was not synced as it was, as it is, or filled with a byte.
    fn image_at(&self, words: &[&str]) -> Result<Option<Blob>, NoMemory> {
        let (Some(left), [step, fill]) = (&self.left, words) else {
            return Ok(None);
        };
        let moment = self
            .opening
            .saturating_mul(2)
            .saturating_add(nb_lines::number(*step));
        nb_lines::image(self.alloc, &left.disk, moment, *fill)
    }

    /// `image STEP FILL`: what a stop leaves.
    pub fn image(&self, told: &mut Told, words: &[&str]) -> Result<(), NoMemory> {
        match self.image_at(words)? {
            Some(image) => told.bytes("", image.as_slice()).done(),
            None => told.unclear(),
        }
    }

    /// `entries STEP FILL`: how many entries a vault has that is opened on it.
    pub fn entries(&self, told: &mut Told, words: &[&str]) -> Result<(), NoMemory> {
        match self.image_at(words)? {
            Some(image) => opened(told, image.as_slice()),
            None => told.unclear(),
        }
    }
}

// How many entries a journal has.
fn opened(told: &mut Told, content: &[u8]) -> Result<(), NoMemory> {
    let disk = MemDisk::new(told.alloc(), content, &[])?;
    match Vault::open(told.alloc(), disk).ok() {
        Some(vault) => {
            told.show("", &vault.entries()).text(" entries");
            drop(vault);
            told.done()
        }
        None => told.unclear(),
    }
}
