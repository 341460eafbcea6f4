// What stops leave of the disk of the last vault.

use crate::house::House;
use nb_lines::Told;
use nb_port::MemDisk;
use nb_units::NoMemory;
use nb_vault::Vault;

// The most moments that are told.
const MOST_MOMENTS: u64 = 100;

impl House {
    /// `stops FILL`: for each moment, from before the first call to behind the last one, how many entries a vault has that is opened on
    /// what a stop leaves, with what was not synced as it was, as it is, or filled with a byte.
    pub fn stops(&self, told: &mut Told, words: &[&str]) -> Result<(), NoMemory> {
        match (&self.disk, words) {
            (Some(disk), [fill]) => stopped(told, disk, *fill),
            _ => told.unclear(),
        }
    }
}

fn stopped(told: &mut Told, disk: &MemDisk, fill: &str) -> Result<(), NoMemory> {
    told.text("entries");
    for moment in 0..MOST_MOMENTS {
        let Some(image) = nb_lines::image(told.alloc(), disk, moment, fill)? else {
            break;
        };
        opened(told, image.as_slice())?;
    }
    told.done()
}

// How many entries a journal has.
fn opened(told: &mut Told, content: &[u8]) -> Result<(), NoMemory> {
    let disk = MemDisk::new(told.alloc(), content, &[])?;
    match Vault::open(told.alloc(), disk).ok() {
        Some(vault) => {
            told.show(" ", &vault.entries());
            drop(vault);
        }
        None => {
            told.text(" none");
        }
    }
    Ok(())
}
