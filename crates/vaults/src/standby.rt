// The vault that is open as a standby, and records of a primary.

use crate::house::House;
use nb_entry::read_entry;
use nb_lines::Told;
use nb_port::MemDisk;
use nb_standby::{ACKNOWLEDGED_ROOM, SHIPPED_ROOM, follow, ship};
use nb_units::{Cut, NoMemory};
use nb_vault::Vault;

impl House {
    /// `follow HEX`: takes in what these bytes spell, and tells the code and the frame of the acknowledgement.
    pub fn follow(&mut self, told: &mut Told, words: &[&str]) -> Result<(), NoMemory> {
        let text = words.first().copied().unwrap_or("");
        match &mut self.vault {
            Some(vault) => followed(told, vault, text)?,
            None => return told.unclear(),
        }
        self.tell_lines(told)
    }

    /// `ship PLACE HEX`: tells the frame of the record of the entry that these bytes spell, at this place, under the key of the vault's house.
    pub fn ship(&mut self, told: &mut Told, words: &[&str]) -> Result<(), NoMemory> {
        match (&self.vault, words) {
            (Some(vault), [place, text]) => shipped(told, vault, nb_lines::number(*place), *text),
            _ => told.unclear(),
        }
    }
}

fn followed(told: &mut Told, vault: &mut Vault<MemDisk>, text: &str) -> Result<(), NoMemory> {
    let body = nb_lines::spelled(told.alloc(), text);
    let mut out = Vec::with_capacity(told.alloc(), ACKNOWLEDGED_ROOM)?;
    let code = follow(vault, body.as_slice(), &mut out);
    told.show("code ", &code).bytes(": ", &out).done()
}

fn shipped(
    told: &mut Told,
    vault: &Vault<MemDisk>,
    place: u64,
    text: &str,
) -> Result<(), NoMemory> {
    let bytes = nb_lines::spelled(told.alloc(), text);
    let mut out = Vec::with_capacity(told.alloc(), SHIPPED_ROOM)?;
    let mut cut = Cut::new(bytes.as_slice());
    match read_entry(&mut cut) {
        Ok(entry) => ship(place, &entry, &vault.house(), &mut out),
        Err(_) => return told.unclear(),
    }
    told.bytes("", &out).done()
}
