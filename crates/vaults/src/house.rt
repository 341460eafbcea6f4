use crate::names::Names;
use crate::telling;
use nb_endorse::KeptStates;
use nb_lines::Told;
use nb_port::MemDisk;
use nb_units::NoMemory;
use nb_vault::Vault;
use std::alloc::Global;
use std::mem;

/// What the next vaults are opened on, the one that is open, and the disk of the one that was closed last.
#[derive(Drop)]
pub struct House {
    pub alloc: Global,
    pub names: Names,
    pub journal: Vec<u8>,
    pub fails: Vec<u64>,
    pub vault: Option<Vault<MemDisk>>,
    // How many lines of the vault were told.
    pub lines: u64,
    pub disk: Option<MemDisk>,
    // The states of keys that who asks keeps, whatever vault is open.
    pub kept: KeptStates,
}

impl House {
    /// A house of nothing.
    pub fn new(alloc: Global) -> House {
        House {
            alloc,
            names: Names::new(alloc),
            journal: Vec::new(alloc),
            fails: Vec::new(alloc),
            vault: None,
            lines: 0,
            disk: None,
            kept: KeptStates::none(),
        }
    }

    /// `forget`: who asks knows no key any more, and keeps those that it learns from now on.
    pub fn forget(&mut self) -> Result<(), NoMemory> {
        let kept = KeptStates::new(self.alloc)?;
        drop(mem::replace(&mut self.kept, kept));
        Ok(())
    }

    /// `request NAME MOMENT HEX`: a request, which is asked at this moment, has a name.
    pub fn request(&mut self, told: &mut Told, words: &[&str]) -> Result<(), NoMemory> {
        let [name, moment, text] = words else {
            return told.unclear();
        };
        let moment = nb_lines::number(*moment);
        self.names.add_request(self.alloc, *name, moment, *text)
    }

    /// `entry NAME HEX`: an entry has a name.
    pub fn entry(&mut self, told: &mut Told, words: &[&str]) -> Result<(), NoMemory> {
        let [name, text] = words else {
            return told.unclear();
        };
        if self.names.add_entry(self.alloc, *name, *text)? {
            Ok(())
        } else {
            told.unclear()
        }
    }

    /// `journal HEX`: the next disks have this content.
    pub fn journal(&mut self, told: &mut Told, words: &[&str]) -> Result<(), NoMemory> {
        if words.len() > 1 {
            return told.unclear();
        }
        let text = words.first().copied().unwrap_or("");
        self.journal = nb_lines::spelled(self.alloc, text);
        Ok(())
    }

    /// `disk CALL..`: the calls of the next disks that fail, from 1 on.
    pub fn disk_fails(&mut self, words: &[&str]) -> Result<(), NoMemory> {
        self.fails = nb_lines::numbers(self.alloc, words, 0)?;
        Ok(())
    }

    /// A disk with the journal.
    pub fn next_disk(&self) -> Result<MemDisk, NoMemory> {
        MemDisk::new(self.alloc, &self.journal, &self.fails)
    }

    /// `open`: opens a vault, and tells how many entries it has, or why there is none.
    pub fn open(&mut self, told: &mut Told) -> Result<(), NoMemory> {
        let disk = self.next_disk()?;
        self.hold(opened(told, disk));
        Ok(())
    }

    /// This vault is open from now on, and none of its lines was told.
    pub fn hold(&mut self, vault: Option<Vault<MemDisk>>) {
        self.lines = 0;
        drop(mem::replace(&mut self.vault, vault));
    }

    /// Tells the lines of the vault since those that were told.
    pub fn tell_lines(&mut self, told: &mut Told) -> Result<(), NoMemory> {
        if let Some(vault) = &self.vault {
            self.lines = lines_from(told, &self.names, vault, self.lines);
        }
        told.done()
    }

    /// `close`: ends the vault, and tells how many lines it had, how many calls of its disk were made, and what that holds.
    pub fn close(&mut self, told: &mut Told) -> Result<(), NoMemory> {
        match mem::replace(&mut self.vault, None) {
            Some(vault) => {
                drop(mem::replace(&mut self.disk, Some(closed(told, vault))));
                told.done()
            }
            None => told.unclear(),
        }
    }
}

fn opened(told: &mut Told, disk: MemDisk) -> Option<Vault<MemDisk>> {
    match Vault::open(told.alloc(), disk) {
        Ok(vault) => {
            told.show("", &vault.entries()).text(" entries");
            Some(vault)
        }
        Err((fault, _)) => {
            telling::fault(told, fault);
            None
        }
    }
}

// Tells the lines of a vault from this one on, and gives how many there are.
fn lines_from(told: &mut Told, names: &Names, vault: &Vault<MemDisk>, first: u64) -> u64 {
    let mut count = first;
    for number in first..u64::MAX {
        let Some(line) = vault.line(number) else {
            break;
        };
        telling::line(told, names, &line);
        count = number + 1;
    }
    count
}

fn closed(told: &mut Told, vault: Vault<MemDisk>) -> MemDisk {
    let (disk, lines) = vault.into_parts();
    told.show("", &lines.len())
        .show(" lines, ", &disk.calls())
        .bytes(" calls: ", disk.content());
    disk
}
