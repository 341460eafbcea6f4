// Journals that are made and opened over the content of a disk.

use crate::trial::Trial;
use crate::words::Words;
use nb_journal::{HEAD, InitFault, Journal, OpenFault, Opened, init, init2};
use nb_lines::Told;
use nb_port::MemDisk;
use nb_units::{FIRST_VERSION, NoMemory};

// The most bytes that a line adds to the content.
const MOST: u32 = 1_000_000;

impl Trial {
    /// `content`: what it is, `length`: how many bytes. `content HEX`: it is this now. `more COUNT HEX`: these bytes so many times, behind it. `turn PLACE BYTE`: a byte
    /// of it is another. `fails CALL..`: the calls of the next disk that fail. `init CAP BYTE [RATE]`: a journal is made whose head is 80 times this
    /// byte, with a rate one of the version with fees. `open`: what it has. `cut COUNT`: what so many bytes of its front are. `steps`: see [`Trial::steps`].
    pub fn of_journal(
        &mut self,
        told: &mut Told,
        word: &str,
        words: &[&str],
    ) -> Result<(), NoMemory> {
        match word {
            "steps" => self.steps(told, words),
            "content" if words.is_empty() => {
                told.bytes("", &self.content);
                Ok(())
            }
            "length" if words.is_empty() => {
                told.show("", &self.content.len()).text(" bytes");
                Ok(())
            }
            "open" => opened(told, &self.content),
            "fails" => {
                self.fails = nb_lines::numbers(self.alloc, words, 0)?;
                Ok(())
            }
            _ => self.change(told, word, &mut Words::new(words)),
        }
    }

    fn change(&mut self, told: &mut Told, word: &str, words: &mut Words) -> Result<(), NoMemory> {
        match word {
            "content" => {
                self.content = words.bytes(self.alloc);
                Ok(())
            }
            "more" => self.add(words),
            "turn" => {
                self.turn(words);
                Ok(())
            }
            "cut" => self.cut(told, words),
            "init" => self.make(told, words),
            _ => told.unclear(),
        }
    }

    fn add(&mut self, words: &mut Words) -> Result<(), NoMemory> {
        let count = words.number().min(MOST);
        let bytes = words.bytes(self.alloc);
        for _ in 0..count {
            self.content.extend_from_slice(&bytes)?;
        }
        Ok(())
    }

    fn turn(&mut self, words: &mut Words) {
        let (place, byte) = (words.number(), words.byte());
        if let Some(there) = self.content.get_mut(place as usize)
            && !words.some_bad()
        {
            *there = byte;
        }
    }

    fn cut(&self, told: &mut Told, words: &mut Words) -> Result<(), NoMemory> {
        let count = (words.number() as usize).min(self.content.len());
        opened(told, self.content.as_slice().split_at(count).0)
    }

    fn make(&mut self, told: &mut Told, words: &mut Words) -> Result<(), NoMemory> {
        let mut disk = MemDisk::new(self.alloc, &self.content, &self.fails)?;
        match made(&mut disk, words) {
            Ok(()) => told.text("made"),
            Err(fault) => unmade(told, fault),
        };
        self.content = Vec::from_slice(self.alloc, disk.content())?;
        Ok(())
    }
}

fn made(disk: &mut MemDisk, words: &mut Words) -> Result<(), InitFault> {
    let (cap, byte) = (words.number(), words.byte());
    match words.rate() {
        None => init(disk, &[byte; HEAD], cap),
        Some(rate) => init2(disk, &[byte; HEAD], cap, rate),
    }
}

fn unmade(told: &mut Told, fault: InitFault) -> &mut Told {
    match fault {
        InitFault::BadCap { cap } => told.show("bad cap ", &cap),
        InitFault::BadRate { rate } => told.show("bad rate ", &rate),
        InitFault::Exists { magic } => told.hex("exists ", &magic),
        InitFault::LookFailed { before, after } => {
            told.show("look failed ", &before).show("-", &after)
        }
        InitFault::DiskFault { before, after } => {
            told.show("disk fault ", &before).show("-", &after)
        }
    }
}

/// Why a journal is none, in words.
pub fn unopened(told: &mut Told, fault: OpenFault) {
    match fault {
        OpenFault::Unborn { found } => told.hex("unborn ", &found),
        OpenFault::Damaged { item, place } => {
            told.show("damaged at item ", &item)
                .show(", place ", &place)
        }
        OpenFault::DiskFault { before, after } => {
            told.show("disk fault ", &before).show("-", &after)
        }
        OpenFault::NoMemory => told.text("no memory"),
    };
}

// What a content has, as a journal.
fn opened(told: &mut Told, content: &[u8]) -> Result<(), NoMemory> {
    let disk = MemDisk::new(told.alloc(), content, &[])?;
    match Journal::open(told.alloc(), disk, 0) {
        Ok(opened) => {
            has(told, &opened);
            drop(opened);
        }
        Err((fault, disk)) => {
            unopened(told, fault);
            drop(disk);
        }
    }
    Ok(())
}

fn has(told: &mut Told, opened: &Opened<MemDisk>) {
    told.show("cap ", &opened.cap)
        .hex(", head ", &opened.head)
        .show(", ", &opened.items.len())
        .text(" items");
    if opened.version != FIRST_VERSION {
        told.show(", rate ", &opened.rate).text(":");
    }
    for item in &opened.items {
        told.bytes(" ", item.as_slice());
    }
}
