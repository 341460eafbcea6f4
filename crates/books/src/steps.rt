// Appends to a journal, and how what they leave in doubt is settled.

ghost use Rattle.std.specs.Prelude.{◌≡◌, false};

use crate::journals::unopened;
use crate::quiet::QuietDisk;
use crate::trial::Trial;
use crate::words::Words;
use nb_journal::{AppendFault, Journal, MAX_ITEM, Settled, StillStale};
use nb_lines::Told;
use nb_port::MemDisk;
use nb_units::NoMemory;

impl Trial {
    /// `steps ROOM STEP..`: the journal is opened, whose items may have so many bytes from then on, and each step is `settle` or an item that
    /// is appended, `-` for one without bytes. It prints what each step said, how many items there are then, and how many calls of the disk
    /// were made in all, and whether one wrote past the end; the content is what the disk has then.
    pub fn steps(&mut self, told: &mut Told, words: &[&str]) -> Result<(), NoMemory> {
        let room = Words::new(words).number().min(MAX_ITEM);
        let disk = MemDisk::new(self.alloc, &self.content, &self.fails)?;
        match Journal::open(self.alloc, QuietDisk::over(disk), room) {
            Ok(opened) => {
                let quiet = stepped(told, opened.journal, words);
                self.kept(told, &quiet)
            }
            Err((fault, _)) => {
                unopened(told, fault);
                Ok(())
            }
        }
    }

    // Tells of the disk behind the steps, and keeps its content.
    fn kept(&mut self, told: &mut Told, quiet: &QuietDisk) -> Result<(), NoMemory> {
        told.show("", &quiet.disk.calls()).text(" calls");
        if quiet.went_past {
            told.text(", past the end");
        }
        self.content = Vec::from_slice(self.alloc, quiet.disk.content())?;
        Ok(())
    }
}

// Takes the steps behind the first word, and gives the disk.
fn stepped(told: &mut Told, journal: Journal<QuietDisk>, words: &[&str]) -> QuietDisk {
    let mut journal = journal;
    for word in words.iter().skip(1) {
        step(told, &mut journal, *word);
        told.text(", ");
    }
    told.show("", &journal.len()).text(" items, ");
    journal.into_disk()
}

fn step(told: &mut Told, journal: &mut Journal<QuietDisk>, word: &str) {
    if word == "settle" {
        settled(told, journal.settle());
    } else if journal.is_stale() {
        told.text("in doubt");
    } else {
        append(told, journal, word);
    }
}

fn append(told: &mut Told, journal: &mut Journal<QuietDisk>, word: &str)
    requires { journal.old.stale ≡ false }
{
    // an item without bytes
    let text = if word == "-" { "" } else { word };
    match hex::decode(told.alloc(), text) {
        Ok(item) => appended(told, journal.append(&item)),
        Err(_) => {
            told.text("no such line");
        }
    }
}

fn appended(told: &mut Told, said: Result<(), AppendFault>) {
    match said {
        Ok(()) => told.text("appended"),
        Err(AppendFault::Full { cap }) => told.show("full ", &cap),
        Err(AppendFault::TooBig { len, room }) => told.show("too big ", &len).show(" ", &room),
        Err(AppendFault::DiskFault { before, after }) => {
            told.show("disk fault ", &before).show("-", &after)
        }
    };
}

fn settled(told: &mut Told, said: Result<Settled, StillStale>) {
    match said {
        Ok(Settled::Kept) => told.text("kept"),
        Ok(Settled::Dropped) => told.text("dropped"),
        Ok(Settled::Nothing) => told.text("nothing in doubt"),
        Err(StillStale { before, after }) => {
            told.show("still in doubt ", &before).show("-", &after)
        }
    };
}
