// What a merchant does on a consumer's link, and what came of it is told.

ghost use Rattle.std.specs.Prelude.{◌≡◌, ◌<◌};
ghost use Rattle.nb_journal.specs.Growing.{IsAtRest};
ghost use Rattle.nb_journal.specs.declared.limits.TheConstants.{MAX_ITEM};

use crate::deal::{Deal, behind, opening_calls, tell_fault};
use nb_journal::{Journal, MAX_ITEM, Opened};
use nb_lines::Told;
use nb_link::MemLink;
use nb_merchant::Merchant;
use nb_port::{Disk, MemClock, MemDisk};
use nb_price::{Catalogue, MAX_SHELF};
use nb_sell::{SellEnd, sell_link};
use nb_stall::Stall;
use nb_units::NoMemory;
use std::mem;

// The most items of a stall that is opened.
const MOST: usize = 1_000;

impl Deal {
    /// `journal HEX`: the content of the stall's disk.
    pub fn journal(&mut self, told: &mut Told, words: &[&str]) -> Result<(), NoMemory> {
        let [text] = words else {
            return told.unclear();
        };
        self.stall = nb_lines::spelled(self.alloc, *text);
        Ok(())
    }

    /// `moments MOMENT..`: the moments that the clock gives one after another, the last of them again and again.
    pub fn moments(&mut self, words: &[&str]) -> Result<(), NoMemory> {
        self.moments = nb_lines::numbers(self.alloc, words, 0)?;
        Ok(())
    }

    /// `shelf LINE..`: what the merchant sells, which are these lines, with a line feed between two.
    pub fn shelf(&mut self, words: &[&str]) -> Result<(), NoMemory> {
        let mut shelf = Vec::new(self.alloc);
        for line in words {
            if !shelf.is_empty() {
                shelf.push(0x0A)?;
            }
            shelf.extend_from_slice(line.as_bytes())?;
        }
        self.shelf = shelf;
        Ok(())
    }

    /// `sell STEP`: a merchant that is opened on the stall's disk, and sells what is on the shelf, does what it does on the consumer's link, where one read
    /// gives at most so many bytes. It prints how that ended, what the disk has then, and what was sent to the house and to the consumer.
    pub fn sell(&mut self, told: &mut Told, words: &[&str]) -> Result<(), NoMemory> {
        let [step] = words else {
            return told.unclear();
        };
        let step = step.parse::<usize>().unwrap_or(1).max(1);
        if self.shelf.len() > MAX_SHELF {
            return told.unclear();
        }
        match Catalogue::read(self.alloc, self.shelf.as_slice()) {
            Ok(catalogue) => self.sell_from(told, catalogue, step),
            Err(fault) => told.show("", &fault).done(),
        }
    }

    /// `cuts STEP`: the same over the first bytes that come over the consumer's link, for each number of them, with what the disk has and what comes over the
    /// house's. It prints from which number to which it comes to the same, and what that is.
    pub fn cuts(&mut self, told: &mut Told, words: &[&str]) -> Result<(), NoMemory> {
        let comes = mem::replace(&mut self.consumer.comes, Vec::new(self.alloc));
        let house = mem::replace(&mut self.house.comes, Vec::new(self.alloc));
        let stall = mem::replace(&mut self.stall, Vec::new(self.alloc));
        let mut began = 0;
        let mut before = Told::new(self.alloc);
        for count in 0..comes.len() + 1 {
            self.stall = Vec::from_slice(self.alloc, stall.as_slice())?;
            self.house.comes = Vec::from_slice(self.alloc, house.as_slice())?;
            self.consumer.comes = Vec::from_slice(self.alloc, comes.split_at(count).0)?;
            let mut one = Told::new(self.alloc);
            self.sell(&mut one, words)?;
            if count > 0 && one.as_str() != before.as_str() {
                tell_cut(told, began, count - 1, before.as_str());
                told.text("\n");
                began = count;
            }
            before = one;
        }
        tell_cut(told, began, comes.len(), before.as_str());
        told.done()
    }

    fn sell_from(
        &mut self,
        told: &mut Told,
        catalogue: Catalogue,
        step: usize,
    ) -> Result<(), NoMemory>
        requires step { 0 < step }
    {
        let calls = opening_calls(self.alloc, self.stall.as_slice())?;
        let fails = behind(self.alloc, calls, self.disk.as_slice())?;
        self.disk.clear();
        let disk = MemDisk::new(self.alloc, self.stall.as_slice(), fails.as_slice())?;
        match Journal::open(self.alloc, disk, MAX_ITEM) {
            Ok(opened) => self.sell_with(told, opened, catalogue, step),
            Err(_) => told.unclear(),
        }
    }

    fn sell_with(
        &mut self,
        told: &mut Told,
        opened: Opened<MemDisk>,
        catalogue: Catalogue,
        step: usize,
    ) -> Result<(), NoMemory>
        requires step { 0 < step }
        requires rest { IsAtRest ⟦<MemDisk as Disk>⟧.tells opened.journal }
        requires room { opened.journal.room ≡ MAX_ITEM }
    {
        let Opened {
            journal,
            head,
            items,
            ..
        } = opened;
        if items.len() > MOST {
            return told.unclear();
        }
        match Merchant::restart(
            self.alloc,
            Stall::of_head(&head),
            catalogue,
            items.as_slice(),
        ) {
            Ok(merchant) => self.sold(told, journal, merchant, step),
            Err(fault) => tell_fault(told, fault),
        }
    }

    fn sold(
        &mut self,
        told: &mut Told,
        journal: Journal<MemDisk>,
        merchant: Merchant,
        step: usize,
    ) -> Result<(), NoMemory>
        requires step { 0 < step }
        requires rest { IsAtRest ⟦<MemDisk as Disk>⟧.tells journal }
        requires room { journal.room ≡ MAX_ITEM }
    {
        let (mut journal, mut merchant) = (journal, merchant);
        let mut outside = self.outside(step)?;
        let end = sell_link(
            self.alloc,
            &mut journal,
            &mut merchant,
            &mut outside.consumer,
            &mut outside.house,
            &mut outside.clock,
        );
        tell_end(told, end);
        let disk = journal.into_disk();
        self.stall = Vec::from_slice(self.alloc, disk.content())?;
        told.bytes("\njournal ", self.stall.as_slice());
        tell_sent(told, &outside.house, &outside.consumer)
    }

    // What is sold over, where one read gives at most so many bytes.
    fn outside(&mut self, step: usize) -> Result<Outside, NoMemory>
        requires { 0 < step }
    {
        Ok(Outside {
            house: self.house.link(self.alloc, step)?,
            consumer: self.consumer.link(self.alloc, step)?,
            clock: MemClock::new(self.alloc, self.moments.as_slice())?,
        })
    }
}

// The links of the house and of the consumer, and the clock.
#[derive(Drop)]
struct Outside {
    house: MemLink,
    consumer: MemLink,
    clock: MemClock,
}

// What it came to where the first so many bytes came.
fn tell_cut(told: &mut Told, first: usize, last: usize, text: &str) {
    told.show("", &first)
        .show(" to ", &last)
        .text(":\n")
        .text(text);
}

// What was sent to both.
fn tell_sent(told: &mut Told, house: &MemLink, consumer: &MemLink) -> Result<(), NoMemory> {
    told.bytes("\nto the house ", house.sent());
    told.bytes("\nto the consumer ", consumer.sent()).done()
}

fn tell_end(told: &mut Told, end: SellEnd) {
    match end {
        SellEnd::Ended => told.text("ended"),
        SellEnd::ServerFault => told.text("the house's link failed"),
        SellEnd::NoMemory => told.text("no memory"),
        SellEnd::Full { cap } => told.show("full: ", &cap),
        SellEnd::DiskFault { before, after } => told
            .show("the disk failed: ", &before)
            .show(" to ", &after),
    };
}
