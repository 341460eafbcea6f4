// Whether the replies of the last server stand in its lines. Each frame is a fund of 1 for account 1, under a reference that begins with the
// numbers of its worker, of its link and of itself, and goes on with fe.

use crate::house::House;
use crate::servers::Came;
use nb_entry::Entry;
use nb_lines::Told;
use nb_link::MemLink;
use nb_session::Record;
use nb_turns::{Line, Mark};
use nb_units::{AcctId, NoMemory};
use std::alloc::Global;

// The account that the first party has.
const ACCOUNT: AcctId = AcctId(1);

// What the lines tell.
#[derive(Drop)]
struct Stood {
    // The entries that are kept.
    entries: Vec<Entry>,
    // The faults, each with who asked.
    faults: Vec<(u64, Mark)>,
    // How many workers there are, and the lines of none of them, or of another one than their entry.
    workers: u64,
    foreign: u64,
}

// How many replies stand, how many tell a fault, and how many do not stand.
#[derive(Clone, Copy)]
struct Counts {
    placed: u64,
    failed: u64,
    fallen: u64,
}

impl House {
    /// `stand BEFORE`: of each reply of the last server whether its fund stands at the place that it tells, behind so many entries of the
    /// journal, or its fault is told under its worker's number.
    pub fn stand(&self, told: &mut Told, words: &[&str]) -> Result<(), NoMemory> {
        match (&self.came, words) {
            (Some(came), [before]) => summed(told, came, nb_lines::number(*before)),
            _ => told.unclear(),
        }
    }
}

fn summed(told: &mut Told, came: &Came, before: u64) -> Result<(), NoMemory> {
    let stood = stood_in(told.alloc(), &came.lines, came.ends.len() as u64)?;
    let counts = counted(came, &stood, before);
    told.show("", &counts.placed.saturating_add(counts.failed))
        .show(" replies stand, ", &counts.fallen)
        .show(" do not; a place was told: ", &(counts.placed > 0))
        .show(", a fault: ", &(counts.failed > 0))
        .show("; ", &stood.foreign)
        .text(" lines of others")
        .done()
}

fn stood_in(alloc: Global, lines: &[Line], workers: u64) -> Result<Stood, NoMemory> {
    let mut stood = Stood {
        entries: Vec::new(alloc),
        faults: Vec::new(alloc),
        workers,
        foreign: 0,
    };
    for line in lines {
        stood.take(line)?;
    }
    Ok(stood)
}

impl Stood {
    fn take(&mut self, line: &Line) -> Result<(), NoMemory> {
        self.see(line.by() < self.workers);
        match *line {
            Line::Commit { by, entry, .. } => {
                self.see(is_of(&entry, by));
                self.entries.push(entry)?;
            }
            Line::Adopted { entry, .. } => self.entries.push(entry)?,
            Line::Doubt { by, entry, .. } => self.see(is_of(&entry, by)),
            Line::Fault {
                by,
                before,
                after,
                ..
            } => self.faults.push((by, Mark::Fault { before, after }))?,
        }
        Ok(())
    }

    fn see(&mut self, is_own: bool) {
        if !is_own {
            self.foreign = self.foreign.saturating_add(1);
        }
    }

    // Whether a reply that tells this stands.
    fn has(&self, mark: Mark, before: u64, frame: [u8; 3]) -> bool {
        match mark {
            Mark::At(place) => match self.entries.get(place.saturating_sub(before) as usize) {
                Some(entry) => *entry == fund(frame),
                None => false,
            },
            _ => self
                .faults
                .as_slice()
                .contains(&(u64::from(frame[0]), mark)),
        }
    }
}

// The entry is a fund that this worker brought.
fn is_of(entry: &Entry, worker: u64) -> bool {
    match *entry {
        Entry::Fund {
            acct,
            amount,
            reference,
        } => acct == ACCOUNT && amount == 1 && u64::from(reference[0]) == worker,
        _ => false,
    }
}

// The fund of a frame, which is named by the numbers of its worker, its link and itself.
fn fund(frame: [u8; 3]) -> Entry {
    let mut reference = [0xfe; 16];
    reference[..3].copy_from_slice(&frame);
    Entry::Fund {
        acct: ACCOUNT,
        amount: 1,
        reference,
    }
}

// Holds what each link was told against the lines.
fn counted(came: &Came, stood: &Stood, before: u64) -> Counts {
    let mut counts = Counts {
        placed: 0,
        failed: 0,
        fallen: 0,
    };
    let mut number = 0u8;
    for (worker, end) in came.workers.iter().zip(came.ends.as_slice()) {
        let mut link_number = 0u8;
        for (link, record) in worker.port.done().iter().zip(end.records.as_slice()) {
            counts.count(stood, before, [number, link_number, 0], link, record);
            link_number = link_number.saturating_add(1);
        }
        number = number.saturating_add(1);
    }
    counts
}

impl Counts {
    // Counts the replies of a link, each of which says what its mark says.
    fn count(
        &mut self,
        stood: &Stood,
        before: u64,
        first: [u8; 3],
        link: &MemLink,
        record: &Record,
    ) {
        let mut rest = link.sent();
        let mut frame = first;
        for mark in &record.marks {
            match first_told(rest) {
                Some((said, more)) => {
                    self.add(said, said == *mark && stood.has(said, before, frame));
                    rest = more;
                }
                None => self.add(*mark, false),
            }
            frame[2] = frame[2].saturating_add(1);
        }
        self.add_rest(rest);
    }

    fn add(&mut self, mark: Mark, stands: bool) {
        if !stands {
            self.fallen = self.fallen.saturating_add(1);
            return;
        }
        match mark {
            Mark::At(_) => self.placed = self.placed.saturating_add(1),
            _ => self.failed = self.failed.saturating_add(1),
        }
    }

    // What follows the last reply stands for nothing.
    fn add_rest(&mut self, rest: &[u8]) {
        if !rest.is_empty() {
            self.fallen = self.fallen.saturating_add(1);
        }
    }
}

// What one reply tells, and what follows it. One to a fund has 28 bytes, with a place and a balance, which is as much as stands before
// it; one that tells that the disk failed has 57 bytes, with two counts.
fn first_told(replies: &[u8]) -> Option<(Mark, &[u8])> {
    match replies.get(3) {
        Some(0x0f) => {
            let (reply, rest) = replies.split_at(replies.len().min(28));
            Some((placed(reply)?, rest))
        }
        _ => {
            let (reply, rest) = replies.split_at(replies.len().min(57));
            Some((failed(reply)?, rest))
        }
    }
}

fn placed(reply: &[u8]) -> Option<Mark> {
    let (front, _) = reply.split_at(reply.len().min(12));
    if front != [0x4e, 0x42, 1, 0x0f, 0, 0, 0, 20, 0, 0, 0, 1].as_slice() {
        return None;
    }
    let place = number_at(reply, 12)?;
    if number_at(reply, 20)? == place {
        Some(Mark::At(place))
    } else {
        None
    }
}

fn failed(reply: &[u8]) -> Option<Mark> {
    let (front, _) = reply.split_at(reply.len().min(9));
    if front != [0x4e, 0x42, 1, 0x10, 0, 0, 0, 0x31, 50].as_slice() {
        return None;
    }
    let before = number_at(reply, 9)?;
    let after = number_at(reply, 17)?;
    Some(Mark::Fault { before, after })
}

// A number of 8 bytes at a place.
fn number_at(bytes: &[u8], place: usize) -> Option<u64> {
    let (_, rest) = bytes.split_at(place.min(bytes.len()));
    let (word, _) = rest.split_at(rest.len().min(8));
    if word.len() != 8 {
        return None;
    }
    let mut eight = [0u8; 8];
    eight.copy_from_slice(word);
    Some(u64::from_be_bytes(eight))
}
