ghost use Rattle.std.specs.Prelude.{◌≤◌, vec_len};

use crate::servers::Came;
use crate::sessions::Left;
use nb_lines::Told;
use nb_link::{MemLink, MemPort};
use nb_port::{MemClock, MemDisk};
use nb_server::Worker;
use nb_units::NoMemory;
use nb_vault::Vault;
use std::alloc::Global;

/// The moment of all requests.
pub const MOMENT: u64 = 1000;

// The most bytes that a line adds to what a peer sends.
const MOST: usize = 1_000_000;

// The most links of a worker.
const MOST_LINKS: usize = 100;

/// What the next house is made of, and what came of the last one.
#[derive(Drop)]
pub struct House {
    pub alloc: Global,
    // The journal, the number of calls that opening it makes, and the calls of its disk that fail.
    pub journal: Vec<u8>,
    pub opening: u64,
    pub fails: Vec<u64>,
    // What the peer of the next link sends.
    pub piece: Vec<u8>,
    pub links: Vec<MemLink>,
    pub workers: Vec<Worker<MemPort, MemClock>>,
    // What the next stall sells, and the link of its house.
    pub shelf: Vec<u8>,
    // What it offers to the members of groups, or nothing.
    pub offers: Vec<u8>,
    pub server: Option<MemLink>,
    // What the last session left, and the last server.
    pub left: Option<Left>,
    pub came: Option<Came>,
}

impl House {
    /// A house of nothing.
    pub fn new(alloc: Global) -> House {
        House {
            alloc,
            journal: Vec::new(alloc),
            opening: 0,
            fails: Vec::new(alloc),
            piece: Vec::new(alloc),
            links: Vec::new(alloc),
            workers: Vec::new(alloc),
            shelf: Vec::new(alloc),
            offers: Vec::new(alloc),
            server: None,
            left: None,
            came: None,
        }
    }

    /// `journal HEX`: the next houses begin with this journal.
    pub fn journal(&mut self, told: &mut Told, words: &[&str]) -> Result<(), NoMemory> {
        if words.len() > 1 {
            return told.unclear();
        }
        let text = words.first().copied().unwrap_or("");
        self.journal = nb_lines::spelled(self.alloc, text);
        let disk = MemDisk::new(self.alloc, &self.journal, &[])?;
        self.opening = opening_calls(self.alloc, disk);
        Ok(())
    }

    /// `disk CALL..`: the calls of their disks that fail, counted behind those of opening.
    pub fn disk_fails(&mut self, words: &[&str]) -> Result<(), NoMemory> {
        self.fails.clear();
        for word in words {
            let call = nb_lines::number(*word);
            self.fails.push(self.opening.saturating_add(call))?;
        }
        Ok(())
    }

    /// `opening CALL..`: the calls of their disks that fail, counted from the first.
    pub fn opening_fails(&mut self, words: &[&str]) -> Result<(), NoMemory> {
        self.fails = nb_lines::numbers(self.alloc, words, 0)?;
        Ok(())
    }

    /// A disk with the journal.
    pub fn disk(&self) -> Result<MemDisk, NoMemory> {
        MemDisk::new(self.alloc, &self.journal, &self.fails)
    }

    /// `send COUNT HEX`: the peer of the next link sends these bytes so many times, behind what it sends already.
    pub fn send(&mut self, told: &mut Told, words: &[&str]) -> Result<(), NoMemory> {
        let [count, text] = words else {
            return told.unclear();
        };
        let bytes = nb_lines::spelled(self.alloc, *text);
        let count = nb_lines::number(*count).min(MOST as u64);
        for _ in 0..count {
            self.piece.extend_from_slice(&bytes)?;
        }
        Ok(())
    }

    /// The next link, of which one read gives at most so many bytes, and of which these calls fail.
    pub fn next_link(&mut self, step: &str, fails: &[u64]) -> Result<MemLink, NoMemory> {
        let step = (nb_lines::number(step).min(MOST as u64) as usize).max(1);
        let link = MemLink::new(self.alloc, &self.piece, step, fails)?;
        self.piece.clear();
        Ok(link)
    }

    /// `link STEP CALL..`: the next worker has one link more, of which these calls fail.
    pub fn link(&mut self, told: &mut Told, words: &[&str]) -> Result<(), NoMemory> {
        let [step, calls @ ..] = words else {
            return told.unclear();
        };
        let fails = nb_lines::numbers(self.alloc, calls, 0)?;
        let link = self.next_link(*step, &fails)?;
        self.links.push(link)?;
        Ok(())
    }

    /// `worker CALL..`: the next server has one worker more, over these links; these calls of its port fail.
    pub fn worker(&mut self, told: &mut Told, words: &[&str]) -> Result<(), NoMemory> {
        let fails = nb_lines::numbers(self.alloc, words, 0)?;
        let links = std::mem::replace(&mut self.links, Vec::new(self.alloc));
        if links.len() > MOST_LINKS {
            return told.unclear();
        }
        let worker = worker_of(self.alloc, links, &fails)?;
        self.workers.push(worker)?;
        Ok(())
    }
}

// How many calls opening a vault makes.
fn opening_calls(alloc: Global, disk: MemDisk) -> u64 {
    match Vault::open(alloc, disk) {
        Ok(vault) => vault.into_disk().calls(),
        Err((_, disk)) => disk.calls(),
    }
}

fn worker_of(
    alloc: Global,
    links: Vec<MemLink>,
    fails: &[u64],
) -> Result<Worker<MemPort, MemClock>, NoMemory>
    requires { vec_len links ≤ MOST_LINKS }
{
    let clock = MemClock::new(alloc, &[MOMENT])?;
    let port = MemPort::new(alloc, links, fails)?;
    Ok(Worker { port, clock })
}
