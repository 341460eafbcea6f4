// Purchases over links in memory, with a wallet's or a stall's journal on a disk in memory.

ghost use Rattle.std.specs.Prelude.{◌<◌};
ghost use Rattle.nb_wallet.specs.Spelling.{StartKeepsRules};

mod making;
mod selling;

use nb_journal::{Journal, MAX_ITEM, Opened};
use nb_lines::Told;
use nb_link::MemLink;
use nb_msgs::RestartFault;
use nb_port::MemDisk;
use nb_units::{NoMemory, PartyId, Price, Small};
use nb_wallet::Start;
use std::alloc::Global;

// The most bytes that a line adds to what comes over a link.
const MOST: u64 = 2_000_000;

// What comes over a link, and which of its calls fail.
#[derive(Drop)]
struct Side {
    comes: Vec<u8>,
    fails: Vec<u64>,
}

impl Side {
    fn new(alloc: Global) -> Side {
        Side {
            comes: Vec::new(alloc),
            fails: Vec::new(alloc),
        }
    }

    // The link, of which one read gives at most so many bytes. What came and what fails is used up by it.
    fn link(&mut self, alloc: Global, step: usize) -> Result<MemLink, NoMemory>
        requires { 0 < step }
    {
        let link = MemLink::new(alloc, self.comes.as_slice(), step, self.fails.as_slice())?;
        self.comes.clear();
        self.fails.clear();
        Ok(link)
    }
}

/// What a purchase is made with: the content of the wallet's disk, or of the stall's and its shelf, what comes over the links of the house, the seller and the consumer, which
/// calls of the disk, the links and the output fail, and what the clock gives.
#[derive(Drop)]
pub struct Deal {
    alloc: Global,
    wallet: Vec<u8>,
    disk: Vec<u64>,
    output: Vec<u64>,
    house: Side,
    seller: Side,
    stall: Vec<u8>,
    shelf: Vec<u8>,
    moments: Vec<u64>,
    consumer: Side,
}

impl Deal {
    /// An empty disk, and links over which nothing comes.
    pub fn new(alloc: Global) -> Deal {
        Deal {
            alloc,
            wallet: Vec::new(alloc),
            disk: Vec::new(alloc),
            output: Vec::new(alloc),
            house: Side::new(alloc),
            seller: Side::new(alloc),
            stall: Vec::new(alloc),
            shelf: Vec::new(alloc),
            moments: Vec::new(alloc),
            consumer: Side::new(alloc),
        }
    }

    /// `wallet HEX`: the content of the wallet's disk.
    pub fn wallet(&mut self, told: &mut Told, words: &[&str]) -> Result<(), NoMemory> {
        let [text] = words else {
            return told.unclear();
        };
        self.wallet = nb_lines::spelled(self.alloc, *text);
        Ok(())
    }

    /// `comes house COUNT HEX`, and of `seller` and `consumer`: these bytes come over the link so many times, behind the others.
    pub fn comes(&mut self, told: &mut Told, words: &[&str]) -> Result<(), NoMemory> {
        let [whose, count, text] = words else {
            return told.unclear();
        };
        let bytes = nb_lines::spelled(self.alloc, *text);
        let count = nb_lines::number(*count).min(MOST);
        match *whose {
            "house" => again(&mut self.house.comes, count, &bytes),
            "seller" => again(&mut self.seller.comes, count, &bytes),
            "consumer" => again(&mut self.consumer.comes, count, &bytes),
            _ => told.unclear(),
        }
    }

    /// `fails house CALL..`, and of `seller`, `consumer`, `disk` and `output`: these calls fail, of the disk those behind its opening, each from 1 on.
    pub fn fails(&mut self, told: &mut Told, words: &[&str]) -> Result<(), NoMemory> {
        let [whose, calls @ ..] = words else {
            return told.unclear();
        };
        let numbers = nb_lines::numbers(self.alloc, calls, 0)?;
        match *whose {
            "house" => self.house.fails = numbers,
            "seller" => self.seller.fails = numbers,
            "consumer" => self.consumer.fails = numbers,
            "disk" => self.disk = numbers,
            "output" => self.output = numbers,
            _ => return told.unclear(),
        }
        Ok(())
    }

    /// `buy NUMBER LIMIT STEP`: the purchase of this number of merchant 2's product 7 is made, by a wallet that is opened on the disk, over links of which
    /// one read gives at most so many bytes. It prints how that ended, what the disk has then, what was sent to the house and to the seller, and
    /// what was written to the output.
    pub fn buy(&mut self, told: &mut Told, words: &[&str]) -> Result<(), NoMemory> {
        let [number, limit, step] = words else {
            return told.unclear();
        };
        let wish = wish(nb_lines::number(*number), nb_lines::number(*limit));
        let step = step.parse::<usize>().unwrap_or(1).max(1);
        let calls = opening_calls(self.alloc, self.wallet.as_slice())?;
        let fails = behind(self.alloc, calls, self.disk.as_slice())?;
        self.disk.clear();
        let disk = MemDisk::new(self.alloc, self.wallet.as_slice(), fails.as_slice())?;
        match Journal::open(self.alloc, disk, MAX_ITEM) {
            Ok(opened) => self.with(told, opened, &wish, step),
            Err(_) => told.unclear(),
        }
    }
}

// A wish for product 7 of merchant 2.
fn wish(transaction: u64, limit: u64) -> Start
    ensures { StartKeepsRules result }
{
    let none = Small::of(&[]).unwrap();
    Start {
        transaction,
        merchant: PartyId(2),
        product: 7,
        limit: Price(limit),
        request: none,
        memo: none,
    }
}

// Why a journal's items are not started with.
fn tell_fault(told: &mut Told, fault: RestartFault) -> Result<(), NoMemory> {
    match fault {
        RestartFault::BadItem { item } => told.show("bad item ", &item).done(),
        RestartFault::NoMemory => Err(NoMemory),
    }
}

// How many calls of the disk it takes to open a journal.
fn opening_calls(alloc: Global, content: &[u8]) -> Result<u64, NoMemory> {
    let disk = MemDisk::new(alloc, content, &[])?;
    match Journal::open(alloc, disk, MAX_ITEM) {
        Ok(opened) => {
            let Opened { journal, .. } = opened;
            Ok(journal.into_disk().calls())
        }
        Err((_, disk)) => Ok(disk.calls()),
    }
}

// Appends bytes so many times.
fn again(to: &mut Vec<u8>, count: u64, bytes: &[u8]) -> Result<(), NoMemory> {
    for _ in 0..count {
        if to.len() as u64 > MOST {
            break;
        }
        to.extend_from_slice(bytes)?;
    }
    Ok(())
}

// The numbers of calls that come behind so many others.
fn behind(alloc: Global, before: u64, calls: &[u64]) -> Result<Vec<u64>, NoMemory> {
    let mut numbers = Vec::with_capacity(alloc, calls.len())?;
    for call in calls {
        numbers.push(before.saturating_add(*call))?;
    }
    Ok(numbers)
}
