// A sale over links in memory: the parts of goods are handed out to a consumer that has asked for their price.

ghost use Rattle.std.specs.Prelude.{◌≡◌};
ghost use Rattle.nb_journal.specs.Growing.{IsAtRest};
ghost use Rattle.nb_journal.specs.declared.limits.TheConstants.{MAX_ITEM};

use crate::Made;
use crate::nodes::{MOMENT, STALL, pass, start_of};
use nb_asking::{goods_request, price_request};
use nb_goods::PART_BYTES;
use nb_journal::{Journal, MAX_ITEM, init};
use nb_link::MemLink;
use nb_merchant::Merchant;
use nb_msgs::write_message;
use nb_port::{Disk, MemClock, MemDisk};
use nb_price::{Catalogue, MAX_SHELF};
use nb_seal::NoMemory;
use nb_sell::sell_link;
use nb_units::width::SEAL;
use std::alloc::Global;

// The most items of the stall's journal.
const CAP: u32 = 8;

// The bytes that a read of a link gives at most.
const PIECE: usize = 65_536;

// How many of the last bytes that were sent are told.
const TOLD: usize = 64;

/// The row `sell`: all parts of goods of SIZE bytes are handed out so many times, on one link. What is made is how many bytes were sent, and the last of them.
pub fn run(alloc: Global, size: u32, times: u32) -> Result<Made, NoMemory> {
    let shelf = shelf_of(alloc, size)?;
    if shelf.len() > MAX_SHELF {
        return Ok(Made::Unknown);
    }
    let Ok(catalogue) = Catalogue::read(alloc, shelf.as_slice()) else {
        return Ok(Made::Unknown);
    };
    drop(shelf);
    let asked = asked(alloc, size, times).map_err(|_| NoMemory)?;
    let mut disk = MemDisk::new(alloc, &[], &[]).map_err(|_| NoMemory)?;
    if init(&mut disk, &STALL.head(), CAP).is_err() {
        return Ok(Made::Unknown);
    }
    match Journal::open(alloc, disk, MAX_ITEM) {
        Ok(opened) => sold(alloc, opened.journal, catalogue, asked.as_slice()).map_err(
            |_| NoMemory,
        ),
        Err(_) => Ok(Made::Unknown),
    }
}

// The merchant's one product, with goods of so many bytes.
fn shelf_of(alloc: Global, size: u32) -> Result<Vec<u8>, NoMemory> {
    let mut shelf = Vec::new(alloc);
    shelf.extend_from_slice(
        format!(in alloc; "7;300;goods;{size}\n")?
            .as_str()
            .as_bytes(),
    )?;
    shelf.resize(shelf.len() + size as usize, b'a')?;
    Ok(shelf)
}

// What the consumer sends: it asks for the price, and then for each part so many times.
fn asked(alloc: Global, size: u32, times: u32) -> Result<Vec<u8>, nb_units::NoMemory> {
    let mut bytes = Vec::new(alloc);
    let message = price_request(alloc, &pass(), &start_of(0))?;
    let written = write_message(&message, &mut bytes);
    drop(message);
    written?;
    for _ in 0..times {
        ask_all(alloc, u64::from(size) + SEAL as u64, &mut bytes)?;
    }
    Ok(bytes)
}

// Asks for each part of so many sealed bytes. The longest goods have 68.
fn ask_all(alloc: Global, total: u64, bytes: &mut Vec<u8>) -> Result<(), nb_units::NoMemory> {
    for part in 0..100 {
        let place = part * PART_BYTES as u64;
        if place < total {
            let message = goods_request(alloc, &pass(), &start_of(0), place)?;
            let written = write_message(&message, bytes);
            drop(message);
            written?;
        }
    }
    Ok(())
}

// Hands out what is asked for.
fn sold(
    alloc: Global,
    journal: Journal<MemDisk>,
    catalogue: Catalogue,
    asked: &[u8],
) -> Result<Made, nb_units::NoMemory>
    requires rest { IsAtRest ⟦<MemDisk as Disk>⟧.tells journal }
    requires room { journal.room ≡ MAX_ITEM }
{
    let mut journal = journal;
    let mut merchant = Merchant::new(alloc, STALL, catalogue);
    let mut outside = Outside::new(alloc, asked)?;
    sell_link(
        alloc,
        &mut journal,
        &mut merchant,
        &mut outside.consumer,
        &mut outside.house,
        &mut outside.clock,
    );
    told(alloc, outside.consumer.sent())
}

// What is sold over.
#[derive(Drop)]
struct Outside {
    consumer: MemLink,
    house: MemLink,
    clock: MemClock,
}

impl Outside {
    // The consumer's link gives what is asked, and the house's nothing.
    fn new(alloc: Global, asked: &[u8]) -> Result<Outside, nb_units::NoMemory> {
        Ok(Outside {
            consumer: MemLink::new(alloc, asked, PIECE, &[])?,
            house: MemLink::new(alloc, &[], PIECE, &[])?,
            clock: MemClock::new(alloc, &[MOMENT])?,
        })
    }
}

// How many bytes were sent, and the last of them.
fn told(alloc: Global, sent: &[u8]) -> Result<Made, nb_units::NoMemory> {
    let mut made = Vec::from_slice(alloc, &(sent.len() as u64).to_be_bytes())?;
    made.extend_from_slice(sent.split_at(sent.len().saturating_sub(TOLD)).1)?;
    Ok(Made::Bytes(made))
}
