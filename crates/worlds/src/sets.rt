//! Set-ups, as words say them.

use nb_entry::Entry;
use nb_price::Catalogue;
use nb_simulator::Setup;
use nb_stall::Stall;
use nb_units::{AcctId, HEAD, NoMemory, PartyId, Price};
use nb_wallet::Wallet;
use std::alloc::Global;

// The longest goods of a world.
const MOST: u64 = 4_000_000;

// What is enrolled: two consumers and a merchant. The first consumer has 500, the second nothing.
static ENTRIES: [Entry; 4] = [
    Entry::Enrol {
        id: PartyId(1),
        role: nb_entry::CONSUMER,
        acct: AcctId(1),
        nonce: 7,
        key: [0x44; 32],
    },
    Entry::Enrol {
        id: PartyId(2),
        role: nb_entry::MERCHANT,
        acct: AcctId(2),
        nonce: 0,
        key: [0x55; 32],
    },
    Entry::Enrol {
        id: PartyId(3),
        role: nb_entry::CONSUMER,
        acct: AcctId(3),
        nonce: 9,
        key: [0x66; 32],
    },
    Entry::Fund {
        acct: AcctId(1),
        amount: 500,
        reference: [0; 16],
    },
];

// The consumer of this number, as it is enrolled.
fn wallet(id: u32, nonce: u64, key: u8) -> Wallet {
    Wallet {
        id: PartyId(id),
        acct: AcctId(id),
        nonce,
        key: [key; 32],
    }
}

fn stall(id: u32, key: u8) -> Stall {
    Stall {
        id: PartyId(id),
        acct: AcctId(2),
        key: [key; 32],
        master: [0x77; 32],
    }
}

// Goods of so many bytes, which count up.
fn goods(alloc: Global, len: u64) -> Result<Vec<u8>, NoMemory> {
    let mut goods = Vec::new(alloc);
    for i in 0..len.min(MOST) {
        goods.push((i % 251) as u8)?;
    }
    Ok(goods)
}

// A shelf with goods of so many bytes as product 7, for 300.
fn shelf(alloc: Global, len: u64) -> Result<Catalogue, NoMemory> {
    let goods = goods(alloc, len)?;
    let mut catalogue = Catalogue::new(alloc);
    match catalogue.put(7, Price(300), goods) {
        Ok(()) => Ok(catalogue),
        Err(_) => Err(NoMemory),
    }
}

// Who buys beside the first consumer: 3; with a change.
fn second(change: &str) -> Wallet {
    match change {
        "consumer-twice" => wallet(1, 7, 0x44),
        "consumer-unknown" => wallet(4, 9, 0x66),
        "consumer-is-merchant" => wallet(2, 0, 0x55),
        "consumer-nonce" => wallet(3, 8, 0x66),
        "consumer-key" => wallet(3, 9, 0x67),
        "consumer-account" => Wallet {
            acct: AcctId(1),
            ..wallet(3, 9, 0x66)
        },
        _ => wallet(3, 9, 0x66),
    }
}

// Who sells: 2; with a change.
fn seller(change: &str) -> Stall {
    match change {
        "merchant-unknown" => stall(4, 0x55),
        "merchant-is-consumer" => stall(3, 0x66),
        "merchant-key" => stall(2, 0x56),
        "merchant-account" => Stall {
            acct: AcctId(1),
            ..stall(2, 0x55)
        },
        _ => stall(2, 0x55),
    }
}

// One more merchant, with goods of so many bytes.
fn list(
    alloc: Global,
    listed: &mut Vec<(Stall, Catalogue)>,
    stall: Stall,
    len: u64,
) -> Result<(), NoMemory> {
    let shelf = shelf(alloc, len)?;
    listed.push((stall, shelf))?;
    Ok(())
}

// Who buys, who sells goods of so many bytes, and what the house has; with a change.
fn fill(alloc: Global, setup: &mut Setup, len: u64, change: &str) -> Result<(), NoMemory> {
    setup.consumers.push(wallet(1, 7, 0x44))?;
    setup.consumers.push(second(change))?;
    list(alloc, &mut setup.merchants, seller(change), len)?;
    if change == "merchant-twice" {
        list(alloc, &mut setup.merchants, stall(2, 0x55), 0)?;
    }
    setup.entries.extend_from_slice(&ENTRIES)?;
    if change == "entry-twice" {
        setup.entries.push(ENTRIES[3])?;
    }
    Ok(())
}

/// The set-up that `LENGTH CAP VERSION RATE CHANGE` say, if they do: a house with two consumers, a merchant that sells goods of so many bytes as
/// product 7 for 300, and a fund of 500 for the first consumer, with a change of one thing that a set-up must have.
pub(crate) fn setup(alloc: Global, words: &[&str]) -> Result<Option<Setup>, NoMemory> {
    let [len, cap, version, rate, change] = words else {
        return Ok(None);
    };
    let mut setup = Setup {
        head: [0x11; HEAD],
        version: version.parse::<u8>().unwrap_or(0),
        rate: rate.parse::<u16>().unwrap_or(0),
        cap: cap.parse::<u32>().unwrap_or(0),
        consumers: Vec::new(alloc),
        merchants: Vec::new(alloc),
        entries: Vec::new(alloc),
    };
    fill(alloc, &mut setup, nb_lines::number(*len), *change)?;
    Ok(Some(setup))
}
