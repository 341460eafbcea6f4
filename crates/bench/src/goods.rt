// Goods in parts: each round of `parts` seals the goods part by part, and puts their checksum and the last part's front in the place of the
// goods' front; each round of `openparts` opens the same parts again, under a key that begins as the goods that were opened last do.

ghost use Rattle.std.specs.Prelude.{◌≤◌, length, IsTrue};
ghost use Rattle.nb_goods.specs.declared.limits.TheConstants.{MAX_GOODS, MAX_SEALED};
ghost use Rattle.nb_goods.specs.Goods.{joined};

use crate::Made;
use crate::pattern::{KEY, pattern, write_over};
use nb_goods::{MAX_GOODS, MAX_SEALED, OpenGoods, PART_BYTES, open_parts};
use nb_seal::NoMemory;
use nb_units::Blob;
use std::alloc::Global;

/// The rows `parts` and `openparts`, of at most 64 MiB of goods.
pub fn run(alloc: Global, row: &str, size: u32, times: u32) -> Result<Made, NoMemory> {
    match row {
        "parts" => sealed(alloc, size, times),
        "openparts" => opened(alloc, size, times),
        _ => Ok(Made::Unknown),
    }
}

fn sealed(alloc: Global, size: u32, times: u32) -> Result<Made, NoMemory> {
    let mut goods = pattern(alloc, size)?;
    'sealing: for _ in 0..times {
        if goods.len() > MAX_GOODS {
            return Ok(Made::Unknown);
        }
        let made = seal_once(alloc, &goods)?;
        write_over(&made, &mut goods);
    }
    Ok(Made::Bytes(goods))
}

// Makes all parts, one after the other, and gives the checksum and behind it the front of the last part.
fn seal_once(alloc: Global, goods: &[u8]) -> Result<[u8; 64], NoMemory>
    requires { length goods.now ≤ MAX_GOODS }
{
    let parts = nb_goods::parts(&KEY, goods);
    let mut made = [0u8; 64];
    made[..32].copy_from_slice(&parts.checksum());
    'parts: for i in 0..100 {
        let place = i * PART_BYTES as u64;
        if place < parts.total() {
            let part = parts.part(alloc, goods, place).map_err(|_| NoMemory)?;
            write_over(part.as_slice(), &mut made[32..]);
        }
    }
    Ok(made)
}

fn opened(alloc: Global, size: u32, times: u32) -> Result<Made, NoMemory> {
    let mut key = KEY;
    let parts = parts_of(alloc, size, &mut key)?;
    let mut front = [0u8; 64];
    'opening: for _ in 0..times {
        if !fit(&parts) {
            return Ok(Made::Unknown);
        }
        match open_parts(alloc, &key, &parts) {
            Ok(goods) => {
                write_over(goods.as_slice(), &mut key);
                write_over(goods.as_slice(), &mut front);
            }
            Err(OpenGoods::NoMemory) => return Err(NoMemory),
            Err(OpenGoods::BadSeal { .. }) => return Ok(Made::Unknown),
        }
    }
    Ok(Made::Bytes(Vec::from_slice(alloc, &front)?))
}

// The parts of so many bytes of goods, under a key that begins as they do.
fn parts_of(alloc: Global, size: u32, key: &mut [u8; 32]) -> Result<Vec<Blob>, NoMemory> {
    let goods = pattern(alloc, size)?;
    write_over(&goods, key);
    let mut cut = Vec::new(alloc);
    if goods.len() > MAX_GOODS {
        return Ok(cut);
    }
    let parts = nb_goods::parts(key, &goods);
    'parts: for i in 0..100 {
        let place = i * PART_BYTES as u64;
        if place < parts.total() {
            let part = parts.part(alloc, &goods, place).map_err(|_| NoMemory)?;
            cut.push(part).map_err(|_| NoMemory)?;
        }
    }
    Ok(cut)
}

// Whether the parts are short enough to be opened.
fn fit(parts: &[Blob]) -> bool
    ensures { IsTrue result → length (joined parts.now) ≤ MAX_SEALED }
{
    let mut total = 0;
    for part in parts {
        total += part.as_slice().len();
        if total > MAX_SEALED {
            return false;
        }
    }
    true
}
