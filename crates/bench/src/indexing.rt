// Look-ups in an index: each round finds a number, by which the next key is chosen.

ghost use Rattle.std.specs.Prelude.{◌≡◌, ◌≤◌, ◌<◌, ◌+◌, ◌*◌, length};
ghost use Rattle.bench.specs.declared.indexing.TheConstants.{MOST};

use crate::Made;
use crate::pattern::KEY;
use nb_index::FixedIndex;
use nb_seal::NoMemory;
use std::alloc::Global;

// The most puts of a row.
const MOST: u32 = 1_000_000;

// The key looked up behind a number is this many further on.
const STRIDE: u32 = 7_919;

/// The row `lookup`: SIZE numbers, from 0 on, are put under keys that begin with them, and TIMES are looked up.
pub fn run(alloc: Global, row: &str, size: u32, times: u32) -> Result<Made, NoMemory> {
    match row {
        "lookup" => looked_up(alloc, size, times),
        _ => Ok(Made::Unknown),
    }
}

// The key of a number.
fn key_of(number: u32) -> [u8; 16] {
    let mut key = [0; 16];
    key[..4].copy_from_slice(&number.to_be_bytes());
    key
}

// What is made is a sum over all numbers that were found, in their order.
fn looked_up(alloc: Global, size: u32, times: u32) -> Result<Made, NoMemory> {
    if size == 0 || size > MOST {
        return Ok(Made::Unknown);
    }
    let index = filled(alloc, size)?;
    let mut number = 0;
    let mut sum: u64 = 0;
    for _ in 0..times {
        let found = index.find(&key_of(number)).unwrap_or(size);
        sum = sum.wrapping_mul(31).wrapping_add(u64::from(found));
        number = found.wrapping_add(STRIDE) % size;
    }
    Made::number(alloc, sum)
}

// An index with so many puts, for twice as many slots.
fn filled(alloc: Global, size: u32) -> Result<FixedIndex, NoMemory>
    requires some { 1 ≤ size }
    requires most { size ≤ MOST }
{
    let mut seed = [0; 16];
    seed.copy_from_slice(&KEY[..16]);
    let mut index = FixedIndex::new(alloc, 2 * size, &seed).map_err(|_| NoMemory)?;
    for number in 0..size {
        let key = key_of(number);
        if index.find(&key).is_none() {
            index.put(&key, number);
        }
    }
    Ok(index)
}
