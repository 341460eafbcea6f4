// The keystream: each round combines the bytes with it.

use crate::Made;
use crate::pattern::{KEY, pattern};
use nb_seal::{NoMemory, stream_xor};
use std::alloc::Global;

/// The row `stream`.
pub fn run(alloc: Global, row: &str, size: u32, times: u32) -> Result<Made, NoMemory> {
    match row {
        "stream" => Ok(Made::Bytes(enciphered(alloc, size, times)?)),
        _ => Ok(Made::Unknown),
    }
}

fn enciphered(alloc: Global, size: u32, times: u32) -> Result<Vec<u8>, NoMemory> {
    let mut bytes = pattern(alloc, size)?;
    for _ in 0..times {
        stream_xor(&KEY, 0, &mut bytes);
    }
    Ok(bytes)
}
