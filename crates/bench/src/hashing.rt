// Digests and codes: each round writes that of the bytes over their front.

use crate::Made;
use crate::pattern::{KEY, pattern, write_over};
use nb_seal::{NoMemory, hmac, sha};
use std::alloc::Global;

/// The rows `sha` and `hmac`.
pub fn run(alloc: Global, row: &str, size: u32, times: u32) -> Result<Made, NoMemory> {
    match row {
        "sha" => Ok(Made::Bytes(digested(alloc, size, times)?)),
        "hmac" => Ok(Made::Bytes(authenticated(alloc, size, times)?)),
        _ => Ok(Made::Unknown),
    }
}

fn digested(alloc: Global, size: u32, times: u32) -> Result<Vec<u8>, NoMemory> {
    let mut bytes = pattern(alloc, size)?;
    for _ in 0..times {
        write_over(&sha(&bytes), &mut bytes);
    }
    Ok(bytes)
}

fn authenticated(alloc: Global, size: u32, times: u32) -> Result<Vec<u8>, NoMemory> {
    let mut bytes = pattern(alloc, size)?;
    for _ in 0..times {
        write_over(&hmac(&KEY, &[], &bytes), &mut bytes);
    }
    Ok(bytes)
}
