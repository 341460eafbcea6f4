// Seals: a round of `seal` puts the front of its seal in the place of the text; a round of `unseal` opens one seal again, under a
// key that begins as the text that was opened last does.

ghost use Rattle.std.specs.Prelude.{◌≡◌, ◌≤◌, ◌<◌, ◌^◌, length, OnOk};

use crate::Made;
use crate::pattern::{KEY, pattern, write_over};
use nb_seal::{NoMemory, Unsealed};
use std::alloc::Global;
use std::mem;

const LABEL: [u8; 4] = [b'b', b'e', b'n', b'c'];

/// The rows `seal` and `unseal`.
pub fn run(alloc: Global, row: &str, size: u32, times: u32) -> Result<Made, NoMemory> {
    match row {
        "seal" => Ok(Made::Bytes(sealed(alloc, size, times)?)),
        "unseal" => Ok(Made::Bytes(unsealed(alloc, size, times)?)),
        _ => Ok(Made::Unknown),
    }
}

fn sealed(alloc: Global, size: u32, times: u32) -> Result<Vec<u8>, NoMemory> {
    let mut text = pattern(alloc, size)?;
    let mut spare = Vec::new(alloc);
    for _ in 0..times {
        seal_once(&mut text, &mut spare)?;
    }
    Ok(text)
}

// Makes the text's seal in the spare vector, and puts its front in the text's place. The text's memory is then spare.
fn seal_once(text: &mut Vec<u8>, spare: &mut Vec<u8>) -> Result<(), NoMemory>
    requires { length text.old.items < 2 ^ 32 }
    ensures { OnOk result (length text.new.items < 2 ^ 32) }
{
    spare.clear();
    nb_seal::seal(&KEY, &LABEL, text, spare)?;
    spare.truncate(text.len());
    mem::swap(text, spare);
    Ok(())
}

fn unsealed(alloc: Global, size: u32, times: u32) -> Result<Vec<u8>, NoMemory> {
    let mut text = pattern(alloc, size)?;
    let mut key = KEY;
    write_over(&text, &mut key);
    let mut sealed = Vec::new(alloc);
    nb_seal::seal(&key, &LABEL, &text, &mut sealed)?;
    // A seal has 32 bytes more than its text: this says so to the prover, and drops nothing.
    sealed.truncate(size as usize + 32);
    for _ in 0..times {
        text.clear();
        match nb_seal::unseal(&key, &LABEL, &sealed, &mut text) {
            Ok(()) => {}
            Err(Unsealed::NoMemory) => return Err(NoMemory),
            Err(Unsealed::BadSeal { .. }) => return Ok(text),
        }
        write_over(&text, &mut key);
    }
    Ok(text)
}
