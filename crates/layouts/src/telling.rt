// Words of a line, and what is told.

use nb_lines::Told;
use nb_units::{NoMemory, Secret};
use std::alloc::Global;
use std::fmt::{Debug, Display};

// The most bytes of a text that are told.
const TOLD: usize = 4000;

// The key that a word spells: 32 bytes, or one byte 32 times.
pub(crate) fn key(alloc: Global, word: &str) -> Secret {
    let bytes = nb_lines::spelled(alloc, word);
    let mut key = [bytes.first().copied().unwrap_or(0); 32];
    if bytes.len() == key.len() {
        key.copy_from_slice(&bytes);
    }
    key
}

// The number of 4 bytes that a word is, or 0.
pub(crate) fn short(word: &str) -> u32 {
    word.parse::<u32>().unwrap_or(0)
}

// A text, or of a long one the number of its bytes and their digest.
pub(crate) fn clipped(told: &mut Told, text: &str) -> Result<(), NoMemory> {
    if text.len() <= TOLD {
        told.text(text).done()
    } else {
        told.bytes_up_to("", text.as_bytes(), 0).done()
    }
}

// What was read, and whether it is spelled as it was.
pub(crate) fn back<T: Debug>(told: &mut Told, read: &T, is_same: bool) {
    told.debug("", read).show("; spelled so: ", &is_same);
}

// A fault in words, and what it shows.
pub(crate) fn fault<F: Debug + Display>(told: &mut Told, fault: &F) -> Result<(), NoMemory> {
    told.show("", fault).debug(": ", fault).done()
}
