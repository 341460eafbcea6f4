use nb_units::NoMemory;
use std::alloc::Global;

/// The number of at most 64 bits that a word is in decimal, or 0.
pub fn number(word: &str) -> u64 {
    word.parse::<u64>().unwrap_or(0)
}

/// The numbers from a word on, which is counted from 0.
pub fn numbers(alloc: Global, words: &[&str], from: usize) -> Result<Vec<u64>, NoMemory> {
    let mut numbers = Vec::new(alloc);
    for word in words.iter().skip(from) {
        numbers.push(number(*word))?;
    }
    Ok(numbers)
}

/// The bytes that a word spells in hexadecimal; none where it spells none.
pub fn spelled(alloc: Global, word: &str) -> Vec<u8> {
    match hex::decode(alloc, word) {
        Ok(bytes) => bytes,
        Err(_) => Vec::new(alloc),
    }
}
