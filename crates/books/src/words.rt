// The words of a line, one after the other.

ghost use Rattle.std.specs.Prelude.{◌≤◌};

use std::alloc::Global;

/// Words of which some were taken. A word that is not what it is taken for is bad.
#[derive(Drop)]
pub struct Words<'a> {
    all: &'a [&'a str],
    taken: usize,
    some_bad: bool,
}

impl<'a> Words<'a> {
    /// None of them was taken.
    pub fn new(words: &'a [&'a str]) -> Words<'a> {
        Words {
            all: words,
            taken: 0,
            some_bad: false,
        }
    }

    /// Whether one that was taken is bad.
    pub fn some_bad(&self) -> bool {
        self.some_bad
    }

    /// The next word; an empty one where all were taken.
    pub fn word(&mut self) -> &'a str {
        let word = self.all.get(self.taken).copied().unwrap_or("");
        self.taken = self.taken.saturating_add(1);
        word
    }

    // The next word, which is a number of at most so much; 0 where it is bad.
    fn number_to(&mut self, most: u64) -> u64
        ensures { result ≤ most }
    {
        match self.word().parse::<u64>() {
            Ok(number) if number <= most => number,
            _ => {
                self.some_bad = true;
                0
            }
        }
    }

    /// The next word, which is a number of eight bytes; 0 where it is bad.
    pub fn wide(&mut self) -> u64 {
        self.number_to(u64::MAX)
    }

    /// The next word, which is a number of four bytes; 0 where it is bad.
    pub fn number(&mut self) -> u32 {
        self.number_to(u64::from(u32::MAX)) as u32
    }

    /// The next word, which is a number of one byte; 0 where it is bad.
    pub fn byte(&mut self) -> u8 {
        self.number_to(u64::from(u8::MAX)) as u8
    }

    /// The next word, where it is a number of two bytes.
    pub fn rate(&mut self) -> Option<u16> {
        self.word().parse::<u16>().ok()
    }

    /// The next word, which spells 16 bytes in hexadecimal.
    pub fn sixteen(&mut self) -> [u8; 16] {
        let mut bytes = [0; 16];
        let read = hex::decode_to_slice(self.word(), &mut bytes);
        self.some_bad = self.some_bad || read.is_err();
        bytes
    }

    /// The next word, which spells 32 bytes in hexadecimal.
    pub fn key(&mut self) -> [u8; 32] {
        let mut bytes = [0; 32];
        let read = hex::decode_to_slice(self.word(), &mut bytes);
        self.some_bad = self.some_bad || read.is_err();
        bytes
    }

    /// The next word, which spells bytes in hexadecimal; `-` spells none, and so does a bad one.
    pub fn bytes(&mut self, alloc: Global) -> Vec<u8> {
        let word = self.word();
        if word == "-" {
            return Vec::new(alloc);
        }
        match hex::decode(alloc, word) {
            Ok(bytes) => bytes,
            Err(_) => {
                self.some_bad = true;
                Vec::new(alloc)
            }
        }
    }
}
