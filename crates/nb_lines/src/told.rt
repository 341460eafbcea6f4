use nb_seal::sha;
use nb_units::NoMemory;
use std::alloc::{AllocError, Global};
use std::fmt::{Debug, Display};

// The most bytes that are shown where nothing else is said.
const SHOWN: usize = 1000;

/// What is told of a line, one part behind the other. Where there is no memory for a part the end says so, and who tells goes on.
#[derive(Drop)]
pub struct Told {
    text: String,
    is_short: bool,
}

impl Told {
    /// Nothing is told.
    pub fn new(alloc: Global) -> Told {
        Told {
            text: String::new(alloc),
            is_short: false,
        }
    }

    /// Where memory comes from.
    pub fn alloc(&self) -> Global {
        *self.text.allocator()
    }

    fn kept(&mut self, part: Result<(), AllocError>) -> &mut Told {
        self.is_short = self.is_short || part.is_err();
        self
    }

    /// Words.
    pub fn text(&mut self, words: &str) -> &mut Told {
        let part = self.text.push_str(words);
        self.kept(part)
    }

    /// Words, and a value behind them.
    pub fn show<T: Display>(&mut self, words: &str, value: &T) -> &mut Told {
        let part = write!(self.text, "{words}{value}");
        self.kept(part)
    }

    /// Words, and a value behind them with the names of its fields.
    pub fn debug<T: Debug>(&mut self, words: &str, value: &T) -> &mut Told {
        let part = write!(self.text, "{words}{value:?}");
        self.kept(part)
    }

    /// Words, and bytes behind them in hexadecimal.
    pub fn hex(&mut self, words: &str, bytes: &[u8]) -> &mut Told {
        match hex::encode(self.alloc(), bytes) {
            Ok(bytes) => self.show(words, &bytes),
            Err(_) => self.kept(Err(AllocError)),
        }
    }

    /// Words, and bytes behind them in hexadecimal; of none the word nothing; of more than 1,000 their number and their SHA-256 (FIPS 180-4).
    pub fn bytes(&mut self, words: &str, bytes: &[u8]) -> &mut Told {
        self.bytes_up_to(words, bytes, SHOWN)
    }

    /// Words, and bytes behind them in hexadecimal; of none the word nothing; of more than `most` their number and their SHA-256 (FIPS 180-4).
    pub fn bytes_up_to(&mut self, words: &str, bytes: &[u8], most: usize) -> &mut Told {
        if bytes.is_empty() {
            self.text(words).text("nothing")
        } else if bytes.len() <= most {
            self.hex(words, bytes)
        } else {
            self.show(words, &bytes.len()).hex(" bytes, ", &sha(bytes))
        }
    }

    /// Whether there was memory for all parts.
    pub fn done(&self) -> Result<(), NoMemory> {
        if self.is_short { Err(NoMemory) } else { Ok(()) }
    }

    /// That a line says nothing that can be done.
    pub fn unclear(&mut self) -> Result<(), NoMemory> {
        self.text("no such line").done()
    }

    /// What was told.
    pub fn as_str(&self) -> &str {
        self.text.as_str()
    }
}
