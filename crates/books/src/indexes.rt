// Indexes with few slots.

ghost use Rattle.std.specs.Prelude.{◌≡◌};

use crate::trial::Trial;
use crate::words::Words;
use nb_index::{FixedIndex, MAX_SLOTS};
use nb_lines::Told;
use nb_units::NoMemory;
use std::alloc::Global;
use std::marker::Model;

/// An index, and how many slots it has.
#[derive(Drop)]
pub struct Slotted {
    index: FixedIndex,
    slots: u32,
}

impl Model for Slotted {
    ghost use Rattle.std.specs.Prelude.{◌≡◌};
    ghost use Rattle.nb_index.specs.Puts.{Indexed};

    ghost Value = { Indexed };

    ghost view = { λ s. s.index };

    ghost invariant = { λ s. s.index.shape.slots ≡ s.slots };
}

impl Slotted {
    ghost use Rattle.std.specs.Prelude.{◌<◌, ◌*◌, length, IsTrue, IsNone};
    ghost use Rattle.nb_index.specs.Puts.{value_in};

    // Whether a number may be put under the key.
    fn takes(&self, key: &[u8; 16]) -> bool
        ensures absent { IsTrue result → IsNone (value_in self.now.puts key.now) }
        ensures room { IsTrue result → 2 * length self.now.puts < self.now.shape.slots }
    {
        let used = 2 * u64::from(self.index.used());
        used < u64::from(self.slots) && self.index.find(key).is_none()
    }

    // Puts a number under a key that has none, where the index takes one more.
    fn put(&mut self, key: &[u8; 16], number: u32) -> bool {
        if !self.takes(key) {
            return false;
        }
        self.index.put(key, number);
        true
    }

    // The same, and takes it off again; the number that was found between.
    fn put_off(&mut self, key: &[u8; 16], number: u32) -> Option<u32> {
        if !self.takes(key) {
            return None;
        }
        self.index.put(key, number);
        let found = self.index.find(key);
        self.index.take_off(key);
        found
    }
}

impl Trial {
    /// `index SLOTS BYTE`: an index without numbers, whose key is 16 times this byte. `put KEY NUMBER`: a number under a key that has none. `try KEY
    /// NUMBER`: the same, and it is taken off again. `find KEY`: the number under a key. Each prints how many numbers there are then.
    pub fn of_index(
        &mut self,
        told: &mut Told,
        word: &str,
        words: &[&str],
    ) -> Result<(), NoMemory> {
        let mut words = Words::new(words);
        if word == "index" {
            self.index = made(self.alloc, &mut words)?;
            return Ok(());
        }
        let key = words.sixteen();
        match &mut self.index {
            Some(index) if !words.some_bad() => {
                tell(told, index, word, &key, words.number());
                Ok(())
            }
            _ => told.unclear(),
        }
    }
}

// An index of so many slots, where one may have them.
fn made(alloc: Global, words: &mut Words) -> Result<Option<Slotted>, NoMemory> {
    let (slots, byte) = (words.number(), words.byte());
    if words.some_bad() || slots < 2 || MAX_SLOTS < slots {
        return Ok(None);
    }
    match FixedIndex::new(alloc, slots, &[byte; 16]) {
        Ok(index) => Ok(Some(Slotted { index, slots })),
        Err(_) => Err(NoMemory),
    }
}

fn tell(told: &mut Told, index: &mut Slotted, word: &str, key: &[u8; 16], number: u32) {
    match word {
        "put" => put(told, index.put(key, number)),
        "try" => found(told, index.put_off(key, number)),
        _ => found(told, index.index.find(key)),
    }
    told.show(", ", &index.index.used()).text(" in all");
}

fn put(told: &mut Told, was_put: bool) {
    told.text(if was_put { "put" } else { "not put" });
}

fn found(told: &mut Told, number: Option<u32>) {
    match number {
        Some(number) => told.show("", &number),
        None => told.text("none"),
    };
}
