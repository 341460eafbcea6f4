// The requests of one turn.

ghost use Rattle.std.specs.Prelude.{IsTrue};
ghost use Rattle.std.specs.List.{All};
ghost use Rattle.nb_vault.specs.Asking.{IsWithin};

use crate::names::{Names, Request};
use nb_units::NoMemory;
use nb_vault::AskAt;
use std::alloc::Global;

/// Requests, and the bytes in which their bodies stand: that of the last request at the front, and that of the first at the end.
#[derive(Drop)]
pub struct Batch {
    pub bytes: Vec<u8>,
    pub asks: Vec<AskAt>,
}

impl Batch {
    /// The requests of these names. One that there is none of is left out.
    pub fn of(alloc: Global, names: &Names, words: &[&str]) -> Result<Batch, NoMemory> {
        let mut batch = Batch {
            bytes: Vec::new(alloc),
            asks: Vec::new(alloc),
        };
        for word in words.iter().rev() {
            if let Some(request) = names.request(*word) {
                batch.add(request)?;
            }
        }
        batch.asks.as_mut_slice().reverse();
        Ok(batch)
    }

    fn add(&mut self, request: &Request) -> Result<(), NoMemory> {
        let body = request.body();
        self.asks.push(AskAt {
            kind: request.kind(),
            start: self.bytes.len(),
            len: body.len(),
            moment: request.moment,
        })?;
        self.bytes.extend_from_slice(body)?;
        Ok(())
    }
}

/// Whether all bodies stand within the bytes.
pub fn are_within(bytes: &[u8], asks: &[AskAt]) -> bool
    ensures { IsTrue result → All (IsWithin bytes.now) asks.now }
{
    for ask in asks {
        if ask.start > bytes.len() || ask.len > bytes.len() - ask.start {
            return false;
        }
    }
    true
}
