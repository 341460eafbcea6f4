ghost use Rattle.std.specs.Prelude.{◌≤◌, ◌<◌, ◌^◌};
ghost use Rattle.nb_commands.specs.Input.{InputGives};

use nb_port::{ReadOut, Source};
use std::alloc::Global;

// The most bytes that one read asks for.
const PIECE: usize = 65_536;

/// What a source gave.
#[derive(Drop)]
pub enum InputRead {
    /// All of it.
    All(Vec<u8>),
    /// It is longer than the limit. Of these bytes, and in the two cases below, nothing is kept.
    Longer,
    /// The source failed.
    Failed,
    /// There was no memory for it.
    NoMemory,
}

/// Reads the source up to its end, or up to one byte more than the limit, in bytes.
pub fn read_most<S: Source>(alloc: Global, source: &mut S, limit: usize) -> InputRead
    requires { limit < 2 ^ 63 }
    ensures gives { InputGives (S.faults source.old) (S.faults source.new) (S.left source.old) (S.left source.new) limit result }
    ensures count { S.faults source.old ≤ S.faults source.new }
{
    let mut bytes = Vec::new(alloc);
    let mut piece = [0u8; PIECE];
    'reading: while bytes.len() <= limit {
        let room = PIECE.min(limit + 1 - bytes.len());
        match source.read(piece.split_at_mut(room).0) {
            ReadOut::Bytes(n) => match bytes.extend_from_slice(piece.split_at(n).0) {
                Ok(()) => {}
                Err(_) => return InputRead::NoMemory,
            },
            ReadOut::End => return InputRead::All(bytes),
            ReadOut::Failed => return InputRead::Failed,
        }
    }
    InputRead::Longer
}
