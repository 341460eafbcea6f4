ghost use Rattle.std.specs.Prelude.{◌≡◌, ◌≤◌, IsOk, OnOk, OnErr, vec_capacity};
ghost use Rattle.nb_units.specs.Room.{spare_of};

use std::alloc::{AllocError, AllocFailed};
use std::fmt;

/// There was no memory for what a call had to make or to keep. The library's allocation errors become it.
#[derive(Clone, Copy)]
pub struct NoMemory;

impl fmt::Display for NoMemory {
    fn fmt<W: fmt::Write>(&self, f: &mut fmt::Formatter<W>) -> fmt::Result {
        write!(f, "there is no memory")
    }
}

impl From<AllocError> for NoMemory {
    fn from(_error: AllocError) -> NoMemory {
        NoMemory
    }
}

impl<T: Drop> From<AllocFailed<T>> for NoMemory {
    fn from(_failed: AllocFailed<T>) -> NoMemory {
        NoMemory
    }
}

/// Makes the room of `out` at least `n` bytes: so many can be appended without taking memory. The bytes of `out` stay as
/// they are. Answers [`NoMemory`] where the room was smaller and there was no memory for more: the room is then as before.
pub fn room(out: &mut Vec<u8>, n: usize) -> Result<(), NoMemory>
    // after Ok so many bytes can be appended without taking memory
    ensures ok { OnOk result (n ≤ spare_of out.new) }
    // the bytes are as before, and the room is not less
    ensures bytes { out.new.items ≡ out.old.items }
    ensures kept { spare_of out.old ≤ spare_of out.new }
    // where the room was there before, the answer is Ok
    ensures had { n ≤ spare_of out.old → IsOk result }
    // after `NoMemory` the capacity is as before
    ensures as_before { OnErr result (vec_capacity out.new ≡ vec_capacity out.old) }
{
    out.reserve(n)?;
    Ok(())
}
