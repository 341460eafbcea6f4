ghost use Rattle.std.specs.Prelude.{ℕ, ◌<◌, ◌≤◌, List, Option, length};
ghost use Rattle.nb_port.specs.Source.{ReadGives};

/// What a read of a source gives.
#[derive(Clone, Copy, PartialEq, Eq, Debug)]
pub enum ReadOut {
    /// So many bytes, at least one, stand at the front of the buffer.
    Bytes(usize),
    /// Nothing is left.
    End,
    /// The read failed: nothing was taken.
    Failed,
}

/// Where bytes come from, one after another.
pub trait Source {
    /// The count of failures. It never falls, and a read that fails raises it. It stays at 2^64 - 1.
    ghost faults: { Self → ℕ };

    /// The bytes that are still to come; None where the source does not tell.
    ghost left: { Self → Option (List ℕ) };

    /// Takes the next bytes, at most as many as `buf` holds, to the front of `buf`. At the end and where it
    /// fails nothing is taken.
    fn read(&mut self, buf: &mut [u8]) -> ReadOut
        requires { 0 < length buf.old }
        ensures gives { ReadGives (faults self.old) (faults self.new) (left self.old) (left self.new)
            (length buf.old) buf.new result }
        ensures count { faults self.old ≤ faults self.new };
}
