ghost use Rattle.std.specs.Prelude.{ℕ, ◌<◌, ◌≤◌, List, Option, length};
ghost use Rattle.nb_port.specs.Sink.{WriteGives};

/// What a write to a sink gives.
#[derive(Clone, Copy, PartialEq, Eq, Debug)]
pub enum WriteOut {
    /// So many bytes, at least one, were sent: those at the front of the piece.
    Took(usize),
    /// The write failed: nothing was sent.
    Failed,
}

/// Where bytes go, one after another.
pub trait Sink {
    /// The count of failures. It never falls, and a write that fails raises it. It stays at 2^64 - 1.
    ghost faults: { Self → ℕ };

    /// The bytes that were sent; None where the sink does not tell.
    ghost sent: { Self → Option (List ℕ) };

    /// Sends bytes from the front of `piece`, not always all. Where it fails nothing is sent.
    fn write(&mut self, piece: &[u8]) -> WriteOut
        requires { 0 < length piece.now }
        ensures gives { WriteGives (faults self.old) (faults self.new) (sent self.old) (sent self.new)
            piece.now result }
        ensures count { faults self.old ≤ faults self.new };
}
