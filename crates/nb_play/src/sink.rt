ghost use Rattle.std.specs.Prelude.{◌≡◌, ◌≤◌, ◌<◌, ℕ, List, None, length};
ghost use Rattle.nb_port.specs.Sink.{WriteGives};
ghost use Rattle.nb_port.specs.declared.sink.WriteOut.TheVariants as writes;

use nb_port::{Sink, WriteOut};

/// A sink that takes all and keeps nothing: nobody reads the replies of a drill. It never fails.
#[derive(Drop)]
pub struct NullSink;

impl Sink for NullSink {
    ghost faults = { λ s. 0 };

    ghost sent = { λ s. None };

    fn write(&mut self, piece: &[u8]) -> WriteOut
        requires { 0 < length piece.now }
        ensures gives { WriteGives 0 0 None None piece.now result }
        ensures all { result ≡ writes.Took (length piece.now) }
    {
        WriteOut::Took(piece.len())
    }
}
