ghost use Rattle.std.specs.Prelude.{◌≡◌, ◌<◌, ◌≤◌, None, length};
ghost use Rattle.nb_port.specs.Sink.{WriteGives};

use nb_port::{Sink, WriteOut};
use std::io;
use std::io::Write;
use std::marker::Model;

/// A sink over a writer of std, as standard output.
#[derive(Drop)]
pub struct StdSink<W: Write + Drop> {
    to: W,
    faults: u64,
}

impl<W: Write + Drop> Model for StdSink<W> {
    ghost use Rattle.nb_system.specs.System.{Adapter};

    ghost Value = { Adapter W };

    ghost view = { λ s. record { over = s.to; faults = s.faults } };
}

impl<W: Write + Drop> StdSink<W> {
    /// A sink that sends to `to`, of which no call failed.
    pub fn over(to: W) -> StdSink<W>
        ensures { result ≡ record { over = to; faults = 0 } }
    {
        StdSink { to, faults: 0 }
    }
}

impl<W: Write + Drop> Sink for StdSink<W> {
    ghost faults = { λ s. s.faults };

    ghost sent = { λ _. None };

    fn write(&mut self, piece: &[u8]) -> WriteOut
        requires { 0 < length piece.now }
        ensures gives { WriteGives self.old.faults self.new.faults (W.contents self.old.over)
            (W.contents self.new.over) piece.now result }
        ensures count { self.old.faults ≤ self.new.faults }
    {
        write_counted(&mut self.to, &mut self.faults, piece)
    }
}

// One write to `to` that is not interrupted. `faults` counts those that failed, or took nothing.
fn write_counted<W: Write>(to: &mut W, faults: &mut u64, piece: &[u8]) -> WriteOut
    requires { 0 < length piece.now }
    ensures gives { WriteGives faults.old faults.new (W.contents to.old) (W.contents to.new)
        piece.now result }
    ensures count { faults.old ≤ faults.new }
{
    for _ in 0..u64::MAX {
        match to.write(piece) {
            Ok(0) => {
                *faults = faults.saturating_add(1);
                return WriteOut::Failed;
            }
            Ok(n) => return WriteOut::Took(n),
            Err(error) => {
                *faults = faults.saturating_add(1);
                if error.kind() != io::ErrorKind::Interrupted {
                    return WriteOut::Failed;
                }
            }
        }
    }
    WriteOut::Failed
}
