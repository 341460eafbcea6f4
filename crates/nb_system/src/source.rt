ghost use Rattle.std.specs.Prelude.{◌≡◌, ◌<◌, ◌≤◌, None, length};
ghost use Rattle.nb_port.specs.Source.{ReadGives};

use nb_port::{ReadOut, Source};
use std::io;
use std::io::Read;
use std::marker::Model;

/// A source over a reader of std, as standard input.
#[derive(Drop)]
pub struct StdSource<R: Read + Drop> {
    from: R,
    faults: u64,
}

impl<R: Read + Drop> Model for StdSource<R> {
    ghost use Rattle.nb_system.specs.System.{Adapter};

    ghost Value = { Adapter R };

    ghost view = { λ s. record { over = s.from; faults = s.faults } };
}

impl<R: Read + Drop> StdSource<R> {
    /// A source of what `from` gives, of which no call failed.
    pub fn over(from: R) -> StdSource<R>
        ensures { result ≡ record { over = from; faults = 0 } }
    {
        StdSource { from, faults: 0 }
    }
}

impl<R: Read + Drop> Source for StdSource<R> {
    ghost faults = { λ s. s.faults };

    ghost left = { λ _. None };

    fn read(&mut self, buf: &mut [u8]) -> ReadOut
        requires { 0 < length buf.old }
        ensures gives { ReadGives self.old.faults self.new.faults (R.remaining self.old.over)
            (R.remaining self.new.over) (length buf.old) buf.new result }
        ensures count { self.old.faults ≤ self.new.faults }
    {
        read_counted(&mut self.from, &mut self.faults, buf)
    }
}

// One read of `from` that is not interrupted. `faults` counts those that failed.
fn read_counted<R: Read>(from: &mut R, faults: &mut u64, buf: &mut [u8]) -> ReadOut
    requires { 0 < length buf.old }
    ensures gives { ReadGives faults.old faults.new (R.remaining from.old) (R.remaining from.new)
        (length buf.old) buf.new result }
    ensures count { faults.old ≤ faults.new }
{
    for _ in 0..u64::MAX {
        match from.read(buf) {
            Ok(0) => return ReadOut::End,
            Ok(n) => return ReadOut::Bytes(n),
            Err(error) => {
                *faults = faults.saturating_add(1);
                if error.kind() != io::ErrorKind::Interrupted {
                    return ReadOut::Failed;
                }
            }
        }
    }
    ReadOut::Failed
}
