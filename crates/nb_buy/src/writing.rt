ghost use Rattle.std.specs.Prelude.{◌≡◌, ◌≤◌};
ghost use Rattle.nb_buy.specs.Steps.{WritesOut};

use nb_port::{Sink, WriteOut};
use nb_wire::Sent;

// Writes all of the bytes to a sink, in as many writes as it wants, up to one that fails.
pub fn write_out<K: Sink>(sink: &mut K, bytes: &[u8]) -> Sent
    ensures written { WritesOut (K.faults sink.old) (K.faults sink.new) (K.sent sink.old) (K.sent sink.new) bytes.now result }
    ensures count { K.faults sink.old ≤ K.faults sink.new }
{
    let mut at = 0;
    'writing: while at < bytes.len() {
        match sink.write(bytes.split_at(at).1) {
            WriteOut::Took(n) => at += n,
            WriteOut::Failed => return Sent::Failed,
        }
    }
    Sent::All
}
