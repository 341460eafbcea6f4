ghost use Rattle.std.specs.Prelude.{◌≡◌, ◌≤◌, ◌<◌, length, vec_len, vec_capacity};
ghost use Rattle.nb_units.specs.declared.buffer.TheConstants.{MAX_BUFFER};
ghost use Rattle.nb_statement.specs.declared.sending.TheConstants.{PIECE, SMALLEST};
ghost use Rattle.nb_statement.specs.Statement.{Puts, Sends};

use crate::fault::StatementFault;
use nb_port::{Sink, WriteOut};
use nb_units::Pen;

/// So many bytes of a statement wait at most for a write, 32 KiB.
pub const PIECE: usize = 32_768;

// Nothing is handed to the sink before so many bytes wait, but for what a sink left of them, and the last ones.
const SMALLEST: usize = 4_096;

// Sends all of the text, in as many writes as the sink wants, up to one that fails.
pub(crate) fn send_all<K: Sink>(sink: &mut K, text: &[u8]) -> Result<(), StatementFault>
    ensures sent { Sends (K.faults sink.old) (K.faults sink.new) (K.sent sink.old) (K.sent sink.new) text.now result }
    ensures count { K.faults sink.old ≤ K.faults sink.new }
{
    let mut at = 0;
    'sending: while at < text.len() {
        match sink.write(text.split_at(at).1) {
            WriteOut::Took(n) => at += n,
            WriteOut::Failed => return Err(StatementFault::WriteFault),
        }
    }
    Ok(())
}

// Puts bytes behind those that wait. Where there is no room for them, what waits is sent first.
pub(crate) fn put<K: Sink>(
    sink: &mut K,
    waits: &mut Vec<u8>,
    bytes: &[u8],
) -> Result<(), StatementFault>
    requires room { PIECE ≤ vec_capacity waits.old }
    requires short { length bytes.now ≤ MAX_BUFFER }
    ensures stands { Puts (K.faults sink.old) (K.faults sink.new) (K.sent sink.old) (K.sent sink.new) waits.old.items waits.new.items bytes.now result }
    ensures count { K.faults sink.old ≤ K.faults sink.new }
    ensures room { vec_capacity waits.new ≡ vec_capacity waits.old }
    // nothing is written before so many bytes wait
    ensures quiet { vec_len waits.old < SMALLEST → sink.new ≡ sink.old }
{
    if PIECE.saturating_sub(waits.len()) < bytes.len() {
        send_all(sink, waits.as_slice())?;
        waits.clear();
    }
    Pen::over(waits).raw(bytes);
    Ok(())
}
