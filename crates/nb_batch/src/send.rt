ghost use Rattle.std.specs.Prelude.{◌≤◌, length};
ghost use Rattle.nb_batch.specs.Answering.{MayBeSent};
ghost use Rattle.nb_batch.specs.Send.{SentIs};

use crate::answering::Answerer;
use nb_port::{Disk, Sink, WriteOut};
use nb_vault::Vault;

/// How sending went.
#[derive(Clone, Copy)]
pub enum Sent {
    /// All of the piece.
    All,
    /// A write failed, and a part of the piece was sent, from its front.
    Failed,
}

/// Sends the reply of a house to a request, or the acknowledgement of a standby. A decided one is not sent before what it tells of is recorded, and each
/// image that a stop may leave stands for the entries.
pub fn send_reply<D: Disk, K: Sink>(
    _by: Answerer,
    _house: &Vault<D>,
    sink: &mut K,
    reply: &[u8],
) -> Sent
    requires durable { MayBeSent D.tells _by _house.now reply.now }
    ensures sent { SentIs (K.faults sink.old) (K.faults sink.new) (K.sent sink.old) (K.sent sink.new) reply.now result }
    ensures count { K.faults sink.old ≤ K.faults sink.new }
{
    send_all(sink, reply)
}

/// Sends all of the piece, in as many writes as the sink wants, up to one that fails.
pub fn send_all<K: Sink>(sink: &mut K, piece: &[u8]) -> Sent
    ensures sent { SentIs (K.faults sink.old) (K.faults sink.new) (K.sent sink.old) (K.sent sink.new) piece.now result }
    ensures count { K.faults sink.old ≤ K.faults sink.new }
{
    let mut at = 0;
    'sending: while at < piece.len() {
        match sink.write(piece.split_at(at).1) {
            WriteOut::Took(n) => at += n,
            WriteOut::Failed => return Sent::Failed,
        }
    }
    Sent::All
}
