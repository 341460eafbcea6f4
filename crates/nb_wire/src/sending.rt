ghost use Rattle.std.specs.Prelude.{◌≤◌, length};
ghost use Rattle.nb_wire.specs.Sent.{OnlyWrites, Sends, WroteOn};

use nb_link::Link;
use nb_port::WriteOut;

/// How sending went.
#[derive(Clone, Copy)]
pub enum Sent {
    /// All of the bytes were sent.
    All,
    /// A write failed, and a part of the bytes was sent, from their front.
    Failed,
}

/// Sends all of some bytes to a link, in as many writes as it wants, up to one that fails.
pub fn send<L: Link>(link: &mut L, bytes: &[u8]) -> Sent
    ensures sent { Sends (L.seen link.old) (L.seen link.new) bytes.now result }
    ensures only { OnlyWrites (L.seen link.old) (L.seen link.new) }
{
    let mut at = 0;
    'sending: while at < bytes.len() {
        match link.write(bytes.split_at(at).1) {
            WriteOut::Took(n) => at += n,
            WriteOut::Failed => return Sent::Failed,
        }
    }
    Sent::All
}

/// Sends all of some bytes to a link behind others that were sent as `before` says. Where not all of those were, nothing is sent.
pub fn send_behind<L: Link>(link: &mut L, before: Sent, bytes: &[u8]) -> Sent
    ensures wrote { WroteOn before result (L.seen link.old) (L.seen link.new) bytes.now }
    ensures only { OnlyWrites (L.seen link.old) (L.seen link.new) }
{
    match before {
        Sent::All => send(link, bytes),
        Sent::Failed => Sent::Failed,
    }
}
