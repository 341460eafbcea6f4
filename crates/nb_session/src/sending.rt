ghost use Rattle.std.specs.Prelude.{◌≤◌, ◌<◌, length};
ghost use Rattle.nb_turn.specs.Passes.{sees};
ghost use Rattle.nb_wire.specs.Sent.{OnlyWrites, Sends};
ghost use Rattle.nb_session.specs.Steps.{LeftToSend};

use nb_desk::Pass;
use nb_link::Link;
use nb_port::Disk;
use nb_units::frames::HEADER;
use nb_wire::{Sent, send};

/// Sends replies of a turn that may be sent from the house that `pass` left. What they tell of is recorded in that house, and each image that a stop may
/// leave stands for its entries, unless the turn did not decide. That they are those of the last turn of `pass` is said by `session`.
pub fn send_replies<D: Disk, L: Link>(_pass: &Pass<D>, link: &mut L, replies: &[u8]) -> Sent
    requires durable { LeftToSend D.tells _pass.now.number (sees _pass.now) replies.now }
    ensures sent { Sends (L.seen link.old) (L.seen link.new) replies.now result }
    ensures only { OnlyWrites (L.seen link.old) (L.seen link.new) }
{
    send_each(link, replies)
}

// Sends replies that stand one behind another, each by writes of its own.
fn send_each<L: Link>(link: &mut L, replies: &[u8]) -> Sent
    ensures sent { Sends (L.seen link.old) (L.seen link.new) replies.now result }
    ensures only { OnlyWrites (L.seen link.old) (L.seen link.new) }
{
    let mut at = 0;
    'sending: while at < replies.len() {
        let rest = replies.split_at(at).1;
        let reply = rest.split_at(first_len(rest)).0;
        match send(link, reply) {
            Sent::All => at += reply.len(),
            Sent::Failed => return Sent::Failed,
        }
    }
    Sent::All
}

// How many bytes the first reply has: as many as its header says, and at most all.
fn first_len(replies: &[u8]) -> usize
    requires { 0 < length replies.now }
    ensures least { 1 ≤ result }
    ensures most { result ≤ length replies.now }
{
    match replies {
        [_, _, _, _, a, b, c, d, ..] => {
            let body = u32::from_be_bytes([*a, *b, *c, *d]) as usize;
            (HEADER + body).min(replies.len())
        }
        _ => replies.len(),
    }
}
