ghost use Rattle.std.specs.Prelude.{◌≡◌, ◌≤◌, ◌∷◌, [], length};
ghost use Rattle.nb_journal.specs.Growing.{IsAtRest};
ghost use Rattle.nb_journal.specs.declared.limits.TheConstants.{MAX_ITEM};
ghost use Rattle.nb_msgs.specs.Steps.{StepKeepsRules, kept_in};
ghost use Rattle.nb_buy.specs.Run.{peer_of};
ghost use Rattle.nb_buy.specs.Steps.{Acts, AreShort, Keeps, SameReaders, items_of, lines_of, next_sent};

use crate::ended::Lost;
use crate::peer::{Next, Over, Peer};
use crate::sides::{Sides, say};
use nb_journal::{AppendFault, Journal};
use nb_link::Link;
use nb_msgs::{Step, To, write_message};
use nb_port::Disk;
use nb_units::Blob;
use nb_wire::Sent;
use std::alloc::Global;

// Carries a step out: what it keeps is appended to the journal, and then its message is sent. The message is spelled before its item is appended,
// so that behind an item that was kept nothing but the link can fail.
pub fn act<D: Disk, L: Link>(
    alloc: Global,
    journal: &mut Journal<D>,
    server: &mut L,
    seller: &mut L,
    sides: &mut Sides,
    from: Peer,
    step: &Step,
) -> Result<Next, Lost>
    requires rest { IsAtRest D.tells journal.old }
    requires room { journal.old.room ≡ MAX_ITEM }
    requires lawful { StepKeepsRules step.now }
    requires short { AreShort (kept_in step.now) }
    ensures acts { Acts D.tells journal.old journal.new (lines_of (L.seen server.old) (L.seen seller.old) sides.old) (lines_of (L.seen server.new) (L.seen seller.new) sides.new) from step.now result }
    ensures readers { SameReaders sides.old sides.new }
{
    match step {
        Step::Ignored(_) => Ok(Next::Awaits(from)),
        Step::Ended { keep: item, .. } => {
            match keep(journal, item.as_slice()) {
                Ok(()) => {}
                Err(why) => return Err(why),
            }
            Ok(Next::Awaits(from))
        }
        Step::Move {
            keep: item,
            to,
            message,
        } => {
            let mut bytes = Vec::new(alloc);
            if write_message(message, &mut bytes).is_err() {
                return Err(Lost::NoMemory);
            }
            match keep_some(journal, item) {
                Ok(()) => {}
                Err(why) => return Err(why),
            }
            let peer = peer_for(to);
            let sent = say(server, seller, sides, peer, bytes.as_slice());
            Ok(behind(peer, sent))
        }
    }
}

// What is done next behind a message to a peer.
fn behind(peer: Peer, sent: Sent) -> Next
    ensures { result ≡ next_sent peer sent }
{
    match sent {
        Sent::All => Next::Awaits(peer),
        Sent::Failed => Next::Over(peer, Over::WriteFault),
    }
}

// Whose link a message goes to.
fn peer_for(to: &To) -> Peer
    ensures { result ≡ peer_of to.now }
{
    match to {
        To::Server => Peer::House,
        To::Merchant(_) => Peer::Seller,
        To::Consumer(_) => Peer::Seller,
    }
}

// Appends an item to the journal, where there is one.
fn keep_some<D: Disk>(journal: &mut Journal<D>, item: &Option<Blob>) -> Result<(), Lost>
    requires rest { IsAtRest D.tells journal.old }
    requires room { journal.old.room ≡ MAX_ITEM }
    requires short { AreShort (items_of item.now) }
    ensures { Keeps D.tells journal.old journal.new (items_of item.now) result }
{
    match item {
        Some(item) => keep(journal, item.as_slice()),
        None => Ok(()),
    }
}

// Appends an item to the journal.
fn keep<D: Disk>(journal: &mut Journal<D>, item: &[u8]) -> Result<(), Lost>
    requires rest { IsAtRest D.tells journal.old }
    requires room { journal.old.room ≡ MAX_ITEM }
    requires short { length item.now ≤ MAX_ITEM }
    ensures { Keeps D.tells journal.old journal.new (item.now ∷ []) result }
{
    match journal.append(item) {
        Ok(()) => Ok(()),
        Err(AppendFault::Full { cap }) => Err(Lost::Full { cap }),
        Err(AppendFault::DiskFault { before, after }) => Err(Lost::DiskFault { before, after }),
        Err(AppendFault::TooBig { .. }) => unreachable!(),
    }
}
