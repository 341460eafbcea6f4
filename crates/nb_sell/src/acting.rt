ghost use Rattle.std.specs.Prelude.{◌≡◌, ◌≤◌};
ghost use Rattle.nb_journal.specs.Growing.{IsAtRest};
ghost use Rattle.nb_journal.specs.declared.limits.TheConstants.{MAX_ITEM};
ghost use Rattle.nb_sell.specs.Run as run;
ghost use Rattle.nb_sell.specs.Steps.{Acts, IsLawful, IsShort, SameReaders, lines_of, next_sent};

use crate::peer::{Next, Over, Peer};
use crate::sides::{Sides, say};
use nb_journal::Journal;
use nb_link::Link;
use nb_msgs::{Step, To, write_message};
use nb_port::Disk;
use nb_trade::{Lost, keep_some};
use nb_units::PartyId;
use nb_wire::Sent;
use std::alloc::Global;

// Carries a step out: what it keeps is appended to the journal, and then its message is sent, where it is for the house or for the consumer whose message was last
// read. The message is spelled before its item is appended, so that behind an item that was kept nothing but the link can fail.
pub fn act<D: Disk, L: Link, M: Link>(
    alloc: Global,
    journal: &mut Journal<D>,
    link: &mut L,
    server: &mut M,
    sides: &mut Sides,
    step: &Step,
) -> Result<Next, Lost>
    requires rest { IsAtRest D.tells journal.old }
    requires room { journal.old.room ≡ MAX_ITEM }
    requires lawful { IsLawful step.now }
    requires short { IsShort step.now }
    ensures acts { Acts D.tells journal.old journal.new (lines_of (M.seen server.old) (L.seen link.old) sides.old) (lines_of (M.seen server.new) (L.seen link.new) sides.new) sides.old.last step.now result }
    ensures readers { SameReaders sides.old sides.new }
{
    match step {
        Step::Ignored(_) => Ok(Next::Over(Over::Ignored)),
        Step::Ended { .. } => unreachable!(),
        Step::Move { keep, to, message } => {
            let mut bytes = Vec::new(alloc);
            if write_message(message, &mut bytes).is_err() {
                return Err(Lost::NoMemory);
            }
            match keep_some(journal, keep) {
                Ok(()) => {}
                Err(why) => return Err(why),
            }
            match link_for(sides.last, to) {
                None => Ok(Next::Awaits(Peer::Consumer)),
                Some(peer) => {
                    let sent = say(link, server, sides, peer, bytes.as_slice());
                    Ok(behind(peer, sent))
                }
            }
        }
    }
}

// The link that a message is sent to, where it is sent.
fn link_for(last: Option<PartyId>, to: &To) -> Option<Peer>
    ensures { result ≡ run.link_for last to.now }
{
    match to {
        To::Server => Some(Peer::House),
        To::Consumer(consumer) => {
            if is_last(last, *consumer) {
                Some(Peer::Consumer)
            } else {
                None
            }
        }
        To::Merchant(_) => None,
    }
}

// Whether the message that was last read is this consumer's.
fn is_last(last: Option<PartyId>, consumer: PartyId) -> bool
    ensures { result ≡ run.is_last last consumer }
{
    match last {
        Some(last) => last.0 == consumer.0,
        None => false,
    }
}

// What is done next behind a message to a peer.
fn behind(peer: Peer, sent: Sent) -> Next
    ensures { result ≡ next_sent peer sent }
{
    match sent {
        Sent::All => Next::Awaits(peer),
        Sent::Failed => Next::Over(Over::WriteFault(peer)),
    }
}
