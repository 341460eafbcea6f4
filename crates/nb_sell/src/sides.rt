ghost use Rattle.std.specs.Prelude.{◌≡◌, ◌≤◌, IfOk};
ghost use Rattle.nb_sell.specs.Steps.{AreBegun, SameReaders, SaysTo, lines_of};

use crate::peer::Peer;
use nb_link::Link;
use nb_trade::Side;
use nb_units::{NoMemory, PartyId};
use nb_wire::Sent;
use std::alloc::Global;

// What is held beside the two links, how many frames of the consumer's were read, and whose message was last read.
#[derive(Drop)]
pub struct Sides {
    pub house: Side,
    pub consumer: Side,
    pub read: u32,
    pub last: Option<PartyId>,
}

impl Sides {
    pub fn new(alloc: Global) -> Result<Sides, NoMemory>
        ensures { IfOk result AreBegun }
    {
        Ok(Sides {
            house: Side::new(alloc)?,
            consumer: Side::new(alloc)?,
            read: 0,
            last: None,
        })
    }
}

// Sends a message to the link of a peer, behind all that was sent to it.
pub fn say<L: Link, M: Link>(
    link: &mut L,
    server: &mut M,
    sides: &mut Sides,
    to: Peer,
    bytes: &[u8],
) -> Sent
    ensures says { SaysTo to (lines_of (M.seen server.old) (L.seen link.old) sides.old) (lines_of (M.seen server.new) (L.seen link.new) sides.new) bytes.now result }
    ensures readers { SameReaders sides.old sides.new }
{
    match to {
        Peer::House => sides.house.say(server, bytes),
        Peer::Consumer => sides.consumer.say(link, bytes),
    }
}
