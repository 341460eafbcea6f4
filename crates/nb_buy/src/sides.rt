ghost use Rattle.std.specs.Prelude.{◌≡◌, ◌≤◌, ◌+◌, length, take, drop, IfOk};
ghost use Rattle.nb_frame.specs.declared.stream.TheConstants.{MAX_PIECE};
ghost use Rattle.nb_buy.specs.Steps.{AreBegun, IsNear, CanRead, FetchIs, SameReaders, SaysTo, held_at, lines_of, read_behind};

use crate::peer::Peer;
use nb_frame::{FrameAt, Frames};
use nb_link::Link;
use nb_units::NoMemory;
use nb_wire::{Fetched, Sent, next_frame, send_behind};
use std::alloc::Global;

// What is held beside a link: the reader of the frames that come over it, and how all that was sent to it went.
#[derive(Drop)]
pub struct Side {
    pub frames: Frames,
    pub sent: Sent,
}

// What is held beside the two links, and how many frames were read from both.
#[derive(Drop)]
pub struct Sides {
    pub house: Side,
    pub seller: Side,
    pub read: u32,
}

impl Sides {
    pub fn new(alloc: Global) -> Result<Sides, NoMemory>
        ensures { IfOk result AreBegun }
    {
        Ok(Sides {
            house: Side {
                frames: Frames::new(alloc)?,
                sent: Sent::All,
            },
            seller: Side {
                frames: Frames::new(alloc)?,
                sent: Sent::All,
            },
            read: 0,
        })
    }

    // The body of a frame that came over the link of a peer.
    pub fn body(&self, from: Peer, f: &FrameAt) -> &[u8]
        requires { f.now.start + f.now.len ≤ length (held_at from self.now).held }
        ensures { result.now ≡ take f.now.len (drop f.now.start (held_at from self.now).held) }
    {
        match from {
            Peer::House => self.house.frames.body(f),
            Peer::Seller => self.seller.frames.body(f),
        }
    }
}

// Gives the next frame that came over the link of a peer, and counts it.
pub fn fetch<L: Link>(
    server: &mut L,
    seller: &mut L,
    sides: &mut Sides,
    piece: &mut [u8],
    from: Peer,
) -> Fetched
    requires piece { length piece.old ≡ MAX_PIECE }
    requires near { CanRead sides.old }
    ensures fetched { FetchIs from (lines_of (L.seen server.old) (L.seen seller.old) sides.old) (lines_of (L.seen server.new) (L.seen seller.new) sides.new) result }
    ensures near { IsNear sides.new }
    ensures read { sides.new.read ≡ read_behind sides.old.read result }
{
    let fetched = match from {
        Peer::House => next_frame(server, &mut sides.house.frames, piece),
        Peer::Seller => next_frame(seller, &mut sides.seller.frames, piece),
    };
    match fetched {
        Fetched::Frame(_) => sides.read += 1,
        Fetched::End(_) => {}
    }
    fetched
}

// Sends a message to the link of a peer, behind all that was sent to it. Nothing is sent where not all of that was.
pub fn say<L: Link>(
    server: &mut L,
    seller: &mut L,
    sides: &mut Sides,
    to: Peer,
    bytes: &[u8],
) -> Sent
    ensures says { SaysTo to (lines_of (L.seen server.old) (L.seen seller.old) sides.old) (lines_of (L.seen server.new) (L.seen seller.new) sides.new) bytes.now result }
    ensures readers { SameReaders sides.old sides.new }
{
    match to {
        Peer::House => {
            sides.house.sent = send_behind(server, sides.house.sent, bytes);
            sides.house.sent
        }
        Peer::Seller => {
            sides.seller.sent = send_behind(seller, sides.seller.sent, bytes);
            sides.seller.sent
        }
    }
}
