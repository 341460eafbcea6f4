ghost use Rattle.std.specs.Prelude.{◌≡◌, ◌≤◌, ◌<◌, ◌+◌, ◌^◌, length, take, drop, IfOk};
ghost use Rattle.nb_units.specs.declared.frames.TheConstants.{HEADER, MAX_BODY};
ghost use Rattle.nb_frame.specs.declared.stream.TheConstants.{MAX_PIECE};
ghost use Rattle.nb_trade.specs.Lines.{FetchesOn, IsBegun, Says, line_of};

use nb_frame::{FrameAt, Frames};
use nb_link::Link;
use nb_units::NoMemory;
use nb_wire::{Fetched, Sent, next_frame, send_behind};
use std::alloc::Global;

/// What is held beside a link.
#[derive(Drop)]
pub struct Side {
    /// The reader of the frames that come over it.
    pub frames: Frames,
    /// How all that was sent to it went.
    pub sent: Sent,
}

impl Side {
    /// That of a link over which nothing was received and sent yet.
    pub fn new(alloc: Global) -> Result<Side, NoMemory>
        ensures { IfOk result IsBegun }
    {
        Ok(Side {
            frames: Frames::new(alloc)?,
            sent: Sent::All,
        })
    }

    /// Gives the next frame that came over the link, as [`next_frame`] does.
    pub fn fetch<L: Link>(&mut self, link: &mut L, piece: &mut [u8]) -> Fetched
        requires piece { length piece.old ≡ MAX_PIECE }
        // A stream of fewer than 2^62 bytes: a place in it fits 64 bits.
        requires near { self.old.frames.taken < 2 ^ 62 }
        ensures fetches { FetchesOn (line_of (L.seen link.old) self.old) (line_of (L.seen link.new) self.new) result }
        // At most one frame is given out.
        ensures one { self.new.frames.taken ≤ self.old.frames.taken + (HEADER + MAX_BODY) }
    {
        next_frame(link, &mut self.frames, piece)
    }

    /// The body of a frame that was given.
    pub fn body(&self, f: &FrameAt) -> &[u8]
        requires { f.now.start + f.now.len ≤ length self.now.frames.held }
        ensures { result.now ≡ take f.now.len (drop f.now.start self.now.frames.held) }
    {
        self.frames.body(f)
    }

    /// Sends a message to the link behind all that was sent to it. Nothing is sent where not all of that was.
    pub fn say<L: Link>(&mut self, link: &mut L, bytes: &[u8]) -> Sent
        ensures says { Says (line_of (L.seen link.old) self.old) (line_of (L.seen link.new) self.new) bytes.now }
        ensures told { result ≡ self.new.sent }
        ensures same { self.new.frames ≡ self.old.frames }
    {
        self.sent = send_behind(link, self.sent, bytes);
        self.sent
    }
}
