ghost use Rattle.std.specs.Prelude.{◌≡◌, ◌≤◌, ◌<◌, ◌+◌, ◌^◌, length};
ghost use Rattle.nb_units.specs.declared.frames.TheConstants.{HEADER, MAX_BODY};
ghost use Rattle.nb_frame.specs.declared.stream.TheConstants.{MAX_PIECE};
ghost use Rattle.nb_wire.specs.Received.{wire, Fetches};

use crate::reading::{ReadOn, read_on};
use nb_frame::{FrameAt, FrameFault, Frames, Next};
use nb_link::Link;

/// Why no frame comes over a link any more.
#[derive(Clone, Copy)]
pub enum LinkEnd {
    /// The link ended. Behind its last whole frame stand `rest` bytes, 8 bytes wide: 0, or fewer than the frame has that they begin.
    Ended { rest: u64 },
    /// What came is no frame.
    BadFrame(FrameFault),
    /// A read failed, and no whole frame waits.
    ReadFault,
}

/// What comes next over a link.
#[derive(Clone, Copy)]
pub enum Fetched {
    /// A frame, which the reader of frames holds.
    Frame(FrameAt),
    /// No frame.
    End(LinkEnd),
}

/// Gives the next frame that came over a link. A frame that was read is given before more is read, and more is read only where less than a
/// frame waits, by reads that each ask for as many bytes as `piece` has.
pub fn next_frame<L: Link>(link: &mut L, frames: &mut Frames, piece: &mut [u8]) -> Fetched
    requires piece { length piece.old ≡ MAX_PIECE }
    // A stream of fewer than 2^62 bytes: a place in it fits 64 bits.
    requires near { frames.old.taken < 2 ^ 62 }
    ensures fetched { Fetches (wire (L.seen link.old) frames.old) (wire (L.seen link.new) frames.new) result }
    // At most one frame is given out.
    ensures one { frames.new.taken ≤ frames.old.taken + (HEADER + MAX_BODY) }
{
    'fetching: loop {
        match frames.next() {
            Next::Frame(f) => return Fetched::Frame(f),
            Next::Bad(fault) => return Fetched::End(LinkEnd::BadFrame(fault)),
            Next::More => {}
        }
        match read_on(link, frames, piece) {
            ReadOn::Fed => {}
            ReadOn::Ended => {
                return Fetched::End(LinkEnd::Ended {
                    rest: frames.rest(),
                });
            }
            ReadOn::Failed => return Fetched::End(LinkEnd::ReadFault),
        }
    }
}
