ghost use Rattle.std.specs.Prelude.{◌≡◌, ◌<◌, ◌+◌, ◌^◌, length};
ghost use Rattle.nb_units.specs.Frames.{front_of};
ghost use Rattle.nb_frame.specs.State.{waiting};
ghost use Rattle.nb_frame.specs.Looks.{IsShort};
ghost use Rattle.nb_frame.specs.declared.stream.TheConstants.{MAX_PIECE};
ghost use Rattle.nb_wire.specs.Reads.{ReadsOn};

use nb_frame::Frames;
use nb_link::Link;
use nb_port::ReadOut;

/// How reading on went.
#[derive(Clone, Copy)]
pub enum ReadOn {
    /// A piece was read.
    Fed,
    /// Nothing is left of the link.
    Ended,
    /// The read failed.
    Failed,
}

/// Reads the next piece of a link, with one read that asks for as many bytes as `piece` has, and feeds it to the reader of frames, in which
/// less than a frame waits.
pub fn read_on<L: Link>(link: &mut L, frames: &mut Frames, piece: &mut [u8]) -> ReadOn
    requires piece { length piece.old ≡ MAX_PIECE }
    requires short { IsShort (front_of (waiting frames.old)) }
    // A stream of fewer than 2^63 bytes: a place in it fits 64 bits.
    requires near { frames.old.taken + length (waiting frames.old) + MAX_PIECE < 2 ^ 63 }
    ensures { ReadsOn (L.seen link.old) (L.seen link.new) frames.old frames.new result }
{
    match link.read(piece) {
        ReadOut::Bytes(n) => {
            frames.feed(&piece[..n]);
            ReadOn::Fed
        }
        ReadOut::End => ReadOn::Ended,
        ReadOut::Failed => ReadOn::Failed,
    }
}
