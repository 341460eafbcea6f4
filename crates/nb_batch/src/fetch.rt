ghost use Rattle.std.specs.Prelude.{◌≡◌, ◌≤◌, ◌<◌, ◌+◌, ◌^◌, length};
ghost use Rattle.nb_frame.specs.State.{waiting};
ghost use Rattle.nb_frame.specs.declared.stream.TheConstants.{MAX_PIECE};
ghost use Rattle.nb_batch.specs.Fetch.{FetchIs, AtEnd};

use crate::batch::BatchEnd;
use nb_frame::{FrameAt, Frames, Next};
use nb_port::{ReadOut, Source};

/// What comes next in the input.
#[derive(Clone, Copy)]
pub enum Fetched {
    /// A frame, which the reader of frames holds.
    Frame(FrameAt),
    /// No frame: so the batch ends.
    Ended(BatchEnd),
}

/// Gives the next frame of the source. Frames that were read are given before more is read, by reads that each ask for as many bytes as
/// `piece` has room for.
pub fn next_frame<S: Source>(frames: &mut Frames, source: &mut S, piece: &mut [u8]) -> Fetched
    requires piece { length piece.old ≡ MAX_PIECE }
    requires near { frames.old.taken < 2 ^ 62 }
    ensures fetched { FetchIs (S.faults source.old) (S.faults source.new) (S.left source.old) (S.left source.new) frames.old frames.new result }
    ensures count { S.faults source.old ≤ S.faults source.new }
{
    'fetching: loop {
        match frames.next() {
            Next::Frame(f) => return Fetched::Frame(f),
            Next::Bad(fault) => return Fetched::Ended(BatchEnd::BadFrame(fault)),
            Next::More => {}
        }
        match source.read(piece) {
            ReadOut::Bytes(n) => frames.feed(&piece[..n]),
            ReadOut::End => return Fetched::Ended(at_end(frames)),
            ReadOut::Failed => return Fetched::Ended(BatchEnd::ReadFault),
        }
    }
}

// How the batch ends where nothing is left of the source.
fn at_end(frames: &Frames) -> BatchEnd
    requires { frames.now.taken + length (waiting frames.now) < 2 ^ 63 }
    ensures { AtEnd frames.now result }
{
    let rest = frames.rest();
    if rest == 0 {
        return BatchEnd::Clean;
    }
    BatchEnd::Cut {
        place: frames.taken() + rest,
    }
}
