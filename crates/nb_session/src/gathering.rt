ghost use Rattle.std.specs.Prelude.{◌≡◌, ◌≤◌, ◌+◌, [], length, vec_len, vec_capacity};
ghost use Rattle.std.specs.List.{All};
ghost use Rattle.nb_vault.specs.Asking.{IsWithin, requests_of};
ghost use Rattle.nb_session.specs.Steps.{Gathers, GathersTo};

use nb_frame::{FrameFault, Frames, Next};
use nb_port::Clock;
use nb_vault::AskAt;

/// Why no more frames were gathered.
#[derive(Clone, Copy)]
pub enum Gathered {
    /// No whole frame waits any more.
    More,
    /// What waits is no frame.
    Bad(FrameFault),
    /// There are as many as were asked for.
    Full,
}

/// Gathers the frames that were read, at most so many, and asks the clock for each.
pub fn gather<C: Clock>(
    frames: &mut Frames,
    clock: &mut C,
    asks: &mut Vec<AskAt>,
    moments: &mut Vec<u64>,
    most: usize,
) -> Gathered
    requires none { asks.old.items ≡ [] }
    requires asks { most ≤ vec_capacity asks.old }
    requires moments { vec_len moments.old + most ≤ vec_capacity moments.old }
    ensures gathers { Gathers frames.old frames.new (C.moments clock.old) (C.moments clock.new) moments.old.items moments.new.items
        (requests_of frames.new.held asks.new.items) }
    ensures to { GathersTo frames.new (length asks.new.items) most result }
    ensures within { All (IsWithin frames.new.held) asks.new.items }
    ensures most { length asks.new.items ≤ most }
    ensures room { (vec_capacity asks.new ≡ vec_capacity asks.old) × (vec_capacity moments.new ≡ vec_capacity moments.old) }
{
    'gathering: for _ in 0..most {
        match frames.next() {
            Next::Frame(f) => {
                let moment = clock.now();
                moments.push_reserved(moment);
                asks.push_reserved(AskAt {
                    kind: f.kind,
                    start: f.start,
                    len: f.len,
                    moment,
                });
            }
            Next::More => return Gathered::More,
            Next::Bad(fault) => return Gathered::Bad(fault),
        }
    }
    Gathered::Full
}
