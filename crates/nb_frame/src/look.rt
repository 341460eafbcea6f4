// What stands at the front of some bytes.

ghost use Rattle.std.specs.Prelude.{◌≡◌, ◌≤◌, length, take, drop};
ghost use Rattle.std.specs.Int.{w32, from_be_bytes};
ghost use Rattle.nb_units.specs.Frames.{AreBytes};
ghost use Rattle.nb_units.specs.declared.frames.TheConstants.{HEADER};
ghost use Rattle.nb_frame.specs.Looks.{LooksAs};

use crate::fault::FrameFault;
use nb_units::frames::{FIRST_MAGIC, HEADER, LAST_KIND, MAX_BODY, SECOND_MAGIC, VERSION};
use nb_units::u32_of;

// What stands at the front.
#[derive(Clone, Copy)]
pub enum Seen {
    // A frame of this kind, whose body has so many bytes.
    Whole { kind: u8, len: usize },
    // Nothing, or a part of a frame.
    Short,
    // A header that no frame has. The place counts from the front.
    Bad(FrameFault),
}

// Looks at the front: the parts of the header are tested in their order, each as soon as it is there.
#[tactic(auto, unfolding(nb_units::specs::Frames::front_of))]
pub fn look(bytes: &[u8]) -> Seen
    ensures seen { LooksAs bytes.now result }
    ensures fits { AreBytes bytes.now }
{
    if bytes.is_empty() {
        return Seen::Short;
    }
    if bytes[0] != FIRST_MAGIC {
        return Seen::Bad(FrameFault::BadMagic {
            place: 0,
            found: bytes[0],
        });
    }
    if bytes.len() < 2 {
        return Seen::Short;
    }
    if bytes[1] != SECOND_MAGIC {
        return Seen::Bad(FrameFault::BadMagic {
            place: 1,
            found: bytes[1],
        });
    }
    if bytes.len() < 3 {
        return Seen::Short;
    }
    if bytes[2] != VERSION {
        return Seen::Bad(FrameFault::BadVersion {
            place: 2,
            found: bytes[2],
        });
    }
    if bytes.len() < 4 {
        return Seen::Short;
    }
    let kind = bytes[3];
    if kind == 0 || kind > LAST_KIND {
        return Seen::Bad(FrameFault::BadKind {
            place: 3,
            found: kind,
        });
    }
    if bytes.len() < HEADER {
        return Seen::Short;
    }
    let len = body_len(bytes);
    if len > MAX_BODY {
        return Seen::Bad(FrameFault::TooLong { place: 4, len });
    }
    if bytes.len() - HEADER < len as usize {
        return Seen::Short;
    }
    Seen::Whole {
        kind,
        len: len as usize,
    }
}

// The length of the body, as the header says it.
fn body_len(bytes: &[u8]) -> u32
    requires { HEADER ≤ length bytes.now }
    ensures { result ≡ from_be_bytes w32 (take 4 (drop 4 bytes.now)) }
{
    u32_of(bytes.split_at(4).1.split_at(4).0)
}
