ghost use Rattle.std.specs.Prelude.{◌≡◌};
ghost use Rattle.nb_net.specs.Waits.{place_with, place_after, before_last, span};

use crate::limits::{Limits, SPAN};
use nb_units::frames::{HEADER, MAX_BODY};

/// Where in a frame a link is, by the bytes that it gave.
#[derive(Clone, Copy)]
pub struct Place {
    /// It gave a byte.
    pub heard: bool,
    /// How many bytes of the frame under way are there: none between two frames.
    pub had: u64,
    /// How many bytes its body has, once its header is there.
    pub len: u32,
}

// A link that gave no byte.
pub(crate) const START: Place = Place {
    heard: false,
    had: 0,
    len: 0,
};

impl Place {
    // Behind these bytes. Those of a header are looked at one by one; those of a body that come before its last one are passed over at once.
    #[tactic(auto, using(crate::proofs::Passing::passed))]
    pub(crate) fn after(self, bytes: &[u8]) -> Place
        ensures { result ≡ place_after self bytes.now }
    {
        let mut place = self;
        let mut rest = bytes;
        while let Some((byte, more)) = rest.split_first() {
            place = place.with(*byte);
            let passed = place.before_last().min(more.len() as u64);
            place.had += passed;
            rest = more.split_at(passed as usize).1;
        }
        place
    }

    // Behind one byte more.
    fn with(self, byte: u8) -> Place
        ensures { result ≡ place_with self byte }
    {
        let len = if 3 < self.had && self.had < HEADER as u64 {
            self.len % (1 << 24) * 256 + u32::from(byte)
        } else {
            self.len
        };
        let had = self.had.saturating_add(1);
        if had < HEADER as u64 + u64::from(len) {
            Place {
                heard: true,
                had,
                len,
            }
        } else {
            Place {
                heard: true,
                had: 0,
                len: 0,
            }
        }
    }

    // How many of the next bytes come before the last one of its body: none while its header is not there.
    fn before_last(self) -> u64
        ensures { result ≡ before_last self }
    {
        if self.had < HEADER as u64 {
            0
        } else {
            (HEADER as u64 - 1 + u64::from(self.len)).saturating_sub(self.had)
        }
    }

    // How long a link waits here.
    pub(crate) fn span(self, limits: Limits) -> u64
        ensures { result ≡ span limits self }
    {
        if !self.heard {
            u64::from(limits.first)
        } else if self.had == 0 {
            u64::from(limits.between)
        } else {
            u64::from(limits.frame)
                + u64::from(limits.more) * u64::from(self.len.min(MAX_BODY) / SPAN)
        }
    }
}
