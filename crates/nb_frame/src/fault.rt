ghost use Rattle.std.specs.Prelude.{◌≡◌, ◌+◌, ◌<◌, ◌^◌};
ghost use Rattle.nb_frame.specs.Faults.{place_of, moved};

/// What stands in a stream is no frame. The place is that of the first part of a header that is not allowed, in bytes from the
/// first byte of the stream.
#[derive(Clone, Copy)]
pub enum FrameFault {
    /// One of the two bytes of the magic is another one.
    BadMagic { place: u64, found: u8 },
    /// The version is another one.
    BadVersion { place: u64, found: u8 },
    /// The kind is 0 or above the greatest.
    BadKind { place: u64, found: u8 },
    /// The length of the body, in bytes, is above the most that a body has. The place is that of the length's first byte.
    TooLong { place: u64, len: u32 },
}

impl FrameFault {
    /// The place of the fault, in bytes from the first byte of the stream.
    pub fn place(self) -> u64
        ensures { result ≡ place_of self }
    {
        match self {
            FrameFault::BadMagic { place, .. } => place,
            FrameFault::BadVersion { place, .. } => place,
            FrameFault::BadKind { place, .. } => place,
            FrameFault::TooLong { place, .. } => place,
        }
    }

    // The same fault behind so many bytes more.
    pub(crate) fn behind(self, before: u64) -> FrameFault
        requires { before + place_of self < 2 ^ 64 }
        ensures { result ≡ moved before self }
    {
        match self {
            FrameFault::BadMagic { place, found } => FrameFault::BadMagic {
                place: before + place,
                found,
            },
            FrameFault::BadVersion { place, found } => FrameFault::BadVersion {
                place: before + place,
                found,
            },
            FrameFault::BadKind { place, found } => FrameFault::BadKind {
                place: before + place,
                found,
            },
            FrameFault::TooLong { place, len } => FrameFault::TooLong {
                place: before + place,
                len,
            },
        }
    }
}
