use nb_seal::BadSeal;
use nb_units::Malformed;
use std::fmt;

/// Why sealed bytes were not read.
#[derive(Clone, Copy, PartialEq, Eq, Debug)]
pub enum SealedFault {
    /// The bytes are the seal of no text under the key. The iv is the first 32 bytes given, with zeros where there are
    /// fewer.
    BadSeal { iv: [u8; 32] },
    /// The bytes are a seal, and its text is not spelled as it should be. The place is that of the first field that
    /// fails, in bytes from the front of the text.
    Malformed { place: usize },
}

impl fmt::Display for SealedFault {
    fn fmt<W: fmt::Write>(&self, f: &mut fmt::Formatter<W>) -> fmt::Result {
        match self {
            SealedFault::BadSeal { .. } => write!(f, "no seal under this key"),
            SealedFault::Malformed { place } => write!(
                f,
                "in what is sealed, at byte {place}: not spelled as it should be"
            ),
        }
    }
}

impl From<BadSeal> for SealedFault {
    ghost use Rattle.std.specs.Prelude.{◌≡◌};
    ghost use Rattle.nb_endorse.specs.declared.sealed.SealedFault.TheVariants as sealed;

    ghost from_gives = { λ bad fault. fault ≡ sealed.BadSeal bad.iv };

    fn from(bad: BadSeal) -> SealedFault {
        let BadSeal { iv } = bad;
        SealedFault::BadSeal { iv }
    }
}

impl From<Malformed> for SealedFault {
    ghost use Rattle.std.specs.Prelude.{◌≡◌};
    ghost use Rattle.nb_endorse.specs.declared.sealed.SealedFault.TheVariants as sealed;

    ghost from_gives = { λ malformed fault. fault ≡ sealed.Malformed malformed.place };

    fn from(malformed: Malformed) -> SealedFault {
        let Malformed { place } = malformed;
        SealedFault::Malformed { place }
    }
}
