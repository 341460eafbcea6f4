use nb_units::{CutFault, Malformed, NoMemory};
use std::fmt;

/// Why bytes were not read: a body of a message, or an item that a party keeps.
#[derive(Clone, Copy, Debug)]
pub enum BodyFault {
    /// The bytes are not spelled as those of their kind are. The place is that of the first field that fails, in bytes from the front: a
    /// field of which bytes are missing, the length of a text that is too long or not all there, a value that is not allowed, or the
    /// first byte behind the last field. Where bytes that are sealed as a whole are too many, the place is the greatest number of them that is allowed.
    Malformed { place: usize },
    /// They are, and there was no memory for what they say.
    NoMemory,
}

impl fmt::Display for BodyFault {
    fn fmt<W: fmt::Write>(&self, f: &mut fmt::Formatter<W>) -> fmt::Result {
        match self {
            BodyFault::Malformed { place } => {
                write!(f, "at byte {place}: not spelled as it should be")
            }
            BodyFault::NoMemory => write!(f, "there is no memory"),
        }
    }
}

impl From<Malformed> for BodyFault {
    ghost use Rattle.std.specs.Prelude.{◌≡◌};
    ghost use Rattle.nb_body.specs.declared.fault.BodyFault.TheVariants as fault;

    ghost from_gives = { λ malformed f. f ≡ fault.Malformed malformed.place };

    fn from(malformed: Malformed) -> BodyFault {
        let Malformed { place } = malformed;
        BodyFault::Malformed { place }
    }
}

impl From<CutFault> for BodyFault {
    ghost use Rattle.std.specs.Prelude.{◌≡◌};
    ghost use Rattle.nb_units.specs.Fields.{place_of};
    ghost use Rattle.nb_body.specs.declared.fault.BodyFault.TheVariants as fault;

    ghost from_gives = { λ cut f. f ≡ fault.Malformed (place_of cut) };

    fn from(cut: CutFault) -> BodyFault {
        BodyFault::from(Malformed::from(cut))
    }
}

impl From<NoMemory> for BodyFault {
    ghost use Rattle.std.specs.Prelude.{◌≡◌};
    ghost use Rattle.nb_body.specs.declared.fault.BodyFault.TheVariants as fault;

    ghost from_gives = { λ none f. f ≡ fault.NoMemory };

    fn from(_none: NoMemory) -> BodyFault {
        BodyFault::NoMemory
    }
}
