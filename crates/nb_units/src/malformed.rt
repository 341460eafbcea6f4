ghost use Rattle.std.specs.Prelude.{IsTrue, OnOk};
ghost use Rattle.nb_units.specs.Fields.{allowed};
ghost use Rattle.nb_units.specs.Reads.{Reads};

use crate::CutFault;
use std::fmt;

/// Bytes are not spelled as they should be. The place is that of the first field that fails, in bytes from the front.
#[derive(Clone, Copy, Debug)]
pub struct Malformed {
    pub place: usize,
}

impl fmt::Display for Malformed {
    fn fmt<W: fmt::Write>(&self, f: &mut fmt::Formatter<W>) -> fmt::Result {
        write!(f, "at byte {}: not spelled as it should be", self.place)
    }
}

impl From<CutFault> for Malformed {
    ghost use Rattle.std.specs.Prelude.{◌≡◌};
    ghost use Rattle.nb_units.specs.Fields.{place_of};

    // the place of the fault
    ghost from_gives = { λ fault m. m.place ≡ place_of fault };

    fn from(fault: CutFault) -> Malformed {
        match fault {
            CutFault::Short { place } => Malformed { place },
            CutFault::Long { place, .. } => Malformed { place },
            CutFault::Extra { place } => Malformed { place },
        }
    }
}

/// Tests the value of the field at the place: answers [`Malformed`] at that place where it is not allowed.
pub fn allow(is: bool, place: usize) -> Result<(), Malformed>
    // Ok where the value of the field at the place is allowed, else that place
    ensures reads { Reads result (allowed is place) }
    ensures holds { OnOk result (IsTrue is) }
{
    if is { Ok(()) } else { Err(Malformed { place }) }
}
