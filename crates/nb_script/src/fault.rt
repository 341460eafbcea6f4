use nb_units::NoMemory;
use thiserror::Error;

/// Why a script was not read, or not played.
#[derive(Clone, Copy, Debug, PartialEq, Eq, Error)]
pub enum PlayFault {
    /// The line of this number, from 1 on, is bad: those before it are lines of a script. Where the script ends too early it is the line behind the last one.
    #[error("script line {line} is bad")]
    BadLine { line: u32 },
    /// There was no memory.
    #[error("no memory")]
    NoMemory,
}

impl From<NoMemory> for PlayFault {
    ghost use Rattle.std.specs.Prelude.{◌≡◌};
    ghost use Rattle.nb_script.specs.declared.fault.PlayFault.TheVariants as fault;

    ghost from_gives = { λ _ f. f ≡ fault.NoMemory };

    fn from(_none: NoMemory) -> PlayFault {
        PlayFault::NoMemory
    }
}
