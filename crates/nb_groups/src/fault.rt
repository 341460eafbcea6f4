use nb_units::NoMemory;

/// Why a list of offers was not read.
#[derive(Clone, Copy, Debug)]
pub enum OffersFault {
    /// The line of this number, from 1 on, is not of its form: the first that of the keeper, each other that of an offer; or, where an empty line
    /// should end the offers, the one behind the last is missing. Those before it are of their form, and no two of them are for one product and
    /// one group.
    BadLine { line: u32 },
    /// The line of this number, from 1 on, has the form of an offer, for the product and the group of one before it.
    Twice { line: u32 },
    /// There was no memory for an offer, which stands behind lines that are of their form.
    NoMemory,
}

impl From<NoMemory> for OffersFault {
    ghost use Rattle.std.specs.Prelude.{◌≡◌};
    ghost use Rattle.nb_groups.specs.declared.fault.OffersFault.TheVariants as fault;

    ghost from_gives = { λ _ e. e ≡ fault.NoMemory };

    fn from(_none: NoMemory) -> OffersFault {
        OffersFault::NoMemory
    }
}
