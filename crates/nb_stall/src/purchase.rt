use nb_units::PartyId;

/// Which purchase: a consumer, and the number under which it buys.
#[derive(Clone, Copy, PartialEq, Eq, PartialOrd, Ord)]
pub struct Purchase {
    /// Who buys, 4 bytes wide.
    pub consumer: PartyId,
    /// The consumer's own number of the purchase, 8 bytes wide.
    pub transaction: u64,
}
