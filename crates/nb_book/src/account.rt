use nb_units::PartyId;

/// An account: the party that holds it, and its balance in the house's smallest unit of money.
#[derive(Clone, Copy)]
pub struct Account {
    /// The number of the party, 4 bytes wide.
    pub party: PartyId,
    /// 8 bytes wide.
    pub balance: u64,
}
