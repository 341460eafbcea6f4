use nb_units::{AcctId, PartyId, Secret};

/// Who a merchant is.
#[derive(Clone, Copy)]
pub struct Stall {
    /// Its number, 4 bytes wide.
    pub id: PartyId,
    /// The account that it is paid into, 4 bytes wide.
    pub acct: AcctId,
    /// The key that it shares with the house, 32 bytes wide.
    pub key: Secret,
    /// What the keys of its goods are made from, 32 bytes wide.
    pub master: Secret,
}
