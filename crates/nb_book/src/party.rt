use nb_units::{AcctId, PartyId, Secret};

/// An enrolled party: the place of its enrolment, and what that says.
#[derive(Clone, Copy)]
pub struct Party {
    /// The number of entries before its enrolment, 8 bytes wide.
    pub at: u64,
    /// [`CONSUMER`](nb_entry::CONSUMER) or [`MERCHANT`](nb_entry::MERCHANT), one byte wide.
    pub role: u8,
    /// The number of its account, 4 bytes wide.
    pub acct: AcctId,
    /// The number that its orders must show, 8 bytes wide.
    pub nonce: u64,
    /// The key that it shares with the house, 32 bytes.
    pub key: Secret,
}
