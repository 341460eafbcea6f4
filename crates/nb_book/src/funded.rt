use nb_units::AcctId;

/// A fund: its place, and what it put into which account.
#[derive(Clone, Copy)]
pub struct Funded {
    /// The number of entries before it, 8 bytes wide.
    pub at: u64,
    /// The number of the account, 4 bytes wide.
    pub acct: AcctId,
    /// In the house's smallest unit of money, 8 bytes wide.
    pub amount: u64,
}
