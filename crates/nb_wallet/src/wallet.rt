use nb_units::{AcctId, PartyId, Price, Secret, Small};

/// Who buys: what the house enrolled it with.
#[derive(Clone, Copy)]
pub struct Wallet {
    /// Its number, 4 bytes wide.
    pub id: PartyId,
    /// The account that it pays from, 4 bytes wide.
    pub acct: AcctId,
    /// The number that its orders must show, 8 bytes wide.
    pub nonce: u64,
    /// The key that it shares with the house, 32 bytes.
    pub key: Secret,
}

/// A wish to buy.
#[derive(Clone, Copy)]
pub struct Start {
    /// The consumer's own number of the purchase, 8 bytes wide.
    pub transaction: u64,
    /// Who is to sell, 4 bytes wide.
    pub merchant: PartyId,
    /// The merchant's number for the product, 4 bytes wide.
    pub product: u32,
    /// The most that it may cost, in the house's smallest unit of money, 8 bytes wide.
    pub limit: Price,
    /// What is said of it to the merchant: at most [`MAX_REQUEST`](nb_body::MAX_REQUEST) bytes.
    pub request: Small,
    /// The consumer's own note, sealed in the order under the key that it shares with the house: at most [`MAX_MEMO`](nb_units::MAX_MEMO) bytes.
    pub memo: Small,
}
