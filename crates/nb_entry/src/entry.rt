use nb_units::{AcctId, Digest, Epoid, PartyId, Price, Secret};

/// The role of a party that buys.
pub const CONSUMER: u8 = 1;

/// The role of a party that sells.
pub const MERCHANT: u8 = 2;

/// What a book records.
#[derive(Clone, Copy, PartialEq, Eq)]
pub enum Entry {
    /// A party takes a role, [`CONSUMER`] or [`MERCHANT`], and opens its account. The nonce is the number that its
    /// orders must show, the key is the one that it shares with the house.
    Enrol {
        id: PartyId,
        role: u8,
        acct: AcctId,
        nonce: u64,
        key: Secret,
    },
    /// Money comes into an account from outside, an amount in the house's smallest unit of money. The reference
    /// names the payment outside.
    Fund {
        acct: AcctId,
        amount: u64,
        reference: [u8; 16],
    },
    /// An order is paid: the price, in the house's smallest unit of money, moves from the consumer's account to the
    /// merchant's. The digest is the SHA-256 (FIPS 180-4) of the merchant's endorsement before it is sealed. The moment is
    /// when the order was decided, in seconds since 1970-01-01 00:00 UTC. The key opens the goods.
    Paid {
        digest: Digest,
        epoid: Epoid,
        consumer: PartyId,
        merchant: PartyId,
        product: u32,
        price: Price,
        cacct: AcctId,
        macct: AcctId,
        moment: u64,
        key: Secret,
    },
    /// An order is paid, as by [`Entry::Paid`], and the house keeps a fee of the price, in its smallest unit of money: the whole
    /// price leaves the consumer's account, what is left of it without the fee comes into the merchant's. Only journals of the
    /// version [`FEE_VERSION`](nb_units::FEE_VERSION) have such an entry, and its fee is `fee_of` of nb_book the price at their rate.
    Charged {
        digest: Digest,
        epoid: Epoid,
        consumer: PartyId,
        merchant: PartyId,
        product: u32,
        price: Price,
        fee: u64,
        cacct: AcctId,
        macct: AcctId,
        moment: u64,
        key: Secret,
    },
    /// An order is refused, and its identifier used up. Digest, price and moment are as those of a payment. The code is one
    /// of `reason` of nb_book, which says what `a` and `b` are, each 8 bytes wide.
    Refused {
        digest: Digest,
        epoid: Epoid,
        consumer: PartyId,
        merchant: PartyId,
        product: u32,
        price: Price,
        code: u8,
        a: u64,
        b: u64,
        moment: u64,
    },
}
