ghost use Rattle.std.specs.Prelude.{◌≡◌};
ghost use Rattle.nb_endorse.specs.Keys.{no_keys};

use crate::receipt::{NO_KEY, Receipt};
use crate::refusal::Refusal;
use nb_units::{AcctId, Epoid, PartyId, Secret};

/// What the house answers to one request.
#[derive(Clone, Copy)]
pub enum Reply {
    /// The order was decided: the receipt of each party.
    Result {
        merchant: Receipt,
        consumer: Receipt,
    },
    /// What is known of the order with this identifier: the receipt of who asks, where the order was decided and names
    /// that party.
    Status {
        /// The number of entries that were looked at, from the first on, 8 bytes wide.
        place: u64,
        /// The order's identifier, 16 bytes wide.
        epoid: Epoid,
        receipt: Option<Receipt>,
    },
    /// The consumer may deal with the merchant under the session key, until that moment.
    Grant {
        /// Who asked, 4 bytes wide.
        consumer: PartyId,
        /// Whom the consumer may deal with, 4 bytes wide.
        merchant: PartyId,
        /// The number that the consumer asked under, 8 bytes wide.
        nonce: u64,
        /// The last second at which the merchant takes the ticket, in seconds since 1970-01-01 00:00 UTC, 8 bytes wide.
        until: u64,
        /// The key that both share, 32 bytes wide.
        session: Secret,
    },
    /// The entry that was asked for stands in the journal.
    Done {
        /// The account that was asked for, 4 bytes wide.
        acct: AcctId,
        /// The entry's place: the number of entries before it, 8 bytes wide.
        at: u64,
        /// The balance of the account after this request, in the house's smallest unit of money, 8 bytes wide.
        balance: u64,
    },
    /// The request is refused, or its turn failed: then what came of it is not known yet.
    Refused(Refusal),
}

/// The keys that a reply is made with. For the result of an order `first` is the merchant's and `second` the consumer's; for
/// a status `first` is the asker's; for a grant `first` is the consumer's and `second` the merchant's. Keys that a reply of
/// this kind has no use for are zeros.
#[derive(Clone, Copy)]
pub struct ReplyKeys {
    /// The house's own key, which the tags of receipts are made with.
    pub house: Secret,
    pub first: Secret,
    pub second: Secret,
}

impl ReplyKeys {
    /// No key: for a reply that is neither signed nor sealed.
    pub fn none() -> ReplyKeys
        ensures { result ≡ no_keys }
    {
        ReplyKeys {
            house: NO_KEY,
            first: NO_KEY,
            second: NO_KEY,
        }
    }
}
