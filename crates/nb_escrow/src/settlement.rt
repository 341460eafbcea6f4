ghost use Rattle.std.specs.Prelude.{◌≡◌, ◌↔◌, IfSome, IsSome, IsNone, None, Some};
ghost use Rattle.nb_book.specs.Searches.{order_in};
ghost use Rattle.nb_endorse.specs.declared.receipt.TheConstants.{PAID_CODE};
ghost use Rattle.nb_endorse.specs.Replies.{ReceiptKeepsRules};
ghost use Rattle.nb_endorse.specs.Spelling.{IsReceiptCode};
ghost use Rattle.nb_escrow.specs.Settlements as told;

use nb_book::reason::{BALANCE_LOW, CONSUMER_ACCOUNT, CONSUMER_NONCE, MERCHANT_ACCOUNT};
use nb_book::{Book, Kept};
use nb_endorse::{PAID_CODE, Receipt};
use nb_entry::{CONSUMER, Entry, MERCHANT};
use nb_units::{AcctId, Digest, Epoid, PartyId, Price, Secret};

/// Why an order was refused: one of the codes of [`reason`](nb_book::reason), and the two numbers of which it speaks.
#[derive(Clone, Copy)]
pub struct RefusalReason {
    /// One byte wide.
    pub code: u8,
    /// The first number, 8 bytes wide.
    pub a: u64,
    /// The second number, 8 bytes wide.
    pub b: u64,
}

/// What became of an order.
#[derive(Clone, Copy)]
pub enum PaymentOutcome {
    /// The price moved from the consumer's account, `cacct`, to the merchant's, `macct`. The key, 32 bytes, is the one that
    /// the merchant gave for the goods. The fee, in the house's smallest unit of money, is what the house kept of the price; there is none where
    /// the payment was recorded without one.
    Paid {
        cacct: AcctId,
        macct: AcctId,
        key: Secret,
        fee: Option<u64>,
    },
    /// Nothing moved.
    Refused(RefusalReason),
}

/// How an order was settled: the entry that records it, with its place.
#[derive(Clone, Copy)]
pub struct Settlement {
    /// The number of entries before it, 8 bytes wide.
    pub at: u64,
    /// The SHA-256 digest (FIPS 180-4) of the endorsement before it was sealed.
    pub digest: Digest,
    /// The order's identifier, 16 bytes wide.
    pub epoid: Epoid,
    /// Who pays, 4 bytes wide.
    pub consumer: PartyId,
    /// Who is paid, 4 bytes wide.
    pub merchant: PartyId,
    /// The merchant's number for the product, 4 bytes wide.
    pub product: u32,
    /// The price, in the house's smallest unit of money, 8 bytes wide.
    pub price: Price,
    /// When it was settled, in seconds since 1970-01-01 00:00 UTC, 8 bytes wide.
    pub moment: u64,
    /// Whether it was paid.
    pub outcome: PaymentOutcome,
}

impl Settlement {
    /// How an entry that was found settled its order. `None` where the entry is an enrolment or a fund, which settle none.
    #[tactic(auto, using(crate::proofs::Settling::settled_in_parts))]
    pub fn of(kept: &Kept) -> Option<Settlement>
        ensures { result ≡ told.settlement_of kept.now }
    {
        let outcome = outcome_in(&kept.entry)?;
        settlement_with(kept, outcome)
    }

    /// The entry that records it.
    pub fn entry(&self) -> Entry
        ensures { result ≡ told.settlement_entry self.now }
    {
        let Settlement {
            digest,
            epoid,
            consumer,
            merchant,
            product,
            price,
            moment,
            ..
        } = *self;
        match self.outcome {
            PaymentOutcome::Paid {
                cacct,
                macct,
                key,
                fee: None,
            } => Entry::Paid {
                digest,
                epoid,
                consumer,
                merchant,
                product,
                price,
                cacct,
                macct,
                moment,
                key,
            },
            PaymentOutcome::Paid {
                cacct,
                macct,
                key,
                fee: Some(fee),
            } => Entry::Charged {
                digest,
                epoid,
                consumer,
                merchant,
                product,
                price,
                fee,
                cacct,
                macct,
                moment,
                key,
            },
            PaymentOutcome::Refused(RefusalReason { code, a, b }) => Entry::Refused {
                digest,
                epoid,
                consumer,
                merchant,
                product,
                price,
                code,
                a,
                b,
                moment,
            },
        }
    }

    /// The receipt of the party in this role, [`CONSUMER`] or [`MERCHANT`]. A reason has to have one of the codes of receipts,
    /// from 31 to 37.
    #[tactic(auto, unfolding(crate::specs::Settlements::receipt_in_role))]
    pub fn receipt_in_role(&self, role: u8) -> Receipt
        requires { told.IsPaymentOutcome self.now.outcome }
        ensures receipt { result ≡ told.receipt_in_role role self.now }
        ensures lawful { ReceiptKeepsRules result }
    {
        match self.outcome {
            PaymentOutcome::Paid { key, .. } => self.receipt_saying(PAID_CODE, Some(key), None),
            PaymentOutcome::Refused(RefusalReason { code, a, b }) => {
                self.receipt_saying(code, None, may_see(role, code).then_some((a, b)))
            }
        }
    }

    // A receipt with this code, and key or numbers.
    fn receipt_saying(&self, code: u8, key: Option<Secret>, shown: Option<(u64, u64)>) -> Receipt
        requires code { IsReceiptCode code }
        requires keyed { IsSome key ↔ (code ≡ PAID_CODE) }
        requires showing { code ≡ PAID_CODE → shown ≡ None }
        ensures receipt { result ≡ told.receipt_saying self.now code key shown }
        ensures lawful { ReceiptKeepsRules result }
    {
        Receipt {
            code,
            consumer: self.consumer,
            merchant: self.merchant,
            product: self.product,
            price: self.price,
            epoid: self.epoid,
            at: self.at,
            moment: self.moment,
            key,
            shown,
        }
    }

    /// The receipt of this party, in the role in which the settlement names it; `None` where it does not. A reason has to have
    /// one of the codes of receipts, from 31 to 37.
    pub fn receipt_of_party(&self, id: PartyId) -> Option<Receipt>
        requires { told.IsPaymentOutcome self.now.outcome }
        ensures receipt { result ≡ told.receipt_of_party id (Some self.now) }
        ensures lawful { IfSome result ReceiptKeepsRules }
    {
        if self.consumer == id {
            Some(self.receipt_in_role(CONSUMER))
        } else if self.merchant == id {
            Some(self.receipt_in_role(MERCHANT))
        } else {
            None
        }
    }
}

// What became of the order that an entry settles. `None` where it settles none.
fn outcome_in(entry: &Entry) -> Option<PaymentOutcome>
    ensures { result ≡ told.outcome_in entry.now }
{
    match *entry {
        Entry::Paid {
            cacct,
            macct,
            key,
            ..
        } => Some(PaymentOutcome::Paid {
            cacct,
            macct,
            key,
            fee: None,
        }),
        Entry::Charged {
            fee,
            cacct,
            macct,
            key,
            ..
        } => Some(PaymentOutcome::Paid {
            cacct,
            macct,
            key,
            fee: Some(fee),
        }),
        Entry::Refused { code, a, b, .. } => {
            Some(PaymentOutcome::Refused(RefusalReason { code, a, b }))
        }
        _ => None,
    }
}

// The settlement of the order that an entry settles, with this outcome. `None` where it settles none.
fn settlement_with(kept: &Kept, outcome: PaymentOutcome) -> Option<Settlement>
    ensures { result ≡ told.settlement_with outcome kept.now.at kept.now.entry }
{
    match kept.entry {
        Entry::Paid {
            digest,
            epoid,
            consumer,
            merchant,
            product,
            price,
            moment,
            ..
        }
        | Entry::Charged {
            digest,
            epoid,
            consumer,
            merchant,
            product,
            price,
            moment,
            ..
        }
        | Entry::Refused {
            digest,
            epoid,
            consumer,
            merchant,
            product,
            price,
            moment,
            ..
        } => Some(Settlement {
            at: kept.at,
            digest,
            epoid,
            consumer,
            merchant,
            product,
            price,
            moment,
            outcome,
        }),
        _ => None,
    }
}

// Whether the party in this role is shown the numbers of a reason.
#[tactic(auto, unfolding(crate::specs::Settlements::may_see))]
fn may_see(role: u8, code: u8) -> bool
    ensures { result ≡ told.may_see role code }
{
    match code {
        CONSUMER_ACCOUNT | CONSUMER_NONCE | BALANCE_LOW => role == CONSUMER,
        MERCHANT_ACCOUNT => role == MERCHANT,
        _ => true,
    }
}

// How the order of this identifier was settled, if it was.
#[tactic(auto, unfolding(crate::specs::Settlements::settlement_in))]
pub(crate) fn settled_before(book: &Book, epoid: &Epoid) -> Option<Settlement>
    ensures found { result ≡ told.settlement_in book.now.entries epoid.now }
    ensures new { result ≡ None → IsNone (order_in book.now.entries epoid.now) }
    ensures outcome { IfSome result (λ kept. told.IsPaymentOutcome kept.outcome) }
{
    match book.order(epoid) {
        Some(kept) => Settlement::of(&kept),
        None => None,
    }
}
