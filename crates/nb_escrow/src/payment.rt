ghost use Rattle.std.specs.Prelude.{◌≡◌, ◌≤◌, Some, OnOk, IsTrue};
ghost use Rattle.nb_book.specs.declared.limits.TheConstants.{MAX_PRICE};
ghost use Rattle.nb_book.specs.Searches.{party_in};
ghost use Rattle.nb_escrow.specs.Checks.{unless};
ghost use Rattle.nb_escrow.specs.Head.{IsRuling, charge};
ghost use Rattle.nb_escrow.specs.Payments.{because, payment_steps, outcome_of};

use crate::head::Head;
use crate::order::PresentedParts;
use crate::settlement::{PaymentOutcome, RefusalReason};
use nb_book::reason::{
    BALANCE_LOW, CONSUMER_ACCOUNT, CONSUMER_NONCE, MERCHANT_ACCOUNT, PRICE_RANGE, TOO_EARLY,
    TOO_OLD,
};
use nb_book::{Book, MAX_AGE, MAX_AHEAD, MAX_PRICE, fee_of};
use nb_units::{FEE_VERSION, Price};

// What becomes of an order: it is paid where all tests of the payment hold.
pub(crate) fn outcome(book: &Book, head: &Head, p: &PresentedParts, moment: u64) -> PaymentOutcome
    requires terms { IsRuling head.now }
    requires consumer { party_in book.now.entries p.now.order.consumer ≡ Some p.now.consumer }
    ensures { result ≡ outcome_of head.now p.now (payment_steps book.now.entries p.now moment) }
{
    match check_payment(book, p, moment) {
        Ok(()) => PaymentOutcome::Paid {
            cacct: p.consumer.acct,
            macct: p.merchant.acct,
            key: *p.endorsed.key(),
            fee: charged(head, p.order.price),
        },
        Err(reason) => PaymentOutcome::Refused(reason),
    }
}

// What the house keeps of this price.
fn charged(head: &Head, price: Price) -> Option<u64>
    requires terms { IsRuling head.now }
    requires priced { price.0 ≤ MAX_PRICE }
    ensures { result ≡ charge head.now price }
{
    if head.version == FEE_VERSION {
        Some(fee_of(price, head.rate))
    } else {
        None
    }
}

// The tests of a payment, in order, each with the reason that it gives.
#[tactic(auto, unfolding(crate::specs::Payments::payment_steps))]
fn check_payment(book: &Book, p: &PresentedParts, moment: u64) -> Result<(), RefusalReason>
    requires consumer { party_in book.now.entries p.now.order.consumer ≡ Some p.now.consumer }
    ensures steps { result ≡ payment_steps book.now.entries p.now moment }
    ensures priced { OnOk result (p.now.order.price.0 ≤ MAX_PRICE) }
{
    let (named, own) = (u64::from(p.hidden.acct().0), u64::from(p.consumer.acct.0));
    check(named == own, CONSUMER_ACCOUNT, named, own)?;
    let (shown, own) = (p.hidden.nonce(), p.consumer.nonce);
    check(shown == own, CONSUMER_NONCE, shown, own)?;
    let (named, own) = (
        u64::from(p.endorsed.macct().0),
        u64::from(p.merchant.acct.0),
    );
    check(named == own, MERCHANT_ACCOUNT, named, own)?;
    let price = p.order.price.0;
    check(
        1 <= price && price <= MAX_PRICE,
        PRICE_RANGE,
        price,
        MAX_PRICE,
    )?;
    let begun = p.order.epoid.moment;
    check(
        moment.saturating_sub(begun) <= MAX_AGE,
        TOO_OLD,
        moment,
        begun,
    )?;
    check(
        begun.saturating_sub(moment) <= MAX_AHEAD,
        TOO_EARLY,
        begun,
        moment,
    )?;
    let balance = book.balance_of(p.order.consumer, &p.consumer);
    check(price <= balance, BALANCE_LOW, balance, price)
}

// The test holds, or this is the reason.
fn check(is: bool, code: u8, a: u64, b: u64) -> Result<(), RefusalReason>
    ensures test { result ≡ unless is (because code a b) }
    ensures holds { OnOk result (IsTrue is) }
{
    if is {
        Ok(())
    } else {
        Err(RefusalReason { code, a, b })
    }
}
