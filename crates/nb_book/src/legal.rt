ghost use Rattle.std.specs.Prelude.{◌≡◌, ◌≤◌, ◌↔◌, IsTrue, Some};
ghost use Rattle.nb_units.specs.declared.limits.TheConstants.{MAX_RATE};
ghost use Rattle.nb_book.specs.Money.{balance};
ghost use Rattle.nb_book.specs.Searches.{party_in, role_of, account_of, nonce_of};
ghost use Rattle.nb_book.specs.Legal as legal;

use crate::book::Book;
use crate::fee::fee_of;
use crate::limits::{MAX_AGE, MAX_AHEAD, MAX_PRICE, MAX_TOTAL};
use crate::party::Party;
use crate::reason::{
    BALANCE_LOW, CONSUMER_ACCOUNT, CONSUMER_NONCE, MERCHANT_ACCOUNT, PRICE_RANGE, TOO_EARLY,
    TOO_OLD,
};
use nb_entry::{CONSUMER, Entry, MERCHANT};
use nb_units::{AcctId, Epoid, FEE_VERSION, PartyId, Price};

// Whether an entry may come after these in a journal of this version and this rate.
pub(crate) fn is_next_under(entry: &Entry, book: &Book, version: u8, rate: u16) -> bool
    requires { rate ≤ MAX_RATE }
    ensures { IsTrue result ↔ legal.NextUnder version rate book.now.entries entry.now }
{
    match *entry {
        Entry::Enrol { id, role, acct, .. } => enrol_is_legal(book, id, role, acct),
        Entry::Fund {
            acct,
            amount,
            ref reference,
        } => fund_is_legal(book, acct, amount, reference),
        Entry::Paid {
            ref epoid,
            consumer,
            merchant,
            price,
            cacct,
            macct,
            moment,
            ..
        } => paid_is_legal(book, epoid, consumer, merchant, price, cacct, macct, moment),
        Entry::Charged {
            ref epoid,
            consumer,
            merchant,
            price,
            fee,
            cacct,
            macct,
            moment,
            ..
        } => {
            paid_is_legal(book, epoid, consumer, merchant, price, cacct, macct, moment)
                && version == FEE_VERSION
                && fee == fee_of(price, rate)
        }
        Entry::Refused {
            ref epoid,
            consumer,
            merchant,
            price,
            code,
            a,
            b,
            moment,
            ..
        } => refused_is_legal(book, epoid, consumer, merchant, price, code, a, b, moment),
    }
}

// What follows tests the definitions of `specs/Legal.antt`, each by the function of its name.

fn enrol_is_legal(book: &Book, id: PartyId, role: u8, acct: AcctId) -> bool
    ensures { IsTrue result ↔ legal.EnrolIsLegal book.now.entries id role acct }
{
    id.0 != 0
        && acct.0 != 0
        && (role == CONSUMER || role == MERCHANT)
        && book.party(id).is_none()
        && book.holder(acct).is_none()
}

#[tactic(auto, using(crate::proofs::Summing::total_fits))]
fn fund_is_legal(book: &Book, acct: AcctId, amount: u64, reference: &[u8; 16]) -> bool
    ensures { IsTrue result ↔ legal.FundIsLegal book.now.entries acct amount reference.now }
{
    book.holder(acct).is_some()
        && 1 <= amount
        && amount <= MAX_TOTAL
        && book.reference(reference).is_none()
        && book.total() <= MAX_TOTAL - amount
}

fn paid_is_legal(
    book: &Book,
    epoid: &Epoid,
    consumer: PartyId,
    merchant: PartyId,
    price: Price,
    cacct: AcctId,
    macct: AcctId,
    moment: u64,
) -> bool
    ensures { IsTrue result
        ↔ legal.PaidIsLegal book.now.entries epoid.now consumer merchant price cacct macct moment }
{
    let Some(payer) = book.party(consumer) else {
        return false;
    };
    let Some(payee) = book.party(merchant) else {
        return false;
    };
    order_is_new(book, epoid, merchant)
        && roles_are(book, consumer, &payer, merchant, &payee)
        && payee.acct == macct
        && price_is_legal(price)
        && can_pay(book, consumer, &payer, cacct, price)
        && is_in_time(epoid, moment)
}

fn refused_is_legal(
    book: &Book,
    epoid: &Epoid,
    consumer: PartyId,
    merchant: PartyId,
    price: Price,
    code: u8,
    a: u64,
    b: u64,
    moment: u64,
) -> bool
    ensures { IsTrue result
        ↔ legal.RefusedIsLegal book.now.entries epoid.now consumer merchant price code a b moment }
{
    let Some(payer) = book.party(consumer) else {
        return false;
    };
    let Some(payee) = book.party(merchant) else {
        return false;
    };
    order_is_new(book, epoid, merchant)
        && roles_are(book, consumer, &payer, merchant, &payee)
        && match code {
            CONSUMER_ACCOUNT => account_differs(book, consumer, &payer, a, b),
            MERCHANT_ACCOUNT => account_differs(book, merchant, &payee, a, b),
            PRICE_RANGE => price_is_out(price, a, b),
            TOO_OLD => is_too_old(epoid, moment, a, b),
            TOO_EARLY => is_too_early(epoid, moment, a, b),
            BALANCE_LOW => balance_is_low(book, consumer, &payer, price, a, b),
            CONSUMER_NONCE => nonce_differs(book, consumer, &payer, a, b),
            _ => false,
        }
}

// Whether this is the account of the party, and the price is in it.
fn can_pay(book: &Book, id: PartyId, party: &Party, acct: AcctId, price: Price) -> bool
    requires enrolled { party_in book.now.entries id ≡ Some party.now }
    ensures { IsTrue result
        ↔ (account_of book.now.entries id ≡ Some acct) × (price.0 ≤ balance book.now.entries acct) }
{
    party.acct == acct && price.0 <= book.balance_of(id, party)
}

fn order_is_new(book: &Book, epoid: &Epoid, merchant: PartyId) -> bool
    ensures { IsTrue result ↔ legal.OrderIsNew book.now.entries epoid.now merchant }
{
    book.order(epoid).is_none() && epoid.merchant == merchant
}

fn roles_are(
    book: &Book,
    consumer: PartyId,
    payer: &Party,
    merchant: PartyId,
    payee: &Party,
) -> bool
    requires consumer { party_in book.now.entries consumer ≡ Some payer.now }
    requires merchant { party_in book.now.entries merchant ≡ Some payee.now }
    ensures { IsTrue result ↔ legal.RolesAre book.now.entries consumer merchant }
{
    payer.role == CONSUMER && payee.role == MERCHANT
}

fn price_is_legal(price: Price) -> bool
    ensures { IsTrue result ↔ legal.PriceIsLegal price }
{
    1 <= price.0 && price.0 <= MAX_PRICE
}

fn is_in_time(epoid: &Epoid, moment: u64) -> bool
    ensures { IsTrue result ↔ legal.IsInTime epoid.now moment }
{
    moment.saturating_sub(epoid.moment) <= MAX_AGE
        && epoid.moment.saturating_sub(moment) <= MAX_AHEAD
}

fn account_differs(book: &Book, id: PartyId, party: &Party, a: u64, b: u64) -> bool
    requires enrolled { party_in book.now.entries id ≡ Some party.now }
    ensures { IsTrue result ↔ legal.AccountDiffers book.now.entries id a b }
{
    u64::from(party.acct.0) == b && a != b
}

fn nonce_differs(book: &Book, id: PartyId, party: &Party, a: u64, b: u64) -> bool
    requires enrolled { party_in book.now.entries id ≡ Some party.now }
    ensures { IsTrue result ↔ legal.NonceDiffers book.now.entries id a b }
{
    party.nonce == b && a != b
}

fn price_is_out(price: Price, a: u64, b: u64) -> bool
    ensures { IsTrue result ↔ legal.PriceIsOut price a b }
{
    a == price.0 && (a == 0 || a > MAX_PRICE) && b == MAX_PRICE
}

fn is_too_old(epoid: &Epoid, moment: u64, a: u64, b: u64) -> bool
    ensures { IsTrue result ↔ legal.IsTooOld epoid.now moment a b }
{
    a == moment && b == epoid.moment && a.saturating_sub(b) > MAX_AGE
}

fn is_too_early(epoid: &Epoid, moment: u64, a: u64, b: u64) -> bool
    ensures { IsTrue result ↔ legal.IsTooEarly epoid.now moment a b }
{
    a == epoid.moment && b == moment && a.saturating_sub(b) > MAX_AHEAD
}

fn balance_is_low(book: &Book, id: PartyId, party: &Party, price: Price, a: u64, b: u64) -> bool
    requires enrolled { party_in book.now.entries id ≡ Some party.now }
    ensures { IsTrue result ↔ legal.BalanceIsLow book.now.entries id price a b }
{
    a == book.balance_of(id, party) && b == price.0 && a < b
}
