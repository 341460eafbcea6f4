ghost use Rattle.std.specs.Prelude.{◌≡◌, ◌≤◌, ◌<◌, ◌+◌, ◌++◌, ◌∷◌, [], length, OnOk, IfOk, IfSome, IsSome, IsNone};
ghost use Rattle.nb_book.specs.declared.limits.TheConstants.{MAX_TOTAL};
ghost use Rattle.nb_book.specs.Searches.{holder_in, funded_in};
ghost use Rattle.nb_book.specs.Legal.{NextUnder};
ghost use Rattle.nb_book.specs.Money.{balance, total};
ghost use Rattle.nb_endorse.specs.Keys.{no_keys};
ghost use Rattle.nb_endorse.specs.Replies.{HasLawfulReceipts};
ghost use Rattle.nb_escrow.specs.Held.{place_in};
ghost use Rattle.nb_escrow.specs.Fundings as fundings;

use crate::checks::{balance_now, check_room, check_tag, signed};
use crate::decision::Decision;
use crate::head::Head;
use nb_body::Funding;
use nb_book::{Book, Funded, MAX_TOTAL};
use nb_endorse::refusal::{ACCOUNT_NOT_HELD, REFERENCE_HELD, TOTAL_TOO_HIGH};
use nb_endorse::{KeptStates, Refusal};
use nb_entry::Entry;
use nb_units::AcctId;

// What the tag of a funding is over begins with this.
const FUND_LABEL: [u8; 4] = *b"fund";

// The entry that is recorded for a funding.
fn entry_of(asked: &Funding) -> Entry
    ensures { result ≡ fundings.fund_entry asked.now }
{
    Entry::Fund {
        acct: asked.acct,
        amount: asked.amount,
        reference: asked.reference,
    }
}

// The place of the fund that has this reference, where that is equal to this one.
fn place_of(asked: &Funding, funded: &Funded) -> Option<u64>
    ensures { result ≡ fundings.funded_place asked.now funded.now }
{
    let same = funded.acct == asked.acct && funded.amount == asked.amount;
    if same { Some(funded.at) } else { None }
}

// The tests of a funding, in order.
#[tactic(auto, unfolding(crate::specs::Fundings::fund_steps))]
pub(crate) fn decide_funding(
    book: &Book,
    head: &Head,
    body: &[u8],
    kept: &mut KeptStates,
) -> Result<Decision, Refusal>
    ensures steps { result ≡ fundings.fund_steps book.now.entries head.now book.now.cap body.now }
    ensures legal { IfOk result (λ decision. IfSome decision.entry (NextUnder head.now.version head.now.rate book.now.entries)) }
    ensures room { IfOk result (λ decision. IsSome decision.entry → length book.now.entries < book.now.cap) }
    ensures receipts { IfOk result (λ decision. HasLawfulReceipts decision.reply) }
    ensures keys { IfOk result (λ decision. decision.keys ≡ no_keys) }
{
    let asked = Funding::read(body)?;
    let operator_key = kept.operator(&head.operator);
    check_tag(&asked.tag, &operator_key.code(&FUND_LABEL, signed(body)))?;
    let entry = entry_of(&asked);
    if let Some(at) = funded_at(book, &asked) {
        return Ok(Decision::done(asked.acct, at, balance_now(book, asked.acct), None));
    }
    check_reference(book, &asked.reference)?;
    check_held(book, asked.acct)?;
    check_total(book, asked.amount)?;
    check_room(book)?;
    let at = u64::from(book.len());
    Ok(Decision::done(asked.acct, at, balance_after(book, &asked), Some(entry)))
}

// What is in the account once the fund is recorded.
fn balance_after(book: &Book, asked: &Funding) -> u64
    requires held { IsSome (holder_in book.now.entries asked.now.acct) }
    requires fits { total book.now.entries + asked.now.amount ≤ MAX_TOTAL }
    ensures { result ≡ balance (book.now.entries ++ fundings.fund_entry asked.now ∷ []) asked.now.acct }
{
    balance_now(book, asked.acct) + asked.amount
}

// The place of an equal fund, if there is one.
fn funded_at(book: &Book, asked: &Funding) -> Option<u64>
    ensures { result ≡ place_in book.now.entries (fundings.fund_entry asked.now) }
{
    match book.reference(&asked.reference) {
        Some(funded) => place_of(asked, &funded),
        None => None,
    }
}

#[tactic(auto, unfolding(crate::specs::Fundings::reference_new))]
fn check_reference(book: &Book, reference: &[u8; 16]) -> Result<(), Refusal>
    ensures test { result ≡ fundings.reference_new book.now.entries reference.now }
    ensures free { OnOk result (IsNone (funded_in book.now.entries reference.now)) }
{
    match book.reference(reference) {
        None => Ok(()),
        Some(kept) => Err(Refusal::of(REFERENCE_HELD, u64::from(kept.acct.0), kept.amount)),
    }
}

#[tactic(auto, unfolding(crate::specs::Fundings::account_held))]
fn check_held(book: &Book, acct: AcctId) -> Result<(), Refusal>
    ensures test { result ≡ fundings.account_held book.now.entries acct }
    ensures held { OnOk result (IsSome (holder_in book.now.entries acct)) }
{
    if book.account(acct).is_some() {
        Ok(())
    } else {
        Err(Refusal::of(ACCOUNT_NOT_HELD, u64::from(acct.0), 0))
    }
}

#[tactic(auto, unfolding(crate::specs::Fundings::total_within))]
fn check_total(book: &Book, amount: u64) -> Result<(), Refusal>
    ensures test { result ≡ fundings.total_within book.now.entries amount }
    ensures fits { OnOk result (total book.now.entries + amount ≤ MAX_TOTAL) }
{
    if amount <= MAX_TOTAL - book.total() {
        Ok(())
    } else {
        Err(Refusal::of(TOTAL_TOO_HIGH, book.total(), amount))
    }
}
