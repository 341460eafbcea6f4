ghost use Rattle.std.specs.Prelude.{◌≡◌, ◌≢◌, ◌<◌, length, OnOk, IfOk, IfSome, IsSome, IsNone};
ghost use Rattle.nb_book.specs.Searches.{party_in, holder_in};
ghost use Rattle.nb_book.specs.Legal.{NextUnder};
ghost use Rattle.nb_endorse.specs.Keys.{no_keys};
ghost use Rattle.nb_endorse.specs.Replies.{HasLawfulReceipts};
ghost use Rattle.nb_escrow.specs.Held.{place_in};
ghost use Rattle.nb_escrow.specs.Enrolments.{enrol_entry, party_place, numbers_free, enrol_steps};

use crate::checks::{balance_now, check_room, check_tag, signed};
use crate::decision::Decision;
use crate::head::Head;
use nb_body::Enrolment;
use nb_book::{Book, Party};
use nb_endorse::refusal::PARTY_HELD;
use nb_endorse::{KeptStates, Refusal};
use nb_entry::Entry;
use nb_units::{AcctId, PartyId};

// What the tag of an enrolment is over begins with this.
const ENROL_LABEL: [u8; 4] = *b"enro";

// The entry that is recorded for an enrolment.
fn entry_of(asked: &Enrolment) -> Entry
    ensures { result ≡ enrol_entry asked.now }
{
    Entry::Enrol {
        id: asked.id,
        role: asked.role,
        acct: asked.acct,
        nonce: asked.nonce,
        key: asked.key,
    }
}

// The place of the enrolment of the party that has this number, where that is equal to this one.
fn place_of(asked: &Enrolment, party: &Party) -> Option<u64>
    ensures { result ≡ party_place asked.now party.now }
{
    let same = party.role == asked.role
        && party.acct == asked.acct
        && party.nonce == asked.nonce
        && party.key == asked.key;
    if same { Some(party.at) } else { None }
}

// The tests of an enrolment, in order.
#[tactic(auto, unfolding(crate::specs::Enrolments::enrol_steps))]
pub(crate) fn decide_enrolment(
    book: &Book,
    head: &Head,
    body: &[u8],
    kept: &mut KeptStates,
) -> Result<Decision, Refusal>
    ensures steps { result ≡ enrol_steps book.now.entries head.now book.now.cap body.now }
    ensures legal { IfOk result (λ decision. IfSome decision.entry (NextUnder head.now.version head.now.rate book.now.entries)) }
    ensures room { IfOk result (λ decision. IsSome decision.entry → length book.now.entries < book.now.cap) }
    ensures receipts { IfOk result (λ decision. HasLawfulReceipts decision.reply) }
    ensures keys { IfOk result (λ decision. decision.keys ≡ no_keys) }
{
    let asked = Enrolment::read(body)?;
    let operator_key = kept.operator(&head.operator);
    check_tag(&asked.tag, &operator_key.code(&ENROL_LABEL, signed(body)))?;
    let entry = entry_of(&asked);
    if let Some(at) = enrolled_at(book, &asked) {
        return Ok(Decision::done(asked.acct, at, balance_now(book, asked.acct), None));
    }
    check_free(book, asked.id, asked.acct)?;
    check_room(book)?;
    let at = u64::from(book.len());
    Ok(Decision::done(asked.acct, at, balance_now(book, asked.acct), Some(entry)))
}

// The place of an equal enrolment, if there is one.
fn enrolled_at(book: &Book, asked: &Enrolment) -> Option<u64>
    ensures { result ≡ place_in book.now.entries (enrol_entry asked.now) }
{
    match book.party(asked.id) {
        Some(party) => place_of(asked, &party),
        None => None,
    }
}

// Neither number is held or 0.
#[tactic(auto, unfolding(crate::specs::Enrolments::numbers_free), using(crate::proofs::Holding::unheld, crate::proofs::Holding::holder_of))]
fn check_free(book: &Book, id: PartyId, acct: AcctId) -> Result<(), Refusal>
    ensures test { result ≡ numbers_free book.now.entries id acct }
    ensures numbers { OnOk result ((id.0 ≢ 0) × (acct.0 ≢ 0)) }
    ensures free { OnOk result (IsNone (party_in book.now.entries id) × IsNone (holder_in book.now.entries acct)) }
{
    if let Some(party) = book.party(id) {
        return Err(Refusal::of(PARTY_HELD, u64::from(id.0), u64::from(party.acct.0)));
    }
    if let Some(account) = book.account(acct) {
        return Err(Refusal::of(PARTY_HELD, u64::from(account.party.0), u64::from(acct.0)));
    }
    if id.0 != 0 && acct.0 != 0 {
        Ok(())
    } else {
        Err(Refusal::of(PARTY_HELD, 0, 0))
    }
}
