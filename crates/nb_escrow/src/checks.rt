// The tests that requests of several kinds share.

ghost use Rattle.std.specs.Prelude.{◌≡◌, ◌≤◌, ◌<◌, ◌==◌, length, IfOk, OnOk, Some};
ghost use Rattle.nb_endorse.specs.declared.refusal.TheConstants.{NOT_ENROLLED};
ghost use Rattle.nb_endorse.specs.Refusals.{refusal};
ghost use Rattle.nb_book.specs.Legal.{Legal};
ghost use Rattle.nb_book.specs.Money.{balance, total};
ghost use Rattle.nb_book.specs.Searches.{party_in};
ghost use Rattle.nb_escrow.specs.Checks as tests;

use nb_book::{Book, Party};
use nb_endorse::Refusal;
use nb_endorse::refusal::{JOURNAL_FULL, NOT_ENROLLED, WRONG_TAG};
use nb_seal::same;
use nb_units::width::TAG;
use nb_units::{AcctId, PartyId, Tag};

// What the tag of a body is over, behind its label.
pub(crate) fn signed(body: &[u8]) -> &[u8]
    ensures { result.now ≡ tests.signed_part body.now }
{
    body.split_at(body.len().saturating_sub(TAG)).0
}

// The party of this number, in either role.
#[tactic(auto, unfolding(crate::specs::Checks::enrolled))]
pub(crate) fn find_party(book: &Book, id: PartyId) -> Result<Party, Refusal>
    ensures test { result ≡ tests.enrolled book.now.entries id }
    ensures found { IfOk result (λ party. party_in book.now.entries id ≡ Some party) }
    ensures list { Legal book.now.entries }
{
    match book.party(id) {
        Some(party) => Ok(party),
        None => Err(Refusal::of(NOT_ENROLLED, u64::from(id.0), 0)),
    }
}

// The party of this number, in this role.
#[tactic(auto, unfolding(crate::specs::Checks::enrolled_as))]
pub(crate) fn find_party_as(book: &Book, role: u8, id: PartyId) -> Result<Party, Refusal>
    ensures test { result ≡ tests.enrolled_as book.now.entries role id }
    ensures found { IfOk result (λ party. party_in book.now.entries id ≡ Some party) }
    ensures role { IfOk result (λ party. party.role ≡ role) }
{
    let party = find_party(book, id)?;
    check_role(&party, role, id)?;
    Ok(party)
}

fn check_role(party: &Party, role: u8, id: PartyId) -> Result<(), Refusal>
    ensures test { result ≡ tests.unless (party.now.role == role) (refusal NOT_ENROLLED id.0 0) }
    ensures role { OnOk result (party.now.role ≡ role) }
{
    if party.role == role {
        Ok(())
    } else {
        Err(Refusal::of(NOT_ENROLLED, u64::from(id.0), 0))
    }
}

#[tactic(auto, unfolding(crate::specs::Checks::right_tag))]
pub(crate) fn check_tag(given: &Tag, wanted: &Tag) -> Result<(), Refusal>
    ensures { result ≡ tests.right_tag given.now wanted.now }
{
    if same(given, wanted) {
        Ok(())
    } else {
        Err(Refusal::with(WRONG_TAG, given))
    }
}

#[tactic(auto, unfolding(crate::specs::Checks::room_left))]
pub(crate) fn check_room(book: &Book) -> Result<(), Refusal>
    ensures test { result ≡ tests.room_left book.now.entries book.now.cap }
    ensures room { OnOk result (length book.now.entries < book.now.cap) }
{
    if book.len() < book.cap() {
        Ok(())
    } else {
        Err(Refusal::of(JOURNAL_FULL, u64::from(book.cap()), 0))
    }
}

// What is in the account: in the house's the fees, in another that nobody holds nothing.
pub(crate) fn balance_now(book: &Book, acct: AcctId) -> u64
    ensures balance { result ≡ balance book.now.entries acct }
    ensures most { result ≤ total book.now.entries }
    ensures legal { Legal book.now.entries }
{
    match book.account(acct) {
        Some(account) => account.balance,
        None if acct.0 == 0 => book.fees(),
        None => 0,
    }
}
