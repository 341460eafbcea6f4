ghost use Rattle.std.specs.Prelude.{◌≡◌, IfOk, OnOk, IsNone};
ghost use Rattle.nb_book.specs.Legal.{Legal};
ghost use Rattle.nb_endorse.specs.Keys.{no_keys};
ghost use Rattle.nb_endorse.specs.Replies.{HasLawfulReceipts};
ghost use Rattle.nb_escrow.specs.Statuses.{enough_entries, status_told, status_steps};

use crate::checks::{check_tag, find_party, signed};
use crate::decision::Decision;
use crate::head::Head;
use crate::settlement::settled_before;
use nb_body::StatusQuery;
use nb_book::{Book, Party};
use nb_endorse::refusal::TOO_FEW_ENTRIES;
use nb_endorse::{KeptStates, Refusal, Reply, ReplyKeys};
use nb_units::{Cut, Epoid, Malformed, PartyId, Tag};

// What the tag of a status query is over begins with this.
const STATUS_LABEL: [u8; 4] = *b"stat";

// The tests of a status query, in order.
#[tactic(auto, unfolding(crate::specs::Statuses::status_steps))]
pub(crate) fn decide_status(
    book: &Book,
    head: &Head,
    body: &[u8],
    kept: &mut KeptStates,
) -> Result<Decision, Refusal>
    ensures steps { result ≡ status_steps book.now.entries head.now body.now }
    ensures none { IfOk result (λ decision. IsNone decision.entry) }
    ensures receipts { IfOk result (λ decision. HasLawfulReceipts decision.reply) }
    ensures list { OnOk result (Legal book.now.entries) }
{
    let asked = StatusQuery::read(body)?;
    let asker = find_party(book, asked.asker)?;
    let wanted = kept.asker(&asker.key).code(&STATUS_LABEL, signed(body));
    check_tag(&asked.tag, &wanted)?;
    check_entries(book, asked.least)?;
    Ok(status_of(book, head, &asker, &asked))
}

#[tactic(auto, unfolding(crate::specs::Statuses::enough_entries))]
fn check_entries(book: &Book, least: u64) -> Result<(), Refusal>
    ensures { result ≡ enough_entries book.now.entries least }
{
    let held = u64::from(book.len());
    if least <= held {
        Ok(())
    } else {
        Err(Refusal::of(TOO_FEW_ENTRIES, held, least))
    }
}

// What who asks is told.
fn status_of(book: &Book, head: &Head, asker: &Party, asked: &StatusQuery) -> Decision
    ensures status { result ≡ status_told book.now.entries head.now asker.now asked.now }
    ensures receipts { HasLawfulReceipts result.reply }
{
    let receipt = match settled_before(book, &asked.epoid) {
        Some(settlement) => settlement.receipt_of_party(asked.asker),
        None => None,
    };
    Decision {
        reply: Reply::Status {
            place: u64::from(book.len()),
            epoid: asked.epoid,
            receipt,
        },
        keys: ReplyKeys {
            house: head.house,
            first: asker.key,
            ..ReplyKeys::none()
        },
        entry: None,
    }
}
