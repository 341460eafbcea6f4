ghost use Rattle.std.specs.Prelude.{◌≡◌, ◌<◌, length, IfOk, IfSome, IsOk, IsSome};
ghost use Rattle.nb_units.specs.declared.frames.TheConstants.{STATUS_REQUEST};
ghost use Rattle.nb_book.specs.Legal.{Legal, NextUnder};
ghost use Rattle.nb_endorse.specs.Replies.{HasLawfulReceipts};
ghost use Rattle.nb_escrow.specs.Head.{IsRuling};
ghost use Rattle.nb_escrow.specs.Held.{done as done_at};
ghost use Rattle.nb_escrow.specs.Laws.{KeyWherePaid, PaidWherePayable};
ghost use Rattle.nb_escrow.specs.Verdict.{steps, verdict};

use crate::enrolment::decide_enrolment;
use crate::funding::decide_funding;
use crate::head::Head;
use crate::opened::OpenedOrder;
use crate::order::decide_order;
use crate::status::decide_status;
use crate::ticket::decide_ticket;
use nb_book::Book;
use nb_endorse::refusal::NOT_SERVED;
use nb_endorse::{KeptStates, Refusal, Reply, ReplyKeys};
use nb_entry::Entry;
use nb_units::AcctId;
use nb_units::frames::{
    ENROL_REQUEST, FUND_REQUEST, ORDER_REQUEST, STATUS_REQUEST, TICKET_REQUEST,
};

/// The house's answer to one request, and the entry that it records for it, if any.
#[derive(Clone, Copy)]
pub struct Decision {
    pub reply: Reply,
    /// What the reply is signed and sealed under.
    pub keys: ReplyKeys,
    pub entry: Option<Entry>,
}

/// Decides on one request, a frame's kind and body, over the entries that are held, at a moment in seconds since 1970-01-01
/// 00:00 UTC. The head has one of the two versions, and a rate of at most [`MAX_RATE`](nb_units::MAX_RATE). It takes no memory. Five kinds are served: [`ORDER_REQUEST`], [`STATUS_REQUEST`],
/// [`TICKET_REQUEST`], [`ENROL_REQUEST`] and [`FUND_REQUEST`].
pub fn decide(book: &Book, head: &Head, kind: u8, body: &[u8], moment: u64) -> Decision
    requires terms { IsRuling head.now }
    ensures verdict { result ≡ verdict book.now.entries head.now book.now.cap kind body.now moment }
    ensures legal { IfSome result.entry (NextUnder head.now.version head.now.rate book.now.entries) }
    ensures room { IsSome result.entry → length book.now.entries < book.now.cap }
    ensures receipts { HasLawfulReceipts result.reply }

    // A payment is recorded exactly where the request is an endorsed order that is payable over these entries.
    ensures paid { PaidWherePayable book.now.entries head.now book.now.cap kind body.now moment result.entry }

    // To an authentic status query, over at least as many entries as it asks for, a key is given exactly where an entry pays the
    // order with it and names who asks.
    ensures key { kind ≡ STATUS_REQUEST → KeyWherePaid book.now.entries body.now result.reply }
{
    decide_with(
        book,
        head,
        kind,
        body,
        moment,
        None,
        &mut KeptStates::none(),
    )
}

/// Decides as [`decide`] does, with what was opened of an order before, and with the states of keys that are kept. The state of a key that is not
/// kept is made once for all codes of the request, and is kept then: no clause says so. What is decided depends neither on what was opened nor on what is kept.
pub fn decide_with(
    book: &Book,
    head: &Head,
    kind: u8,
    body: &[u8],
    moment: u64,
    opened: Option<&OpenedOrder>,
    kept: &mut KeptStates,
) -> Decision
    requires terms { IsRuling head.now }
    ensures verdict { result ≡ verdict book.now.entries head.now book.now.cap kind body.now moment }
    ensures legal { IfSome result.entry (NextUnder head.now.version head.now.rate book.now.entries) }
    ensures room { IsSome result.entry → length book.now.entries < book.now.cap }
    ensures receipts { HasLawfulReceipts result.reply }

    // A payment is recorded exactly where the request is an endorsed order that is payable over these entries.
    ensures paid { PaidWherePayable book.now.entries head.now book.now.cap kind body.now moment result.entry }

    // To an authentic status query, over at least as many entries as it asks for, a key is given exactly where an entry pays the
    // order with it and names who asks.
    ensures key { kind ≡ STATUS_REQUEST → KeyWherePaid book.now.entries body.now result.reply }
{
    match test(book, head, kind, body, moment, opened, kept) {
        Ok(decision) => decision,
        Err(refusal) => Decision {
            reply: Reply::Refused(refusal),
            keys: ReplyKeys::none(),
            entry: None,
        },
    }
}

// The tests of each kind. That the list is Legal is what the book tells where it is asked: the law on keys needs it.
fn test(
    book: &Book,
    head: &Head,
    kind: u8,
    body: &[u8],
    moment: u64,
    opened: Option<&OpenedOrder>,
    kept: &mut KeptStates,
) -> Result<Decision, Refusal>
    requires terms { IsRuling head.now }
    ensures steps { result ≡ steps book.now.entries head.now book.now.cap kind body.now moment }
    ensures legal { IfOk result (λ decision. IfSome decision.entry (NextUnder head.now.version head.now.rate book.now.entries)) }
    ensures room { IfOk result (λ decision. IsSome decision.entry → length book.now.entries < book.now.cap) }
    ensures receipts { IfOk result (λ decision. HasLawfulReceipts decision.reply) }
    ensures list { kind ≡ STATUS_REQUEST → IsOk result → Legal book.now.entries }
{
    match kind {
        ORDER_REQUEST => decide_order(book, head, body, moment, opened, kept),
        STATUS_REQUEST => decide_status(book, head, body, kept),
        TICKET_REQUEST => decide_ticket(book, head, body, moment, kept),
        ENROL_REQUEST => decide_enrolment(book, head, body, kept),
        FUND_REQUEST => decide_funding(book, head, body, kept),
        _ => Err(Refusal::of(NOT_SERVED, u64::from(kind), 0)),
    }
}

impl Decision {
    // What a request is told whose entry stands at this place.
    pub(crate) fn done(acct: AcctId, at: u64, balance: u64, entry: Option<Entry>) -> Decision
        ensures { result ≡ done_at acct at balance entry }
    {
        Decision {
            reply: Reply::Done { acct, at, balance },
            keys: ReplyKeys::none(),
            entry,
        }
    }
}
