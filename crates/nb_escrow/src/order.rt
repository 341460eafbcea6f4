ghost use Rattle.std.specs.Prelude.{◌≡◌, ◌<◌, length, IfOk, IfSome, IsSome, IsNone, OnOk, None};
ghost use Rattle.nb_book.specs.Legal.{NextUnder};
ghost use Rattle.nb_book.specs.Searches.{order_in};
ghost use Rattle.nb_endorse.specs.Replies.{HasLawfulReceipts};
ghost use Rattle.nb_escrow.specs.Head.{IsRuling};
ghost use Rattle.nb_escrow.specs.Orders as orders;
ghost use Rattle.nb_escrow.specs.Settlements.{settlement_entry, settlement_in, IsPaymentOutcome};

use crate::checks::{check_room, find_party_as};
use crate::decision::Decision;
use crate::head::Head;
use crate::opened::{OpenedOrder, opened_endorsement, opened_hidden, tested_tag, unread_order};
use crate::payment::outcome;
use crate::settlement::{Settlement, settled_before};
use nb_body::EndorsedBytes;
use nb_book::{Book, Party};
use nb_endorse::refusal::{IDENTIFIER_USED, OTHER_MERCHANT};
use nb_endorse::{
    Endorsement, EndorsementBytes, KeptStates, MAX_SEALED, Refusal, Reply, ReplyKeys,
};
use nb_entry::{CONSUMER, Entry, MERCHANT};
use nb_epo::{Hidden, HiddenBytes, Order, read_order};
use nb_units::{Digest, MAX_HIDDEN, PartyId};
use std::marker::Model;

/// An order whose parties, seals, grammar and tag were tested: who takes part, and what each of them says. Whether it was
/// settled before, and whether it is paid, is tested next. The clauses speak of it; the house has its parts where they were read.
#[derive(Clone, Copy)]
pub struct Presented {
    /// Who endorses the order.
    pub merchant: Party,
    /// Who signed it.
    pub consumer: Party,
    pub endorsement: Endorsement,
    /// The digest of the endorsement.
    pub digest: Digest,
    pub order: Order,
    /// What the order says to the house alone.
    pub hidden: Hidden,
}

// The parts of such an order, which stay where they were read. They are seen as the order.
#[derive(Drop)]
pub(crate) struct PresentedParts<'a> {
    pub(crate) merchant: &'a Party,
    pub(crate) consumer: &'a Party,
    pub(crate) endorsed: &'a EndorsementBytes<'a>,
    pub(crate) order: &'a Order,
    pub(crate) hidden: &'a HiddenBytes<'a>,
}

impl<'a> Model for PresentedParts<'a> {
    ghost use Rattle.nb_escrow.specs.declared.order.Presented.{Presented};

    ghost Value = { Presented };

    ghost view = { λ p. record { merchant = p.merchant.now; consumer = p.consumer.now; endorsement = p.endorsed.now.endorsement; digest = p.endorsed.now.digest; order = p.order.now; hidden = p.hidden.now } };
}

// The tests of an endorsed order, in order.
#[tactic(auto, unfolding(crate::specs::Orders::order_steps))]
pub(crate) fn decide_order(
    book: &Book,
    head: &Head,
    body: &[u8],
    moment: u64,
    opened: Option<&OpenedOrder>,
    kept: &mut KeptStates,
) -> Result<Decision, Refusal>
    requires { IsRuling head.now }
    ensures steps { result ≡ orders.order_steps book.now.entries head.now book.now.cap body.now moment }
    ensures legal { IfOk result (λ decision. IfSome decision.entry (NextUnder head.now.version head.now.rate book.now.entries)) }
    ensures room { IfOk result (λ decision. IsSome decision.entry → length book.now.entries < book.now.cap) }
    ensures receipts { IfOk result (λ decision. HasLawfulReceipts decision.reply) }
{
    let asked = EndorsedBytes::read(body)?;
    let merchant = find_party_as(book, MERCHANT, asked.merchant())?;
    let mut plain = [0; MAX_SEALED];
    let endorsed = opened_endorsement(opened, &asked, &merchant.key, kept, &mut plain)?;
    let bytes = endorsed.order();
    let read = read_order(bytes);
    let order = match &read {
        Ok(order) => order,
        Err(malformed) => return Err(unread_order(*malformed)),
    };
    let consumer = find_party_as(book, CONSUMER, order.consumer)?;
    check_merchant(asked.merchant(), order)?;
    tested_tag(opened, bytes, order, &consumer.key, kept)?;
    let mut plain = [0; MAX_HIDDEN];
    let hidden = opened_hidden(opened, bytes, order, &consumer.key, kept, &mut plain)?;
    let presented = PresentedParts {
        merchant: &merchant,
        consumer: &consumer,
        endorsed: &endorsed,
        order,
        hidden: &hidden,
    };
    presented.again_or_settle(book, head, moment)
}

impl<'a> PresentedParts<'a> {
    // An order that is settled already is told again; a new one is settled and recorded.
    #[tactic(auto, using(crate::proofs::Paying::as_presented))]
    fn again_or_settle(&self, book: &Book, head: &Head, moment: u64) -> Result<Decision, Refusal>
        requires terms { IsRuling head.now }
        requires presented { orders.IsPresented book.now.entries self.now }
        ensures steps { result ≡ orders.again_or_settle book.now.entries head.now book.now.cap (orders.presented_of self.now.merchant self.now.consumer self.now.endorsement self.now.order self.now.hidden) moment (settlement_in book.now.entries self.now.order.epoid) }
        ensures legal { IfOk result (λ decision. IfSome decision.entry (NextUnder head.now.version head.now.rate book.now.entries)) }
        ensures room { IfOk result (λ decision. IsSome decision.entry → length book.now.entries < book.now.cap) }
        ensures receipts { IfOk result (λ decision. HasLawfulReceipts decision.reply) }
        ensures keys { IfOk result (λ decision. decision.keys ≡ record { house = head.now.house; first = self.now.merchant.key; second = self.now.consumer.key }) }
    {
        if let Some(kept) = settled_before(book, &self.order.epoid) {
            check_digest(&kept.digest, self.endorsed.digest())?;
            return Ok(self.result(head, &kept, None));
        }
        check_room(book)?;
        let settlement = self.settle(book, head, moment);
        Ok(self.result(head, &settlement, Some(settlement.entry())))
    }

    // How the order is settled, which is new.
    fn settle(&self, book: &Book, head: &Head, moment: u64) -> Settlement
        requires terms { IsRuling head.now }
        requires presented { orders.IsPresented book.now.entries self.now }
        requires new { IsNone (order_in book.now.entries self.now.order.epoid) }
        ensures settled { result ≡ orders.settled book.now.entries head.now self.now moment }
        ensures legal { NextUnder head.now.version head.now.rate book.now.entries (settlement_entry result) }
        ensures outcome { IsPaymentOutcome result.outcome }
    {
        Settlement {
            at: u64::from(book.len()),
            digest: *self.endorsed.digest(),
            epoid: self.order.epoid,
            consumer: self.order.consumer,
            merchant: self.order.merchant,
            product: self.order.product,
            price: self.order.price,
            moment,
            outcome: outcome(book, head, self, moment),
        }
    }

    // What both parties are told of a settlement.
    fn result(&self, head: &Head, settlement: &Settlement, entry: Option<Entry>) -> Decision
        requires { IsPaymentOutcome settlement.now.outcome }
        ensures result { result ≡ orders.result head.now self.now settlement.now entry }
        ensures receipts { HasLawfulReceipts result.reply }
    {
        Decision {
            reply: Reply::Result {
                merchant: settlement.receipt_in_role(MERCHANT),
                consumer: settlement.receipt_in_role(CONSUMER),
            },
            keys: ReplyKeys {
                house: head.house,
                first: self.merchant.key,
                second: self.consumer.key,
            },
            entry,
        }
    }
}

#[tactic(auto, unfolding(crate::specs::Orders::same_merchant))]
fn check_merchant(endorser: PartyId, order: &Order) -> Result<(), Refusal>
    ensures test { result ≡ orders.same_merchant endorser order.now }
    ensures same { OnOk result ((order.now.merchant ≡ endorser) × (order.now.epoid.merchant ≡ endorser)) }
{
    check_named(endorser, order.merchant)?;
    check_named(endorser, order.epoid.merchant)
}

fn check_named(endorser: PartyId, merchant: PartyId) -> Result<(), Refusal>
    ensures test { result ≡ orders.names_endorser endorser merchant }
    ensures same { OnOk result (merchant ≡ endorser) }
{
    if merchant == endorser {
        Ok(())
    } else {
        Err(Refusal::of(OTHER_MERCHANT, u64::from(endorser.0), u64::from(merchant.0)))
    }
}

#[tactic(auto, unfolding(crate::specs::Orders::same_digest))]
fn check_digest(kept: &Digest, digest: &Digest) -> Result<(), Refusal>
    ensures { result ≡ orders.same_digest kept.now digest.now }
{
    if kept == digest {
        Ok(())
    } else {
        Err(Refusal::with(IDENTIFIER_USED, kept))
    }
}
