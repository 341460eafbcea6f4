ghost use Rattle.std.specs.Prelude.{◌≡◌, ◌≤◌, ◌+◌, ◌==◌, bytes_eq, ℕ, List, length, Some, IfErr, IfOk, IfSome, OnOk};
ghost use Rattle.nb_units.specs.declared.limits.TheConstants.{MAX_HIDDEN};
ghost use Rattle.nb_goods.specs.declared.limits.TheConstants.{MAX_SEALED, PART_BYTES};
ghost use Rattle.nb_endorse.specs.declared.receipt.TheConstants.{RECEIPT_BYTES};
ghost use Rattle.nb_ticket.specs.declared.granted.TheConstants.{GRANT_BYTES};
ghost use Rattle.nb_msgs.specs.Bodies.{MessageKeepsRules};
ghost use Rattle.nb_msgs.specs.declared.lengths.TheConstants.{MAX_SEALED_QUOTE, MAX_SEALED_HEAD};
ghost use Rattle.nb_msgs.specs.declared.status.TheConstants.{MOST_STATUS};
ghost use Rattle.nb_wallet.specs.Changes.{StageIsSound, HeadIsSound, Sound};
ghost use Rattle.nb_consumer.specs.Deeds.{Gives, DeedFits};
ghost use Rattle.nb_wallet.specs.Spelling.{StartKeepsRules, PassKeepsRules};
ghost use Rattle.nb_endorse.specs.Replies.{ReceiptKeepsRules};
ghost use Rattle.nb_consumer.specs.State.{purchase_of};
ghost use Rattle.nb_consumer.specs.declared.deed.Halt.TheVariants as halts;
ghost use Rattle.nb_msgs.specs.declared.node.Reason.TheVariants as reasons;
ghost use Rattle.nb_consumer.specs.Table as table;
ghost use Rattle.nb_units.specs.Epoid.{is_same_epoid};
ghost use Rattle.nb_msgs.specs.Tests as tests;

use crate::deed::{Deed, Halt};
use crate::knowledge::Knowledge;
use nb_asking::{
    goods_request, open_granted, open_head, open_quote, open_status, payment, price_request,
    status_query, ticket_request,
};
use nb_body::GoodsHead;
use nb_endorse::{Receipt, Signed};
use nb_epo::Order;
use nb_goods::{MAX_SEALED, PART_BYTES};
use nb_msgs::{Message, Reason, To, open_receipt};
use nb_units::{Blob, PartyId, Price};
use nb_wallet::{Item, Purchase, SessionTicket, Stage, Start, order_for};

// What is asked for holds, or this is why not.
pub(crate) fn unless(test: bool, why: Reason) -> Result<(), Reason>
    ensures { result ≡ tests.unless test why }
{
    if test { Ok(()) } else { Err(why) }
}

// The test of this number holds.
pub(crate) fn field(number: u8, test: bool) -> Result<(), Reason>
    ensures { result ≡ tests.field number test }
{
    unless(test, Reason::Field(number))
}

// ---- stages

pub(crate) fn is_ticketing(purchase: &Purchase) -> bool
    ensures { result ≡ table.is_ticketing purchase.now.stage }
{
    matches!(purchase.stage_unless_paid(), Some(Stage::Ticketing))
}

// The ticket of a purchase that a price was asked for.
pub(crate) fn asked(purchase: &Purchase) -> Result<SessionTicket, Reason>
    requires { Sound purchase.now }
    ensures pass { result ≡ tests.found reasons.State (table.pass_of_asked purchase.now.stage) }
    ensures sound { IfOk result PassKeepsRules }
{
    match purchase.stage_unless_paid() {
        Some(Stage::Asked { pass }) => Ok(*pass),
        _ => Err(Reason::State),
    }
}

// What is known of a purchase whose goods were asked for.
#[derive(Clone, Copy)]
pub(crate) struct Wanting {
    pub(crate) pass: SessionTicket,
    pub(crate) price: Price,
    pub(crate) head: Option<GoodsHead>,
}

pub(crate) fn wanted_as(purchase: &Purchase) -> Result<Wanting, Reason>
    requires { Sound purchase.now }
    ensures wanting { result ≡ tests.found reasons.State (table.wanting_in purchase.now.stage) }
    ensures sound { IfOk result (λ w. PassKeepsRules w.pass × HeadIsSound w.head) }
{
    match purchase.stage_unless_paid() {
        Some(Stage::Wanted { pass, price, head }) => Ok(Wanting {
            pass: *pass,
            price: *price,
            head: *head,
        }),
        _ => Err(Reason::State),
    }
}

// What is known of a purchase that was ordered.
#[derive(Clone, Copy)]
pub(crate) struct Owing {
    pub(crate) pass: SessionTicket,
    pub(crate) order: Order,
    pub(crate) least: u64,
}

pub(crate) fn ordered_as(purchase: &Purchase) -> Result<Owing, Reason>
    requires { Sound purchase.now }
    ensures owing { result ≡ tests.found reasons.State (table.owing_in purchase.now.stage) }
    ensures sound { IfOk result (λ o. PassKeepsRules o.pass × (length o.order.hidden ≤ MAX_HIDDEN)) }
{
    match purchase.stage_unless_paid() {
        Some(Stage::Ordered { pass, order, least }) => Ok(Owing {
            pass: *pass,
            order: *order,
            least: *least,
        }),
        _ => Err(Reason::State),
    }
}

// ---- tests

// A price from 1 to the limit.
pub(crate) fn is_price(price: Price, limit: Price) -> bool
    ensures { result ≡ table.is_price price limit }
{
    1 <= price.0 && price.0 <= limit.0
}

// The price of a quote that fits.
#[tactic(auto, unfolding(crate::specs::Table::price_quoted))]
fn price_quoted(start: &Start, pass: &SessionTicket, sealed: &[u8]) -> Result<Price, Reason>
    requires { length sealed.now ≤ MAX_SEALED_QUOTE }
    ensures { result ≡ table.price_quoted start.now pass.now sealed.now }
{
    let quote = open_quote(&pass.session, sealed)?;
    field(1, quote.transaction == start.transaction)?;
    field(2, quote.product == start.product)?;
    field(3, is_price(quote.price, start.limit))?;
    Ok(quote.price)
}

// Whether what is said of a part agrees with what was said of those that are held, where parts are held.
fn is_held_epoid(held: &Option<GoodsHead>, head: &GoodsHead) -> bool
    ensures { result ≡ table.agrees (λ k. is_same_epoid head.now.epoid k.epoid) held.now }
{
    match held {
        Some(known) => head.epoid == known.epoid,
        None => true,
    }
}

fn is_held_total(held: &Option<GoodsHead>, head: &GoodsHead) -> bool
    ensures { result ≡ table.agrees (λ k. head.now.total == k.total) held.now }
{
    match held {
        Some(known) => head.total == known.total,
        None => true,
    }
}

fn is_held_checksum(held: &Option<GoodsHead>, head: &GoodsHead) -> bool
    ensures { result ≡ table.agrees (λ k. bytes_eq head.now.checksum k.checksum) held.now }
{
    match held {
        Some(known) => head.checksum == known.checksum,
        None => true,
    }
}

// The tests of a part but that of its number.
#[tactic(auto, unfolding(crate::specs::Table::part_fits))]
pub(crate) fn part_fits(
    merchant: PartyId,
    held: &Option<GoodsHead>,
    len: u64,
    head: &GoodsHead,
    part: &[u8],
) -> Result<(), Reason>
    ensures fits { (sealed : List ℕ) → len ≡ length sealed → result ≡ table.part_fits merchant held.now sealed head.now part.now }
    ensures within { OnOk result ((head.now.place ≡ len) × (len + length part.now ≤ head.now.total) × (head.now.total ≤ MAX_SEALED) × (length part.now ≤ PART_BYTES)) }
{
    field(
        2,
        head.epoid.merchant == merchant && is_held_epoid(held, head),
    )?;
    let is_next = head.place == len
        && head.total <= MAX_SEALED as u64
        && is_held_total(held, head)
        && head.place <= head.total
        && part.len() as u64 == (PART_BYTES as u64).min(head.total - head.place);
    field(3, is_next)?;
    field(4, is_held_checksum(held, head))
}

// What is said of a part that fits.
#[tactic(auto, unfolding(crate::specs::Table::head_told))]
fn head_told(
    purchase: &Purchase,
    wanting: &Wanting,
    head: &[u8],
    part: &[u8],
) -> Result<GoodsHead, Reason>
    requires { length head.now ≤ MAX_SEALED_HEAD }
    ensures told { result ≡ table.head_told purchase.now wanting.now head.now part.now }
    ensures number { IfOk result (λ h. h.transaction ≡ purchase.now.start.transaction) }
    ensures within { IfOk result (λ h. (h.place ≡ length purchase.now.held) × (h.place + length part.now ≤ h.total) × (h.total ≤ MAX_SEALED) × (length part.now ≤ PART_BYTES)) }
{
    let told = open_head(&wanting.pass.session, head)?;
    field(1, told.transaction == purchase.start().transaction)?;
    part_fits(
        purchase.start().merchant,
        &wanting.head,
        purchase.held().len(),
        &told,
        part,
    )?;
    Ok(told)
}

// A receipt fits an order.
#[tactic(auto, unfolding(crate::specs::Table::receipt_fits))]
pub(crate) fn receipt_fits(order: &Order, receipt: &Receipt) -> Result<(), Reason>
    ensures { result ≡ table.receipt_fits order.now receipt.now }
{
    match receipt.first_difference(
        &order.epoid,
        order.consumer,
        order.merchant,
        order.product,
        order.price,
    ) {
        None => Ok(()),
        Some(n) => Err(Reason::Field(n)),
    }
}

// ---- rows

impl Knowledge {
    // A start.
    #[tactic(auto, unfolding(crate::specs::Table::started))]
    pub(crate) fn begin(&self, start: &Start) -> Result<Deed, Halt>
        requires { StartKeepsRules start.now }
        ensures row { Gives result (table.started self.now start.now) }
        ensures fits { IfOk result (DeedFits self.now) }
    {
        unless(self.is_new(start.transaction), Reason::State)?;
        Ok(Deed::Keeps {
            item: Item::Started(*start),
            to: To::Server,
            message: ticket_request(self.wallet(), start),
        })
    }

    // A grant.
    #[tactic(auto, unfolding(crate::specs::Table::granted))]
    fn hear_grant(&self, sealed: &[u8]) -> Result<Deed, Halt>
        requires { length sealed.now ≤ GRANT_BYTES }
        ensures row { Gives result (table.granted self.now sealed.now) }
        ensures fits { IfOk result (DeedFits self.now) }
    {
        let granted = open_granted(&self.wallet().key, sealed)?;
        let purchase = self.known(granted.nonce)?;
        unless(is_ticketing(purchase), Reason::State)?;
        field(1, granted.merchant == purchase.start().merchant)?;
        let pass = SessionTicket {
            session: granted.session,
            ticket: granted.ticket,
        };
        let message = price_request(self.alloc(), &pass, purchase.start())?;
        Ok(Deed::Keeps {
            item: Item::Granted {
                transaction: granted.nonce,
                pass,
            },
            to: To::Merchant(purchase.start().merchant),
            message,
        })
    }

    // A quote.
    #[tactic(auto, unfolding(crate::specs::Table::quoted))]
    fn hear_quote(&self, transaction: u64, sealed: &[u8]) -> Result<Deed, Halt>
        requires { length sealed.now ≤ MAX_SEALED_QUOTE }
        ensures row { Gives result (table.quoted self.now transaction sealed.now) }
        ensures fits { IfOk result (DeedFits self.now) }
    {
        let purchase = self.known(transaction)?;
        let pass = asked(purchase)?;
        let price = price_quoted(purchase.start(), &pass, sealed)?;
        let message = goods_request(self.alloc(), &pass, purchase.start(), 0)?;
        Ok(Deed::Keeps {
            item: Item::Wanted { transaction, price },
            to: To::Merchant(purchase.start().merchant),
            message,
        })
    }

    // A part of the goods.
    #[tactic(auto, unfolding(crate::specs::Table::delivered))]
    fn hear_goods(&self, transaction: u64, head: &[u8], part: &[u8]) -> Result<Deed, Halt>
        requires head { length head.now ≤ MAX_SEALED_HEAD }
        ensures row { Gives result (table.delivered self.now transaction head.now part.now) }
        ensures fits { IfOk result (DeedFits self.now) }
    {
        let purchase = self.known(transaction)?;
        let wanting = wanted_as(purchase)?;
        let told = head_told(purchase, &wanting, head, part)?;
        self.take(transaction, purchase, &wanting, &told, part)
    }

    // A receipt that the merchant passed on.
    #[tactic(auto, unfolding(crate::specs::Table::passed))]
    fn hear_receipt(&self, transaction: u64, part: &[u8]) -> Result<Deed, Halt>
        requires { length part.now ≤ RECEIPT_BYTES }
        ensures row { Gives result (table.passed self.now transaction part.now) }
        ensures fits { IfOk result (DeedFits self.now) }
    {
        let purchase = self.known(transaction)?;
        let owing = ordered_as(purchase)?;
        let receipt = open_receipt(&self.wallet().key, part)?;
        self.conclude(transaction, purchase, &owing, &receipt)
    }

    // What a part that fits does: it is kept, or it is the last, and the goods are ordered where all of them have the right checksum.
    fn take(
        &self,
        transaction: u64,
        purchase: &Purchase,
        wanting: &Wanting,
        told: &GoodsHead,
        part: &[u8],
    ) -> Result<Deed, Halt>
        requires purchase { purchase_of self.now transaction ≡ Some purchase.now }
        requires sound { Sound purchase.now }
        requires wanting { PassKeepsRules wanting.now.pass }
        requires number { told.now.transaction ≡ transaction }
        requires within { (told.now.place ≡ length purchase.now.held) × (told.now.place + length part.now ≤ told.now.total) × (told.now.total ≤ MAX_SEALED) × (length part.now ≤ PART_BYTES) }
        ensures row { Gives result (table.goods_came self.now transaction purchase.now wanting.now told.now part.now) }
        ensures fits { IfOk result (DeedFits self.now) }
    {
        let next = told.place + part.len() as u64;
        if next < told.total {
            return self.keep_part(purchase, wanting, told, next, part);
        }
        if purchase.held().digest_with(part) == told.checksum {
            return self.order_goods(transaction, purchase, wanting, told, part);
        }
        match wanting.head {
            None => Err(Halt::Ignored(Reason::Field(4))),
            Some(_) => {
                let message = goods_request(self.alloc(), &wanting.pass, purchase.start(), 0)?;
                Ok(Deed::Keeps {
                    item: Item::Forgotten { transaction },
                    to: To::Merchant(purchase.start().merchant),
                    message,
                })
            }
        }
    }

    // A part that is not the last.
    fn keep_part(
        &self,
        purchase: &Purchase,
        wanting: &Wanting,
        told: &GoodsHead,
        next: u64,
        part: &[u8],
    ) -> Result<Deed, Halt>
        requires purchase { purchase_of self.now told.now.transaction ≡ Some purchase.now }
        requires wanting { PassKeepsRules wanting.now.pass }
        requires next { next ≡ told.now.place + length part.now }
        requires within { (told.now.place ≡ length purchase.now.held) × (told.now.place + length part.now ≤ told.now.total) × (told.now.total ≤ MAX_SEALED) × (length part.now ≤ PART_BYTES) }
        ensures deed { IfOk result (λ deed. deed ≡ table.part_kept purchase.now wanting.now told.now part.now) }
        ensures halt { IfErr result (λ why. why ≡ halts.NoMemory) }
        ensures fits { IfOk result (DeedFits self.now) }
    {
        let message = goods_request(self.alloc(), &wanting.pass, purchase.start(), next)?;
        Ok(Deed::Keeps {
            item: Item::Part {
                head: *told,
                part: Blob::of(self.alloc(), part)?,
            },
            to: To::Merchant(purchase.start().merchant),
            message,
        })
    }

    // The last part, where all parts have the checksum that was told.
    fn order_goods(
        &self,
        transaction: u64,
        purchase: &Purchase,
        wanting: &Wanting,
        told: &GoodsHead,
        part: &[u8],
    ) -> Result<Deed, Halt>
        requires purchase { purchase_of self.now transaction ≡ Some purchase.now }
        requires sound { Sound purchase.now }
        requires wanting { PassKeepsRules wanting.now.pass }
        requires within { (told.now.place ≡ length purchase.now.held) × (told.now.place + length part.now ≤ told.now.total) × (told.now.total ≤ MAX_SEALED) × (length part.now ≤ PART_BYTES) }
        ensures deed { IfOk result (λ deed. deed ≡ table.goods_ordered self.now transaction purchase.now wanting.now told.now part.now) }
        ensures halt { IfErr result (λ why. why ≡ halts.NoMemory) }
        ensures fits { IfOk result (DeedFits self.now) }
    {
        let order = order_for(
            self.wallet(),
            purchase.start(),
            wanting.price,
            told.epoid,
            &told.checksum,
        );
        let message = payment(self.alloc(), &wanting.pass, purchase.start(), &order)?;
        Ok(Deed::Keeps {
            item: Item::Ordered {
                transaction,
                order,
                part: Blob::of(self.alloc(), part)?,
            },
            to: To::Merchant(purchase.start().merchant),
            message,
        })
    }

    // What a receipt does.
    #[tactic(auto, unfolding(crate::specs::Table::receipt_told))]
    fn conclude(
        &self,
        transaction: u64,
        purchase: &Purchase,
        owing: &Owing,
        receipt: &Signed,
    ) -> Result<Deed, Halt>
        requires purchase { purchase_of self.now transaction ≡ Some purchase.now }
        requires lawful { ReceiptKeepsRules receipt.now.receipt }
        ensures row { Gives result (table.receipt_told transaction purchase.now owing.now receipt.now) }
        ensures fits { IfOk result (DeedFits self.now) }
    {
        receipt_fits(&owing.order, &receipt.receipt)?;
        let end = purchase.end(self.alloc(), &receipt.receipt)?;
        Ok(Deed::Ends {
            transaction,
            receipt: *receipt,
            end,
        })
    }

    // A status.
    #[tactic(auto, unfolding(crate::specs::Table::told_status))]
    fn hear_status(&self, sealed: &[u8]) -> Result<Deed, Halt>
        requires { length sealed.now ≤ MOST_STATUS }
        ensures row { Gives result (table.told_status self.now sealed.now) }
        ensures fits { IfOk result (DeedFits self.now) }
    {
        let text = open_status(&self.wallet().key, sealed)?;
        let transaction = self.ordered(&text.epoid)?;
        let purchase = self.known(transaction)?;
        let owing = ordered_as(purchase)?;
        self.hear_told(transaction, purchase, &owing, text.place, &text.receipt)
    }

    // What a status of an order does.
    fn hear_told(
        &self,
        transaction: u64,
        purchase: &Purchase,
        owing: &Owing,
        place: u64,
        told: &Option<Signed>,
    ) -> Result<Deed, Halt>
        requires purchase { purchase_of self.now transaction ≡ Some purchase.now }
        requires owing { PassKeepsRules owing.now.pass × (length owing.now.order.hidden ≤ MAX_HIDDEN) }
        requires lawful { IfSome told.now (λ s. ReceiptKeepsRules s.receipt) }
        ensures row { Gives result (table.status_told transaction purchase.now owing.now place told.now) }
        ensures fits { IfOk result (DeedFits self.now) }
    {
        match told {
            Some(receipt) => self.conclude(transaction, purchase, owing, receipt),
            None => {
                let message = payment(self.alloc(), &owing.pass, purchase.start(), &owing.order)?;
                Ok(Deed::Hears {
                    transaction,
                    place,
                    to: To::Merchant(purchase.start().merchant),
                    message,
                })
            }
        }
    }

    // Nothing was heard for long.
    #[tactic(auto, unfolding(crate::specs::Table::silent))]
    pub(crate) fn wait(&self, transaction: u64) -> Result<Deed, Halt>
        ensures row { Gives result (table.silent self.now transaction) }
        ensures fits { IfOk result (DeedFits self.now) }
    {
        let purchase = self.known(transaction)?;
        self.say_again(purchase)
    }

    // The last message of a purchase; of an order the query of its status.
    fn say_again(&self, purchase: &Purchase) -> Result<Deed, Halt>
        requires { Sound purchase.now }
        ensures row { Gives result (table.unheard self.now.wallet purchase.now purchase.now.stage) }
        ensures fits { IfOk result (DeedFits self.now) }
    {
        let start = purchase.start();
        let seller = To::Merchant(start.merchant);
        match purchase.stage_unless_paid() {
            Some(Stage::Ticketing) => Ok(Deed::Sends {
                to: To::Server,
                message: ticket_request(self.wallet(), start),
            }),
            Some(Stage::Asked { pass }) => Ok(Deed::Sends {
                to: seller,
                message: price_request(self.alloc(), pass, start)?,
            }),
            Some(Stage::Wanted { pass, .. }) => Ok(Deed::Sends {
                to: seller,
                message: goods_request(self.alloc(), pass, start, purchase.held().len())?,
            }),
            Some(Stage::Ordered { order, least, .. }) => Ok(Deed::Sends {
                to: To::Server,
                message: status_query(self.wallet(), order.epoid, *least),
            }),
            _ => Err(Halt::Ignored(Reason::State)),
        }
    }

    // A message.
    pub(crate) fn hear(&self, message: &Message) -> Result<Deed, Halt>
        requires { MessageKeepsRules message.now }
        ensures row { Gives result (table.heard self.now message.now) }
        ensures fits { IfOk result (DeedFits self.now) }
    {
        match message {
            Message::Grant { sealed } => self.hear_grant(sealed.as_slice()),
            Message::Quote {
                transaction,
                sealed,
            } => self.hear_quote(*transaction, sealed.as_slice()),
            Message::Goods {
                transaction,
                head,
                part,
            } => self.hear_goods(*transaction, head.as_slice(), part.as_slice()),
            Message::Passed { transaction, part } => {
                self.hear_receipt(*transaction, part.as_slice())
            }
            Message::Status { sealed } => self.hear_status(sealed.as_slice()),
            Message::Refusal(refusal) => Err(Halt::Ignored(Reason::Refused(refusal.code))),
            _ => Err(Halt::Ignored(Reason::Kind)),
        }
    }
}
