ghost use Rattle.std.specs.Prelude.{◌≡◌, ◌≤◌, ◌<◌, ◌^◌, ◌+◌, ◌⊎◌, length, IfOk, Ok, Err};
ghost use Rattle.nb_units.specs.declared.buffer.TheConstants.{MAX_BUFFER};
ghost use Rattle.nb_units.specs.declared.limits.TheConstants.{MAX_ORDER};
ghost use Rattle.nb_goods.specs.declared.limits.TheConstants.{PART_BYTES};
ghost use Rattle.nb_endorse.specs.Replies.{ReceiptKeepsRules};
ghost use Rattle.nb_body.specs.declared.fault.BodyFault.TheVariants as fault;
ghost use Rattle.nb_body.specs.Reads.{ReadsBody};
ghost use Rattle.nb_wallet.specs.Spelling as spelling;
ghost use Rattle.nb_wallet.specs.Reading as reading;

use crate::limits::{ENDED, FORGOTTEN, GRANTED, ORDERED, PART, STARTED, WANTED};
use crate::ordering::order_text;
use crate::wallet::Start;
use nb_body::{BodyFault, GoodsHead, MAX_REQUEST};
use nb_endorse::{Signed, read_signed};
use nb_epo::{Order, read_order};
use nb_goods::PART_BYTES;
use nb_ticket::TICKET_BYTES;
use nb_units::{
    Blob, Buffer, Cut, Epoid, MAX_MEMO, MAX_ORDER, Malformed, NoMemory, PartyId, Price, Secret,
    Small,
};
use std::alloc::Global;

/// A ticket, and the key that it brings to its merchant.
#[derive(Clone, Copy)]
pub struct SessionTicket {
    /// The key that the consumer and the merchant share, 32 bytes.
    pub session: Secret,
    /// The ticket, sealed for the merchant: at most [`TICKET_BYTES`](nb_ticket::TICKET_BYTES) bytes.
    pub ticket: Small,
}

/// What a consumer keeps of one step.
#[derive(Drop)]
pub enum Item {
    /// A purchase was started.
    Started(Start),
    /// A ticket was granted for it.
    Granted {
        /// The consumer's own number of the purchase, 8 bytes wide.
        transaction: u64,
        /// The ticket and its key.
        pass: SessionTicket,
    },
    /// A price was quoted that is not above the limit.
    Wanted {
        /// The consumer's own number of the purchase, 8 bytes wide.
        transaction: u64,
        /// The price, in the house's smallest unit of money, 8 bytes wide.
        price: Price,
    },
    /// The last part of the sealed goods came, and they are ordered.
    Ordered {
        /// The consumer's own number of the purchase, 8 bytes wide.
        transaction: u64,
        /// The order, signed.
        order: Order,
        /// The last part: at most [`PART_BYTES`](nb_goods::PART_BYTES) bytes.
        part: Blob,
    },
    /// A receipt came.
    Ended {
        /// The consumer's own number of the purchase, 8 bytes wide.
        transaction: u64,
        /// The receipt with the house's tag.
        receipt: Signed,
    },
    /// A part of the sealed goods came, which is not the last.
    Part {
        /// What the merchant said of it. It has the consumer's own number of the purchase.
        head: GoodsHead,
        /// The part: at most [`PART_BYTES`](nb_goods::PART_BYTES) bytes.
        part: Blob,
    },
    /// The parts that came are forgotten.
    Forgotten {
        /// The consumer's own number of the purchase, 8 bytes wide.
        transaction: u64,
    },
}

impl Item {
    /// The item that the bytes spell. It answers [`BodyFault::Malformed`] exactly where they spell none, with the place of the first field that
    /// fails, in bytes from their front; the fields of an order are tested behind all others of the item, and a bad one of an order or of a receipt is told at
    /// its own place. A part of goods is copied once.
    pub fn read(alloc: Global, bytes: &[u8]) -> Result<Item, BodyFault>
        // The fields in their order, and the first that fails. There is want of memory only where the bytes spell an item.
        ensures reads { ReadsBody result (reading.item_of bytes.now) }

        // An item that is read is spelled so, and can be spelled again; one that is spelled so is read.
        ensures spelled { IfOk result (λ item. spelling.IsItem item × (bytes.now ≡ spelling.item_bytes item)) }
        // Where the bytes are the spelling of one within its limits, that one is read, or there was no memory.
        ensures found { (item : Item) → spelling.IsItem item → bytes.now ≡ spelling.item_bytes item → (result ≡ Ok item) ⊎ (result ≡ Err fault.NoMemory) }
    {
        read_kind(alloc, bytes)
    }

    /// Its bytes. A request has at most [`MAX_REQUEST`] bytes, a memo [`MAX_MEMO`], a ticket [`TICKET_BYTES`], a part [`PART_BYTES`], the hidden part
    /// of an order [`MAX_HIDDEN`](nb_units::MAX_HIDDEN), and a receipt keeps the rules that [`Signed::spelled`] names. Answers [`NoMemory`] where there
    /// is none for the bytes.
    pub fn spelled(&self, alloc: Global) -> Result<Blob, NoMemory>
        requires lawful { spelling.ItemKeepsRules self.now }
        ensures bytes { IfOk result (λ bytes. bytes ≡ spelling.item_bytes self.now) }
        ensures fits { IfOk result (λ _. spelling.IsItem self.now) }
    {
        match self {
            Item::Started(start) => whole(alloc, &spelled_start(start)),
            Item::Granted { transaction, pass } => whole(alloc, &spelled_grant(*transaction, pass)),
            Item::Wanted { transaction, price } => whole(
                alloc,
                &spelled_price(*transaction, *price),
            ),
            Item::Ordered {
                transaction,
                order,
                part,
            } => {
                let text = order_text(alloc, order)?;
                spelled_order(alloc, *transaction, &text, part.as_slice())
            }
            Item::Ended {
                transaction,
                receipt,
            } => whole(alloc, &spelled_end(*transaction, receipt)),
            Item::Part { head, part } => spelled_part(alloc, head, part.as_slice()),
            Item::Forgotten { transaction } => whole(alloc, &spelled_forgotten(*transaction)),
        }
    }
}

// A copy of the bytes.
fn whole(alloc: Global, bytes: &Buffer) -> Result<Blob, NoMemory>
    ensures { IfOk result (λ blob. blob ≡ bytes.now) }
{
    Blob::of(alloc, bytes.as_slice())
}

#[tactic(auto, unfolding(crate::specs::Spelling::started_bytes))]
fn spelled_start(start: &Start) -> Buffer
    requires { spelling.StartKeepsRules start.now }
    ensures bytes { result ≡ spelling.started_bytes start.now }
    ensures fits { spelling.IsStart start.now }
{
    let mut bytes = Buffer::new();
    bytes.u8(STARTED);
    bytes.u64(start.transaction);
    bytes.u32(start.merchant.0);
    bytes.u32(start.product);
    bytes.u64(start.limit.0);
    bytes.bytes(start.request.as_slice());
    bytes.bytes(start.memo.as_slice());
    bytes
}

#[tactic(auto, unfolding(crate::specs::Spelling::granted_item_bytes))]
fn spelled_grant(transaction: u64, pass: &SessionTicket) -> Buffer
    requires { spelling.PassKeepsRules pass.now }
    ensures bytes { result ≡ spelling.granted_item_bytes transaction pass.now }
    ensures fits { spelling.IsPass pass.now }
{
    let mut bytes = Buffer::new();
    bytes.u8(GRANTED);
    bytes.u64(transaction);
    bytes.raw(&pass.session);
    bytes.bytes(pass.ticket.as_slice());
    bytes
}

#[tactic(auto, unfolding(crate::specs::Spelling::wanted_bytes))]
fn spelled_price(transaction: u64, price: Price) -> Buffer
    ensures bytes { result ≡ spelling.wanted_bytes transaction price }
    ensures fits { (transaction < 2 ^ 64) × (price.0 < 2 ^ 64) }
{
    let mut bytes = Buffer::new();
    bytes.u8(WANTED);
    bytes.u64(transaction);
    bytes.u64(price.0);
    bytes
}

#[tactic(auto, unfolding(crate::specs::Spelling::ended_bytes))]
fn spelled_end(transaction: u64, receipt: &Signed) -> Buffer
    requires { ReceiptKeepsRules receipt.now.receipt }
    ensures bytes { result ≡ spelling.ended_bytes transaction receipt.now }
    ensures fits { spelling.IsSigned receipt.now }
{
    let mut bytes = Buffer::new();
    bytes.u8(ENDED);
    bytes.u64(transaction);
    bytes.raw(receipt.spelled().as_slice());
    bytes
}

#[tactic(auto, unfolding(crate::specs::Spelling::forgotten_bytes))]
fn spelled_forgotten(transaction: u64) -> Buffer
    ensures bytes { result ≡ spelling.forgotten_bytes transaction }
{
    let mut bytes = Buffer::new();
    bytes.u8(FORGOTTEN);
    bytes.u64(transaction);
    bytes
}

// What stands before the part.
#[tactic(auto, unfolding(crate::specs::Spelling::ordered_front))]
fn order_front(transaction: u64, order: &Small, part: &[u8]) -> Buffer
    requires { length part.now ≤ PART_BYTES }
    ensures { result ≡ spelling.ordered_front transaction order.now part.now }
{
    let mut bytes = Buffer::new();
    bytes.u8(ORDERED);
    bytes.u64(transaction);
    bytes.bytes(order.as_slice());
    bytes.u32(part.len() as u32);
    bytes
}

fn spelled_order(
    alloc: Global,
    transaction: u64,
    order: &Small,
    part: &[u8],
) -> Result<Blob, NoMemory>
    requires { length part.now ≤ PART_BYTES }
    ensures { IfOk result (λ bytes. bytes ≡ spelling.ordered_bytes transaction order.now part.now) }
{
    joined(alloc, &order_front(transaction, order, part), part)
}

// What stands before the part.
#[tactic(auto, unfolding(crate::specs::Spelling::part_front))]
fn part_front(head: &GoodsHead, part: &[u8]) -> Buffer
    requires { length part.now ≤ PART_BYTES }
    ensures bytes { result ≡ spelling.part_front head.now part.now }
    ensures fits { spelling.IsGoodsHead head.now }
{
    let mut bytes = Buffer::new();
    bytes.u8(PART);
    bytes.u64(head.transaction);
    bytes.raw(&head.epoid.write());
    bytes.u64(head.total);
    bytes.raw(&head.checksum);
    bytes.u64(head.place);
    bytes.u32(part.len() as u32);
    bytes
}

fn spelled_part(alloc: Global, head: &GoodsHead, part: &[u8]) -> Result<Blob, NoMemory>
    requires { length part.now ≤ PART_BYTES }
    ensures bytes { IfOk result (λ bytes. bytes ≡ spelling.part_bytes head.now part.now) }
    ensures fits { spelling.IsGoodsHead head.now }
{
    joined(alloc, &part_front(head, part), part)
}

// The front, and the part behind it.
fn joined(alloc: Global, front: &Buffer, part: &[u8]) -> Result<Blob, NoMemory>
    requires { length part.now ≤ PART_BYTES }
    ensures { IfOk result (λ bytes. bytes ≡ spelling.behind_front front.now part.now) }
{
    let front = front.as_slice();
    let mut bytes = Vec::with_capacity(alloc, front.len() + part.len())?;
    bytes.extend_from_slice(front)?;
    bytes.extend_from_slice(part)?;
    Ok(Blob::from_vec(bytes))
}

// ---- reading

#[tactic(auto, unfolding(crate::specs::Reading::item_of))]
fn read_kind(alloc: Global, bytes: &[u8]) -> Result<Item, BodyFault>
    ensures { ReadsBody result (reading.item_of bytes.now) }
{
    let mut cut = Cut::new(bytes);
    let kind = cut.u8()?;
    match kind {
        STARTED => Ok(read_start(cut)?),
        GRANTED => Ok(read_grant(cut)?),
        WANTED => Ok(read_price(cut)?),
        ORDERED => read_ordered(alloc, cut),
        ENDED => Ok(read_end(cut)?),
        PART => read_part(alloc, cut),
        FORGOTTEN => Ok(read_forgotten(cut)?),
        _ => Err(BodyFault::Malformed { place: 0 }),
    }
}

#[tactic(auto, unfolding(crate::specs::Reading::started_of))]
fn read_start(mut cut: Cut) -> Result<Item, Malformed>
    requires { cut.place ≡ 1 }
    ensures { reading.Reads result (reading.started_of cut.entry.bytes) }
{
    let transaction = cut.u64()?;
    let merchant = cut.u32()?;
    let product = cut.u32()?;
    let limit = cut.u64()?;
    let request = cut.bytes(MAX_REQUEST as u32)?;
    let memo = cut.bytes(MAX_MEMO as u32)?;
    cut.done()?;
    Ok(Item::Started(Start {
        transaction,
        merchant: PartyId(merchant),
        product,
        limit: Price(limit),
        request: Small::of(request).unwrap(),
        memo: Small::of(memo).unwrap(),
    }))
}

#[tactic(auto, unfolding(crate::specs::Reading::granted_item_of))]
fn read_grant(mut cut: Cut) -> Result<Item, Malformed>
    requires { cut.place ≡ 1 }
    ensures { reading.Reads result (reading.granted_item_of cut.entry.bytes) }
{
    let transaction = cut.u64()?;
    let session = cut.fixed32()?;
    let ticket = cut.bytes(TICKET_BYTES as u32)?;
    cut.done()?;
    let pass = SessionTicket {
        session,
        ticket: Small::of(ticket).unwrap(),
    };
    Ok(Item::Granted { transaction, pass })
}

#[tactic(auto, unfolding(crate::specs::Reading::wanted_of))]
fn read_price(mut cut: Cut) -> Result<Item, Malformed>
    requires { cut.place ≡ 1 }
    ensures { reading.Reads result (reading.wanted_of cut.entry.bytes) }
{
    let transaction = cut.u64()?;
    let price = cut.u64()?;
    cut.done()?;
    Ok(Item::Wanted {
        transaction,
        price: Price(price),
    })
}

#[tactic(auto, unfolding(crate::specs::Reading::ordered_of))]
fn read_ordered(alloc: Global, mut cut: Cut) -> Result<Item, BodyFault>
    requires { cut.place ≡ 1 }
    ensures { ReadsBody result (reading.ordered_of cut.entry.bytes) }
{
    let transaction = cut.u64()?;
    let text = cut.bytes(MAX_ORDER as u32)?;
    let part = cut.bytes(PART_BYTES as u32)?;
    cut.done()?;
    let order = order_in(text)?;
    Ok(Item::Ordered {
        transaction,
        order,
        part: Blob::of(alloc, part)?,
    })
}

// The order in an item, whose first bytes stand behind a kind, a number and a length.
fn order_in(text: &[u8]) -> Result<Order, Malformed>
    ensures { reading.Reads result (reading.order_within text.now) }
{
    match read_order(text) {
        Ok(order) => Ok(order),
        Err(Malformed { place }) => Err(Malformed {
            place: place.saturating_add(13),
        }),
    }
}

#[tactic(auto, unfolding(crate::specs::Reading::ended_of))]
fn read_end(mut cut: Cut) -> Result<Item, Malformed>
    requires { cut.place ≡ 1 }
    ensures { reading.Reads result (reading.ended_of cut.entry.bytes) }
{
    let transaction = cut.u64()?;
    let receipt = receipt_in(cut.rest())?;
    Ok(Item::Ended {
        transaction,
        receipt,
    })
}

// The receipt in an item, which stands behind a kind and a number.
fn receipt_in(text: &[u8]) -> Result<Signed, Malformed>
    ensures { reading.Reads result (reading.receipt_within text.now) }
{
    match read_signed(text) {
        Ok(receipt) => Ok(receipt),
        Err(Malformed { place }) => Err(Malformed {
            place: place.saturating_add(9),
        }),
    }
}

#[tactic(auto, unfolding(crate::specs::Reading::part_of))]
fn read_part(alloc: Global, mut cut: Cut) -> Result<Item, BodyFault>
    requires { cut.place ≡ 1 }
    ensures { ReadsBody result (reading.part_of cut.entry.bytes) }
{
    let transaction = cut.u64()?;
    let epoid = cut.fixed16()?;
    let total = cut.u64()?;
    let checksum = cut.fixed32()?;
    let place = cut.u64()?;
    let part = cut.bytes(PART_BYTES as u32)?;
    cut.done()?;
    let head = GoodsHead {
        transaction,
        epoid: Epoid::read(&epoid),
        total,
        place,
        checksum,
    };
    Ok(Item::Part {
        head,
        part: Blob::of(alloc, part)?,
    })
}

#[tactic(auto, unfolding(crate::specs::Reading::forgotten_of))]
fn read_forgotten(mut cut: Cut) -> Result<Item, Malformed>
    requires { cut.place ≡ 1 }
    ensures { reading.Reads result (reading.forgotten_of cut.entry.bytes) }
{
    let transaction = cut.u64()?;
    cut.done()?;
    Ok(Item::Forgotten { transaction })
}
