ghost use Rattle.std.specs.Prelude.{◌≡◌, ◌≤◌, ◌⊎◌, length, IfOk, Ok, Err};
ghost use Rattle.nb_units.specs.declared.frames.TheConstants.{LAST_KIND};
ghost use Rattle.nb_body.specs.declared.fault.BodyFault.TheVariants as fault;
ghost use Rattle.nb_msgs.specs.Bodies.{IsMessage, MessageKeepsRules, kind_of, body_bytes};
ghost use Rattle.nb_msgs.specs.Reading as reading;

use crate::lengths::{
    MAX_SEALED_GOODS_REQUEST, MAX_SEALED_HEAD, MAX_SEALED_PAYMENT, MAX_SEALED_PRICE_REQUEST,
    MAX_SEALED_QUOTE,
};
use crate::message::Message;
use crate::status::MOST_STATUS;
use nb_body::{BodyFault, EndorsedBytes, Enrolment, Funding, StatusQuery};
use nb_endorse::{RECEIPT_BYTES, Refusal};
use nb_goods::PART_BYTES;
use nb_ticket::{GRANT_BYTES, TICKET_BYTES, TicketAsk};
use nb_units::frames::{
    DONE_REPLY, ENROL_REQUEST, FUND_REQUEST, GOODS_REPLY, GOODS_REQUEST, GRANT_REPLY,
    ORDER_REQUEST, PAYMENT_REPLY, PAYMENT_REQUEST, PRICE_REQUEST, QUOTE_REPLY, REFUSED_REPLY,
    RESULT_REPLY, STATUS_REPLY, STATUS_REQUEST, TICKET_REQUEST,
};
use nb_units::{AcctId, Blob, Cut};
use std::alloc::Global;

/// The message that a body of this kind spells. It answers [`BodyFault::Malformed`] exactly where the body spells none, with the place
/// of the first field that fails. A part of goods is copied once.
pub fn read_body(alloc: Global, kind: u8, body: &[u8]) -> Result<Message, BodyFault>
    requires least { 1 ≤ kind }
    requires most { kind ≤ LAST_KIND }
    // The fields in their order, and the first that fails. There is want of memory only where the body spells a message.
    ensures reads { reading.ReadsBody result (reading.message_of kind body.now) }

    // A message that is read is spelled so, and can be written again; one that is spelled so is read.
    ensures spelled { IfOk result (λ m. IsMessage m × (kind_of m ≡ kind) × (body.now ≡ body_bytes m)) }
    ensures lawful { IfOk result MessageKeepsRules }
    // Where the body is the spelling of a message within its limits, that one is read, or there was no memory.
    ensures found { (m : Message) → IsMessage m → kind_of m ≡ kind → body.now ≡ body_bytes m → (result ≡ Ok m) ⊎ (result ≡ Err fault.NoMemory) }
{
    read_kind(alloc, kind, body)
}

// The reader of each kind.
fn read_kind(alloc: Global, kind: u8, body: &[u8]) -> Result<Message, BodyFault>
    requires least { 1 ≤ kind }
    requires most { kind ≤ LAST_KIND }
    ensures { reading.ReadsBody result (reading.message_of kind body.now) }
{
    match kind {
        PRICE_REQUEST => read_price_ask(alloc, body),
        QUOTE_REPLY => read_quote(alloc, body),
        GOODS_REQUEST => read_goods_ask(alloc, body),
        GOODS_REPLY => read_goods(alloc, body),
        PAYMENT_REQUEST => read_order(alloc, body),
        ORDER_REQUEST => read_endorsed(alloc, body),
        RESULT_REPLY => read_result(alloc, body),
        PAYMENT_REPLY => read_passed(alloc, body),
        STATUS_REQUEST => Ok(Message::StatusAsk(StatusQuery::read(body)?)),
        STATUS_REPLY => read_status(alloc, body),
        TICKET_REQUEST => Ok(Message::TicketAsk(TicketAsk::read(body)?)),
        GRANT_REPLY => read_grant(alloc, body),
        ENROL_REQUEST => Ok(Message::Enrol(Enrolment::read(body)?)),
        FUND_REQUEST => Ok(Message::Fund(Funding::read(body)?)),
        DONE_REPLY => read_done(body),
        REFUSED_REPLY => read_refusal(body),
        _ => unreachable!(),
    }
}

fn read_price_ask(alloc: Global, body: &[u8]) -> Result<Message, BodyFault>
    ensures { reading.ReadsBody result (reading.price_ask_of body.now) }
{
    let (ticket, sealed) = two_texts(alloc, body, TICKET_BYTES, MAX_SEALED_PRICE_REQUEST)?;
    Ok(Message::PriceAsk { ticket, sealed })
}

fn read_quote(alloc: Global, body: &[u8]) -> Result<Message, BodyFault>
    ensures { reading.ReadsBody result (reading.quote_of body.now) }
{
    let (transaction, sealed) = numbered_text(alloc, body, MAX_SEALED_QUOTE)?;
    Ok(Message::Quote {
        transaction,
        sealed,
    })
}

fn read_goods_ask(alloc: Global, body: &[u8]) -> Result<Message, BodyFault>
    ensures { reading.ReadsBody result (reading.goods_ask_of body.now) }
{
    let (ticket, sealed) = two_texts(alloc, body, TICKET_BYTES, MAX_SEALED_GOODS_REQUEST)?;
    Ok(Message::GoodsAsk { ticket, sealed })
}

#[tactic(auto, unfolding(crate::specs::Reading::goods_of))]
fn read_goods(alloc: Global, body: &[u8]) -> Result<Message, BodyFault>
    ensures { reading.ReadsBody result (reading.goods_of body.now) }
{
    let mut cut = Cut::new(body);
    let transaction = cut.u64()?;
    let head = cut.bytes(MAX_SEALED_HEAD as u32)?;
    let part = cut.bytes(PART_BYTES as u32)?;
    cut.done()?;
    Ok(Message::Goods {
        transaction,
        head: Blob::of(alloc, head)?,
        part: Blob::of(alloc, part)?,
    })
}

fn read_order(alloc: Global, body: &[u8]) -> Result<Message, BodyFault>
    ensures { reading.ReadsBody result (reading.payment_of body.now) }
{
    let (ticket, sealed) = two_texts(alloc, body, TICKET_BYTES, MAX_SEALED_PAYMENT)?;
    Ok(Message::Order { ticket, sealed })
}

fn read_endorsed(alloc: Global, body: &[u8]) -> Result<Message, BodyFault>
    ensures { reading.ReadsBody result (reading.endorsed_message_of body.now) }
{
    let asked = EndorsedBytes::read(body)?;
    Ok(Message::Endorsed {
        merchant: asked.merchant(),
        sealed: Blob::of(alloc, asked.sealed())?,
    })
}

fn read_result(alloc: Global, body: &[u8]) -> Result<Message, BodyFault>
    ensures { reading.ReadsBody result (reading.result_of body.now) }
{
    let (merchant, consumer) = two_texts(alloc, body, RECEIPT_BYTES, RECEIPT_BYTES)?;
    Ok(Message::Result { merchant, consumer })
}

fn read_passed(alloc: Global, body: &[u8]) -> Result<Message, BodyFault>
    ensures { reading.ReadsBody result (reading.passed_of body.now) }
{
    let (transaction, part) = numbered_text(alloc, body, RECEIPT_BYTES)?;
    Ok(Message::Passed { transaction, part })
}

fn read_status(alloc: Global, body: &[u8]) -> Result<Message, BodyFault>
    ensures { reading.ReadsBody result (reading.status_of body.now) }
{
    let sealed = whole(alloc, body, MOST_STATUS)?;
    Ok(Message::Status { sealed })
}

fn read_grant(alloc: Global, body: &[u8]) -> Result<Message, BodyFault>
    ensures { reading.ReadsBody result (reading.grant_of body.now) }
{
    let sealed = whole(alloc, body, GRANT_BYTES)?;
    Ok(Message::Grant { sealed })
}

#[tactic(auto, unfolding(crate::specs::Reading::done_of))]
fn read_done(body: &[u8]) -> Result<Message, BodyFault>
    ensures { reading.ReadsBody result (reading.done_of body.now) }
{
    let mut cut = Cut::new(body);
    let acct = cut.u32()?;
    let at = cut.u64()?;
    let balance = cut.u64()?;
    cut.done()?;
    Ok(Message::Done {
        acct: AcctId(acct),
        at,
        balance,
    })
}

#[tactic(auto, unfolding(crate::specs::Reading::refusal_of))]
fn read_refusal(body: &[u8]) -> Result<Message, BodyFault>
    ensures { reading.ReadsBody result (reading.refusal_of body.now) }
{
    let mut cut = Cut::new(body);
    let code = cut.u8()?;
    let a = cut.u64()?;
    let b = cut.u64()?;
    let x = cut.fixed32()?;
    cut.done()?;
    Ok(Message::Refusal(Refusal { code, a, b, x }))
}

// Two texts, each behind its length.
#[tactic(auto, unfolding(crate::specs::Reading::two_texts_of))]
fn two_texts(
    alloc: Global,
    body: &[u8],
    most_first: usize,
    most_second: usize,
) -> Result<(Blob, Blob), BodyFault>
    requires first { most_first ≤ u32.MAX }
    requires second { most_second ≤ u32.MAX }
    ensures { reading.ReadsBody result (reading.two_texts_of most_first most_second body.now) }
{
    let mut cut = Cut::new(body);
    let first = cut.bytes(most_first as u32)?;
    let second = cut.bytes(most_second as u32)?;
    cut.done()?;
    Ok((Blob::of(alloc, first)?, Blob::of(alloc, second)?))
}

// A purchase's number, and a text behind its length.
#[tactic(auto, unfolding(crate::specs::Reading::numbered_text_of))]
fn numbered_text(alloc: Global, body: &[u8], most: usize) -> Result<(u64, Blob), BodyFault>
    requires { most ≤ u32.MAX }
    ensures { reading.ReadsBody result (reading.numbered_text_of most body.now) }
{
    let mut cut = Cut::new(body);
    let transaction = cut.u64()?;
    let text = cut.bytes(most as u32)?;
    cut.done()?;
    Ok((transaction, Blob::of(alloc, text)?))
}

// A body that is sealed as a whole.
fn whole(alloc: Global, body: &[u8], most: usize) -> Result<Blob, BodyFault>
    ensures { reading.ReadsBody result (reading.whole_of most body.now) }
{
    if body.len() > most {
        return Err(BodyFault::Malformed { place: most });
    }
    Ok(Blob::of(alloc, body)?)
}
