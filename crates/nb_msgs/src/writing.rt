ghost use Rattle.std.specs.Prelude.{◌≡◌, ◌≤◌, ◌<◌, ◌+◌, ◌^◌, ◌++◌, length, vec_capacity, IsOk, OnOk, OnErr};
ghost use Rattle.nb_units.specs.Room.{spare_of};
ghost use Rattle.nb_units.specs.Fields.{be4, be8, sized};
ghost use Rattle.nb_units.specs.declared.frames.TheConstants.{HEADER};
ghost use Rattle.nb_body.specs.declared.limits.TheConstants.{MAX_ENDORSED};
ghost use Rattle.nb_goods.specs.declared.limits.TheConstants.{PART_BYTES};
ghost use Rattle.nb_body.specs.Spelling.{endorsed_bytes, IsEndorsedOrder};
ghost use Rattle.nb_msgs.specs.declared.lengths.TheConstants.{MAX_SEALED_HEAD, MOST_FRONT};
ghost use Rattle.nb_msgs.specs.Bodies as bodies;

use crate::message::Message;
use crate::reply::{done_body, refusal_body};
use nb_body::EndorsedOrder;
use nb_frame::write_header;
use nb_units::frames::HEADER;
use nb_units::{Blob, Buffer, NoMemory, PartyId};

/// Appends the frame of a message. No text in it may be longer than its limit, a role must be one of the two, and an amount in its
/// range. Where there is no memory for the frame, nothing is appended and no room is taken. A part of goods is copied once.
pub fn write_message(m: &Message, out: &mut Vec<u8>) -> Result<(), NoMemory>
    requires lawful { bodies.MessageKeepsRules m.now }
    // After Ok the message's one frame is appended.
    ensures ok { OnOk result (out.new.items ≡ out.old.items ++ bodies.message_bytes m.now) }
    ensures fits { bodies.IsMessage m.now }

    // Where it fails all is as before, and it fails only where the room for the frame was missing.
    ensures err { OnErr result ((out.new.items ≡ out.old.items) × (vec_capacity out.new ≡ vec_capacity out.old)) }
    // Where there is room for the frame, it is Ok.
    ensures had { length (bodies.message_bytes m.now) ≤ spare_of out.old → IsOk result }
{
    let front = front_of(m);
    let front = front.as_slice();
    let part = part_of(m);
    out.reserve(HEADER + front.len() + part.len())?;
    write_header(m.kind(), (front.len() + part.len()) as u32, out);
    out.extend_from_slice(front).unwrap();
    out.extend_from_slice(part).unwrap();
    Ok(())
}

// The part of goods at the end of a message's body, where it has one.
fn part_of(m: &Message) -> &[u8]
    requires { bodies.MessageKeepsRules m.now }
    ensures bytes { result.now ≡ bodies.part_in m.now }
    ensures short { length result.now ≤ PART_BYTES }
{
    match m {
        Message::Goods { part, .. } => part.as_slice(),
        _ => &[],
    }
}

// The body of a message without that part.
fn front_of(m: &Message) -> Buffer
    requires { bodies.MessageKeepsRules m.now }
    ensures bytes { bodies.body_bytes m.now ≡ result ++ bodies.part_in m.now }
    ensures fits { bodies.IsMessage m.now }
    ensures short { length result ≤ MOST_FRONT }
{
    match m {
        Message::PriceAsk { ticket, sealed } => two_texts(ticket, sealed),
        Message::Quote {
            transaction,
            sealed,
        } => numbered_text(*transaction, sealed),
        Message::GoodsAsk { ticket, sealed } => two_texts(ticket, sealed),
        Message::Goods {
            transaction,
            head,
            part,
        } => goods_front(*transaction, head, part),
        Message::Order { ticket, sealed } => two_texts(ticket, sealed),
        Message::Endorsed { merchant, sealed } => endorsed(*merchant, sealed),
        Message::Result { merchant, consumer } => two_texts(merchant, consumer),
        Message::Passed { transaction, part } => numbered_text(*transaction, part),
        Message::StatusAsk(query) => query.spelled(),
        Message::Status { sealed } => whole(sealed),
        Message::TicketAsk(ask) => ask.spelled(),
        Message::Grant { sealed } => whole(sealed),
        Message::Enrol(enrolment) => enrolment.spelled(),
        Message::Fund(funding) => funding.spelled(),
        Message::Done { acct, at, balance } => done_body(*acct, *at, *balance),
        Message::Refusal(refusal) => refusal_body(refusal),
    }
}

// Two texts, each behind its length.
fn two_texts(first: &Blob, second: &Blob) -> Buffer
    requires { 4 + length first.now + (4 + length second.now) ≤ MOST_FRONT }
    ensures bytes { result ≡ sized first.now ++ sized second.now }
{
    let mut bytes = Buffer::new();
    bytes.bytes(first.as_slice());
    bytes.bytes(second.as_slice());
    bytes
}

// A purchase's number, and a text behind its length.
fn numbered_text(transaction: u64, text: &Blob) -> Buffer
    requires { 8 + (4 + length text.now) ≤ MOST_FRONT }
    ensures bytes { result ≡ be8 transaction ++ sized text.now }
    ensures fits { transaction < 2 ^ 64 }
{
    let mut bytes = Buffer::new();
    bytes.u64(transaction);
    bytes.bytes(text.as_slice());
    bytes
}

// A body of goods before the part, whose length is the last of it.
fn goods_front(transaction: u64, head: &Blob, part: &Blob) -> Buffer
    requires head { length head.now ≤ MAX_SEALED_HEAD }
    requires part { length part.now ≤ PART_BYTES }
    ensures bytes { result ≡ be8 transaction ++ sized head.now ++ be4 (length part.now) }
    ensures fits { transaction < 2 ^ 64 }
{
    let mut bytes = Buffer::new();
    bytes.u64(transaction);
    bytes.bytes(head.as_slice());
    bytes.u32(part.as_slice().len() as u32);
    bytes
}

// An order that a merchant endorsed.
fn endorsed(merchant: PartyId, sealed: &Blob) -> Buffer
    requires { length sealed.now ≤ MAX_ENDORSED }
    ensures bytes { result ≡ endorsed_bytes (record { merchant = merchant; sealed = sealed.now }) }
    ensures fits { IsEndorsedOrder (record { merchant = merchant; sealed = sealed.now }) }
    ensures short { length result ≤ MOST_FRONT }
{
    let mut text = Buffer::new();
    text.raw(sealed.as_slice());
    let asked = EndorsedOrder {
        merchant,
        sealed: text,
    };
    asked.spelled()
}

// A body that is sealed as a whole.
fn whole(sealed: &Blob) -> Buffer
    requires { length sealed.now ≤ MOST_FRONT }
    ensures bytes { result ≡ sealed.now }
{
    let mut bytes = Buffer::new();
    bytes.raw(sealed.as_slice());
    bytes
}
