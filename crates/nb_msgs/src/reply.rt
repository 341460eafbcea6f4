ghost use Rattle.std.specs.Prelude.{◌≡◌, ◌≤◌, ◌<◌, ◌+◌, ◌^◌, ◌++◌, codes, length, vec_capacity, vec_len, IfSome};
ghost use Rattle.nb_seal.specs.Seal.{seal_of};
ghost use Rattle.nb_units.specs.Fields.{be4};
ghost use Rattle.nb_units.specs.Room.{spare_of};
ghost use Rattle.nb_units.specs.declared.width.TheConstants.{LENGTH};
ghost use Rattle.nb_endorse.specs.declared.receipt.TheConstants.{RECEIPT_BYTES};
ghost use Rattle.nb_units.specs.declared.frames.TheConstants.{HEADER};
ghost use Rattle.nb_units.specs.Epoid.{IsEpoid};
ghost use Rattle.nb_endorse.specs.declared.reply.Reply.TheVariants as reply;
ghost use Rattle.nb_endorse.specs.Replies.{HasLawfulReceipts, ReceiptKeepsRules};
ghost use Rattle.nb_endorse.specs.Spelling.{IsReceipt, IsSigned, signed_bytes};
ghost use Rattle.nb_endorse.specs.Tags.{signed_receipt};
ghost use Rattle.nb_msgs.specs.Bodies.{IsRefusal};
ghost use Rattle.nb_msgs.specs.Limits.{ReplyLimitsAre};
ghost use Rattle.nb_msgs.specs.ReplyBytes as layout;
ghost use Rattle.nb_msgs.specs.ReplyMessages.{IsReply};
ghost use Rattle.nb_msgs.specs.declared.reply.TheConstants.{MOST_BODY, REPLY_ROOM, LONGEST_REPLY};
ghost use Rattle.nb_msgs.specs.declared.status.TheConstants.{MOST_STATUS};

use crate::grant::grant_body;
use crate::labels::STATUS_LABEL;
use crate::status::StatusText;
use nb_endorse::{
    KeptStates, RECEIPT_BYTES, Receipt, Refusal, Reply, ReplyKeys, Signed, sign_receipt_with,
    write_receipt_with,
};
use nb_frame::{write_frame, write_header};
use nb_seal::KeyState;
use nb_units::frames::{
    DONE_REPLY, GRANT_REPLY, HEADER, REFUSED_REPLY, RESULT_REPLY, STATUS_REPLY,
};
use nb_units::width::{LENGTH, SEAL};
use nb_units::{AcctId, Buffer, Epoid, Pen, Secret};

/// The room that is asked for a reply's frame.
pub const REPLY_ROOM: usize = 512;

/// The most bytes that a reply's frame has.
pub const LONGEST_REPLY: usize = HEADER + MOST_BODY;

// The most bytes of a reply's body: those of a result, two sealed receipts, each behind its length.
const MOST_BODY: usize = 2 * (LENGTH + RECEIPT_BYTES);

/// Appends the frame of a reply, which needs room for [`REPLY_ROOM`] bytes and takes no memory. A result, a status and a
/// grant are sealed under the keys, and the receipts in them are signed. Each receipt must have a code that receipts have, a
/// key exactly where it says paid, and then nothing that is shown.
pub fn write_reply(reply: &Reply, keys: &ReplyKeys, out: &mut Vec<u8>)
    requires lawful { HasLawfulReceipts reply.now }
    requires room { REPLY_ROOM ≤ spare_of out.old }
    // The reply's one frame is appended. Receipts are signed under the house's key. Sealed for one party, under its key, are each receipt of a result, a
    // whole status, a whole grant and the ticket in it.
    ensures bytes { out.new.items ≡ out.old.items ++ layout.reply_bytes keys.now reply.now }
    ensures fits { IsReply reply.now }
    // That frame has at most 350 bytes.
    ensures short { length (layout.reply_bytes keys.now reply.now) ≤ LONGEST_REPLY }
    ensures room { vec_capacity out.new ≡ vec_capacity out.old }
{
    write_reply_with(reply, keys, &mut KeptStates::none(), out);
}

// Appends the frame of a reply as `write_reply` does, with the states of keys that are kept. A state that is not is made, and is kept then.
pub(crate) fn write_reply_with(
    reply: &Reply,
    keys: &ReplyKeys,
    kept: &mut KeptStates,
    out: &mut Vec<u8>,
)
    requires lawful { HasLawfulReceipts reply.now }
    requires room { REPLY_ROOM ≤ spare_of out.old }
    ensures bytes { out.new.items ≡ out.old.items ++ layout.reply_bytes keys.now reply.now }
    ensures fits { IsReply reply.now }
    ensures short { length (layout.reply_bytes keys.now reply.now) ≤ LONGEST_REPLY }
    ensures room { vec_capacity out.new ≡ vec_capacity out.old }
{
    match reply {
        Reply::Result { merchant, consumer } => write_result(merchant, consumer, keys, kept, out),
        Reply::Status {
            place,
            epoid,
            receipt,
        } => write_status(*place, epoid, receipt, keys, kept, out),
        Reply::Grant {
            consumer,
            merchant,
            nonce,
            until,
            session,
        } => {
            let body = grant_body(*consumer, *merchant, *nonce, *until, session, keys, kept);
            write_frame(GRANT_REPLY, body.as_slice(), out);
        }
        Reply::Done { acct, at, balance } => {
            write_frame(DONE_REPLY, done_body(*acct, *at, *balance).as_slice(), out);
        }
        Reply::Refused(refusal) => {
            write_frame(REFUSED_REPLY, refusal_body(refusal).as_slice(), out);
        }
    }
}

// Appends the frame that gives each party its receipt, signed by the house and sealed in its place behind the header. Receipts that are
// equal, as those of a payment, are signed once.
fn write_result(
    merchant: &Receipt,
    consumer: &Receipt,
    keys: &ReplyKeys,
    kept: &mut KeptStates,
    out: &mut Vec<u8>,
)
    requires merchant { ReceiptKeepsRules merchant.now }
    requires consumer { ReceiptKeepsRules consumer.now }
    requires room { REPLY_ROOM ≤ spare_of out.old }
    ensures bytes { out.new.items ≡ out.old.items ++ layout.reply_bytes keys.now (reply.Result merchant.now consumer.now) }
    ensures fits { IsReceipt merchant.now × IsReceipt consumer.now }
    ensures short { length (layout.reply_bytes keys.now (reply.Result merchant.now consumer.now)) ≤ LONGEST_REPLY }
    ensures room { vec_capacity out.new ≡ vec_capacity out.old }
{
    let house = kept.house(&keys.house);
    let first = sign_receipt_with(merchant, house);
    let other = sign_other(&first, consumer, house);
    write_header(RESULT_REPLY, MOST_BODY as u32, out);
    write_length(out);
    write_receipt_with(&first, kept.merchant(merchant.merchant, &keys.first), out);
    write_length(out);
    write_other(
        &first,
        &other,
        kept.consumer(consumer.consumer, &keys.second),
        out,
    );
}

// The other receipt with its tag, where it is not the first one again.
fn sign_other(first: &Signed, receipt: &Receipt, house: &KeyState) -> Option<Signed>
    requires signed { first.now ≡ signed_receipt house.now first.now.receipt }
    ensures { layout.or_first first.now result ≡ signed_receipt house.now receipt.now }
{
    if *receipt == first.receipt {
        None
    } else {
        Some(sign_receipt_with(receipt, house))
    }
}

// Appends the other receipt, sealed.
fn write_other(first: &Signed, other: &Option<Signed>, key: &KeyState, out: &mut Vec<u8>)
    requires lawful { ReceiptKeepsRules (layout.or_first first.now other.now).receipt }
    requires room { RECEIPT_BYTES ≤ spare_of out.old }
    ensures bytes { out.new.items ≡ out.old.items ++ seal_of key.now (codes "rcpt") (signed_bytes (layout.or_first first.now other.now)) }
    ensures fits { IsSigned (layout.or_first first.now other.now) }
    ensures long { vec_len out.new ≡ vec_len out.old + RECEIPT_BYTES }
    ensures room { vec_capacity out.new ≡ vec_capacity out.old }
{
    match other {
        Some(second) => write_receipt_with(second, key, out),
        None => write_receipt_with(first, key, out),
    }
}

// The length of a sealed receipt, before it.
fn write_length(out: &mut Vec<u8>)
    requires { LENGTH ≤ spare_of out.old }
    ensures bytes { out.new.items ≡ out.old.items ++ be4 RECEIPT_BYTES }
    ensures room { vec_capacity out.new ≡ vec_capacity out.old }
{
    let mut pen = Pen::over(out);
    pen.u32(RECEIPT_BYTES as u32);
}

// Appends the frame of a status, which is sealed for who asked in its place behind the header.
fn write_status(
    place: u64,
    epoid: &Epoid,
    receipt: &Option<Receipt>,
    keys: &ReplyKeys,
    kept: &mut KeptStates,
    out: &mut Vec<u8>,
)
    requires lawful { IfSome receipt.now ReceiptKeepsRules }
    requires room { REPLY_ROOM ≤ spare_of out.old }
    ensures bytes { out.new.items ≡ out.old.items ++ layout.reply_bytes keys.now (reply.Status place epoid.now receipt.now) }
    ensures fits { (place < 2 ^ 64) × IsEpoid epoid.now × IfSome receipt.now IsReceipt }
    ensures short { length (layout.reply_bytes keys.now (reply.Status place epoid.now receipt.now)) ≤ HEADER + MOST_STATUS }
    ensures room { vec_capacity out.new ≡ vec_capacity out.old }
{
    let text = told(place, epoid, receipt, &keys.house, kept).spelled();
    write_header(STATUS_REPLY, (SEAL + text.as_slice().len()) as u32, out);
    kept.asker(&keys.first)
        .seal_spare(&STATUS_LABEL, text.as_slice(), out);
}

// What is told of an order. A receipt is signed by the house.
fn told(
    place: u64,
    epoid: &Epoid,
    receipt: &Option<Receipt>,
    house: &Secret,
    kept: &mut KeptStates,
) -> StatusText
    requires { IfSome receipt.now ReceiptKeepsRules }
    ensures told { result ≡ layout.told_status house.now place epoid.now receipt.now }
    ensures lawful { IfSome result.receipt (λ s. ReceiptKeepsRules s.receipt) }
{
    let epoid = *epoid;
    match receipt {
        None => StatusText {
            place,
            epoid,
            receipt: None,
        },
        Some(receipt) => StatusText {
            place,
            epoid,
            receipt: Some(sign_receipt_with(receipt, kept.house(house))),
        },
    }
}

// The body that says what was done.
pub(crate) fn done_body(acct: AcctId, at: u64, balance: u64) -> Buffer
    ensures bytes { result ≡ (layout.done_frame acct at balance).body }
    ensures fits { (acct.0 < 2 ^ 32) × (at < 2 ^ 64) × (balance < 2 ^ 64) }
    ensures short { length result ≤ MOST_BODY }
{
    let mut body = Buffer::new();
    body.u32(acct.0);
    body.u64(at);
    body.u64(balance);
    body
}

// The body that refuses.
pub(crate) fn refusal_body(refusal: &Refusal) -> Buffer
    ensures bytes { result ≡ (layout.refusal_frame refusal.now).body }
    ensures fits { IsRefusal refusal.now }
    ensures short { length result ≤ MOST_BODY }
{
    let mut body = Buffer::new();
    body.u8(refusal.code);
    body.u64(refusal.a);
    body.u64(refusal.b);
    body.raw(&refusal.x);
    body
}

/// A law: the limits of replies in numbers.
pub fn limits()
    ensures { ReplyLimitsAre }
{}
