// Records that are signed: orders, requests for tickets, receipts, and the status that has one.

ghost use Rattle.std.specs.Prelude.{◌≤◌, length, IfOk, IfSome};
ghost use Rattle.nb_units.specs.declared.limits.TheConstants.{MAX_HIDDEN};
ghost use Rattle.nb_endorse.specs.Replies.{ReceiptKeepsRules};

use crate::messages;
use crate::telling::{self, back};
use nb_endorse::{Signed, read_signed, receipt_tag_ok, sign_receipt};
use nb_epo::{Order, order_tag_ok, read_order, sign_order, write_order};
use nb_lines::Told;
use nb_msgs::{BodyFault, StatusText};
use nb_seal::KeyState;
use nb_ticket::{TicketAsk, request, request_ok, request_ok_with};
use nb_units::{MAX_ORDER, Malformed, NoMemory, PartyId, room};
use std::alloc::Global;

/// The record of this name, or the message of this kind, that the bytes spell, in words.
pub fn read(told: &mut Told, name: &str, bytes: &[u8]) -> Result<(), BodyFault> {
    match name {
        "order" => order(told, bytes),
        "ticket-request" => ticket_request(told, bytes),
        "receipt" => receipt(told, bytes),
        "status" => status(told, bytes),
        _ => messages::read(told, name, bytes),
    }
}

fn order(told: &mut Told, bytes: &[u8]) -> Result<(), BodyFault> {
    let read = read_order(bytes)?;
    let parties = (read.consumer, read.merchant);
    let terms = (read.product, read.price, read.epoid);
    let digests = (read.checksum, read.request, read.account);
    let fields = (parties, terms, digests, read.hidden.as_slice(), read.tag);
    let spelled = spelled_order(told.alloc(), &read)?;
    back(told, &fields, spelled.as_slice() == bytes);
    Ok(())
}

fn spelled_order(alloc: Global, order: &Order) -> Result<Vec<u8>, NoMemory>
    requires { length order.now.hidden ≤ MAX_HIDDEN }
{
    let mut spelled = Vec::new(alloc);
    room(&mut spelled, MAX_ORDER)?;
    write_order(order, &mut spelled);
    Ok(spelled)
}

fn ticket_request(told: &mut Told, bytes: &[u8]) -> Result<(), BodyFault> {
    let read = TicketAsk::read(bytes)?;
    back(told, &read, read.spelled().as_slice() == bytes);
    Ok(())
}

fn receipt(told: &mut Told, bytes: &[u8]) -> Result<(), BodyFault> {
    let read = lawful(bytes)?;
    back(told, &read, read.spelled().as_slice() == bytes);
    Ok(())
}

fn status(told: &mut Told, bytes: &[u8]) -> Result<(), BodyFault> {
    let read = lawful_status(bytes)?;
    back(told, &read, read.spelled().as_slice() == bytes);
    Ok(())
}

// The receipt and its tag that the bytes spell, and the status that they spell.
pub(crate) fn lawful(bytes: &[u8]) -> Result<Signed, Malformed>
    ensures { IfOk result (λ s. ReceiptKeepsRules s.receipt) }
{
    read_signed(bytes)
}

fn lawful_status(bytes: &[u8]) -> Result<StatusText, Malformed>
    ensures { IfOk result (λ t. IfSome t.receipt (λ s. ReceiptKeepsRules s.receipt)) }
{
    StatusText::read(bytes)
}

/// `sign-receipt HOUSE RECEIPT`: the tag that a receipt has under the house's key, and whether it stands behind it.
pub fn sign(told: &mut Told, words: &[&str]) -> Result<(), NoMemory> {
    let alloc = told.alloc();
    let [house, bytes] = words else {
        return told.unclear();
    };
    let house = telling::key(alloc, *house);
    match lawful(&nb_lines::spelled(alloc, *bytes)) {
        Ok(signed) => {
            let tag = sign_receipt(&signed.receipt, &house).tag;
            tagged(told, &tag, receipt_tag_ok(&signed, &house))
        }
        Err(_) => told.unclear(),
    }
}

/// `sign-order KEY ORDER`: the tag that an order has under the consumer's key, and whether it stands behind it.
pub fn sign_anew(told: &mut Told, words: &[&str]) -> Result<(), NoMemory> {
    let alloc = told.alloc();
    let [key, bytes] = words else {
        return told.unclear();
    };
    let key = telling::key(alloc, *key);
    match read_order(&nb_lines::spelled(alloc, *bytes)) {
        Ok(order) => {
            let mut again = order;
            sign_order(&mut again, &key);
            tagged(told, &again.tag, order_tag_ok(&order, &key))
        }
        Err(_) => told.unclear(),
    }
}

fn tagged(told: &mut Told, tag: &[u8; 32], stands: bool) -> Result<(), NoMemory> {
    told.hex("tag ", tag).show("; stands: ", &stands).done()
}

/// `ask KEY CONSUMER MERCHANT NONCE`: a request for a ticket, signed under the consumer's key.
pub fn ask(told: &mut Told, words: &[&str]) -> Result<(), NoMemory> {
    let alloc = told.alloc();
    let [key, consumer, merchant, nonce] = words else {
        return told.unclear();
    };
    let consumer = PartyId(telling::short(*consumer));
    let merchant = PartyId(telling::short(*merchant));
    let key = telling::key(alloc, *key);
    let ask = request(&key, consumer, merchant, nb_lines::number(*nonce));
    told.bytes("", ask.spelled().as_slice()).done()
}

/// `asked KEY REQUEST`: whether the tag of a request for a ticket is right under the key, as both tests of it answer.
pub fn asked(told: &mut Told, words: &[&str]) -> Result<(), NoMemory> {
    let alloc = told.alloc();
    let [key, bytes] = words else {
        return told.unclear();
    };
    let key = telling::key(alloc, *key);
    match TicketAsk::read(&nb_lines::spelled(alloc, *bytes)) {
        Ok(ask) => {
            let is_right_too = request_ok_with(&ask, &KeyState::new(&key));
            told.show("right: ", &request_ok(&ask, &key))
                .show(", ", &is_right_too)
                .done()
        }
        Err(_) => told.unclear(),
    }
}
