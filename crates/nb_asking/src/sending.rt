ghost use Rattle.std.specs.Prelude.{◌≡◌, ◌≤◌, ◌+◌, ◌++◌, length, codes, IfOk};
ghost use Rattle.nb_units.specs.declared.limits.TheConstants.{MAX_HIDDEN};
ghost use Rattle.nb_body.specs.declared.limits.TheConstants.{MAX_REQUEST};
ghost use Rattle.nb_seal.specs.Hmac.{hmac_of};
ghost use Rattle.nb_seal.specs.Seal.{seal_of};
ghost use Rattle.nb_asking.specs.Messages as messages;
ghost use Rattle.nb_msgs.specs.Bodies.{MessageKeepsRules};
ghost use Rattle.nb_wallet.specs.Spelling.{PassKeepsRules};

use nb_body::{GoodsRequest, PaymentRequest, StatusQuery};
use nb_epo::Order;
use nb_msgs::{
    GOODS_REQUEST_LABEL, Message, PAYMENT_LABEL, PRICE_REQUEST_LABEL, STATUS_LABEL, sealed,
};
use nb_seal::{KeyState, hmac};
use nb_ticket::request;
use nb_units::{Blob, Buffer, Epoid, NoMemory};
use nb_wallet::{SessionTicket, Start, Wallet, order_text, price_text};
use std::alloc::Global;

/// A request for a ticket, whose nonce is the number of the purchase.
pub fn ticket_request(wallet: &Wallet, start: &Start) -> Message
    ensures { result ≡ messages.ticket_request wallet.now start.now }
{
    Message::TicketAsk(request(&wallet.key, wallet.id, start.merchant, start.transaction))
}

// The ticket, to be shown to its merchant.
fn ticket(alloc: Global, pass: &SessionTicket) -> Result<Blob, NoMemory>
    ensures { IfOk result (λ ticket. ticket ≡ pass.now.ticket) }
{
    Blob::of(alloc, pass.ticket.as_slice())
}

/// A request for a price, sealed under the session key, with the ticket. Answers [`NoMemory`] where there is none for it.
pub fn price_request(
    alloc: Global,
    pass: &SessionTicket,
    start: &Start,
) -> Result<Message, NoMemory>
    // The request is not longer than it may be.
    requires request { length start.now.request ≤ MAX_REQUEST }
    // Nor is the ticket.
    requires pass { PassKeepsRules pass.now }
    // The message, or there was no memory.
    ensures message { IfOk result (λ message. message ≡ messages.price_request pass.now start.now) }
    ensures lawful { IfOk result MessageKeepsRules }
{
    let session = KeyState::new(&pass.session);
    let text = price_text(start);
    let sealed = sealed(alloc, &session, &PRICE_REQUEST_LABEL, text.as_slice())?;
    let ticket = ticket(alloc, pass)?;
    Ok(Message::PriceAsk { ticket, sealed })
}

/// A request for the sealed goods from a place on, counted in bytes, 8 bytes wide. Answers [`NoMemory`] where there is none for it.
pub fn goods_request(
    alloc: Global,
    pass: &SessionTicket,
    start: &Start,
    place: u64,
) -> Result<Message, NoMemory>
    requires pass { PassKeepsRules pass.now }
    // The message, or there was no memory.
    ensures message { IfOk result (λ message. message ≡ messages.goods_request pass.now start.now place) }
    ensures lawful { IfOk result MessageKeepsRules }
{
    let request = GoodsRequest {
        transaction: start.transaction,
        place,
    };
    let session = KeyState::new(&pass.session);
    let text = request.spelled();
    let sealed = sealed(alloc, &session, &GOODS_REQUEST_LABEL, text.as_slice())?;
    let ticket = ticket(alloc, pass)?;
    Ok(Message::GoodsAsk { ticket, sealed })
}

/// An order for its merchant, sealed under the session key, with the ticket. Answers [`NoMemory`] where there is none for it.
pub fn payment(
    alloc: Global,
    pass: &SessionTicket,
    start: &Start,
    order: &Order,
) -> Result<Message, NoMemory>
    // The hidden part is not longer than it may be.
    requires hidden { length order.now.hidden ≤ MAX_HIDDEN }
    // Nor is the ticket.
    requires pass { PassKeepsRules pass.now }
    // The message, or there was no memory.
    ensures message { IfOk result (λ message. message ≡ messages.payment pass.now start.now order.now) }
    ensures lawful { IfOk result MessageKeepsRules }
{
    let request = PaymentRequest {
        transaction: start.transaction,
        order: order_text(alloc, order)?,
    };
    let session = KeyState::new(&pass.session);
    let text = request.spelled();
    let sealed = sealed(alloc, &session, &PAYMENT_LABEL, text.as_slice())?;
    let ticket = ticket(alloc, pass)?;
    Ok(Message::Order { ticket, sealed })
}

// The body of a status query before its tag.
#[tactic(auto, unfolding(crate::specs::Messages::untagged_query))]
fn untagged(wallet: &Wallet, epoid: Epoid, least: u64) -> Buffer
    ensures { result ≡ messages.untagged_query wallet.now epoid least }
{
    let mut bytes = Buffer::new();
    bytes.u32(wallet.id.0);
    bytes.raw(&epoid.write());
    bytes.u64(least);
    bytes
}

/// A query for the status of the order with this identifier, over at least so many entries, 8 bytes wide.
pub fn status_query(wallet: &Wallet, epoid: Epoid, least: u64) -> Message
    ensures { result ≡ messages.status_query wallet.now epoid least }
{
    Message::StatusAsk(StatusQuery {
        asker: wallet.id,
        epoid,
        least,
        tag: hmac(
            &wallet.key,
            &STATUS_LABEL,
            untagged(wallet, epoid, least).as_slice(),
        ),
    })
}
