ghost use Rattle.std.specs.Prelude.{◌≡◌, ◌≤◌, length, codes, IfOk};
ghost use Rattle.nb_ticket.specs.declared.ticket.TheConstants.{TICKET_BYTES};
ghost use Rattle.nb_body.specs.declared.limits.TheConstants.{MAX_REQUEST};
ghost use Rattle.nb_body.specs.Reading as body;
ghost use Rattle.nb_msgs.specs.declared.lengths.TheConstants.{MAX_SEALED_PRICE_REQUEST, MAX_SEALED_GOODS_REQUEST, MAX_SEALED_PAYMENT};
ghost use Rattle.nb_msgs.specs.Tests.{opened};
ghost use Rattle.nb_stall.specs.Tests as tests;
ghost use Rattle.nb_stall.specs.Tests.{request_digest};

use crate::stall::Stall;
use nb_body::{GoodsRequest, PaymentRequest, PriceRequest};
use nb_msgs::{
    GOODS_REQUEST_LABEL, MAX_SEALED_GOODS_REQUEST, MAX_SEALED_PAYMENT, MAX_SEALED_PRICE_REQUEST,
    PAYMENT_LABEL, PRICE_REQUEST_LABEL, Reason, unsealed,
};
use nb_seal::{KeyState, sha};
use nb_ticket::{Ticket, open_ticket};
use nb_units::Digest;

/// A request for a price, and the digest of its bytes.
#[derive(Clone, Copy)]
pub struct AskedPrice {
    pub request: PriceRequest,
    /// The SHA-256 (FIPS 180-4) of the request, before it was sealed.
    pub digest: Digest,
}

/// The ticket that the bytes are the seal of, where it is for this merchant and holds at this moment, in seconds since 1970-01-01 00:00 UTC.
/// Answers [`Reason::Seal`] exactly where there is none.
#[tactic(auto, unfolding(crate::specs::Tests::ticket_in))]
pub fn open_for(stall: &Stall, ticket: &[u8], moment: u64) -> Result<Ticket, Reason>
    requires { length ticket.now ≤ TICKET_BYTES }
    ensures { result ≡ tests.ticket_in stall.now ticket.now moment }
{
    match open_ticket(ticket, &stall.key, stall.id, moment) {
        Ok(opened) => Ok(opened),
        Err(_fault) => Err(Reason::Seal),
    }
}

/// The request for a price that is sealed there under the session key, or [`Reason::Seal`] where there is none.
#[tactic(auto, unfolding(nb_msgs::specs::Tests::opened))]
pub fn open_price_request(session: &KeyState, sealed: &[u8]) -> Result<AskedPrice, Reason>
    requires { length sealed.now ≤ MAX_SEALED_PRICE_REQUEST }
    ensures request { opened body.price_request_of session.now (codes "m001") sealed.now ≡ tests.request_in result }
    // The digest is the SHA-256 of the request's bytes.
    ensures digest { IfOk result (λ asked. asked.digest ≡ request_digest asked.request) }
    // What is said in it is not longer than it may be.
    ensures short { IfOk result (λ asked. length asked.request.request ≤ MAX_REQUEST) }
{
    let mut plain = [0u8; MAX_SEALED_PRICE_REQUEST];
    let n = unsealed(session, &PRICE_REQUEST_LABEL, sealed, &mut plain)?;
    let text = plain.split_at(n).0;
    match PriceRequest::read(text) {
        Ok(request) => Ok(AskedPrice {
            request,
            digest: sha(text),
        }),
        Err(_malformed) => Err(Reason::Seal),
    }
}

/// The request for goods that is sealed there under the session key, or [`Reason::Seal`] where there is none.
#[tactic(auto, unfolding(nb_msgs::specs::Tests::opened))]
pub fn open_goods_request(session: &KeyState, sealed: &[u8]) -> Result<GoodsRequest, Reason>
    requires { length sealed.now ≤ MAX_SEALED_GOODS_REQUEST }
    ensures { result ≡ opened body.goods_request_of session.now (codes "m003") sealed.now }
{
    let mut plain = [0u8; MAX_SEALED_GOODS_REQUEST];
    let n = unsealed(session, &GOODS_REQUEST_LABEL, sealed, &mut plain)?;
    match GoodsRequest::read(plain.split_at(n).0) {
        Ok(request) => Ok(request),
        Err(_malformed) => Err(Reason::Seal),
    }
}

/// The order for its merchant that is sealed there under the session key, or [`Reason::Seal`] where there is none.
#[tactic(auto, unfolding(nb_msgs::specs::Tests::opened))]
pub fn open_payment(session: &KeyState, sealed: &[u8]) -> Result<PaymentRequest, Reason>
    requires { length sealed.now ≤ MAX_SEALED_PAYMENT }
    ensures { result ≡ opened body.payment_request_of session.now (codes "m005") sealed.now }
{
    let mut plain = [0u8; MAX_SEALED_PAYMENT];
    let n = unsealed(session, &PAYMENT_LABEL, sealed, &mut plain)?;
    match PaymentRequest::read(plain.split_at(n).0) {
        Ok(request) => Ok(request),
        Err(_malformed) => Err(Reason::Seal),
    }
}
