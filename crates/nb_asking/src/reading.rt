ghost use Rattle.std.specs.Prelude.{◌≡◌, ◌≤◌, length, codes, IfOk, IfSome};
ghost use Rattle.nb_body.specs.Reading.{quote_of, goods_head_of};
ghost use Rattle.nb_endorse.specs.Replies.{ReceiptKeepsRules};
ghost use Rattle.nb_ticket.specs.Reading.{granted_of};
ghost use Rattle.nb_ticket.specs.declared.granted.TheConstants.{GRANT_BYTES};
ghost use Rattle.nb_ticket.specs.declared.ticket.TheConstants.{TICKET_BYTES};
ghost use Rattle.nb_msgs.specs.StatusText.{text_of};
ghost use Rattle.nb_msgs.specs.declared.lengths.TheConstants.{MAX_SEALED_QUOTE, MAX_SEALED_HEAD};
ghost use Rattle.nb_msgs.specs.declared.status.TheConstants.{MOST_STATUS};
ghost use Rattle.nb_msgs.specs.Tests.{opened};

use nb_body::{GoodsHead, Quote};
use nb_msgs::{
    GOODS_HEAD_LABEL, MAX_SEALED_HEAD, MAX_SEALED_QUOTE, MOST_STATUS, QUOTE_LABEL, Reason,
    STATUS_LABEL, StatusText, unsealed,
};
use nb_seal::KeyState;
use nb_ticket::{Granted, open_grant};
use nb_units::Secret;

/// The quote that at most [`MAX_SEALED_QUOTE`] bytes are the seal of under the session key, or [`Reason::Seal`] where they do not open to one.
#[tactic(auto, unfolding(nb_msgs::specs::Tests::opened))]
pub fn open_quote(session: &Secret, sealed: &[u8]) -> Result<Quote, Reason>
    requires { length sealed.now ≤ MAX_SEALED_QUOTE }
    ensures { result ≡ opened quote_of session.now (codes "m002") sealed.now }
{
    let mut plain = [0u8; MAX_SEALED_QUOTE];
    let n = unsealed(&KeyState::new(session), &QUOTE_LABEL, sealed, &mut plain)?;
    match Quote::read(plain.split_at(n).0) {
        Ok(quote) => Ok(quote),
        Err(_) => Err(Reason::Seal),
    }
}

/// What is said of a part of goods, of which at most [`MAX_SEALED_HEAD`] bytes are the seal under the session key, or [`Reason::Seal`] where they do not
/// open to that.
#[tactic(auto, unfolding(nb_msgs::specs::Tests::opened))]
pub fn open_head(session: &Secret, sealed: &[u8]) -> Result<GoodsHead, Reason>
    requires { length sealed.now ≤ MAX_SEALED_HEAD }
    ensures { result ≡ opened goods_head_of session.now (codes "m004") sealed.now }
{
    let mut plain = [0u8; MAX_SEALED_HEAD];
    let n = unsealed(
        &KeyState::new(session),
        &GOODS_HEAD_LABEL,
        sealed,
        &mut plain,
    )?;
    match GoodsHead::read(plain.split_at(n).0) {
        Ok(head) => Ok(head),
        Err(_) => Err(Reason::Seal),
    }
}

/// The status that at most [`MOST_STATUS`] bytes are the house's seal of under the consumer's key, or [`Reason::Seal`] where they do not open to one.
#[tactic(auto, unfolding(nb_msgs::specs::Tests::opened))]
pub fn open_status(key: &Secret, sealed: &[u8]) -> Result<StatusText, Reason>
    requires { length sealed.now ≤ MOST_STATUS }
    ensures opened { result ≡ opened text_of key.now (codes "stat") sealed.now }
    // A receipt in it keeps the rules.
    ensures lawful { IfOk result (λ t. IfSome t.receipt (λ s. ReceiptKeepsRules s.receipt)) }
{
    let mut plain = [0u8; MOST_STATUS];
    let n = unsealed(&KeyState::new(key), &STATUS_LABEL, sealed, &mut plain)?;
    match StatusText::read(plain.split_at(n).0) {
        Ok(text) => Ok(text),
        Err(_) => Err(Reason::Seal),
    }
}

/// The grant that at most [`GRANT_BYTES`](nb_ticket::GRANT_BYTES) bytes are the house's seal of under the consumer's key, or [`Reason::Seal`] where they
/// do not open to one.
pub fn open_granted(key: &Secret, sealed: &[u8]) -> Result<Granted, Reason>
    requires { length sealed.now ≤ GRANT_BYTES }
    ensures opened { result ≡ opened granted_of key.now (codes "gran") sealed.now }
    ensures short { IfOk result (λ g. length g.ticket ≤ TICKET_BYTES) }
{
    match open_grant(sealed, key) {
        Ok(granted) => Ok(granted),
        Err(_) => Err(Reason::Seal),
    }
}
