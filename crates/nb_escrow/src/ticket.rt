ghost use Rattle.std.specs.Prelude.{◌≡◌, IfOk, IsNone};
ghost use Rattle.nb_endorse.specs.Replies.{HasLawfulReceipts};
ghost use Rattle.nb_ticket.specs.Keys.{ask_tag};
ghost use Rattle.nb_escrow.specs.Checks.{right_tag};
ghost use Rattle.nb_escrow.specs.Grants.{grant_of};
ghost use Rattle.nb_escrow.specs.Tickets.{ticket_steps};

use crate::checks::find_party_as;
use crate::decision::Decision;
use crate::head::Head;
use nb_book::{Book, Party};
use nb_endorse::refusal::WRONG_TAG;
use nb_endorse::{KeptStates, Refusal, Reply, ReplyKeys};
use nb_entry::{CONSUMER, MERCHANT};
use nb_seal::KeyState;
use nb_ticket::{TicketAsk, request_ok_with, session_key_with, until};

// The tests of a request for a ticket, in order.
#[tactic(auto, unfolding(crate::specs::Tickets::ticket_steps))]
pub(crate) fn decide_ticket(
    book: &Book,
    head: &Head,
    body: &[u8],
    moment: u64,
    kept: &mut KeptStates,
) -> Result<Decision, Refusal>
    ensures steps { result ≡ ticket_steps book.now.entries head.now body.now moment }
    ensures none { IfOk result (λ decision. IsNone decision.entry) }
    ensures receipts { IfOk result (λ decision. HasLawfulReceipts decision.reply) }
{
    let asked = TicketAsk::read(body)?;
    let consumer = find_party_as(book, CONSUMER, asked.consumer)?;
    check_request_tag(&asked, kept.consumer(asked.consumer, &consumer.key))?;
    let merchant = find_party_as(book, MERCHANT, asked.merchant)?;
    let reply = granted(&asked, kept.house(&head.house), moment);
    Ok(Decision {
        reply,
        keys: keys_of(head, &consumer, &merchant),
        entry: None,
    })
}

// The keys of a grant: it is sealed under the consumer's, and the ticket in it under the merchant's.
fn keys_of(head: &Head, consumer: &Party, merchant: &Party) -> ReplyKeys
    ensures { result ≡ record { house = head.now.house; first = consumer.now.key; second = merchant.now.key } }
{
    ReplyKeys {
        house: head.house,
        first: consumer.key,
        second: merchant.key,
    }
}

#[tactic(auto, unfolding(crate::specs::Checks::right_tag))]
fn check_request_tag(asked: &TicketAsk, key: &KeyState) -> Result<(), Refusal>
    ensures { result ≡ right_tag asked.now.tag (ask_tag key.now asked.now.consumer asked.now.merchant asked.now.nonce) }
{
    if request_ok_with(asked, key) {
        Ok(())
    } else {
        Err(Refusal::with(WRONG_TAG, &asked.tag))
    }
}

// What is granted at a moment, with a session key that the house's makes.
fn granted(asked: &TicketAsk, house: &KeyState, moment: u64) -> Reply
    ensures { result ≡ grant_of house.now asked.now moment }
{
    Reply::Grant {
        consumer: asked.consumer,
        merchant: asked.merchant,
        nonce: asked.nonce,
        until: until(moment),
        session: session_key_with(house, asked.consumer, asked.merchant, asked.nonce, moment),
    }
}
