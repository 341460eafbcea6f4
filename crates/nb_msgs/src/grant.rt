ghost use Rattle.std.specs.Prelude.{◌≡◌, ◌<◌, ◌^◌, length};
ghost use Rattle.nb_ticket.specs.declared.granted.TheConstants.{GRANT_BYTES};
ghost use Rattle.nb_ticket.specs.declared.ticket.TheConstants.{TICKET_BYTES};
ghost use Rattle.nb_ticket.specs.Sealed.{sealed_ticket};
ghost use Rattle.nb_ticket.specs.Spelling.{IsTicket};
ghost use Rattle.nb_msgs.specs.ReplyBytes.{grant_frame};

use nb_endorse::{KeptStates, ReplyKeys};
use nb_seal::KeyState;
use nb_ticket::{GRANT_BYTES, GRANT_LABEL, Granted, TICKET_BYTES, TICKET_LABEL, Ticket};
use nb_units::{Buffer, PartyId, Secret, Small};

// The body that grants a ticket, sealed for the consumer.
pub(crate) fn grant_body(
    consumer: PartyId,
    merchant: PartyId,
    nonce: u64,
    until: u64,
    session: &Secret,
    keys: &ReplyKeys,
    kept: &mut KeptStates,
) -> Buffer
    ensures bytes { result ≡ (grant_frame keys.now consumer merchant nonce until session.now).body }
    ensures fits { IsTicket (record { consumer = consumer; merchant = merchant; until = until; session = session.now }) × (nonce < 2 ^ 64) }
    ensures long { length result ≡ GRANT_BYTES }
{
    let ticket = Ticket {
        consumer,
        merchant,
        until,
        session: *session,
    };
    let granted = Granted {
        merchant,
        nonce,
        until,
        session: *session,
        ticket: seal_ticket(&ticket, kept.merchant(merchant, &keys.second)),
    };
    let mut sealed = [0u8; GRANT_BYTES];
    let key = kept.consumer(consumer, &keys.first);
    let _all = key.seal_to(&GRANT_LABEL, granted.spelled().as_slice(), &mut sealed);
    let mut body = Buffer::new();
    body.raw(&sealed);
    body
}

// The ticket that the consumer shows to the merchant, sealed for the merchant.
fn seal_ticket(ticket: &Ticket, key: &KeyState) -> Small
    ensures sealed { result ≡ sealed_ticket key.now ticket.now }
    ensures long { length result ≡ TICKET_BYTES }
{
    let mut sealed = [0u8; TICKET_BYTES];
    let _all = key.seal_to(&TICKET_LABEL, ticket.spelled().as_slice(), &mut sealed);
    Small::of(&sealed).unwrap()
}
