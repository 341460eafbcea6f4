// Tickets and grants.

use crate::telling;
use nb_lines::Told;
use nb_ticket::{
    GRANT_BYTES, Granted, TICKET_BYTES, Ticket, grant, open_grant, open_ticket, session_key, until,
    write_ticket,
};
use nb_units::{NoMemory, PartyId, Small};

/// `session HOUSE CONSUMER MERCHANT NONCE MOMENT`: the key that the two share.
pub fn session(told: &mut Told, words: &[&str]) -> Result<(), NoMemory> {
    let alloc = told.alloc();
    let [house, consumer, merchant, nonce, moment] = words else {
        return told.unclear();
    };
    let key = session_key(
        &telling::key(alloc, *house),
        PartyId(telling::short(*consumer)),
        PartyId(telling::short(*merchant)),
        nb_lines::number(*nonce),
        nb_lines::number(*moment),
    );
    told.bytes("", &key).done()
}

/// `until MOMENT`: the last second of a ticket that is granted then.
pub fn last_second(told: &mut Told, words: &[&str]) -> Result<(), NoMemory> {
    let [moment] = words else {
        return told.unclear();
    };
    let last = until(nb_lines::number(*moment));
    told.show("", &last).done()
}

/// `ticket KEY CONSUMER MERCHANT UNTIL SESSION`: a ticket, sealed under the merchant's key.
pub fn ticket(told: &mut Told, words: &[&str]) -> Result<(), NoMemory> {
    let alloc = told.alloc();
    let [key, consumer, merchant, until, session] = words else {
        return told.unclear();
    };
    let ticket = Ticket {
        consumer: PartyId(telling::short(*consumer)),
        merchant: PartyId(telling::short(*merchant)),
        until: nb_lines::number(*until),
        session: telling::key(alloc, *session),
    };
    let sealed = write_ticket(&ticket, &telling::key(alloc, *key));
    told.bytes("", sealed.as_slice()).done()
}

/// `open-ticket KEY BYTES MERCHANT NOW`: the ticket that the bytes are the seal of, as a merchant asks for it at a moment.
pub fn opened(told: &mut Told, words: &[&str]) -> Result<(), NoMemory> {
    let alloc = told.alloc();
    let [key, bytes, asked, now] = words else {
        return told.unclear();
    };
    let bytes = nb_lines::spelled(alloc, *bytes);
    if bytes.len() > TICKET_BYTES {
        return told.unclear();
    }
    let asked = PartyId(telling::short(*asked));
    match open_ticket(
        &bytes,
        &telling::key(alloc, *key),
        asked,
        nb_lines::number(*now),
    ) {
        Ok(ticket) => told.debug("", &ticket).done(),
        Err(fault) => telling::fault(told, &fault),
    }
}

/// `grant KEY MERCHANT NONCE UNTIL SESSION TICKET`: a grant, sealed under the consumer's key.
pub fn granted(told: &mut Told, words: &[&str]) -> Result<(), NoMemory> {
    let alloc = told.alloc();
    let [key, merchant, nonce, until, session, ticket] = words else {
        return told.unclear();
    };
    let ticket = nb_lines::spelled(alloc, *ticket);
    if ticket.len() > TICKET_BYTES {
        return told.unclear();
    }
    let granted = Granted {
        merchant: PartyId(telling::short(*merchant)),
        nonce: nb_lines::number(*nonce),
        until: nb_lines::number(*until),
        session: telling::key(alloc, *session),
        ticket: Small::of(&ticket).unwrap(),
    };
    let sealed = grant(&granted, &telling::key(alloc, *key));
    told.bytes("", sealed.as_slice()).done()
}

/// `open-grant KEY BYTES`: the grant that the bytes are the seal of.
pub fn opened_grant(told: &mut Told, words: &[&str]) -> Result<(), NoMemory> {
    let alloc = told.alloc();
    let [key, bytes] = words else {
        return told.unclear();
    };
    let bytes = nb_lines::spelled(alloc, *bytes);
    if bytes.len() > GRANT_BYTES {
        return told.unclear();
    }
    match open_grant(&bytes, &telling::key(alloc, *key)) {
        Ok(granted) => {
            let ticket = granted.ticket.as_slice();
            let fields = (
                granted.merchant,
                granted.nonce,
                granted.until,
                granted.session,
                ticket,
            );
            told.debug("", &fields).done()
        }
        Err(fault) => telling::fault(told, &fault),
    }
}
