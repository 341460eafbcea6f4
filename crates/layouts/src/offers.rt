// Offers for groups, credentials, and what is quoted.

use crate::telling;
use nb_groups::{CREDENTIAL_BYTES, OFFERS_BYTES, Offers, are_groups, credential, quote};
use nb_lines::Told;
use nb_price::{Catalogue, MAX_SHELF};
use nb_units::{NoMemory, PartyId};

/// `credential KEY CONSUMER UNTIL GROUP..`: a credential, sealed under the keeper's key.
pub fn made(told: &mut Told, words: &[&str]) -> Result<(), NoMemory> {
    let alloc = told.alloc();
    let [key, consumer, until, rest @ ..] = words else {
        return told.unclear();
    };
    let mut groups = Vec::new(alloc);
    for word in rest {
        groups.push(telling::short(*word))?;
    }
    if !are_groups(&groups) {
        return told.unclear();
    }
    let sealed = credential(
        &telling::key(alloc, *key),
        PartyId(telling::short(*consumer)),
        nb_lines::number(*until),
        &groups,
    );
    told.bytes("", sealed.as_slice()).done()
}

/// `offers BYTES`: whether the bytes are offers, and whether offers and an empty line stand at their front, and how many bytes behind it; or the fault.
pub fn read(told: &mut Told, words: &[&str]) -> Result<(), NoMemory> {
    let alloc = told.alloc();
    let [bytes] = words else {
        return told.unclear();
    };
    let bytes = nb_lines::spelled(alloc, *bytes);
    if bytes.len() > OFFERS_BYTES {
        return told.unclear();
    }
    match Offers::read(alloc, &bytes) {
        Ok(_offers) => told.text("offers"),
        Err(fault) => told.debug("", &fault),
    };
    match Offers::read_front(alloc, &bytes) {
        Ok((_offers, behind)) => told.show("; behind an empty line: ", &behind.len()),
        Err(fault) => told.debug("; with an empty line: ", &fault),
    };
    told.done()
}

/// `quote SHELF OFFERS PRODUCT CONSUMER REQUEST NOW`: what the consumer who asks at a moment is quoted.
pub fn quoted(told: &mut Told, words: &[&str]) -> Result<(), NoMemory> {
    let alloc = told.alloc();
    let [shelf, offers, product, consumer, request, now] = words else {
        return told.unclear();
    };
    let shelf = nb_lines::spelled(alloc, *shelf);
    let offers = nb_lines::spelled(alloc, *offers);
    let request = nb_lines::spelled(alloc, *request);
    if shelf.len() > MAX_SHELF || offers.len() > OFFERS_BYTES || request.len() > CREDENTIAL_BYTES {
        return told.unclear();
    }
    let (Ok(shelf), Ok(offers)) = (Catalogue::read(alloc, &shelf), Offers::read(alloc, &offers))
    else {
        return told.unclear();
    };
    let consumer = PartyId(telling::short(*consumer));
    let product = telling::short(*product);
    match quote(
        &shelf,
        &offers,
        product,
        consumer,
        &request,
        nb_lines::number(*now),
    ) {
        Ok(quoted) => told.debug("", &quoted).done(),
        Err(none) => told.show("", &none).done(),
    }
}
