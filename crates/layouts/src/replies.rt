// Replies, written under keys. A word of keys is the house's, the first and the second, with a comma between them.

ghost use Rattle.nb_endorse.specs.Replies.{HasLawfulReceipts};

use crate::signed::lawful;
use crate::telling;
use nb_endorse::{Refusal, Reply, ReplyKeys};
use nb_lines::Told;
use nb_msgs::{REPLY_ROOM, write_reply};
use nb_units::{AcctId, Epoid, NoMemory, PartyId, room};
use std::alloc::Global;

// The identifier that a word spells.
fn epoid(alloc: Global, word: &str) -> Epoid {
    let bytes = nb_lines::spelled(alloc, word);
    let mut epoid = [0; 16];
    if bytes.len() == epoid.len() {
        epoid.copy_from_slice(&bytes);
    }
    Epoid::read(&epoid)
}

// The keys of a word; those that it does not name are zeros.
fn keys(alloc: Global, word: &str) -> ReplyKeys {
    let mut words = word.split(',');
    ReplyKeys {
        house: telling::key(alloc, words.next().unwrap_or("")),
        first: telling::key(alloc, words.next().unwrap_or("")),
        second: telling::key(alloc, words.next().unwrap_or("")),
    }
}

fn written(told: &mut Told, reply: &Reply, keys: &ReplyKeys) -> Result<(), NoMemory>
    requires { HasLawfulReceipts reply.now }
{
    let mut frame = Vec::new(told.alloc());
    room(&mut frame, REPLY_ROOM)?;
    write_reply(reply, keys, &mut frame);
    told.hex("", frame.as_slice()).done()
}

/// `reply-result KEYS RECEIPT RECEIPT`: the result of an order, with the merchant's receipt and the consumer's.
pub fn result(told: &mut Told, words: &[&str]) -> Result<(), NoMemory> {
    let alloc = told.alloc();
    let [word, merchant, consumer] = words else {
        return told.unclear();
    };
    let merchant = lawful(&nb_lines::spelled(alloc, *merchant));
    let consumer = lawful(&nb_lines::spelled(alloc, *consumer));
    let (Ok(merchant), Ok(consumer)) = (merchant, consumer) else {
        return told.unclear();
    };
    let reply = Reply::Result {
        merchant: merchant.receipt,
        consumer: consumer.receipt,
    };
    written(told, &reply, &keys(alloc, *word))
}

/// `reply-status KEYS PLACE EPOID RECEIPT`: the status of an order, with the receipt of who asks. `reply-status KEYS PLACE EPOID`: that of an
/// order of which nothing is told.
pub fn status(told: &mut Told, words: &[&str]) -> Result<(), NoMemory> {
    match words {
        [word, place, name, receipt] => some_status(told, *word, *place, *name, *receipt),
        [word, place, name] => no_status(told, *word, *place, *name),
        _ => told.unclear(),
    }
}

fn some_status(
    told: &mut Told,
    word: &str,
    place: &str,
    name: &str,
    receipt: &str,
) -> Result<(), NoMemory> {
    let alloc = told.alloc();
    let Ok(signed) = lawful(&nb_lines::spelled(alloc, receipt)) else {
        return told.unclear();
    };
    let reply = Reply::Status {
        place: nb_lines::number(place),
        epoid: epoid(alloc, name),
        receipt: Some(signed.receipt),
    };
    written(told, &reply, &keys(alloc, word))
}

fn no_status(told: &mut Told, word: &str, place: &str, name: &str) -> Result<(), NoMemory> {
    let alloc = told.alloc();
    let reply = Reply::Status {
        place: nb_lines::number(place),
        epoid: epoid(alloc, name),
        receipt: None,
    };
    written(told, &reply, &keys(alloc, word))
}

/// `reply-grant KEYS CONSUMER MERCHANT NONCE UNTIL SESSION`: the grant of a ticket.
pub fn grant(told: &mut Told, words: &[&str]) -> Result<(), NoMemory> {
    let alloc = told.alloc();
    let [word, consumer, merchant, nonce, until, session] = words else {
        return told.unclear();
    };
    let reply = Reply::Grant {
        consumer: PartyId(telling::short(*consumer)),
        merchant: PartyId(telling::short(*merchant)),
        nonce: nb_lines::number(*nonce),
        until: nb_lines::number(*until),
        session: telling::key(alloc, *session),
    };
    written(told, &reply, &keys(alloc, *word))
}

/// `reply-done ACCOUNT AT BALANCE`: that an entry stands.
pub fn done(told: &mut Told, words: &[&str]) -> Result<(), NoMemory> {
    let [account, at, balance] = words else {
        return told.unclear();
    };
    let reply = Reply::Done {
        acct: AcctId(telling::short(*account)),
        at: nb_lines::number(*at),
        balance: nb_lines::number(*balance),
    };
    written(told, &reply, &ReplyKeys::none())
}

/// `reply-refused CODE A B`: a refusal that shows two numbers.
pub fn refused(told: &mut Told, words: &[&str]) -> Result<(), NoMemory> {
    let [code, a, b] = words else {
        return told.unclear();
    };
    let code = code.parse::<u8>().unwrap_or(0);
    let refusal = Refusal::of(code, nb_lines::number(*a), nb_lines::number(*b));
    written(told, &Reply::Refused(refusal), &ReplyKeys::none())
}
