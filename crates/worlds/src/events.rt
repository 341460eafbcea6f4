//! Events, as words say them.

use crate::party;
use nb_msgs::To;
use nb_simulator::Event;
use nb_units::{Blob, NoMemory, Price, Small};
use nb_wallet::Start;
use std::alloc::Global;

// The most bytes of a body that a line injects.
const MOST: u64 = 2_000_000;

/// The event that a line says, if it says one: `buy CONSUMER TRANSACTION MERCHANT PRODUCT LIMIT REQUEST MEMO` (the last two are how many bytes
/// these have), `deliver PACKET`, `turn CALL`, `write CALL`, `open CALL`, `answer CALL`, `stop WITH`, `clock MOMENT`, `consumer quiet ID TRANSACTION`,
/// `consumer again ID`, `merchant quiet ID CONSUMER TRANSACTION`, `merchant again ID`, `inject ROLE ID KIND BODY`.
pub(crate) fn event(alloc: Global, word: &str, words: &[&str]) -> Result<Option<Event>, NoMemory> {
    match word {
        "inject" => injected(alloc, words),
        "buy" => Ok(bought(words)),
        "consumer" => Ok(of_consumer(words)),
        "merchant" => Ok(of_merchant(words)),
        _ => Ok(numbered(word, words)),
    }
}

// An event of one number.
fn numbered(word: &str, words: &[&str]) -> Option<Event> {
    let [number] = words else {
        return None;
    };
    let long = nb_lines::number(*number);
    let short = number.parse::<u32>().unwrap_or(0);
    match word {
        "deliver" => Some(Event::Deliver { packet: short }),
        "turn" => Some(Event::Turn { call: short }),
        "write" => Some(Event::Write { call: short }),
        "open" => Some(Event::Open { call: short }),
        "answer" => Some(Event::Answer { call: short }),
        "stop" => Some(Event::Stop { with: short == 1 }),
        "clock" => Some(Event::Clock { moment: long }),
        _ => None,
    }
}

fn of_consumer(words: &[&str]) -> Option<Event> {
    match words {
        ["quiet", id, transaction] => Some(Event::QuietConsumer {
            consumer: party(*id),
            tid: nb_lines::number(*transaction),
        }),
        ["again", id] => Some(Event::RestartConsumer {
            consumer: party(*id),
        }),
        _ => None,
    }
}

fn of_merchant(words: &[&str]) -> Option<Event> {
    match words {
        ["quiet", id, consumer, transaction] => Some(Event::QuietMerchant {
            merchant: party(*id),
            consumer: party(*consumer),
            tid: nb_lines::number(*transaction),
        }),
        ["again", id] => Some(Event::RestartMerchant {
            merchant: party(*id),
        }),
        _ => None,
    }
}

// A text of so many bytes, at most as many as one may have.
fn text(len: &str) -> Option<Small> {
    let letters = [97u8; 280];
    Small::of(letters.get(..nb_lines::number(len) as usize)?)
}

fn bought(words: &[&str]) -> Option<Event> {
    let [
        consumer,
        transaction,
        merchant,
        product,
        limit,
        request,
        memo,
    ] = words
    else {
        return None;
    };
    let start = Start {
        transaction: nb_lines::number(*transaction),
        merchant: party(*merchant),
        product: product.parse::<u32>().unwrap_or(0),
        limit: Price(nb_lines::number(*limit)),
        request: text(*request)?,
        memo: text(*memo)?,
    };
    Some(Event::Buy {
        consumer: party(*consumer),
        start,
    })
}

// Whom a packet is for.
fn addressee(role: &str, id: &str) -> Option<To> {
    match role {
        "server" => Some(To::Server),
        "consumer" => Some(To::Consumer(party(id))),
        "merchant" => Some(To::Merchant(party(id))),
        _ => None,
    }
}

// A body: so many bytes of zeros, or what is spelled in hexadecimal; none at a line.
fn body_of(alloc: Global, word: &str) -> Result<Blob, NoMemory> {
    match word.strip_prefix("zeros:") {
        Some(len) => {
            let mut bytes = Vec::new(alloc);
            for _ in 0..nb_lines::number(len).min(MOST) {
                bytes.push(0)?;
            }
            Ok(Blob::from_vec(bytes))
        }
        None => Ok(Blob::from_vec(nb_lines::spelled(alloc, word))),
    }
}

fn injected(alloc: Global, words: &[&str]) -> Result<Option<Event>, NoMemory> {
    let [role, id, kind, body] = words else {
        return Ok(None);
    };
    let Some(to) = addressee(*role, *id) else {
        return Ok(None);
    };
    let body = body_of(alloc, *body)?;
    Ok(Some(Event::Inject {
        to,
        kind: kind.parse::<u8>().unwrap_or(0),
        body,
    }))
}
