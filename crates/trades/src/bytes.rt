// Bytes that a script names.

ghost use Rattle.std.specs.Prelude.{IfSome};
ghost use Rattle.nb_msgs.specs.Bodies.{MessageKeepsRules};
ghost use Rattle.nb_wallet.specs.Spelling.{StartKeepsRules};

use nb_goods::{goods_key, sealed};
use nb_msgs::{Message, read_body};
use nb_price::Catalogue;
use nb_units::{Blob, NoMemory, PartyId, Price, Secret, Small};
use nb_wallet::Start;
use std::alloc::Global;

const MASTER: Secret = [0x66; 32];

const MERCHANT: PartyId = PartyId(2);

// The longest goods of a script.
const MOST: usize = 4_000_000;

// The party whose number a word is in decimal; that of number 0 where it is none.
pub(crate) fn party(word: &str) -> PartyId {
    PartyId(word.parse::<u32>().unwrap_or(0))
}

// The first byte that a text spells; 0 where it spells none.
pub(crate) fn first(alloc: Global, text: &str) -> u8 {
    nb_lines::spelled(alloc, text).first().copied().unwrap_or(0)
}

// The bytes of an item, where there is one.
pub(crate) fn kept(alloc: Global, keep: &Option<Blob>) -> Result<Vec<u8>, NoMemory> {
    match keep {
        Some(item) => Ok(Vec::from_slice(alloc, item.as_slice())?),
        None => Ok(Vec::new(alloc)),
    }
}

// What a shelf without products sells.
pub(crate) fn empty_catalogue(alloc: Global) -> Result<Catalogue, NoMemory> {
    Catalogue::read(alloc, b"").map_err(|_| NoMemory)
}

// The message that a kind and a body spell, both in hexadecimal.
pub(crate) fn said(alloc: Global, kind: &str, body: &str) -> Option<Message>
    ensures { IfSome result MessageKeepsRules }
{
    message(alloc, first(alloc, kind), &nb_lines::spelled(alloc, body))
}

// The message that a body of this kind spells.
pub(crate) fn message(alloc: Global, kind: u8, body: &[u8]) -> Option<Message>
    ensures { IfSome result MessageKeepsRules }
{
    if kind < 1 || kind > 16 {
        return None;
    }
    match read_body(alloc, kind, body) {
        Ok(message) => Some(message),
        Err(_) => None,
    }
}

// A wish for product 7 of merchant 2.
pub(crate) fn wish(transaction: u64, limit: u64) -> Start
    ensures { StartKeepsRules result }
{
    let none = Small::of(&[]).unwrap();
    Start {
        transaction,
        merchant: MERCHANT,
        product: 7,
        limit: Price(limit),
        request: none,
        memo: none,
    }
}

// Goods that count up: no two whole parts of them are the same.
pub(crate) fn counting(alloc: Global, len: u64) -> Result<Vec<u8>, NoMemory> {
    let mut goods = Vec::new(alloc);
    for i in 0..len.min(MOST as u64) {
        goods.push((i % 251) as u8)?;
    }
    Ok(goods)
}

// Goods, sealed for the first purchase.
pub(crate) fn seal_up(alloc: Global, goods: &[u8]) -> Result<Blob, NoMemory> {
    if goods.len() > MOST {
        return Err(NoMemory);
    }
    sealed(alloc, &goods_key(&MASTER, MERCHANT, 1), goods)
}

// The bytes from one place to another, with the last bit of one turned.
pub(crate) fn piece(
    alloc: Global,
    bytes: &[u8],
    from: usize,
    to: usize,
    bent: Option<usize>,
) -> Result<Vec<u8>, NoMemory> {
    let mut piece = Vec::from_slice(alloc, bytes.get(from..to).unwrap_or(&[]))?;
    if let Some(at) = bent
        && let Some(byte) = piece.get_mut(at)
    {
        *byte ^= 1;
    }
    Ok(piece)
}

// The body of a message of goods of the first purchase.
pub(crate) fn goods_body(alloc: Global, head: &[u8], part: &[u8]) -> Result<Vec<u8>, NoMemory> {
    let mut body = Vec::new(alloc);
    body.extend_from_slice(&1u64.to_be_bytes())?;
    put_text(&mut body, head)?;
    put_text(&mut body, part)?;
    Ok(body)
}

// A text behind its length.
fn put_text(out: &mut Vec<u8>, text: &[u8]) -> Result<(), NoMemory> {
    let len = text.len().min(MOST) as u32;
    out.extend_from_slice(&len.to_be_bytes())?;
    out.extend_from_slice(text)?;
    Ok(())
}
