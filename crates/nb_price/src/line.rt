ghost use Rattle.std.specs.Prelude.{◌≡◌, ◌≤◌, ◌<◌, ◌^◌, ◌↔◌, ℕ, List, length, IfSome, IsTrue};
ghost use Rattle.nb_price.specs.declared.limits.TheConstants.{MAX_NAME, SEMICOLON};
ghost use Rattle.nb_price.specs.Shelf.{Item, IsName, BeginsWith};
ghost use Rattle.nb_price.specs.Fields.{IsFree, IsLine, IsLawful, IsFound, line_bytes};

use crate::limits::{LINE_FEED, MAX_NAME, MAX_PRICE, SEMICOLON};
use crate::words::{numbered, split};
use nb_goods::MAX_GOODS;

// The line of an item, and what follows it.
#[derive(Clone, Copy)]
pub(crate) struct Line<'a> {
    pub(crate) id: u32,
    pub(crate) price: u32,
    pub(crate) name: &'a [u8],
    pub(crate) len: u32,
    pub(crate) rest: &'a [u8],
}

// An item without its name, and what follows it.
#[derive(Clone, Copy)]
pub(crate) struct Found<'a> {
    pub(crate) id: u32,
    pub(crate) price: u32,
    pub(crate) goods: &'a [u8],
    pub(crate) rest: &'a [u8],
}

// The line at the front of the bytes: its marks and numbers are in their places.
#[tactic(auto, unfolding(crate::specs::Fields::line_bytes))]
fn line_of(bytes: &[u8]) -> Option<Line<'_>>
    ensures some { IfSome result (λ l. bytes.now ≡ line_bytes l.id l.price l.name.now l.len l.rest.now) }
    ensures fits { IfSome result (λ l. l.id < 2 ^ 32) }
    ensures name { IfSome result (λ l. IsFree SEMICOLON l.name.now × (length l.name.now ≤ MAX_NAME)) }
    ensures each { (id price len : ℕ) (name rest : List ℕ) → id < 2 ^ 32 → price < 2 ^ 32 → len < 2 ^ 32 → IsFree SEMICOLON name → length name ≤ MAX_NAME
        → bytes.now ≡ line_bytes id price name len rest → IsLine result id price name len rest }
{
    let (id, bytes) = numbered(bytes, SEMICOLON)?;
    let (price, bytes) = numbered(bytes, SEMICOLON)?;
    let (name, bytes) = split(bytes, SEMICOLON, MAX_NAME)?;
    let (len, rest) = numbered(bytes, LINE_FEED)?;
    Some(Line {
        id,
        price,
        name,
        len,
        rest,
    })
}

// The item at the front of the bytes.
pub(crate) fn item_of(bytes: &[u8]) -> Option<Found<'_>>
    ensures some { IfSome result (λ f. (x : Item) × IsFound result x f.rest.now × BeginsWith bytes.now x f.rest.now) }
    ensures each { (x : Item) (rest : List ℕ) → BeginsWith bytes.now x rest → IsFound result x rest }
{
    let line = line_of(bytes)?;
    if !is_lawful(&line) {
        return None;
    }
    let len = line.len as usize;
    if line.rest.len() < len {
        return None;
    }
    let (goods, rest) = line.rest.split_at(len);
    Some(Found {
        id: line.id,
        price: line.price,
        goods,
        rest,
    })
}

// Whether what the line says is within the limits of items.
fn is_lawful(line: &Line<'_>) -> bool
    ensures { IsTrue result ↔ IsLawful line.now }
{
    line.price >= 1
        && line.price <= MAX_PRICE
        && line.len as usize <= MAX_GOODS
        && is_name(line.name)
}

// Whether each byte is from 20 to 7E and no semicolon.
fn is_name(name: &[u8]) -> bool
    ensures { IsTrue result ↔ IsName name.now }
{
    for b in name {
        if *b < 0x20 || *b > 0x7E || *b == SEMICOLON {
            return false;
        }
    }
    true
}
