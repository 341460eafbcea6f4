// Goods, sealed and cut into parts.

ghost use Rattle.std.specs.Prelude.{◌≡◌, ◌≤◌, length, IsTrue};
ghost use Rattle.nb_goods.specs.declared.limits.TheConstants.{MAX_SEALED};
ghost use Rattle.nb_goods.specs.Goods.{joined};
ghost use Rattle.nb_goods.specs.Parts.{parts_of};

use crate::telling;
use nb_goods::{
    MAX_GOODS, MAX_SEALED, OpenGoods, PART_BYTES, Parts, checksum, goods_key, open_goods,
    open_parts, parts, sealed,
};
use nb_lines::Told;
use nb_units::{Blob, NoMemory, PartyId, Secret};
use std::alloc::Global;

// The most parts that goods are cut into.
const MOST_PARTS: u64 = 68;

/// The parts of two sales.
#[derive(Drop)]
pub struct Shelf {
    alloc: Global,
    // The key of the sale, its parts, and those of the sale before.
    key: Secret,
    parts: Vec<Blob>,
    others: Vec<Blob>,
}

impl Shelf {
    /// No parts.
    pub fn new(alloc: Global) -> Shelf {
        Shelf {
            alloc,
            key: [0; 32],
            parts: Vec::new(alloc),
            others: Vec::new(alloc),
        }
    }

    /// `parts KEY GOODS LENGTH PART..`: the parts of a sale of goods, which are kept; their number and length, and the digests of these.
    pub fn sale(&mut self, told: &mut Told, words: &[&str]) -> Result<(), NoMemory> {
        let [key, pattern, length, shown @ ..] = words else {
            return told.unclear();
        };
        let goods = patterned(self.alloc, *pattern, *length)?;
        if goods.len() > MAX_GOODS {
            return told.unclear();
        }
        self.key = telling::key(self.alloc, *key);
        self.cut(told, &goods)?;
        digests(told, &self.parts, shown)
    }

    // Cuts goods into parts, and keeps those that there were.
    fn cut(&mut self, told: &mut Told, goods: &[u8]) -> Result<(), NoMemory>
        requires { length goods.now ≤ MAX_GOODS }
    {
        let made = parts(&self.key, goods);
        let cut = cut(self.alloc, &made, goods)?;
        sale_told(told, &made, &cut);
        self.others = std::mem::replace(&mut self.parts, cut);
        Ok(())
    }

    /// `all`: what the parts of the last sale open to.
    pub fn all(&self, told: &mut Told, words: &[&str]) -> Result<(), NoMemory> {
        if words.is_empty() {
            open_as_parts(told, &self.key, &self.parts)
        } else {
            told.unclear()
        }
    }

    /// `came PIECE..`: what pieces of the parts open to, as parts and joined, and their digests.
    pub fn came(&self, told: &mut Told, words: &[&str]) -> Result<(), NoMemory> {
        let mut pieces = Vec::new(self.alloc);
        for word in words {
            pieces.push(Blob::from_vec(self.piece(*word)?))?;
        }
        if !fit(&pieces) {
            return told.unclear();
        }
        open_as_parts(told.text("parts: "), &self.key, &pieces)?;
        open_joined(told.text("; joined: "), &self.key, &pieces)?;
        digested(told, &pieces)
    }

    // The piece of a word `PART`, `PART-LENGTH` of which so many bytes are left, or `PART~PLACE` of which the last bit of a byte is
    // turned. Behind an `x` the part is one of the sale before.
    fn piece(&self, word: &str) -> Result<Vec<u8>, NoMemory> {
        match word.strip_prefix('x') {
            Some(word) => piece(self.alloc, &self.others, word),
            None => piece(self.alloc, &self.parts, word),
        }
    }
}

// The digests of the parts of these numbers.
fn digests(told: &mut Told, parts: &[Blob], numbers: &[&str]) -> Result<(), NoMemory> {
    for number in numbers {
        if let Some(part) = parts.get(telling::short(*number) as usize) {
            told.show("; ", number)
                .hex(": ", &checksum(part.as_slice()));
        }
    }
    told.done()
}

// What parts open to.
fn open_as_parts(told: &mut Told, key: &Secret, parts: &[Blob]) -> Result<(), NoMemory> {
    if !fit(parts) {
        return told.unclear();
    }
    opened(told, open_parts(told.alloc(), key, parts))
}

// What parts open to that are joined.
fn open_joined(told: &mut Told, key: &Secret, parts: &[Blob]) -> Result<(), NoMemory> {
    let mut bytes = Vec::new(told.alloc());
    for part in parts {
        bytes.extend_from_slice(part.as_slice())?;
    }
    open_whole(told, key, &bytes)
}

fn open_whole(told: &mut Told, key: &Secret, sealed: &[u8]) -> Result<(), NoMemory> {
    if sealed.len() > MAX_SEALED {
        return told.unclear();
    }
    opened(told, open_goods(told.alloc(), key, sealed))
}

fn piece(alloc: Global, parts: &[Blob], word: &str) -> Result<Vec<u8>, NoMemory> {
    if let Some((number, length)) = word.split_once('-') {
        let mut piece = part(alloc, parts, number)?;
        piece.truncate(telling::short(length) as usize);
        return Ok(piece);
    }
    if let Some((number, place)) = word.split_once('~') {
        let mut piece = part(alloc, parts, number)?;
        if let Some(byte) = piece.get_mut(telling::short(place) as usize) {
            *byte ^= 1;
        }
        return Ok(piece);
    }
    part(alloc, parts, word)
}

fn part(alloc: Global, parts: &[Blob], number: &str) -> Result<Vec<u8>, NoMemory> {
    match parts.get(telling::short(number) as usize) {
        Some(part) => Ok(Vec::from_slice(alloc, part.as_slice())?),
        None => Ok(Vec::new(alloc)),
    }
}

// Goods of so many bytes: `count` those that count up modulo 251, `zeros`, or those that a word spells.
pub(crate) fn patterned(alloc: Global, pattern: &str, length: &str) -> Result<Vec<u8>, NoMemory> {
    let length = telling::short(length).min(MAX_GOODS as u32);
    match pattern {
        "count" => counting(alloc, length),
        "zeros" => Ok(vec![in alloc; 0u8; length as usize]?),
        _ => Ok(nb_lines::spelled(alloc, pattern)),
    }
}

fn counting(alloc: Global, length: u32) -> Result<Vec<u8>, NoMemory> {
    let mut goods = Vec::new(alloc);
    for i in 0..length {
        goods.push((i % 251) as u8)?;
    }
    Ok(goods)
}

// The parts of goods, one behind the other.
fn cut(alloc: Global, parts: &Parts, goods: &[u8]) -> Result<Vec<Blob>, NoMemory>
    requires { parts.now ≡ parts_of parts.now.key goods.now }
{
    let mut cut = Vec::new(alloc);
    for i in 0..MOST_PARTS {
        let place = i * PART_BYTES as u64;
        if place < parts.total() {
            cut.push(parts.part(alloc, goods, place)?)?;
        }
    }
    Ok(cut)
}

// Whether parts are short enough to be opened.
fn fit(parts: &[Blob]) -> bool
    ensures { IsTrue result → length (joined parts.now) ≤ MAX_SEALED }
{
    let mut total = 0;
    for part in parts {
        total += part.as_slice().len();
        if total > MAX_SEALED {
            return false;
        }
    }
    true
}

fn sale_told(told: &mut Told, made: &Parts, parts: &[Blob]) {
    let last = match parts.last() {
        Some(part) => part.as_slice().len(),
        None => 0,
    };
    told.show("", &made.total())
        .show(" bytes, ", &parts.len())
        .show(" parts, the last of ", &last)
        .hex("; checksum ", &made.checksum());
}

// The digests of pieces.
fn digested(told: &mut Told, pieces: &[Blob]) -> Result<(), NoMemory> {
    for piece in pieces {
        told.hex("; ", &checksum(piece.as_slice()));
    }
    told.done()
}

fn opened(told: &mut Told, opened: Result<Blob, OpenGoods>) -> Result<(), NoMemory> {
    match opened {
        Ok(goods) => told.bytes("", goods.as_slice()).done(),
        Err(fault) => telling::fault(told, &fault),
    }
}

/// `goods-key MASTER MERCHANT SERIAL`: the key of a sale.
pub fn key(told: &mut Told, words: &[&str]) -> Result<(), NoMemory> {
    let alloc = told.alloc();
    let [master, merchant, serial] = words else {
        return told.unclear();
    };
    let merchant = PartyId(telling::short(*merchant));
    let key = goods_key(
        &telling::key(alloc, *master),
        merchant,
        telling::short(*serial),
    );
    told.bytes("", &key).done()
}

/// `seal-goods KEY GOODS LENGTH`: goods, sealed as a whole, and what that opens to.
pub fn seal(told: &mut Told, words: &[&str]) -> Result<(), NoMemory> {
    let alloc = told.alloc();
    let [key, pattern, length] = words else {
        return told.unclear();
    };
    let goods = patterned(alloc, *pattern, *length)?;
    if goods.len() > MAX_GOODS {
        return told.unclear();
    }
    let key = telling::key(alloc, *key);
    let sealed = sealed(alloc, &key, &goods)?;
    told.bytes("", sealed.as_slice())
        .hex("; checksum ", &checksum(sealed.as_slice()))
        .text("; opens to ");
    open_whole(told, &key, sealed.as_slice())
}
