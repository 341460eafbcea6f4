// Cases, and what is ruled of them.

use crate::goods::patterned;
use crate::telling;
use nb_goods::{MAX_GOODS, sealed};
use nb_judge::{CaseBytes, CaseFault, Ruling, judge, read_case};
use nb_lines::Told;
use nb_units::NoMemory;

/// `judge CASE`: what is ruled of the case that the bytes spell, as they stand and copied.
pub fn ruled(told: &mut Told, words: &[&str]) -> Result<(), NoMemory> {
    let [bytes] = words else {
        return told.unclear();
    };
    let bytes = nb_lines::spelled(told.alloc(), bytes);
    rule(told, &bytes)
}

/// `judge-sale EVIDENCE KEY GOODS LENGTH TURNED`: the same of a case that begins with this evidence, which is all that stands before its goods, and
/// whose goods are sealed under the key; where TURNED is a number the last bit of that byte of the sealed goods is turned.
pub fn sale(told: &mut Told, words: &[&str]) -> Result<(), NoMemory> {
    let alloc = told.alloc();
    let [evidence, key, pattern, length, place] = words else {
        return told.unclear();
    };
    let goods = patterned(alloc, *pattern, *length)?;
    if goods.len() > MAX_GOODS {
        return told.unclear();
    }
    let made = sealed(alloc, &telling::key(alloc, *key), &goods)?;
    let mut goods = Vec::from_slice(alloc, made.as_slice())?;
    if let Ok(place) = place.parse::<usize>()
        && let Some(byte) = goods.get_mut(place)
    {
        *byte ^= 1;
    }
    let length = u32::try_from(goods.len()).unwrap_or(0);
    let mut bytes = nb_lines::spelled(alloc, evidence);
    bytes.extend_from_slice(&length.to_be_bytes())?;
    bytes.extend_from_slice(&goods)?;
    rule(told, &bytes)
}

fn rule(told: &mut Told, bytes: &[u8]) -> Result<(), NoMemory> {
    match CaseBytes::read(bytes) {
        Ok(case) => ruling(told, &case.judge()),
        Err(fault) => told.show("", &fault),
    };
    told.text("; copied: ");
    match read_case(told.alloc(), bytes) {
        Ok(case) => ruling(told, &judge(&case)),
        Err(CaseFault::Malformed { place }) => told.show("at byte ", &place),
        Err(CaseFault::NoMemory) => return Err(NoMemory),
    };
    told.done()
}

fn ruling<'a>(told: &'a mut Told, ruling: &Ruling) -> &'a mut Told {
    match ruling {
        Ruling::NoOrder { tag } => told.hex("no order ", tag),
        Ruling::NoReceipt { iv } => told.hex("no receipt ", iv),
        Ruling::OtherOrder { field } => told.show("other order ", field),
        Ruling::NotPaid { code } => told.show("not paid ", code),
        Ruling::WrongGoods { named, given } => told.hex("wrong goods ", named).hex(" ", given),
        Ruling::WrongKey { iv } => told.hex("wrong key ", iv),
        Ruling::KeyOpens { len } => told.show("key opens ", len),
    }
}
