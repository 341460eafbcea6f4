// Entries in words: a name and its fields, in the order of the layout. Numbers are decimal, and bytes are hexadecimal.

ghost use Rattle.std.specs.Prelude.{IfSome};
ghost use Rattle.nb_entry.specs.Spelling.{EntryKeepsRules};

use crate::trial::Trial;
use crate::words::Words;
use nb_entry::{CONSUMER, Entry, MERCHANT, read_entry};
use nb_lines::Told;
use nb_units::{AcctId, Cut, Epoid, NoMemory, PartyId, Price, is_reason};

impl Trial {
    /// `read HEX`: the entries that stand one behind the other, each with its place, and the place where the next one fails. `write ENTRY`:
    /// the bytes of one.
    pub fn of_entries(&self, told: &mut Told, word: &str, words: &[&str]) -> Result<(), NoMemory> {
        let mut words = Words::new(words);
        if word == "read" {
            let bytes = words.bytes(self.alloc);
            if words.some_bad() {
                return told.unclear();
            }
            read(told, &bytes);
        } else {
            write(told, entry_of(&mut words));
        }
        Ok(())
    }
}

// The entries that stand in these bytes.
fn read(told: &mut Told, bytes: &[u8]) {
    let mut cut = Cut::new(bytes);
    // an entry has bytes, so that one fails by then
    for _ in 0..bytes.len() + 1 {
        let place = cut.place();
        match read_entry(&mut cut) {
            Ok(entry) => {
                told.show("", &place).text(": ");
                in_words(told, &entry);
                told.text("\n");
            }
            Err(fault) => {
                told.show("no entry at ", &fault.place);
                return;
            }
        }
    }
}

fn write(told: &mut Told, entry: Option<Entry>) {
    match entry.and_then(spelled_one) {
        Some(entry) => told.hex("", entry.spelled().as_slice()),
        None => told.text("no entry"),
    };
}

// An entry whose role or code has a spelling.
fn spelled_one(entry: Entry) -> Option<Entry>
    ensures { IfSome result EntryKeepsRules }
{
    match entry {
        Entry::Enrol { role, .. } if role != CONSUMER && role != MERCHANT => None,
        Entry::Refused { code, .. } if !is_reason(code) => None,
        _ => Some(entry),
    }
}

/// The entry that these words tell.
pub fn entry_of(words: &mut Words) -> Option<Entry> {
    let entry = match words.word() {
        "enrol" => enrolment(words),
        "fund" => fund(words),
        "paid" => payment(words),
        "charged" => charge(words),
        "refused" => refusal(words),
        _ => return None,
    };
    if words.some_bad() { None } else { Some(entry) }
}

fn enrolment(words: &mut Words) -> Entry {
    Entry::Enrol {
        id: PartyId(words.number()),
        role: words.byte(),
        acct: AcctId(words.number()),
        nonce: words.wide(),
        key: words.key(),
    }
}

fn fund(words: &mut Words) -> Entry {
    Entry::Fund {
        acct: AcctId(words.number()),
        amount: words.wide(),
        reference: words.sixteen(),
    }
}

/// The identifier that these words tell: its merchant, its moment and its serial number.
pub fn epoid_of(words: &mut Words) -> Epoid {
    Epoid {
        merchant: PartyId(words.number()),
        moment: words.wide(),
        serial: words.number(),
    }
}

fn payment(words: &mut Words) -> Entry {
    Entry::Paid {
        digest: words.key(),
        epoid: epoid_of(words),
        consumer: PartyId(words.number()),
        merchant: PartyId(words.number()),
        product: words.number(),
        price: Price(words.wide()),
        cacct: AcctId(words.number()),
        macct: AcctId(words.number()),
        moment: words.wide(),
        key: words.key(),
    }
}

fn charge(words: &mut Words) -> Entry {
    Entry::Charged {
        digest: words.key(),
        epoid: epoid_of(words),
        consumer: PartyId(words.number()),
        merchant: PartyId(words.number()),
        product: words.number(),
        price: Price(words.wide()),
        fee: words.wide(),
        cacct: AcctId(words.number()),
        macct: AcctId(words.number()),
        moment: words.wide(),
        key: words.key(),
    }
}

fn refusal(words: &mut Words) -> Entry {
    Entry::Refused {
        digest: words.key(),
        epoid: epoid_of(words),
        consumer: PartyId(words.number()),
        merchant: PartyId(words.number()),
        product: words.number(),
        price: Price(words.wide()),
        code: words.byte(),
        a: words.wide(),
        b: words.wide(),
        moment: words.wide(),
    }
}

/// Tells an entry, in words.
pub fn in_words(told: &mut Told, entry: &Entry) {
    match entry {
        Entry::Enrol { .. } => enrolled(told, entry),
        Entry::Fund { .. } => funded(told, entry),
        Entry::Paid { .. } => paid(told, entry),
        Entry::Charged { .. } => charged(told, entry),
        Entry::Refused { .. } => refused(told, entry),
    }
}

fn enrolled(told: &mut Told, entry: &Entry) {
    if let Entry::Enrol {
        id,
        role,
        acct,
        nonce,
        key,
    } = entry
    {
        told.show("enrol ", &id.0)
            .show(" ", role)
            .show(" ", &acct.0)
            .show(" ", nonce)
            .hex(" ", key);
    }
}

fn funded(told: &mut Told, entry: &Entry) {
    if let Entry::Fund {
        acct,
        amount,
        reference,
    } = entry
    {
        told.show("fund ", &acct.0)
            .show(" ", amount)
            .hex(" ", reference);
    }
}

fn named(told: &mut Told, digest: &[u8; 32], epoid: &Epoid) {
    told.hex(" ", digest)
        .show(" ", &epoid.merchant.0)
        .show(" ", &epoid.moment)
        .show(" ", &epoid.serial);
}

fn paid(told: &mut Told, entry: &Entry) {
    if let Entry::Paid {
        digest,
        epoid,
        consumer,
        merchant,
        product,
        price,
        cacct,
        macct,
        moment,
        key,
    } = entry
    {
        named(told.text("paid"), digest, epoid);
        told.show(" ", &consumer.0)
            .show(" ", &merchant.0)
            .show(" ", product)
            .show(" ", &price.0)
            .show(" ", &cacct.0)
            .show(" ", &macct.0)
            .show(" ", moment)
            .hex(" ", key);
    }
}

fn charged(told: &mut Told, entry: &Entry) {
    if let Entry::Charged {
        digest,
        epoid,
        consumer,
        merchant,
        product,
        price,
        fee,
        cacct,
        macct,
        moment,
        key,
    } = entry
    {
        named(told.text("charged"), digest, epoid);
        told.show(" ", &consumer.0)
            .show(" ", &merchant.0)
            .show(" ", product)
            .show(" ", &price.0)
            .show(" ", fee)
            .show(" ", &cacct.0)
            .show(" ", &macct.0)
            .show(" ", moment)
            .hex(" ", key);
    }
}

fn refused(told: &mut Told, entry: &Entry) {
    if let Entry::Refused {
        digest,
        epoid,
        consumer,
        merchant,
        product,
        price,
        code,
        a,
        b,
        moment,
    } = entry
    {
        named(told.text("refused"), digest, epoid);
        told.show(" ", &consumer.0)
            .show(" ", &merchant.0)
            .show(" ", product)
            .show(" ", &price.0)
            .show(" ", code)
            .show(" ", a)
            .show(" ", b)
            .show(" ", moment);
    }
}
