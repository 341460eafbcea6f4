ghost use Rattle.std.specs.Prelude.{◌≡◌, ◌≤◌, ◌+◌, ◌++◌, [], length, vec_capacity, IfOk, IfErr, Ok};
ghost use Rattle.nb_units.specs.declared.buffer.TheConstants.{MAX_BUFFER};
ghost use Rattle.nb_units.specs.Fields.{moved};
ghost use Rattle.nb_units.specs.Laws.{StandsAt};
ghost use Rattle.nb_units.specs.Reads.{Reads};
ghost use Rattle.nb_units.specs.Reasons.{IsReason};
ghost use Rattle.nb_units.specs.Room.{spare_of};
ghost use Rattle.nb_entry.specs.declared.entry.Entry.TheVariants.{Enrol, Fund, Paid, Charged, Refused};
ghost use Rattle.nb_entry.specs.declared.spelling.TheConstants.{MAX_ENTRY};
ghost use Rattle.nb_entry.specs.Spelling as spelling;
ghost use Rattle.nb_entry.specs.Reading as reading;

use crate::entry::{CONSUMER, Entry, MERCHANT};
use nb_units::{
    AcctId, Buffer, Cut, Digest, Epoid, Malformed, PartyId, Pen, Price, allow, is_reason,
};

/// The most bytes of an entry.
pub const MAX_ENTRY: usize = 125;

/// The most entries of an item of a journal.
pub const MAX_ITEM_ENTRIES: usize = 32;

// The first byte of an entry, its kind.
const ENROL_ENTRY: u8 = 1;

const FUND_ENTRY: u8 = 2;

const PAID_ENTRY: u8 = 3;

const REFUSED_ENTRY: u8 = 4;

const CHARGED_ENTRY: u8 = 5;

/// No entry stands at the front of a cut. The place is that of the first field that fails, in bytes from the front of the
/// cut's slice.
#[derive(Clone, Copy)]
pub struct EntryFault {
    pub place: usize,
}

/// Appends the entry's bytes. It needs room for [`MAX_ENTRY`] bytes, also for a shorter entry; the role of an enrolment must
/// be one of the two, and the code of a refusal one of `reason` of nb_book, as they are of every entry that is legal.
/// It takes no memory.
pub fn write_entry(e: &Entry, out: &mut Vec<u8>)
    requires lawful { spelling.EntryKeepsRules e.now }
    requires room { MAX_ENTRY ≤ spare_of out.old }
    ensures bytes { out.new.items ≡ out.old.items ++ spelling.entry_bytes e.now }
    ensures fits { spelling.IsEntry e.now }
    ensures long { length (spelling.entry_bytes e.now) ≤ MAX_ENTRY }
    ensures room { vec_capacity out.new ≡ vec_capacity out.old }
{
    let mut bytes = Buffer::new();
    e.spell(&mut bytes);
    let mut pen = Pen::over(out);
    pen.raw(bytes.as_slice());
}

/// The entry at the front of the cut, which is then passed over; what follows it is free. A fault tells the place of the first
/// field that fails: a field of which bytes are missing, a kind that no entry has, a role that is neither of the two, or a
/// code that is none of `reason` of nb_book. After it the cut is as before.
pub fn read_entry(cut: &mut Cut) -> Result<Entry, EntryFault>
    // The fields in their order, and the first that fails.
    ensures reads { reading.ReadsEntry result (reading.entry_at cut.old.bytes cut.old.place) }
    ensures moved { cut.new ≡ reading.moved_past_entry cut.old result }

    // An entry that is read is spelled so, and one that is spelled so is read.
    ensures spelled { IfOk result (λ e. spelling.IsEntry e × StandsAt (spelling.entry_bytes e) cut.old.bytes cut.old.place) }
    // Where the spelling of an entry within its limits stands at the place, that entry is read.
    ensures found { (e : Entry) → spelling.IsEntry e → StandsAt (spelling.entry_bytes e) cut.old.bytes cut.old.place → result ≡ Ok e }
{
    match read_front(cut.rest()) {
        Ok(e) => {
            cut.skip(spelled_len(&e));
            Ok(e)
        }
        Err(Malformed { place }) => Err(EntryFault {
            place: cut.place() + place,
        }),
    }
}

#[tactic(auto, unfolding(crate::specs::Spelling::entry_bytes))]
impl Entry {
    /// The entry's bytes, at most [`MAX_ENTRY`]. The role of an enrolment must be one of the two, and the code of a refusal one of
    /// `reason` of nb_book, as they are of every entry that is legal. It takes no memory.
    pub fn spelled(&self) -> Buffer
        requires { spelling.EntryKeepsRules self.now }
        ensures bytes { result ≡ spelling.entry_bytes self.now }
        ensures fits { spelling.IsEntry self.now }
        ensures long { length result ≤ MAX_ENTRY }
    {
        let mut bytes = Buffer::new();
        self.spell(&mut bytes);
        bytes
    }

    // The same, in a buffer without a byte.
    fn spell(&self, bytes: &mut Buffer)
        requires lawful { spelling.EntryKeepsRules self.now }
        requires empty { bytes.old ≡ [] }
        ensures bytes { bytes.new ≡ spelling.entry_bytes self.now }
        ensures fits { spelling.IsEntry self.now }
        ensures long { length bytes.new ≤ MAX_ENTRY }
    {
        match self {
            Entry::Enrol {
                id,
                role,
                acct,
                nonce,
                key,
            } => spell_enrol(*id, *role, *acct, *nonce, key, bytes),
            Entry::Fund {
                acct,
                amount,
                reference,
            } => spell_fund(*acct, *amount, reference, bytes),
            Entry::Paid {
                digest,
                epoid,
                consumer,
                merchant,
                product,
                price,
                cacct,
                macct,
                moment,
                key,
            } => {
                let terms = OrderTerms::of(digest, *epoid, *consumer, *merchant, *product, *price);
                spell_paid(&terms, *cacct, *macct, *moment, key, bytes)
            }
            Entry::Charged {
                digest,
                epoid,
                consumer,
                merchant,
                product,
                price,
                fee,
                cacct,
                macct,
                moment,
                key,
            } => {
                let terms = OrderTerms::of(digest, *epoid, *consumer, *merchant, *product, *price);
                spell_charged(&terms, *fee, *cacct, *macct, *moment, key, bytes)
            }
            Entry::Refused {
                digest,
                epoid,
                consumer,
                merchant,
                product,
                price,
                code,
                a,
                b,
                moment,
            } => {
                let terms = OrderTerms::of(digest, *epoid, *consumer, *merchant, *product, *price);
                spell_refused(&terms, *code, *a, *b, *moment, bytes)
            }
        }
    }
}

// What follows spells one kind of entry each, in a buffer without a byte.

#[tactic(auto, unfolding(crate::specs::Spelling::entry_bytes))]
fn spell_enrol(id: PartyId, role: u8, acct: AcctId, nonce: u64, key: &[u8; 32], bytes: &mut Buffer)
    requires role { spelling.IsRole role }
    requires empty { bytes.old ≡ [] }
    ensures bytes { bytes.new ≡ spelling.entry_bytes (Enrol id role acct nonce key.now) }
    ensures fits { spelling.IsEntry (Enrol id role acct nonce key.now) }
    ensures long { length bytes.new ≤ MAX_ENTRY }
{
    bytes.u8(ENROL_ENTRY);
    bytes.u32(id.0);
    bytes.u8(role);
    bytes.u32(acct.0);
    bytes.u64(nonce);
    bytes.raw(key);
}

#[tactic(auto, unfolding(crate::specs::Spelling::entry_bytes))]
fn spell_fund(acct: AcctId, amount: u64, reference: &[u8; 16], bytes: &mut Buffer)
    requires empty { bytes.old ≡ [] }
    ensures bytes { bytes.new ≡ spelling.entry_bytes (Fund acct amount reference.now) }
    ensures fits { spelling.IsEntry (Fund acct amount reference.now) }
    ensures long { length bytes.new ≤ MAX_ENTRY }
{
    bytes.u8(FUND_ENTRY);
    bytes.u32(acct.0);
    bytes.u64(amount);
    bytes.raw(reference);
}

#[tactic(auto, unfolding(crate::specs::Spelling::entry_bytes))]
fn spell_paid(
    terms: &OrderTerms,
    cacct: AcctId,
    macct: AcctId,
    moment: u64,
    key: &[u8; 32],
    bytes: &mut Buffer,
)
    requires empty { bytes.old ≡ [] }
    ensures bytes { bytes.new ≡ spelling.entry_bytes (Paid terms.now.digest terms.now.epoid terms.now.consumer terms.now.merchant terms.now.product terms.now.price cacct macct moment key.now) }
    ensures fits { spelling.IsEntry (Paid terms.now.digest terms.now.epoid terms.now.consumer terms.now.merchant terms.now.product terms.now.price cacct macct moment key.now) }
    ensures long { length bytes.new ≤ MAX_ENTRY }
{
    bytes.u8(PAID_ENTRY);
    terms.write(bytes);
    bytes.u32(cacct.0);
    bytes.u32(macct.0);
    bytes.u64(moment);
    bytes.raw(key);
}

#[tactic(auto, unfolding(crate::specs::Spelling::entry_bytes))]
fn spell_charged(
    terms: &OrderTerms,
    fee: u64,
    cacct: AcctId,
    macct: AcctId,
    moment: u64,
    key: &[u8; 32],
    bytes: &mut Buffer,
)
    requires empty { bytes.old ≡ [] }
    ensures bytes { bytes.new ≡ spelling.entry_bytes (Charged terms.now.digest terms.now.epoid terms.now.consumer terms.now.merchant terms.now.product terms.now.price fee cacct macct moment key.now) }
    ensures fits { spelling.IsEntry (Charged terms.now.digest terms.now.epoid terms.now.consumer terms.now.merchant terms.now.product terms.now.price fee cacct macct moment key.now) }
    ensures long { length bytes.new ≤ MAX_ENTRY }
{
    bytes.u8(CHARGED_ENTRY);
    terms.write(bytes);
    bytes.u64(fee);
    bytes.u32(cacct.0);
    bytes.u32(macct.0);
    bytes.u64(moment);
    bytes.raw(key);
}

#[tactic(auto, unfolding(crate::specs::Spelling::entry_bytes))]
fn spell_refused(terms: &OrderTerms, code: u8, a: u64, b: u64, moment: u64, bytes: &mut Buffer)
    requires code { IsReason code }
    requires empty { bytes.old ≡ [] }
    ensures bytes { bytes.new ≡ spelling.entry_bytes (Refused terms.now.digest terms.now.epoid terms.now.consumer terms.now.merchant terms.now.product terms.now.price code a b moment) }
    ensures fits { spelling.IsEntry (Refused terms.now.digest terms.now.epoid terms.now.consumer terms.now.merchant terms.now.product terms.now.price code a b moment) }
    ensures long { length bytes.new ≤ MAX_ENTRY }
{
    bytes.u8(REFUSED_ENTRY);
    terms.write(bytes);
    bytes.u8(code);
    bytes.u64(a);
    bytes.u64(b);
    bytes.u64(moment);
}

// The entry at the front of the bytes.
fn read_front(bytes: &[u8]) -> Result<Entry, Malformed>
    ensures reads { Reads result (reading.entry_of bytes.now) }
    ensures spelled { IfOk result (λ e. spelling.IsEntry e × StandsAt (spelling.entry_bytes e) bytes.now 0) }
    ensures inside { IfErr result (λ malformed. malformed.place ≤ length bytes.now) }
{
    read_fields(bytes)
}

#[tactic(auto, unfolding(crate::specs::Reading::entry_of))]
fn read_fields(bytes: &[u8]) -> Result<Entry, Malformed>
    ensures { Reads result (reading.entry_of bytes.now) }
{
    let mut cut = Cut::new(bytes);
    match cut.u8()? {
        ENROL_ENTRY => read_enrol(cut),
        FUND_ENTRY => read_fund(cut),
        PAID_ENTRY => read_paid(cut),
        REFUSED_ENTRY => read_refused(cut),
        CHARGED_ENTRY => read_charged(cut),
        _ => Err(Malformed { place: 0 }),
    }
}

// What follows reads the fields behind a kind.

#[tactic(auto, unfolding(crate::specs::Reading::enrol_of))]
fn read_enrol(mut cut: Cut) -> Result<Entry, Malformed>
    requires { cut.place ≡ 1 }
    ensures { Reads result (reading.enrol_of cut.entry.bytes) }
{
    let id = cut.u32()?;
    let place = cut.place();
    let role = cut.u8()?;
    allow(is_role(role), place)?;
    let acct = cut.u32()?;
    let nonce = cut.u64()?;
    let key = cut.fixed32()?;
    Ok(Entry::Enrol {
        id: PartyId(id),
        role,
        acct: AcctId(acct),
        nonce,
        key,
    })
}

#[tactic(auto, unfolding(crate::specs::Reading::fund_of))]
fn read_fund(mut cut: Cut) -> Result<Entry, Malformed>
    requires { cut.place ≡ 1 }
    ensures { Reads result (reading.fund_of cut.entry.bytes) }
{
    let acct = cut.u32()?;
    let amount = cut.u64()?;
    let reference = cut.fixed16()?;
    Ok(Entry::Fund {
        acct: AcctId(acct),
        amount,
        reference,
    })
}

// What a payment and a refusal both say, behind their kind.
#[derive(Clone, Copy)]
struct OrderTerms {
    digest: Digest,
    epoid: Epoid,
    consumer: PartyId,
    merchant: PartyId,
    product: u32,
    price: Price,
}

impl OrderTerms {
    fn of(
        digest: &Digest,
        epoid: Epoid,
        consumer: PartyId,
        merchant: PartyId,
        product: u32,
        price: Price,
    ) -> OrderTerms
        ensures { result ≡ record { digest = digest.now; epoid = epoid; consumer = consumer; merchant = merchant; product = product; price = price } }
    {
        let digest = *digest;
        OrderTerms {
            digest,
            epoid,
            consumer,
            merchant,
            product,
            price,
        }
    }

    fn write(&self, bytes: &mut Buffer)
        requires { length bytes.old + 68 ≤ MAX_BUFFER }
        ensures bytes { bytes.new ≡ bytes.old ++ spelling.terms_bytes self.now }
        ensures fits { spelling.AreOrderTerms self.now }
        ensures long { length bytes.new ≡ length bytes.old + 68 }
    {
        bytes.raw(&self.digest);
        bytes.raw(&self.epoid.write());
        bytes.u32(self.consumer.0);
        bytes.u32(self.merchant.0);
        bytes.u32(self.product);
        bytes.u64(self.price.0);
    }

    #[tactic(auto, unfolding(crate::specs::Reading::terms_of))]
    fn read(cut: &mut Cut) -> Result<OrderTerms, Malformed>
        requires { cut.old.place ≡ 1 }
        ensures reads { Reads result (reading.terms_of cut.old.bytes) }
        ensures moved { IfOk result (λ terms. cut.new ≡ moved cut.old 68) }
    {
        let digest = cut.fixed32()?;
        let epoid = cut.fixed16()?;
        let consumer = cut.u32()?;
        let merchant = cut.u32()?;
        let product = cut.u32()?;
        let price = cut.u64()?;
        Ok(OrderTerms {
            digest,
            epoid: Epoid::read(&epoid),
            consumer: PartyId(consumer),
            merchant: PartyId(merchant),
            product,
            price: Price(price),
        })
    }
}

#[tactic(auto, unfolding(crate::specs::Reading::paid_of))]
fn read_paid(mut cut: Cut) -> Result<Entry, Malformed>
    requires { cut.place ≡ 1 }
    ensures { Reads result (reading.paid_of cut.entry.bytes) }
{
    let terms = OrderTerms::read(&mut cut)?;
    let digest = terms.digest;
    let cacct = cut.u32()?;
    let macct = cut.u32()?;
    let moment = cut.u64()?;
    let key = cut.fixed32()?;
    Ok(Entry::Paid {
        digest,
        epoid: terms.epoid,
        consumer: terms.consumer,
        merchant: terms.merchant,
        product: terms.product,
        price: terms.price,
        cacct: AcctId(cacct),
        macct: AcctId(macct),
        moment,
        key,
    })
}

#[tactic(auto, unfolding(crate::specs::Reading::charged_of))]
fn read_charged(mut cut: Cut) -> Result<Entry, Malformed>
    requires { cut.place ≡ 1 }
    ensures { Reads result (reading.charged_of cut.entry.bytes) }
{
    let terms = OrderTerms::read(&mut cut)?;
    let digest = terms.digest;
    let fee = cut.u64()?;
    let cacct = cut.u32()?;
    let macct = cut.u32()?;
    let moment = cut.u64()?;
    let key = cut.fixed32()?;
    Ok(Entry::Charged {
        digest,
        epoid: terms.epoid,
        consumer: terms.consumer,
        merchant: terms.merchant,
        product: terms.product,
        price: terms.price,
        fee,
        cacct: AcctId(cacct),
        macct: AcctId(macct),
        moment,
        key,
    })
}

#[tactic(auto, unfolding(crate::specs::Reading::refused_of))]
fn read_refused(mut cut: Cut) -> Result<Entry, Malformed>
    requires { cut.place ≡ 1 }
    ensures { Reads result (reading.refused_of cut.entry.bytes) }
{
    let terms = OrderTerms::read(&mut cut)?;
    let digest = terms.digest;
    let place = cut.place();
    let code = cut.u8()?;
    allow(is_reason(code), place)?;
    let a = cut.u64()?;
    let b = cut.u64()?;
    let moment = cut.u64()?;
    Ok(Entry::Refused {
        digest,
        epoid: terms.epoid,
        consumer: terms.consumer,
        merchant: terms.merchant,
        product: terms.product,
        price: terms.price,
        code,
        a,
        b,
        moment,
    })
}

// Whether a party may have this role.
fn is_role(role: u8) -> bool
    ensures { result ≡ reading.is_role role }
{
    role == CONSUMER || role == MERCHANT
}

// How many bytes the entry is spelled in.
fn spelled_len(e: &Entry) -> usize
    ensures { result ≡ spelling.bytes_of_kind e.now }
{
    match e {
        Entry::Enrol { .. } => 50,
        Entry::Fund { .. } => 29,
        Entry::Paid { .. } => 117,
        Entry::Charged { .. } => 125,
        Entry::Refused { .. } => 94,
    }
}
