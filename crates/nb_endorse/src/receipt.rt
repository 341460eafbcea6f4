ghost use Rattle.std.specs.Prelude.{◌≡◌, ◌==◌, ◌≤◌, ◌↔◌, ◌+◌, ◌++◌, [], length, codes, vec_capacity, vec_len, IfOk, IfSome, IsTrue, None, Ok, ◌<◌, ◌^◌};
ghost use Rattle.nb_seal.specs.Seal.{Opens, seal_of};
ghost use Rattle.nb_units.specs.Room.{spare_of};
ghost use Rattle.nb_units.specs.Reads.{Reads};
ghost use Rattle.nb_units.specs.Fields.{◌>>=◌ as ◌and_then◌, u64_at, raw_at, done_at, or_place, allowed};
ghost use Rattle.std.specs.Bool.{then_some};
ghost use Rattle.nb_units.specs.Epoid.{epoid_of};
ghost use Rattle.nb_units.specs.declared.buffer.TheConstants.{MAX_BUFFER};
ghost use Rattle.nb_endorse.specs.declared.receipt.TheConstants.{UNTAGGED_BYTES, SIGNED_BYTES, RECEIPT_BYTES, PRESENT};
ghost use Rattle.nb_endorse.specs.Spelling as spelling;
ghost use Rattle.nb_endorse.specs.Reading as reading;
ghost use Rattle.nb_endorse.specs.Replies.{ReceiptKeepsRules};
ghost use Rattle.nb_endorse.specs.Differing.{IsOf, first_difference};
ghost use Rattle.nb_endorse.specs.Sealed.{ReadsSealed};
ghost use Rattle.nb_endorse.specs.Tags.{receipt_tag, signed_receipt};

use crate::sealed::SealedFault;
use nb_seal::{KeyState, same};
use nb_units::width::{
    CODE, EPOID, FLAG, MOMENT, MONEY, PARTY, PLACE, PRODUCT, SEAL, SECRET, SHOWN, TAG,
};
use nb_units::{Buffer, Cut, Epoid, Malformed, PartyId, Price, Secret, Tag, allow, is_reason};

/// The code of an order that was paid.
pub const PAID_CODE: u8 = 0;

// The bytes of a receipt before its tag.
const UNTAGGED_BYTES: usize = CODE
    + 2 * PARTY
    + PRODUCT
    + MONEY
    + EPOID
    + PLACE
    + MOMENT
    + (FLAG + SECRET)
    + (FLAG + 2 * SHOWN);

/// The bytes of a receipt with its tag.
pub const SIGNED_BYTES: usize = UNTAGGED_BYTES + TAG;

/// The bytes of a receipt with its tag, sealed.
pub const RECEIPT_BYTES: usize = SEAL + SIGNED_BYTES;

// A receipt is sealed under this label, and what its tag is over begins with it.
const RECEIPT_LABEL: [u8; 4] = *b"rcpt";

/// Before a field that is not there.
pub const ABSENT: u8 = 0;

/// Before a field that is there.
pub const PRESENT: u8 = 1;

/// What stands in place of a key that is not there: zeros.
pub const NO_KEY: Secret = [0; 32];

/// What the house says of an order to one of its parties.
#[derive(Clone, Copy, PartialEq, Eq, Debug)]
pub struct Receipt {
    /// [`PAID_CODE`], or why the order was refused: from [`FIRST_REASON`](nb_units::FIRST_REASON) to [`LAST_REASON`](nb_units::LAST_REASON). One byte wide.
    pub code: u8,
    /// Who pays, 4 bytes wide.
    pub consumer: PartyId,
    /// Who is paid, 4 bytes wide.
    pub merchant: PartyId,
    /// The merchant's number for the product, 4 bytes wide.
    pub product: u32,
    /// What is paid, in the house's smallest unit of money, 8 bytes wide.
    pub price: Price,
    /// The order's identifier, 16 bytes wide.
    pub epoid: Epoid,
    /// The number of entries before the order's entry, 8 bytes wide.
    pub at: u64,
    /// When the order was decided, in seconds since 1970-01-01 00:00 UTC, 8 bytes wide.
    pub moment: u64,
    /// The key that the merchant gave for the goods, where the order was paid, 32 bytes wide.
    pub key: Option<Secret>,
    /// Two numbers that say more of a refusal, where the party may see them, each 8 bytes wide.
    pub shown: Option<(u64, u64)>,
}

impl Receipt {
    /// The number of the first of five fields in which it differs from these: 1 the identifier, 2 the consumer, 3 the merchant, 4 the product,
    /// 5 the price. `None` where it is of these.
    pub fn first_difference(
        &self,
        epoid: &Epoid,
        consumer: PartyId,
        merchant: PartyId,
        product: u32,
        price: Price,
    ) -> Option<u8>
        ensures first { result ≡ first_difference self.now epoid.now consumer merchant product price }
        // There is none exactly where all five are the receipt's.
        ensures none { (result ≡ None) ↔ IsOf self.now epoid.now consumer merchant product price }
    {
        if self.epoid != *epoid {
            Some(1)
        } else if self.consumer != consumer {
            Some(2)
        } else if self.merchant != merchant {
            Some(3)
        } else if self.product != product {
            Some(4)
        } else if self.price != price {
            Some(5)
        } else {
            None
        }
    }
}

/// A receipt, and what should be the house's tag over it: the HMAC-SHA-256 (RFC 2104) of "rcpt" and the receipt's bytes. Reading does not test it.
#[derive(Clone, Copy, Debug)]
pub struct Signed {
    pub receipt: Receipt,
    pub tag: Tag,
}

impl Signed {
    /// The bytes of the receipt and of its tag before they are sealed: [`SIGNED_BYTES`]. Its code must be one that receipts have;
    /// there must be a key exactly where it says paid, and then nothing that is shown.
    pub fn spelled(&self) -> Buffer
        requires lawful { ReceiptKeepsRules self.now.receipt }
        ensures bytes { result ≡ spelling.signed_bytes self.now }
        ensures fits { spelling.IsSigned self.now }
        ensures long { length result ≡ SIGNED_BYTES }
    {
        let mut bytes = Buffer::new();
        self.spell(&mut bytes);
        bytes
    }

    // The same, in a buffer without a byte.
    fn spell(&self, bytes: &mut Buffer)
        requires lawful { ReceiptKeepsRules self.now.receipt }
        requires empty { bytes.old ≡ [] }
        ensures bytes { bytes.new ≡ spelling.signed_bytes self.now }
        ensures fits { spelling.IsSigned self.now }
        ensures long { length bytes.new ≡ SIGNED_BYTES }
    {
        spell_untagged(&self.receipt, bytes);
        bytes.raw(&self.tag);
    }
}

/// The receipt with its tag: the HMAC-SHA-256 (RFC 2104) of "rcpt" and the receipt's bytes, under the house's key.
pub fn sign_receipt(r: &Receipt, house: &Secret) -> Signed
    ensures { result ≡ signed_receipt house.now r.now }
{
    sign_receipt_with(r, &KeyState::new(house))
}

/// The receipt with its tag, as [`sign_receipt`] gives it, under the house's key of this state.
pub fn sign_receipt_with(r: &Receipt, house: &KeyState) -> Signed
    ensures { result ≡ signed_receipt house.now r.now }
{
    let mut plain = Buffer::new();
    spell_untagged(r, &mut plain);
    Signed {
        receipt: *r,
        tag: house.code(&RECEIPT_LABEL, plain.as_slice()),
    }
}

/// Whether the tag is the HMAC-SHA-256 (RFC 2104) of "rcpt" and the receipt's bytes, under the house's key.
pub fn receipt_tag_ok(s: &Signed, house: &Secret) -> bool
    ensures { IsTrue result ↔ (s.now.tag ≡ receipt_tag house.now s.now.receipt) }
{
    same(&s.tag, &sign_receipt(&s.receipt, house).tag)
}

/// The receipt and its tag, sealed under a party's key and the label "rcpt". The receipt must keep the rules that
/// [`Signed::spelled`] names.
pub fn seal_receipt(s: &Signed, key: &Secret) -> [u8; RECEIPT_BYTES]
    requires lawful { ReceiptKeepsRules s.now.receipt }
    ensures sealed { result ≡ seal_of key.now (codes "rcpt") (spelling.signed_bytes s.now) }
    ensures fits { spelling.IsSigned s.now }
{
    let mut plain = Buffer::new();
    s.spell(&mut plain);
    let mut sealed = [0u8; RECEIPT_BYTES];
    let _all = KeyState::new(key).seal_to(&RECEIPT_LABEL, plain.as_slice(), &mut sealed);
    sealed
}

/// Appends the receipt and its tag, sealed under a party's key and the label "rcpt": [`RECEIPT_BYTES`] bytes, which needs
/// room for as many. The receipt must keep the rules that [`Signed::spelled`] names. It takes no memory.
pub fn write_receipt(s: &Signed, key: &Secret, out: &mut Vec<u8>)
    requires lawful { ReceiptKeepsRules s.now.receipt }
    requires room { RECEIPT_BYTES ≤ spare_of out.old }
    // The seal of the signed receipt is appended, 167 bytes.
    ensures bytes { out.new.items ≡ out.old.items ++ seal_of key.now (codes "rcpt") (spelling.signed_bytes s.now) }
    ensures fits { spelling.IsSigned s.now }
    ensures long { vec_len out.new ≡ vec_len out.old + RECEIPT_BYTES }
    ensures room { vec_capacity out.new ≡ vec_capacity out.old }
{
    write_receipt_with(s, &KeyState::new(key), out);
}

/// Appends the receipt and its tag, sealed in their place, as [`write_receipt`] does, under the key of this state.
pub fn write_receipt_with(s: &Signed, key: &KeyState, out: &mut Vec<u8>)
    requires lawful { ReceiptKeepsRules s.now.receipt }
    requires room { RECEIPT_BYTES ≤ spare_of out.old }
    // As of `write_receipt`, under the key of this state.
    ensures bytes { out.new.items ≡ out.old.items ++ seal_of key.now (codes "rcpt") (spelling.signed_bytes s.now) }
    ensures fits { spelling.IsSigned s.now }
    ensures long { vec_len out.new ≡ vec_len out.old + RECEIPT_BYTES }
    ensures room { vec_capacity out.new ≡ vec_capacity out.old }
{
    let mut plain = Buffer::new();
    s.spell(&mut plain);
    key.seal_spare(&RECEIPT_LABEL, plain.as_slice(), out);
}

/// The receipt and its tag that at most [`RECEIPT_BYTES`] bytes are the seal of under a party's key and the label "rcpt".
/// Any tag is read: [`receipt_tag_ok`] tests it.
///
/// It answers [`SealedFault::BadSeal`] where the bytes are the seal of no text under that key, and
/// [`SealedFault::Malformed`] where they are the seal of a text that is no receipt and tag. Its place is that of the
/// first field that fails, in bytes from the front of the text: a field of which bytes are missing, a code that no receipt
/// has, a byte before the key or the numbers shown that the code does not allow, what should be zeros and is not, or the
/// first byte behind the tag.
pub fn read_receipt(bytes: &[u8], key: &Secret) -> Result<Signed, SealedFault>
    requires short { length bytes.now ≤ RECEIPT_BYTES }
    // What the seal hides, field by field, and the first that fails; or that the bytes are the seal of nothing.
    ensures reads { ReadsSealed reading.signed_of key.now (codes "rcpt") bytes.now result }

    // A receipt that is read was sealed so, and one that was sealed so is read.
    ensures spelled { IfOk result (λ s. spelling.IsSigned s × Opens key.now (codes "rcpt") bytes.now (spelling.signed_bytes s)) }
    // Where the bytes are the seal of the spelling of a receipt within its limits and its tag, these are read.
    ensures found { (s : Signed) → spelling.IsSigned s → Opens key.now (codes "rcpt") bytes.now (spelling.signed_bytes s) → result ≡ Ok s }
{
    opened(bytes, key)
}

// The receipt and its tag that the bytes are the seal of.
fn opened(bytes: &[u8], key: &Secret) -> Result<Signed, SealedFault>
    requires { length bytes.now ≤ RECEIPT_BYTES }
    ensures reads { ReadsSealed reading.signed_of key.now (codes "rcpt") bytes.now result }
    ensures spelled { IfOk result (λ s. spelling.IsSigned s × Opens key.now (codes "rcpt") bytes.now (spelling.signed_bytes s)) }
{
    let mut plain = [0u8; RECEIPT_BYTES];
    let n = KeyState::new(key).unseal_to(&RECEIPT_LABEL, bytes, &mut plain)?;
    let signed = read_signed(plain.split_at(n).0)?;
    Ok(signed)
}

// The receipt's bytes before its tag, in a buffer without a byte.
#[tactic(auto, unfolding(crate::specs::Spelling::receipt_bytes))]
fn spell_untagged(r: &Receipt, bytes: &mut Buffer)
    requires empty { bytes.old ≡ [] }
    ensures bytes { bytes.new ≡ spelling.receipt_bytes r.now }
    ensures fits { ReceiptKeepsRules r.now → spelling.IsReceipt r.now }
    ensures long { length bytes.new ≡ UNTAGGED_BYTES }
{
    bytes.u8(r.code);
    bytes.u32(r.consumer.0);
    bytes.u32(r.merchant.0);
    bytes.u32(r.product);
    bytes.u64(r.price.0);
    bytes.raw(&r.epoid.write());
    bytes.u64(r.at);
    bytes.u64(r.moment);
    write_key(&r.key, bytes);
    write_shown(r.shown, bytes);
}

// A key behind a byte that says whether there is one.
fn write_key(key: &Option<Secret>, bytes: &mut Buffer)
    requires { length bytes.old + 33 ≤ MAX_BUFFER }
    ensures value { bytes.new ≡ bytes.old ++ spelling.key_bytes key.now }
    ensures fits { IfSome key.now (λ key. length key ≡ 32) }
    ensures long { length bytes.new ≡ length bytes.old + 33 }
{
    match key {
        Some(key) => {
            bytes.u8(PRESENT);
            bytes.raw(key);
        }
        None => {
            bytes.u8(ABSENT);
            bytes.raw(&NO_KEY);
        }
    }
}

// The numbers that are shown, behind a byte that says whether they are.
fn write_shown(shown: Option<(u64, u64)>, bytes: &mut Buffer)
    requires { length bytes.old + 17 ≤ MAX_BUFFER }
    ensures value { bytes.new ≡ bytes.old ++ spelling.shown_bytes shown }
    ensures fits { IfSome shown (λ numbers. (numbers.0 < 2 ^ 64) × (numbers.1 < 2 ^ 64)) }
    ensures long { length bytes.new ≡ length bytes.old + 17 }
{
    match shown {
        Some((a, b)) => {
            bytes.u8(PRESENT);
            bytes.u64(a);
            bytes.u64(b);
        }
        None => {
            bytes.u8(ABSENT);
            bytes.u64(0);
            bytes.u64(0);
        }
    }
}

/// The receipt and its tag that the bytes spell, as they are before they are sealed, or the place of the first field that fails,
/// as [`read_receipt`] tells it. Any tag is read.
pub fn read_signed(bytes: &[u8]) -> Result<Signed, Malformed>
    // The fields in their order, and the first that fails.
    ensures reads { Reads result (reading.signed_of bytes.now) }

    // A receipt that is read is spelled so, and one that is spelled so is read.
    ensures spelled { IfOk result (λ s. spelling.IsSigned s × (bytes.now ≡ spelling.signed_bytes s)) }
    // Where the bytes are the spelling of a receipt within its limits and its tag, these are read.
    ensures found { (s : Signed) → spelling.IsSigned s → bytes.now ≡ spelling.signed_bytes s → result ≡ Ok s }
{
    read_fields(bytes)
}

#[tactic(auto, unfolding(crate::specs::Reading::signed_of))]
fn read_fields(bytes: &[u8]) -> Result<Signed, Malformed>
    ensures { Reads result (reading.signed_of bytes.now) }
{
    let mut cut = Cut::new(bytes);
    let place = cut.place();
    let code = cut.u8()?;
    allow(is_receipt_code(code), place)?;
    let consumer = cut.u32()?;
    let merchant = cut.u32()?;
    let product = cut.u32()?;
    read_price(code, PartyId(consumer), PartyId(merchant), product, cut)
}

// Behind the product: the price, the identifier, the place and the moment, and what follows them.
fn read_price(
    code: u8,
    consumer: PartyId,
    merchant: PartyId,
    product: u32,
    mut cut: Cut,
) -> Result<Signed, Malformed>
    requires { cut.place ≡ 13 }
    ensures { Reads result (
        or_place (u64_at cut.entry.bytes 13) and_then λ price.
        or_place (raw_at 16 cut.entry.bytes 21) and_then λ epoid.
        or_place (u64_at cut.entry.bytes 37) and_then λ at.
        or_place (u64_at cut.entry.bytes 45) and_then λ moment.
        reading.behind_moment (record { code = code; consumer = consumer; merchant = merchant; product = product; price = record { 0 = price }; epoid = epoid_of epoid; at = at; moment = moment; key = None; shown = None }) cut.entry.bytes) }
{
    let price = cut.u64()?;
    let epoid = cut.fixed16()?;
    let at = cut.u64()?;
    let moment = cut.u64()?;
    let front = Receipt {
        code,
        consumer,
        merchant,
        product,
        price: Price(price),
        epoid: Epoid::read(&epoid),
        at,
        moment,
        key: None,
        shown: None,
    };
    read_key(front, cut)
}

// Behind the moment: the key, and what follows it.
#[tactic(auto, unfolding(crate::specs::Reading::behind_moment))]
fn read_key(front: Receipt, mut cut: Cut) -> Result<Signed, Malformed>
    requires { cut.place ≡ 53 }
    ensures { Reads result (reading.behind_moment front cut.entry.bytes) }
{
    let place = cut.place();
    let has_key = cut.u8()?;
    allow(has_key == key_flag(front.code), place)?;
    let place = cut.place();
    let key = cut.fixed32()?;
    allow(may_hold(has_key, key == NO_KEY), place)?;
    let keyed = Receipt {
        key: (has_key == PRESENT).then_some(key),
        ..front
    };
    read_shown(keyed, cut)
}

// Behind the key: the numbers that are shown, and the tag.
#[tactic(auto, unfolding(crate::specs::Reading::behind_key))]
fn read_shown(front: Receipt, mut cut: Cut) -> Result<Signed, Malformed>
    requires { cut.place ≡ 86 }
    ensures { Reads result (reading.behind_key front cut.entry.bytes) }
{
    let place = cut.place();
    let has_shown = cut.u8()?;
    allow(may_show(front.code, has_shown), place)?;
    let place = cut.place();
    let a = cut.u64()?;
    allow(may_hold(has_shown, a == 0), place)?;
    read_tag(front, has_shown, a, cut)
}

// Behind the first number that is shown: the second, and the tag.
fn read_tag(front: Receipt, has_shown: u8, a: u64, mut cut: Cut) -> Result<Signed, Malformed>
    requires { cut.place ≡ 95 }
    ensures { Reads result (
        or_place (u64_at cut.entry.bytes 95) and_then λ b.
        allowed (reading.may_hold has_shown (b == 0)) 95 and_then λ b_is.
        or_place (raw_at 32 cut.entry.bytes 103) and_then λ tag.
        or_place (done_at cut.entry.bytes 135) and_then λ end.
        Ok (record { receipt = record front { shown = then_some (has_shown == PRESENT) (a, b) }; tag = tag })) }
{
    let place = cut.place();
    let b = cut.u64()?;
    allow(may_hold(has_shown, b == 0), place)?;
    let tag = cut.fixed32()?;
    cut.done()?;
    let receipt = Receipt {
        shown: (has_shown == PRESENT).then_some((a, b)),
        ..front
    };
    Ok(Signed { receipt, tag })
}

// Whether a receipt may have this code.
fn is_receipt_code(code: u8) -> bool
    ensures { result ≡ reading.is_receipt_code code }
{
    code == PAID_CODE || is_reason(code)
}

// The byte before the key of a receipt with this code.
fn key_flag(code: u8) -> u8
    ensures { result ≡ reading.key_flag code }
{
    if code == PAID_CODE { PRESENT } else { ABSENT }
}

// Whether this byte may stand before the numbers that a receipt with this code shows.
#[tactic(auto, unfolding(crate::specs::Reading::may_show))]
fn may_show(code: u8, has_shown: u8) -> bool
    ensures { result ≡ reading.may_show code has_shown }
{
    has_shown == ABSENT || (has_shown == PRESENT && code != PAID_CODE)
}

// Whether a field behind this byte may hold what it holds: anything where the field is there, and else zeros.
#[tactic(auto, unfolding(crate::specs::Reading::may_hold))]
fn may_hold(has: u8, is_zero: bool) -> bool
    ensures { result ≡ reading.may_hold has is_zero }
{
    has == PRESENT || is_zero
}
