ghost use Rattle.std.specs.Prelude.{◌≡◌, ◌≤◌, ◌↔◌, ◌+◌, ◌++◌, length, vec_capacity, IfOk, IsTrue, Ok};
ghost use Rattle.nb_units.specs.Room.{spare_of};
ghost use Rattle.nb_units.specs.Reads.{Reads};
ghost use Rattle.nb_units.specs.declared.limits.TheConstants.{MAX_HIDDEN, MAX_ORDER};
ghost use Rattle.nb_epo.specs.Spelling.{IsOrder, untagged_bytes, order_bytes};
ghost use Rattle.nb_epo.specs.Reading.{order_of};
ghost use Rattle.nb_epo.specs.Tags.{order_tag, signed_order};

use nb_seal::{KeyState, hmac, same};
use nb_units::width::TAG;
use nb_units::{
    Buffer, Cut, Digest, Epoid, MAX_HIDDEN, MAX_ORDER, Malformed, PartyId, Pen, Price, Secret,
    Small, Tag,
};

// What the tag of an order is over begins with this.
const ORDER_LABEL: [u8; 4] = *b"ordr";

/// A consumer's promise to pay for one product. What is said of its digests and of its tag is what they should be: reading does not test it.
#[derive(Clone, Copy, Debug)]
pub struct Order {
    /// Who pays, 4 bytes wide.
    pub consumer: PartyId,
    /// Who is paid, 4 bytes wide.
    pub merchant: PartyId,
    /// The merchant's number for the product, 4 bytes wide.
    pub product: u32,
    /// What is paid, in the house's smallest unit of money, 8 bytes wide. Any price can be spelled.
    pub price: Price,
    /// The order's identifier, 16 bytes wide.
    pub epoid: Epoid,
    /// The SHA-256 digest (FIPS 180-4) of the sealed goods.
    pub checksum: Digest,
    /// The SHA-256 digest of what the consumer asked the merchant for.
    pub request: Digest,
    /// The digest of the consumer's account and nonce ([`account_digest`](crate::account_digest)), for the merchant's files.
    pub account: Digest,
    /// The hidden part, sealed: at most [`MAX_HIDDEN`] bytes.
    pub hidden: Small,
    /// The HMAC-SHA-256 (RFC 2104) of "ordr" and all bytes before the tag, under the consumer's key.
    pub tag: Tag,
}

/// Appends the order's bytes. It needs room for [`MAX_ORDER`] bytes, also for a shorter order, and a hidden part of at most
/// [`MAX_HIDDEN`] bytes. It takes no memory.
pub fn write_order(o: &Order, out: &mut Vec<u8>)
    requires hidden { length o.now.hidden ≤ MAX_HIDDEN }
    requires room { MAX_ORDER ≤ spare_of out.old }
    ensures bytes { out.new.items ≡ out.old.items ++ order_bytes o.now }
    ensures fits { IsOrder o.now }
    ensures room { vec_capacity out.new ≡ vec_capacity out.old }
{
    let signed = signed_part(o);
    let mut pen = Pen::over(out);
    pen.raw(signed.as_slice());
    pen.raw(&o.tag);
}

/// The order that the bytes spell, or the place of the first field that fails: a field of which bytes are missing, a
/// hidden part with a length above [`MAX_HIDDEN`], or the first byte behind the tag. Places are in bytes from the front; a bad
/// hidden part is told at the place of its length, 132.
pub fn read_order(bytes: &[u8]) -> Result<Order, Malformed>
    // The fields in their order, and the first that fails.
    ensures reads { Reads result (order_of bytes.now) }

    // An order that is read is spelled so, and one that is spelled so is read.
    ensures spelled { IfOk result (λ o. IsOrder o × (bytes.now ≡ order_bytes o)) }
    // Where the bytes are the spelling of an order within its limits, that order is read.
    ensures found { (o : Order) → IsOrder o → bytes.now ≡ order_bytes o → result ≡ Ok o }
{
    read_fields(bytes)
}

#[tactic(auto, unfolding(crate::specs::Reading::order_of))]
fn read_fields(bytes: &[u8]) -> Result<Order, Malformed>
    ensures { Reads result (order_of bytes.now) }
{
    let mut cut = Cut::new(bytes);
    let consumer = cut.u32()?;
    let merchant = cut.u32()?;
    let product = cut.u32()?;
    let price = cut.u64()?;
    let epoid = cut.fixed16()?;
    let checksum = cut.fixed32()?;
    let request = cut.fixed32()?;
    let account = cut.fixed32()?;
    let hidden = cut.bytes(MAX_HIDDEN as u32)?;
    let tag = cut.fixed32()?;
    cut.done()?;
    Ok(Order {
        consumer: PartyId(consumer),
        merchant: PartyId(merchant),
        product,
        price: Price(price),
        epoid: Epoid::read(&epoid),
        checksum,
        request,
        account,
        hidden: Small::of(hidden).unwrap(),
        tag,
    })
}

/// Sets the tag to the one that the order has under the consumer's key: the HMAC-SHA-256 (RFC 2104) of "ordr" and the
/// order's bytes before the tag.
pub fn sign_order(o: &mut Order, key: &Secret)
    ensures { o.new ≡ signed_order key.now o.old }
{
    o.tag = tag_of(o, key);
}

/// Whether the tag is the one that the order has under the consumer's key. All 32 bytes are compared.
pub fn order_tag_ok(o: &Order, key: &Secret) -> bool
    ensures { IsTrue result ↔ (o.now.tag ≡ order_tag key.now o.now) }
{
    same(&o.tag, &tag_of(o, key))
}

/// Whether the tag of an order that was read from these bytes is the one that it has under the key of this state. The bytes are
/// hashed as they stand: no field is spelled again.
pub fn read_tag_ok(bytes: &[u8], o: &Order, key: &KeyState) -> bool
    requires read { bytes.now ≡ order_bytes o.now }
    ensures { IsTrue result ↔ (o.now.tag ≡ order_tag key.now o.now) }
{
    let signed = bytes.split_at(bytes.len() - TAG).0;
    same(&o.tag, &key.code(&ORDER_LABEL, signed))
}

// The tag of an order under a key.
fn tag_of(o: &Order, key: &Secret) -> Tag
    ensures { result ≡ order_tag key.now o.now }
{
    let signed = signed_part(o);
    hmac(key, &ORDER_LABEL, signed.as_slice())
}

// The order's bytes before its tag.
#[tactic(auto, unfolding(crate::specs::Spelling::untagged_bytes))]
fn signed_part(o: &Order) -> Buffer
    ensures bytes { result ≡ untagged_bytes o.now }
    ensures fits { length o.now.hidden ≤ MAX_HIDDEN → IsOrder o.now }
    ensures long { length result ≡ 136 + length o.now.hidden }
{
    let mut bytes = Buffer::new();
    bytes.u32(o.consumer.0);
    bytes.u32(o.merchant.0);
    bytes.u32(o.product);
    bytes.u64(o.price.0);
    bytes.raw(&o.epoid.write());
    bytes.raw(&o.checksum);
    bytes.raw(&o.request);
    bytes.raw(&o.account);
    bytes.bytes(o.hidden.as_slice());
    bytes
}
