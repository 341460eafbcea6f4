ghost use Rattle.std.specs.Prelude.{◌≡◌, ◌≤◌, ◌<◌, ◌+◌, ◌*◌, length, IfOk};
ghost use Rattle.nb_units.specs.declared.frames.TheConstants.{FUND_REQUEST, LAST_KIND};
ghost use Rattle.nb_units.specs.Frames.{frame};
ghost use Rattle.nb_body.specs.Spelling.{IsRole, funding_bytes};
ghost use Rattle.nb_epo.specs.Spelling.{order_bytes};
ghost use Rattle.nb_play.specs.declared.frames.TheConstants.{CONSUMERS, FUNDED, MAX_ORDERS, PARTIES};
ghost use Rattle.nb_play.specs.Drill as drill;
ghost use Rattle.nb_play.specs.Feed.{cap_of, count_of};

use crate::draws::draw;
use nb_body::{CONSUMER_ROLE, EndorsedOrder, Enrolment, Funding, MERCHANT_ROLE};
use nb_endorse::{Endorsement, MAX_SEALED, write_sealed};
use nb_epo::{Hidden, Order, hide, sign_order, write_order};
use nb_frame::write_frame;
use nb_goods::goods_key;
use nb_seal::{hmac, sha};
use nb_units::frames::{ENROL_REQUEST, FUND_REQUEST, HEADER, ORDER_REQUEST};
use nb_units::width::TAG;
use nb_units::{
    AcctId, Blob, Buffer, Epoid, MAX_ORDER, NoMemory, PartyId, Price, Secret, Small, Tag,
};
use std::alloc::Global;

/// The most orders of a drill.
pub const MAX_ORDERS: u32 = 100_000;

/// How many parties are enrolled, with the numbers from 1 on: consumers, and then merchants.
pub const PARTIES: u32 = CONSUMERS + MERCHANTS;

/// The moment of every request, in seconds.
pub const MOMENT: u64 = 1_000_000;

// The consumers have the first numbers, and each its money.
pub(crate) const CONSUMERS: u32 = 8;

const MERCHANTS: u32 = 8;

const FIRST_MERCHANT: u32 = CONSUMERS + 1;

const FUNDED: u64 = 1_000_000;

// Prices are from 1 to this.
const MOST_PRICE: u64 = 1000;

// The keys of the house and of the operator have these names.
const HOUSE_NAME: u32 = 0;

const OPERATOR_NAME: u32 = u32::MAX;

// Digests that nobody looks at, and a tag that is not there yet.
const NOTHING: [u8; 32] = [0; 32];

// What the tags of an enrolment and of a funding are over begins with these.
const ENROL_LABEL: [u8; 4] = *b"enro";

const FUND_LABEL: [u8; 4] = *b"fund";

/// How many frames a drill with so many orders has, at most [`MAX_ORDERS`]: one for each party, one for each consumer's money, and two for
/// each order.
pub fn frame_count(orders: u32) -> u32
    requires { orders ≤ MAX_ORDERS }
    ensures { result ≡ count_of orders }
{
    PARTIES + CONSUMERS + 2 * orders
}

/// The cap of the drill's house: an entry for each party, one for each consumer's money, and one for each order.
pub fn entry_count(orders: u32) -> u32
    requires { orders ≤ MAX_ORDERS }
    ensures { result ≡ cap_of orders }
{
    PARTIES + CONSUMERS + orders
}

/// The head of the house of a drill: the house's key, the operator's, and 16 zeros.
pub fn drill_head(seed: u64) -> [u8; 80]
    ensures { result ≡ drill.head_of seed }
{
    let mut keys = Buffer::new();
    keys.raw(&key_of(seed, HOUSE_NAME));
    keys.raw(&key_of(seed, OPERATOR_NAME));
    keys.raw(&[0; 16]);
    let mut head = [0u8; 80];
    head.copy_from_slice(keys.as_slice());
    head
}

/// Frame `i` of a drill with so many orders, at most [`MAX_ORDERS`], of the frames that [`frame_count`] counts.
#[tactic(auto, using(crate::proofs::Framing::funds, crate::proofs::Framing::orders))]
pub fn drill_frames(alloc: Global, seed: u64, orders: u32, i: u32) -> Result<Blob, NoMemory>
    requires few { orders ≤ MAX_ORDERS }
    requires within { i < count_of orders }
    // After Ok the bytes of frame `i`: enrolments of eight consumers and eight merchants, money for each consumer, and then each order twice.
    ensures { IfOk result (λ blob. blob ≡ drill.frame_bytes seed i) }
{
    if i < PARTIES {
        return framed(alloc, ENROL_REQUEST, &enrolment(seed, i + 1).spelled());
    }
    if i < PARTIES + CONSUMERS {
        return fund_frame(alloc, seed, i + 1 - PARTIES);
    }
    order_frame(alloc, seed, (i - (PARTIES + CONSUMERS)) / 2)
}

// The frame that puts money into account `n`.
fn fund_frame(alloc: Global, seed: u64, n: u32) -> Result<Blob, NoMemory>
    ensures { IfOk result (λ blob. blob ≡ frame (record { kind = FUND_REQUEST; body = funding_bytes (drill.funding seed n) })) }
{
    framed(alloc, FUND_REQUEST, &funding(seed, n).spelled())
}

// The frame that hands order `i` in.
fn order_frame(alloc: Global, seed: u64, i: u32) -> Result<Blob, NoMemory>
    requires { i < MAX_ORDERS }
    ensures { IfOk result (λ blob. blob ≡ frame (drill.order_frame seed i)) }
{
    let consumer = consumer_of(seed, i);
    let merchant = merchant_of(seed, i);
    let body = endorsed(alloc, seed, i, consumer, merchant)?;
    framed(alloc, ORDER_REQUEST, &body)
}

// Who buys in order `i`.
fn consumer_of(seed: u64, i: u32) -> u32
    ensures { result ≡ drill.consumer_of seed i }
{
    1 + (draw(seed, 3 * u64::from(i)) % u64::from(CONSUMERS)) as u32
}

// From whom.
fn merchant_of(seed: u64, i: u32) -> u32
    ensures { result ≡ drill.merchant_of seed i }
{
    FIRST_MERCHANT + (draw(seed, 3 * u64::from(i) + 1) % u64::from(MERCHANTS)) as u32
}

// The frame of a kind with this body.
fn framed(alloc: Global, kind: u8, body: &Buffer) -> Result<Blob, NoMemory>
    requires kind { (1 ≤ kind) × (kind ≤ LAST_KIND) }
    ensures { IfOk result (λ blob. blob ≡ frame (record { kind = kind; body = body.now })) }
{
    let body = body.as_slice();
    let mut bytes = Vec::with_capacity(alloc, HEADER + body.len())?;
    write_frame(kind, body, &mut bytes);
    Ok(Blob::from_vec(bytes))
}

// The key of a name.
fn key_of(seed: u64, name: u32) -> Secret
    ensures { result ≡ drill.key_of seed name }
{
    let mut named = Buffer::new();
    named.u64(seed);
    named.u32(name);
    sha(named.as_slice())
}

// The tag of a body under the operator's key: over the label and all before its last 32 bytes.
fn tag_of(seed: u64, label: &[u8; 4], body: &Buffer) -> Tag
    requires { 32 ≤ length body.now }
    ensures { result ≡ drill.tag_of seed label.now body.now }
{
    let body = body.as_slice();
    hmac(
        &key_of(seed, OPERATOR_NAME),
        label,
        body.split_at(body.len() - TAG).0,
    )
}

// Party `n`.
fn enrolment(seed: u64, n: u32) -> Enrolment
    ensures party { result ≡ drill.enrolment seed n }
    ensures role { IsRole result.role }
{
    let party = Enrolment {
        id: PartyId(n),
        role: if n < FIRST_MERCHANT {
            CONSUMER_ROLE
        } else {
            MERCHANT_ROLE
        },
        acct: AcctId(n),
        nonce: u64::from(n),
        key: key_of(seed, n),
        tag: NOTHING,
    };
    Enrolment {
        tag: tag_of(seed, &ENROL_LABEL, &party.spelled()),
        ..party
    }
}

// The money for account `n`.
fn funding(seed: u64, n: u32) -> Funding
    ensures money { result ≡ drill.funding seed n }
    ensures amount { result.amount ≡ FUNDED }
{
    let mut reference = [0u8; 16];
    reference
        .split_at_mut(12)
        .1
        .copy_from_slice(&n.to_be_bytes());
    let money = Funding {
        acct: AcctId(n),
        amount: FUNDED,
        reference,
        tag: NOTHING,
    };
    Funding {
        tag: tag_of(seed, &FUND_LABEL, &money.spelled()),
        ..money
    }
}

// The body that hands order `i` in, between these two.
fn endorsed(
    alloc: Global,
    seed: u64,
    i: u32,
    consumer: u32,
    merchant: u32,
) -> Result<Buffer, NoMemory>
    requires { i < MAX_ORDERS }
    ensures { IfOk result (λ body. body ≡ drill.endorsed seed i consumer merchant) }
{
    let key = key_of(seed, merchant);
    let endorsement = Endorsement {
        order: order_bytes_of(alloc, seed, i, consumer, merchant)?,
        macct: AcctId(merchant),
        memo: Small::of(&[]).unwrap(),
        key: goods_key(&key, PartyId(merchant), i),
    };
    let mut sealed = Vec::with_capacity(alloc, MAX_SEALED)?;
    write_sealed(&endorsement, &key, &mut sealed);
    let mut text = Buffer::new();
    text.raw(sealed.as_slice());
    let asked = EndorsedOrder {
        merchant: PartyId(merchant),
        sealed: text,
    };
    Ok(asked.spelled())
}

// The bytes of order `i`, between these two.
fn order_bytes_of(
    alloc: Global,
    seed: u64,
    i: u32,
    consumer: u32,
    merchant: u32,
) -> Result<Small, NoMemory>
    requires { i < MAX_ORDERS }
    ensures { IfOk result (λ bytes. bytes ≡ order_bytes (drill.order_of seed i consumer merchant)) }
{
    let key = key_of(seed, consumer);
    let hidden = Hidden {
        acct: AcctId(consumer),
        nonce: u64::from(consumer),
        memo: Small::of(&[]).unwrap(),
    };
    let mut order = Order {
        consumer: PartyId(consumer),
        merchant: PartyId(merchant),
        product: i,
        price: Price(1 + draw(seed, 3 * u64::from(i) + 2) % MOST_PRICE),
        epoid: Epoid {
            merchant: PartyId(merchant),
            moment: MOMENT,
            serial: i,
        },
        checksum: NOTHING,
        request: NOTHING,
        account: NOTHING,
        hidden: hide(&hidden, &key),
        tag: NOTHING,
    };
    sign_order(&mut order, &key);
    let mut bytes = Vec::with_capacity(alloc, MAX_ORDER)?;
    write_order(&order, &mut bytes);
    Ok(Small::of(bytes.as_slice()).unwrap())
}
