//! The rows of the table: what a merchant does at a message, stage by stage, its tests in their order.

ghost use Rattle.std.specs.Prelude.{◌≡◌, ◌≤◌, ◌<◌, ◌+◌, ◌^◌, length, None, IfOk, IfSome};
ghost use Rattle.nb_goods.specs.Parts.{parts_of};
ghost use Rattle.nb_body.specs.declared.limits.TheConstants.{MAX_REQUEST};
ghost use Rattle.nb_groups.specs.declared.limits.TheConstants.{CREDENTIAL_BYTES};
ghost use Rattle.nb_price.specs.Products.{product_in};
ghost use Rattle.nb_endorse.specs.declared.receipt.TheConstants.{RECEIPT_BYTES};
ghost use Rattle.nb_merchant.specs.Noting.{PlansPlain, SealsFor, SealsAs};
ghost use Rattle.nb_merchant.specs.Keeping.{delivery_follows, is_sealed_next};
ghost use Rattle.nb_merchant.specs.Shop.{goods_in};
ghost use Rattle.nb_merchant.specs.Table as table;
ghost use Rattle.nb_merchant.specs.Telling.{Plans};
ghost use Rattle.nb_msgs.specs.Tests as tests;
ghost use Rattle.nb_stall.specs.Tests.{request_digest};

use crate::answer::{Answer, Halt, Planned};
use nb_body::{GoodsRequest, Quote};
use nb_endorse::Receipt;
use nb_epo::{Order, read_order};
use nb_goods::{MAX_GOODS, PART_BYTES, Parts, goods_key, parts};
use nb_groups::{Offers, quote};
use nb_msgs::{Message, Reason, To};
use nb_price::Catalogue;
use nb_seal::KeyState;
use nb_stall::{
    AskedPrice, Item, LAST_SERIAL, Progress, Purchase, Sale, Stall, endorsed_message,
    goods_message, quote_message,
};
use nb_units::{Blob, Digest, Epoid, NoMemory, PartyId, Price, Small};
use std::alloc::Global;

// The test of this number holds.
fn field(number: u8, holds: bool) -> Result<(), Reason>
    ensures { result ≡ tests.field number holds }
{
    if holds {
        Ok(())
    } else {
        Err(Reason::Field(number))
    }
}

// What a product costs by the catalogue.
fn price_of(catalogue: &Catalogue, product: u32) -> Result<Price, Reason>
    ensures { result ≡ table.price_of (product_in catalogue.now product) }
{
    match catalogue.quote(product) {
        Ok(price) => Ok(price),
        Err(_none) => Err(Reason::Field(1)),
    }
}

// The goods of a product.
pub(crate) fn goods_of(catalogue: &Catalogue, product: u32) -> &[u8]
    ensures { result.now ≡ goods_in catalogue.now product }
{
    match catalogue.goods(product) {
        Some(goods) => goods,
        None => &[],
    }
}

// A message for a consumer, with nothing that is kept.
fn told(consumer: PartyId, message: Message) -> Planned
    ensures { result.answer ≡ record { keep = None; to = table.to_consumer consumer; message = message } }
{
    Planned {
        answer: Answer {
            keep: None,
            to: To::Consumer(consumer),
            message,
        },
        parts: None,
    }
}

// ---- a request for a price

// What a product costs who asks for it at first with this request at this moment: what is quoted for the offers, where there are some.
fn first_price(
    catalogue: &Catalogue,
    offers: &Option<Offers>,
    product: u32,
    consumer: PartyId,
    request: &[u8],
    moment: u64,
) -> Result<Price, Reason>
    requires { length request.now ≤ CREDENTIAL_BYTES }
    ensures { result ≡ table.first_price catalogue.now offers.now product consumer request.now moment }
{
    let Some(offers) = offers else {
        return price_of(catalogue, product);
    };
    match quote(catalogue, offers, product, consumer, request, moment) {
        Ok(quoted) => Ok(quoted.price),
        Err(_none) => Err(Reason::Field(1)),
    }
}

#[tactic(auto, unfolding(crate::specs::Table::first_quote))]
pub(crate) fn first_quote(
    alloc: Global,
    catalogue: &Catalogue,
    offers: &Option<Offers>,
    session: &KeyState,
    consumer: PartyId,
    asked: &AskedPrice,
    moment: u64,
) -> Result<Planned, Halt>
    requires digest { asked.now.digest ≡ request_digest asked.now.request }
    requires short { length asked.now.request.request ≤ MAX_REQUEST }
    ensures row { Plans result (table.first_quote catalogue.now offers.now session.now consumer asked.now.request moment) }
    ensures parts { IfOk result PlansPlain }
{
    let request = asked.request;
    let text = request.request;
    let price = first_price(
        catalogue,
        offers,
        request.product,
        consumer,
        text.as_slice(),
        moment,
    )?;
    let quote = Quote {
        transaction: request.transaction,
        product: request.product,
        price,
    };
    let message = quote_message(alloc, session, &quote)?;
    Ok(Planned {
        answer: Answer {
            keep: Some(Item::Quoted {
                purchase: Purchase {
                    consumer,
                    transaction: request.transaction,
                },
                product: request.product,
                price,
                request: asked.digest,
            }),
            to: To::Consumer(consumer),
            message,
        },
        parts: None,
    })
}

#[tactic(auto, unfolding(crate::specs::Table::quote_again))]
pub(crate) fn quote_again(
    alloc: Global,
    session: &KeyState,
    consumer: PartyId,
    asked: &AskedPrice,
    sale: &Sale,
) -> Result<Planned, Halt>
    requires { asked.now.digest ≡ request_digest asked.now.request }
    ensures row { Plans result (table.quote_again session.now consumer asked.now.request sale.now) }
    ensures parts { IfOk result PlansPlain }
{
    field(1, asked.digest == sale.request)?;
    let quote = Quote {
        transaction: asked.request.transaction,
        product: sale.product,
        price: sale.price,
    };
    let message = quote_message(alloc, session, &quote)?;
    Ok(told(consumer, message))
}

// ---- a request for goods

// A serial number is left.
fn serial_left(serial: u64) -> Result<u32, Reason>
    ensures { result ≡ table.left_serial serial }
{
    if serial > u64::from(LAST_SERIAL) {
        return Err(Reason::Spent);
    }
    Ok(serial as u32)
}

#[tactic(auto, unfolding(crate::specs::Table::first_part))]
pub(crate) fn first_part(
    alloc: Global,
    stall: &Stall,
    goods: &[u8],
    next: u64,
    session: &KeyState,
    consumer: PartyId,
    request: &GoodsRequest,
    moment: u64,
) -> Result<Planned, Halt>
    ensures row { Plans result (table.first_part stall.now goods.now next session.now consumer request.now moment) }
    ensures parts { IfOk result (λ planned. IfSome planned.answer.keep (SealsFor stall.now goods.now planned.parts (table.purchase_by consumer request.now.transaction))) }
{
    field(1, request.place == 0)?;
    field(2, goods.len() <= MAX_GOODS)?;
    let serial = serial_left(next)?;
    let made = parts(&goods_key(&stall.master, stall.id, serial), goods);
    let epoid = Epoid {
        merchant: stall.id,
        moment,
        serial,
    };
    let message = goods_message(alloc, session, request.transaction, epoid, &made, goods, 0)?;
    Ok(Planned {
        answer: Answer {
            keep: Some(Item::Delivered {
                purchase: Purchase {
                    consumer,
                    transaction: request.transaction,
                },
                epoid,
                checksum: made.checksum(),
            }),
            to: To::Consumer(consumer),
            message,
        },
        parts: Some(made),
    })
}

#[tactic(auto, unfolding(crate::specs::Table::part_again))]
pub(crate) fn part_again(
    alloc: Global,
    goods: &[u8],
    session: &KeyState,
    consumer: PartyId,
    request: &GoodsRequest,
    epoid: Epoid,
    made: &Parts,
) -> Result<Planned, Halt>
    requires { made.now ≡ parts_of made.now.key goods.now }
    ensures row { Plans result (table.part_again made.now.key goods.now session.now consumer request.now epoid) }
    ensures parts { IfOk result PlansPlain }
{
    let place = request.place;
    field(1, place % PART_BYTES as u64 == 0 && place < made.total())?;
    let message = goods_message(
        alloc,
        session,
        request.transaction,
        epoid,
        made,
        goods,
        place,
    )?;
    Ok(told(consumer, message))
}

// ---- an order

#[tactic(auto, unfolding(crate::specs::Table::order_fits))]
fn order_fits(
    stall: &Stall,
    consumer: PartyId,
    sale: &Sale,
    epoid: &Epoid,
    made: &Parts,
    order: &Order,
) -> Result<(), Reason>
    ensures { result ≡ table.order_fits stall.now consumer sale.now epoid.now made.now.checksum order.now }
{
    field(1, order.consumer == consumer)?;
    field(2, order.merchant == stall.id)?;
    field(3, order.product == sale.product)?;
    field(4, order.price == sale.price)?;
    field(5, order.epoid == *epoid)?;
    field(6, order.checksum == made.checksum())?;
    field(7, order.request == sale.request)
}

#[tactic(auto, unfolding(crate::specs::Table::first_order))]
pub(crate) fn first_order(
    alloc: Global,
    stall: &Stall,
    purchase: Purchase,
    sale: &Sale,
    epoid: &Epoid,
    made: &Parts,
    bytes: &Small,
) -> Result<Planned, Halt>
    ensures row { Plans result (table.first_order stall.now purchase sale.now epoid.now made.now.checksum bytes.now) }
    ensures parts { IfOk result PlansPlain }
{
    order_taken(stall, purchase, sale, epoid, made, bytes)?;
    let message = endorsed_message(alloc, stall, epoid, bytes)?;
    Ok(Planned {
        answer: Answer {
            keep: Some(Item::Endorsed {
                purchase,
                order: *bytes,
            }),
            to: To::Server,
            message,
        },
        parts: None,
    })
}

// The order is in its grammar, and fits the sale.
#[tactic(auto, unfolding(crate::specs::Table::order_taken))]
pub(crate) fn order_taken(
    stall: &Stall,
    purchase: Purchase,
    sale: &Sale,
    epoid: &Epoid,
    made: &Parts,
    bytes: &Small,
) -> Result<(), Reason>
    ensures { result ≡ table.order_taken stall.now purchase sale.now epoid.now made.now.checksum bytes.now }
{
    let order = order_of(bytes)?;
    order_fits(stall, purchase.consumer, sale, epoid, made, &order)
}

// The order that the bytes spell.
fn order_of(bytes: &Small) -> Result<Order, Reason>
    ensures { result ≡ table.order_read bytes.now }
{
    match read_order(bytes.as_slice()) {
        Ok(order) => Ok(order),
        Err(_malformed) => Err(Reason::Seal),
    }
}

#[tactic(auto, unfolding(crate::specs::Table::order_again))]
pub(crate) fn order_again(
    alloc: Global,
    stall: &Stall,
    epoid: &Epoid,
    kept: &Small,
    bytes: &Small,
) -> Result<Planned, Halt>
    ensures row { Plans result (table.order_again stall.now epoid.now kept.now bytes.now) }
    ensures parts { IfOk result PlansPlain }
{
    field(1, bytes == kept)?;
    Ok(endorsed_again(alloc, stall, epoid, kept)?)
}

#[tactic(auto, unfolding(crate::specs::Table::order_settled))]
pub(crate) fn order_settled(
    alloc: Global,
    purchase: Purchase,
    kept: &Small,
    part: &Small,
    bytes: &Small,
) -> Result<Planned, Halt>
    ensures row { Plans result (table.order_settled purchase kept.now part.now bytes.now) }
    ensures parts { IfOk result PlansPlain }
{
    field(1, bytes == kept)?;
    Ok(passed_again(alloc, purchase, part)?)
}

// The kept order, endorsed once more.
pub(crate) fn endorsed_again(
    alloc: Global,
    stall: &Stall,
    epoid: &Epoid,
    kept: &Small,
) -> Result<Planned, NoMemory>
    ensures answer { IfOk result (λ planned. planned.answer ≡ table.endorses_again stall.now epoid.now kept.now) }
    ensures parts { IfOk result PlansPlain }
{
    let message = endorsed_message(alloc, stall, epoid, kept)?;
    Ok(Planned {
        answer: Answer {
            keep: None,
            to: To::Server,
            message,
        },
        parts: None,
    })
}

// The kept result, passed on once more.
pub(crate) fn passed_again(
    alloc: Global,
    purchase: Purchase,
    part: &Small,
) -> Result<Planned, NoMemory>
    ensures answer { IfOk result (λ planned. planned.answer ≡ table.passes_again purchase part.now) }
    ensures parts { IfOk result PlansPlain }
{
    let part = Blob::of(alloc, part.as_slice())?;
    Ok(told(
        purchase.consumer,
        Message::Passed {
            transaction: purchase.transaction,
            part,
        },
    ))
}

// ---- a result

#[tactic(auto, unfolding(crate::specs::Table::first_result))]
pub(crate) fn first_result(
    alloc: Global,
    purchase: Purchase,
    sale: &Sale,
    receipt: &Receipt,
    part: &[u8],
) -> Result<Planned, Halt>
    requires { length part.now ≤ RECEIPT_BYTES }
    ensures row { Plans result (table.first_result purchase sale.now receipt.now part.now) }
    ensures parts { IfOk result PlansPlain }
{
    field(1, receipt.consumer == purchase.consumer)?;
    field(2, receipt.product == sale.product)?;
    field(3, receipt.price == sale.price)?;
    let passed = Blob::of(alloc, part)?;
    Ok(Planned {
        answer: Answer {
            keep: Some(Item::Settled {
                purchase,
                part: Small::of(part).unwrap(),
            }),
            to: To::Consumer(purchase.consumer),
            message: Message::Passed {
                transaction: purchase.transaction,
                part: passed,
            },
        },
        parts: None,
    })
}

// ---- a restart

// What the parts of goods are made from that may be sealed next.
pub(crate) fn delivery_parts(
    stall: &Stall,
    goods: &[u8],
    next: u64,
    epoid: &Epoid,
    checksum: &Digest,
    progress: &Progress,
) -> Option<Parts>
    ensures { SealsAs stall.now goods.now epoid.now (delivery_follows stall.now goods.now next epoid.now checksum.now progress.now) result }
{
    match progress {
        Progress::Quoted => sealed_next(stall, goods, next, epoid, checksum),
        _ => None,
    }
}

fn sealed_next(
    stall: &Stall,
    goods: &[u8],
    next: u64,
    epoid: &Epoid,
    checksum: &Digest,
) -> Option<Parts>
    ensures { SealsAs stall.now goods.now epoid.now (is_sealed_next stall.now goods.now next epoid.now checksum.now) result }
{
    if epoid.merchant != stall.id {
        return None;
    }
    if u64::from(epoid.serial) != next {
        return None;
    }
    if goods.len() > MAX_GOODS {
        return None;
    }
    let made = parts(&goods_key(&stall.master, stall.id, epoid.serial), goods);
    if *checksum == made.checksum() {
        Some(made)
    } else {
        None
    }
}
