ghost use Rattle.std.specs.Prelude.{◌≡◌, ◌≤◌, length, IfOk, Ok};
ghost use Rattle.nb_units.specs.Reads.{Reads};
ghost use Rattle.nb_stall.specs.declared.limits.TheConstants.{MAX_ITEM};
ghost use Rattle.nb_stall.specs.Spelling.{IsItem, ItemKeepsRules, item_bytes};
ghost use Rattle.nb_stall.specs.Reading as reading;

use crate::limits::{DELIVERED_ITEM, ENDORSED_ITEM, MAX_PART, QUOTED_ITEM, SETTLED_ITEM};
use crate::purchase::Purchase;
use nb_units::{Buffer, Cut, Digest, Epoid, MAX_ORDER, Malformed, PartyId, Price, Small};

/// What a merchant keeps of a step: an item of its journal.
#[derive(Clone, Copy)]
pub enum Item {
    /// A price was told.
    Quoted {
        purchase: Purchase,
        /// The merchant's number for the product, 4 bytes wide.
        product: u32,
        /// What was told, in the house's smallest unit of money, 8 bytes wide.
        price: Price,
        /// The SHA-256 (FIPS 180-4) of the request for the price, before it was sealed, 32 bytes wide.
        request: Digest,
    },
    /// The goods were sealed for the purchase, under the key of a serial number.
    Delivered {
        purchase: Purchase,
        /// The identifier that the order must have, 16 bytes wide. The serial number stands in it.
        epoid: Epoid,
        /// The SHA-256 of the sealed goods, 32 bytes wide.
        checksum: Digest,
    },
    /// The consumer's order was endorsed.
    Endorsed {
        purchase: Purchase,
        /// The bytes of the order: at most [`MAX_ORDER`].
        order: Small,
    },
    /// The house told the result.
    Settled {
        purchase: Purchase,
        /// The consumer's receipt, sealed for the consumer: at most [`MAX_PART`] bytes.
        part: Small,
    },
}

impl Item {
    /// The purchase that it is about.
    pub fn purchase(&self) -> Purchase
        ensures { result ≡ reading.purchase_of self.now }
    {
        match self {
            Item::Quoted { purchase, .. } => *purchase,
            Item::Delivered { purchase, .. } => *purchase,
            Item::Endorsed { purchase, .. } => *purchase,
            Item::Settled { purchase, .. } => *purchase,
        }
    }

    /// The item that the bytes spell, or the place of the first field that fails, in bytes from their front.
    pub fn read(bytes: &[u8]) -> Result<Item, Malformed>
        // The fields in their order, and the first that fails.
        ensures reads { Reads result (reading.item_of bytes.now) }

        // What is read is spelled so, and what is spelled so is read.
        ensures spelled { IfOk result (λ item. IsItem item × (bytes.now ≡ item_bytes item)) }
        // What is spelled so is read.
        ensures found { (item : Item) → IsItem item → bytes.now ≡ item_bytes item → result ≡ Ok item }
    {
        read_fields(bytes)
    }

    /// Its bytes, at most [`MAX_ITEM`](crate::MAX_ITEM): kind 1, consumer 4, transaction 8; then, of a price that was told (1), product 4,
    /// price 8, request 32; of goods (2), identifier 16, checksum 32; of an order (3) and of a receipt (4), its bytes behind their length 4.
    #[tactic(auto, unfolding(crate::specs::Spelling::item_bytes))]
    pub fn spelled(&self) -> Buffer
        requires { ItemKeepsRules self.now }
        ensures bytes { result ≡ item_bytes self.now }
        ensures fits { IsItem self.now }
        ensures long { length result ≤ MAX_ITEM }
    {
        let mut bytes = Buffer::new();
        match self {
            Item::Quoted {
                purchase,
                product,
                price,
                request,
            } => {
                bytes.u8(QUOTED_ITEM);
                bytes.u32(purchase.consumer.0);
                bytes.u64(purchase.transaction);
                bytes.u32(*product);
                bytes.u64(price.0);
                bytes.raw(request);
            }
            Item::Delivered {
                purchase,
                epoid,
                checksum,
            } => {
                bytes.u8(DELIVERED_ITEM);
                bytes.u32(purchase.consumer.0);
                bytes.u64(purchase.transaction);
                bytes.raw(&epoid.write());
                bytes.raw(checksum);
            }
            Item::Endorsed { purchase, order } => {
                bytes.u8(ENDORSED_ITEM);
                bytes.u32(purchase.consumer.0);
                bytes.u64(purchase.transaction);
                bytes.bytes(order.as_slice());
            }
            Item::Settled { purchase, part } => {
                bytes.u8(SETTLED_ITEM);
                bytes.u32(purchase.consumer.0);
                bytes.u64(purchase.transaction);
                bytes.bytes(part.as_slice());
            }
        }
        bytes
    }
}

#[tactic(auto, unfolding(crate::specs::Reading::item_of))]
fn read_fields(bytes: &[u8]) -> Result<Item, Malformed>
    ensures { Reads result (reading.item_of bytes.now) }
{
    let mut cut = Cut::new(bytes);
    match cut.u8()? {
        QUOTED_ITEM => read_quoted(cut),
        DELIVERED_ITEM => read_delivered(cut),
        ENDORSED_ITEM => read_endorsed(cut),
        SETTLED_ITEM => read_settled(cut),
        _ => Err(Malformed { place: 0 }),
    }
}

// What follows reads the fields behind a kind.

#[tactic(auto, unfolding(crate::specs::Reading::quoted_of))]
fn read_quoted(mut cut: Cut) -> Result<Item, Malformed>
    requires { cut.place ≡ 1 }
    ensures { Reads result (reading.quoted_of cut.entry.bytes) }
{
    let consumer = cut.u32()?;
    let transaction = cut.u64()?;
    let product = cut.u32()?;
    let price = cut.u64()?;
    let request = cut.fixed32()?;
    cut.done()?;
    Ok(Item::Quoted {
        purchase: Purchase {
            consumer: PartyId(consumer),
            transaction,
        },
        product,
        price: Price(price),
        request,
    })
}

#[tactic(auto, unfolding(crate::specs::Reading::delivered_of))]
fn read_delivered(mut cut: Cut) -> Result<Item, Malformed>
    requires { cut.place ≡ 1 }
    ensures { Reads result (reading.delivered_of cut.entry.bytes) }
{
    let consumer = cut.u32()?;
    let transaction = cut.u64()?;
    let epoid = cut.fixed16()?;
    let checksum = cut.fixed32()?;
    cut.done()?;
    Ok(Item::Delivered {
        purchase: Purchase {
            consumer: PartyId(consumer),
            transaction,
        },
        epoid: Epoid::read(&epoid),
        checksum,
    })
}

#[tactic(auto, unfolding(crate::specs::Reading::endorsed_of))]
fn read_endorsed(mut cut: Cut) -> Result<Item, Malformed>
    requires { cut.place ≡ 1 }
    ensures { Reads result (reading.endorsed_of cut.entry.bytes) }
{
    let consumer = cut.u32()?;
    let transaction = cut.u64()?;
    let order = cut.bytes(MAX_ORDER as u32)?;
    cut.done()?;
    Ok(Item::Endorsed {
        purchase: Purchase {
            consumer: PartyId(consumer),
            transaction,
        },
        order: Small::of(order).unwrap(),
    })
}

#[tactic(auto, unfolding(crate::specs::Reading::settled_of))]
fn read_settled(mut cut: Cut) -> Result<Item, Malformed>
    requires { cut.place ≡ 1 }
    ensures { Reads result (reading.settled_of cut.entry.bytes) }
{
    let consumer = cut.u32()?;
    let transaction = cut.u64()?;
    let part = cut.bytes(MAX_PART as u32)?;
    cut.done()?;
    Ok(Item::Settled {
        purchase: Purchase {
            consumer: PartyId(consumer),
            transaction,
        },
        part: Small::of(part).unwrap(),
    })
}
