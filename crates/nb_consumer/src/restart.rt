ghost use Rattle.std.specs.Prelude.{◌≡◌, ◌≤◌, ◌<◌, ◌^◌, ◌+◌, ◌++◌, ◌==◌, ℕ, List, length, IsTrue};
ghost use Rattle.nb_goods.specs.declared.limits.TheConstants.{MAX_SEALED};
ghost use Rattle.nb_consumer.specs.Deeds as deeds;
ghost use Rattle.nb_wallet.specs.Changes as changes;
ghost use Rattle.nb_consumer.specs.Recalls.{Recalls};
ghost use Rattle.nb_consumer.specs.Restart as again;
ghost use Rattle.nb_consumer.specs.Table.{is_ticketing};
ghost use Rattle.nb_wallet.specs.Spelling.{IsItem};
ghost use Rattle.nb_consumer.specs.State.{purchase_of};
ghost use Rattle.nb_wallet.specs.declared.item.Item.TheVariants as items;

use crate::knowledge::Knowledge;
use crate::rows::{
    Owing, Wanting, asked, is_price, is_ticketing, ordered_as, part_fits, receipt_fits, wanted_as,
};
use nb_body::GoodsHead;
use nb_endorse::Signed;
use nb_epo::Order;
use nb_goods::MAX_SEALED;
use nb_msgs::{BodyFault, RestartFault};
use nb_units::{Blob, NoMemory, Price};
use nb_wallet::{Item, Purchase, Wallet, request_digest};
use std::alloc::Global;

// Why bytes are not recalled.
#[derive(Clone, Copy)]
pub(crate) enum RecallFault {
    // No row keeps them behind what is known.
    Bad,
    NoMemory,
}

impl From<NoMemory> for RecallFault {
    ghost use Rattle.std.specs.Prelude.{◌≡◌};
    ghost use Rattle.nb_consumer.specs.declared.restart.RecallFault.TheVariants as fault;

    ghost from_gives = { λ _ f. f ≡ fault.NoMemory };

    fn from(_none: NoMemory) -> RecallFault {
        RecallFault::NoMemory
    }
}

impl From<BodyFault> for RecallFault {
    ghost use Rattle.nb_consumer.specs.Recalls.{recall_fault};
    ghost use Rattle.std.specs.Prelude.{◌≡◌};

    ghost from_gives = { λ body f. f ≡ recall_fault body };

    fn from(fault: BodyFault) -> RecallFault {
        match fault {
            BodyFault::Malformed { .. } => RecallFault::Bad,
            BodyFault::NoMemory => RecallFault::NoMemory,
        }
    }
}

// Whether a part passes the tests of its row but that of its number, and is not the last.
fn part_follows(purchase: &Purchase, head: &GoodsHead, part: &[u8], wanting: &Wanting) -> bool
    ensures follows { result ≡ again.part_follows purchase.now head.now part.now wanting.now }
    ensures within { IsTrue result → (length purchase.now.held + length part.now ≤ MAX_SEALED) × (head.now.total ≤ MAX_SEALED) }
{
    part_fits(
        purchase.start().merchant,
        &wanting.head,
        purchase.held().len(),
        head,
        part,
    )
    .is_ok()
        && head.place + (part.len() as u64) < head.total
}

// Whether an order names what it must.
fn order_names(
    wallet: &Wallet,
    purchase: &Purchase,
    wanting: &Wanting,
    order: &Order,
    part: &[u8],
) -> bool
    requires { changes.Sound purchase.now }
    ensures { result ≡ again.order_names wallet.now purchase.now wanting.now.price order.now (purchase.now.held ++ part.now) }
{
    order.consumer == wallet.id
        && order.merchant == purchase.start().merchant
        && order.product == purchase.start().product
        && order.price == wanting.price
        && order.request == request_digest(purchase.start())
        && order.checksum == purchase.held().digest_with(part)
        && order.epoid.merchant == purchase.start().merchant
}

// Whether a part is the rest of what is held, where parts are held.
fn is_rest(held: &Option<GoodsHead>, len: u64, order: &Order, part: &[u8]) -> bool
    ensures { (sealed : List ℕ) → len ≡ length sealed → result ≡ again.is_rest held.now sealed order.now part.now }
{
    match held {
        Some(known) => {
            order.epoid == known.epoid && part.len() as u64 == known.total.saturating_sub(len)
        }
        None => true,
    }
}

// Whether an order and the last part may stand behind what is held.
fn order_follows(
    wallet: &Wallet,
    purchase: &Purchase,
    order: &Order,
    part: &[u8],
    wanting: &Wanting,
) -> bool
    requires { changes.Sound purchase.now }
    ensures follows { result ≡ again.order_follows wallet.now purchase.now order.now part.now wanting.now }
    ensures within { IsTrue result → length purchase.now.held + length part.now ≤ MAX_SEALED }
{
    let len = purchase.held().len();
    order_names(wallet, purchase, wanting, order, part)
        && is_rest(&wanting.head, len, order, part)
        && len + part.len() as u64 <= MAX_SEALED as u64
}

impl Knowledge {
    fn allows_grant(&self, transaction: u64) -> bool
        ensures { result ≡ again.holds_for (purchase_of self.now transaction) (λ p. is_ticketing p.stage) }
    {
        match self.purchase_of(transaction) {
            Some(purchase) => is_ticketing(purchase),
            None => false,
        }
    }

    fn allows_price(&self, transaction: u64, price: Price) -> bool
        ensures { result ≡ again.allows self.now (items.Wanted transaction price) }
    {
        match self.purchase_of(transaction) {
            Some(purchase) => { asked(purchase).is_ok() && is_price(price, purchase.start().limit) }
            None => false,
        }
    }

    fn allows_part(&self, head: &GoodsHead, part: &[u8]) -> bool
        ensures allows { result ≡ again.allows self.now (items.Part head.now part.now) }
        ensures fits { IsTrue result → deeds.ItemFits self.now (items.Part head.now part.now) }
    {
        match self.purchase_of(head.transaction) {
            Some(purchase) => match wanted_as(purchase) {
                Ok(wanting) => part_follows(purchase, head, part, &wanting),
                Err(_) => false,
            },
            None => false,
        }
    }

    fn allows_forgetting(&self, transaction: u64) -> bool
        ensures { result ≡ again.allows self.now (items.Forgotten transaction) }
    {
        match self.purchase_of(transaction) {
            Some(purchase) => match wanted_as(purchase) {
                Ok(wanting) => wanting.head.is_some(),
                Err(_) => false,
            },
            None => false,
        }
    }

    fn allows_order(&self, transaction: u64, order: &Order, part: &[u8]) -> bool
        ensures allows { result ≡ again.allows self.now (items.Ordered transaction order.now part.now) }
        ensures fits { IsTrue result → IsItem (items.Ordered transaction order.now part.now) → deeds.ItemFits self.now (items.Ordered transaction order.now part.now) }
    {
        match self.purchase_of(transaction) {
            Some(purchase) => match wanted_as(purchase) {
                Ok(wanting) => order_follows(self.wallet(), purchase, order, part, &wanting),
                Err(_) => false,
            },
            None => false,
        }
    }

    fn allows_end(&self, transaction: u64, receipt: &Signed) -> bool
        ensures { result ≡ again.allows self.now (items.Ended transaction receipt.now) }
    {
        match self.purchase_of(transaction) {
            Some(purchase) => match ordered_as(purchase) {
                Ok(owing) => receipt_fits(&owing.order, &receipt.receipt).is_ok(),
                Err(_) => false,
            },
            None => false,
        }
    }

    // Whether a row keeps an item like this behind what is known.
    fn allows(&self, item: &Item) -> bool
        ensures allows { result ≡ again.allows self.now item.now }
        ensures fits { IsTrue result → IsItem item.now → deeds.ItemFits self.now item.now }
    {
        match item {
            Item::Started(start) => self.is_new(start.transaction),
            Item::Granted { transaction, .. } => self.allows_grant(*transaction),
            Item::Wanted { transaction, price } => self.allows_price(*transaction, *price),
            Item::Ordered {
                transaction,
                order,
                part,
            } => self.allows_order(*transaction, order, part.as_slice()),
            Item::Ended {
                transaction,
                receipt,
            } => self.allows_end(*transaction, receipt),
            Item::Part { head, part } => self.allows_part(head, part.as_slice()),
            Item::Forgotten { transaction } => self.allows_forgetting(*transaction),
        }
    }

    // Remembers an item of a journal, where a row keeps one like it.
    fn recall(&mut self, bytes: &[u8]) -> Result<(), RecallFault>
        ensures { Recalls self.old self.new bytes.now result }
    {
        let item = Item::read(self.alloc(), bytes)?;
        if !self.allows(&item) {
            return Err(RecallFault::Bad);
        }
        self.remember(item)?;
        Ok(())
    }

    // What is known behind the items of a journal, or the first that is bad.
    pub(crate) fn restart(
        alloc: Global,
        wallet: Wallet,
        items: &[Blob],
    ) -> Result<Knowledge, RestartFault>
        requires { length items.now < 2 ^ 32 }
        ensures { again.Restarts wallet items.now result }
    {
        let mut known = Knowledge::new(alloc, wallet);
        for (i, item) in items.iter().enumerate() {
            match known.recall(item.as_slice()) {
                Ok(()) => {}
                Err(RecallFault::Bad) => return Err(RestartFault::BadItem { item: i as u32 }),
                Err(RecallFault::NoMemory) => return Err(RestartFault::NoMemory),
            }
        }
        Ok(known)
    }
}
