ghost use Rattle.std.specs.Prelude.{◌≡◌, ◌<◌, length, map, is_none, option_copied, slice_get, IfOk, IfSome, OnOk, OnErr, Some, None, Ok};
ghost use Rattle.nb_consumer.specs.Firsts.{AreFirstOrders};
ghost use Rattle.nb_consumer.specs.Deeds as deeds;
ghost use Rattle.nb_consumer.specs.declared.deed.Deed.TheVariants as does;
ghost use Rattle.nb_consumer.specs.Goods.{goods_in};
ghost use Rattle.nb_wallet.specs.Changes as changes;
ghost use Rattle.nb_consumer.specs.State as state;
ghost use Rattle.nb_wallet.specs.Spelling.{IsItem, ItemKeepsRules, item_bytes};
ghost use Rattle.nb_wallet.specs.Stages.{end_of, stage_ended};
ghost use Rattle.nb_msgs.specs.Steps.{StepKeepsRules};
ghost use Rattle.nb_msgs.specs.Tests.{found};
ghost use Rattle.nb_msgs.specs.declared.node.Reason.TheVariants.{Unknown};
ghost use Rattle.nb_wallet.specs.declared.item.Item.TheVariants as items;
ghost use Rattle.nb_wallet.specs.declared.purchase.Change.TheVariants as kinds;

use crate::deed::{Deed, Halt};
use nb_body::GoodsHead;
use nb_endorse::Signed;
use nb_epo::Order;
use nb_msgs::{End, Message, Reason, Step, To};
use nb_numbers::Numbers;
use nb_units::{Blob, Epoid, NoMemory, Price};
use nb_wallet::{
    Change, Item, Purchase, Stage, Start, Wallet, ordered_from, raised_from, stage_ended,
    wanted_from, with_head,
};
use std::alloc::Global;
use std::collections::BTreeMap;
use std::marker::Model;

// What a consumer knows: its wallet, and what its kept items and the places that it was told say of each of its purchases. It is seen as these
// (`specs/State.antt`).
#[derive(Drop)]
pub(crate) struct Knowledge {
    alloc: Global,
    wallet: Wallet,
    // The number of each purchase, in their order.
    numbers: Numbers,
    purchases: Vec<Purchase>,
    // The identifier of each order, with the number of the purchase that was ordered with it first, in the order in which the identifiers came: a
    // consumer is seen as this list. No look-up goes through it.
    orders: Vec<([u8; 16], u64)>,
    // The number by the identifier.
    firsts: BTreeMap<[u8; 16], u64>,
}

impl Model for Knowledge {
    ghost use Rattle.std.specs.Prelude.{◌≡◌, map};
    ghost use Rattle.std.specs.List.{AllByRecursion};
    ghost use Rattle.nb_consumer.specs.State.{Buyer, number_of};
    ghost use Rattle.nb_wallet.specs.Changes.{Sound};
    ghost use Rattle.nb_consumer.specs.Firsts.{AreFirstOrders};

    ghost Value = { Buyer };

    ghost view = { λ c. record { wallet = c.wallet; purchases = c.purchases.items; orders = c.orders.items } };

    ghost invariant = { λ c. record {
      numbers : c.numbers ≡ map number_of c.purchases.items;
      sound : AllByRecursion Sound c.purchases.items;
      firsts : AreFirstOrders c.firsts.entries c.orders.items;
    } };
}

// Changes the purchase at a place. After want of memory all is as before.
fn change_at(
    purchases: &mut Vec<Purchase>,
    at: usize,
    stage: Stage,
    parts: Change,
) -> Result<(), NoMemory>
    requires within { at < length purchases.old.items }
    requires fits { IfSome (slice_get purchases.old.items at) (λ p. changes.ChangeFits p.held parts) }
    ensures changed { OnOk result (purchases.new.items ≡ state.changed_at purchases.old.items (Some at) (changes.changed_to stage parts)) }
    ensures err { OnErr result (purchases.new.items ≡ purchases.old.items) }
{
    purchases[at].change(stage, parts)
}

// Ends the purchase at a place with a receipt.
fn close_at(purchases: &mut Vec<Purchase>, at: usize, receipt: &Signed)
    requires { at < length purchases.old.items }
    ensures { purchases.new.items ≡ state.changed_at purchases.old.items (Some at) (λ p. record p { stage = stage_ended receipt.now.receipt p.held }) }
{
    purchases[at].close(&receipt.receipt);
}

// Changes the purchase at a place where goods are ordered: an identifier that has no purchase gets this one. After want of memory all is as before.
fn order_at(
    purchases: &mut Vec<Purchase>,
    orders: &mut Vec<([u8; 16], u64)>,
    firsts: &mut BTreeMap<[u8; 16], u64>,
    at: usize,
    stage: Stage,
    part: Blob,
    epoid: &[u8; 16],
    transaction: u64,
) -> Result<(), NoMemory>
    requires within { at < length purchases.old.items }
    requires fits { IfSome (slice_get purchases.old.items at) (λ p. changes.ChangeFits p.held (kinds.More part)) }
    requires firsts { AreFirstOrders firsts.old.entries orders.old.items }
    ensures changed { OnOk result (purchases.new.items ≡ state.changed_at purchases.old.items (Some at) (changes.changed_to stage (kinds.More part))) }
    ensures noted { OnOk result (orders.new.items ≡ state.noted orders.old.items epoid.now transaction) }
    ensures err { OnErr result (purchases.new.items ≡ purchases.old.items) }
    ensures not_noted { OnErr result (orders.new.items ≡ orders.old.items) }
    ensures firsts { AreFirstOrders firsts.new.entries orders.new.items }
{
    if firsts.contains_key(epoid) {
        return change_at(purchases, at, stage, Change::More(part));
    }
    orders.reserve(1)?;
    let _was = firsts.insert(*epoid, transaction)?;
    match change_at(purchases, at, stage, Change::More(part)) {
        Ok(()) => {
            orders.push_reserved((*epoid, transaction));
            Ok(())
        }
        Err(no) => {
            let _noted = firsts.remove(epoid);
            Err(no)
        }
    }
}

impl Knowledge {
    // Nothing was kept. It takes no memory now.
    pub(crate) fn new(alloc: Global, wallet: Wallet) -> Knowledge
        ensures { result ≡ state.new_buyer wallet }
    {
        Knowledge {
            alloc,
            wallet,
            numbers: Numbers::new(alloc),
            purchases: Vec::new(alloc),
            orders: Vec::new(alloc),
            firsts: BTreeMap::new(alloc),
        }
    }

    // The number of each purchase, in the order in which they were started.
    pub(crate) fn numbers(&self) -> &[u64]
        ensures { result.now ≡ map state.number_of self.now.purchases }
    {
        self.numbers.as_slice()
    }

    // Its wallet.
    pub(crate) fn wallet(&self) -> &Wallet
        ensures { result.now ≡ self.now.wallet }
    {
        &self.wallet
    }

    pub(crate) fn alloc(&self) -> Global {
        self.alloc
    }

    // The purchase of this number.
    pub(crate) fn purchase_of(&self, transaction: u64) -> Option<&Purchase>
        ensures found { option_copied result ≡ state.purchase_of self.now transaction }
        ensures sound { IfSome result (λ p. changes.Sound p.now) }
    {
        let at = self.numbers.place_of(transaction)?;
        self.purchases.get(at)
    }

    // The same, or the reason for which a message of it is ignored.
    pub(crate) fn known(&self, transaction: u64) -> Result<&Purchase, Reason>
        ensures found { deeds.seen result ≡ found Unknown (state.purchase_of self.now transaction) }
        ensures sound { IfOk result (λ p. changes.Sound p.now) }
    {
        match self.purchase_of(transaction) {
            Some(purchase) => Ok(purchase),
            None => Err(Reason::Unknown),
        }
    }

    // Whether there is no purchase of this number.
    pub(crate) fn is_new(&self, transaction: u64) -> bool
        ensures { result ≡ is_none (state.place_of self.now.purchases transaction) }
    {
        self.numbers.place_of(transaction).is_none()
    }

    // The number of the purchase that was ordered first with this identifier.
    fn ordered_with(&self, epoid: &Epoid) -> Option<u64>
        ensures { result ≡ state.ordered_with self.now.orders (state.epoid_bytes epoid.now) }
    {
        self.firsts.get(&epoid.write()).copied()
    }

    // The same, or the reason for which a message of it is ignored.
    pub(crate) fn ordered(&self, epoid: &Epoid) -> Result<u64, Reason>
        ensures { result ≡ found Unknown (state.ordered_with self.now.orders (state.epoid_bytes epoid.now)) }
    {
        self.ordered_with(epoid).ok_or(Reason::Unknown)
    }

    // A purchase more. After want of memory all is as before.
    fn add(&mut self, start: Start) -> Result<(), NoMemory>
        requires { deeds.ItemFits self.old (items.Started start) }
        ensures added { OnOk result (self.new ≡ state.remembered self.old (items.Started start)) }
        ensures err { OnErr result (self.new ≡ self.old) }
    {
        self.purchases.reserve(1)?;
        self.numbers.add(start.transaction)?;
        self.purchases
            .push_reserved(Purchase::new(self.alloc, start));
        Ok(())
    }

    // Changes the purchase of this number, if there is one. After want of memory all is as before.
    fn change(&mut self, transaction: u64, stage: Stage, parts: Change) -> Result<(), NoMemory>
        requires sound { changes.StageIsSound stage }
        requires fits { IfSome (state.purchase_of self.old transaction) (λ p. changes.ChangeFits p.held parts) }
        ensures changed { OnOk result (self.new ≡ record self.old { purchases = state.changed self.old.purchases transaction (changes.changed_to stage parts) }) }
        ensures err { OnErr result (self.new ≡ self.old) }
    {
        match self.numbers.place_of(transaction) {
            Some(at) => change_at(&mut self.purchases, at, stage, parts),
            None => Ok(()),
        }
    }

    // Remembers an item. After want of memory all is as before.
    pub(crate) fn remember(&mut self, item: Item) -> Result<(), NoMemory>
        requires { deeds.ItemFits self.old item }
        ensures remembered { OnOk result (self.new ≡ state.remembered self.old item) }
        ensures err { OnErr result (self.new ≡ self.old) }
    {
        match item {
            Item::Started(start) => self.add(start),
            Item::Granted { transaction, pass } => {
                self.change(transaction, Stage::Asked { pass }, Change::Same)
            }
            Item::Wanted { transaction, price } => self.price(transaction, price),
            Item::Ordered {
                transaction,
                order,
                part,
            } => self.order(transaction, order, part),
            Item::Ended {
                transaction,
                receipt,
            } => {
                self.close(transaction, &receipt);
                Ok(())
            }
            Item::Part { head, part } => self.part(head, part),
            Item::Forgotten { transaction } => self.forget(transaction),
        }
    }

    // A price was quoted.
    fn price(&mut self, transaction: u64, price: Price) -> Result<(), NoMemory>
        ensures remembered { OnOk result (self.new ≡ state.remembered self.old (items.Wanted transaction price)) }
        ensures err { OnErr result (self.new ≡ self.old) }
    {
        let Some(p) = self.purchase_of(transaction) else {
            return Ok(());
        };
        let stage = wanted_from(&p.stage(), price);
        self.change(transaction, stage, Change::Same)
    }

    // A part came.
    fn part(&mut self, head: GoodsHead, part: Blob) -> Result<(), NoMemory>
        requires { deeds.ItemFits self.old (items.Part head part) }
        ensures remembered { OnOk result (self.new ≡ state.remembered self.old (items.Part head part)) }
        ensures err { OnErr result (self.new ≡ self.old) }
    {
        let transaction = head.transaction;
        let Some(p) = self.purchase_of(transaction) else {
            return Ok(());
        };
        let stage = with_head(&p.stage(), Some(head));
        self.change(transaction, stage, Change::More(part))
    }

    // The parts are forgotten.
    fn forget(&mut self, transaction: u64) -> Result<(), NoMemory>
        ensures remembered { OnOk result (self.new ≡ state.remembered self.old (items.Forgotten transaction)) }
        ensures err { OnErr result (self.new ≡ self.old) }
    {
        let Some(p) = self.purchase_of(transaction) else {
            return Ok(());
        };
        let stage = with_head(&p.stage(), None);
        self.change(transaction, stage, Change::Forgotten)
    }

    // The last part came, and the goods are ordered.
    fn order(&mut self, transaction: u64, order: Order, part: Blob) -> Result<(), NoMemory>
        requires { deeds.ItemFits self.old (items.Ordered transaction order part) }
        ensures remembered { OnOk result (self.new ≡ state.remembered self.old (items.Ordered transaction order part)) }
        ensures err { OnErr result (self.new ≡ self.old) }
    {
        let Some(purchase) = self.purchase_of(transaction) else {
            unreachable!()
        };
        let stage = ordered_from(&purchase.stage(), &order);
        let Some(at) = self.numbers.place_of(transaction) else {
            unreachable!()
        };
        order_at(
            &mut self.purchases,
            &mut self.orders,
            &mut self.firsts,
            at,
            stage,
            part,
            &order.epoid.write(),
            transaction,
        )
    }

    // A receipt is read again.
    fn close(&mut self, transaction: u64, receipt: &Signed)
        ensures { self.new ≡ state.remembered self.old (items.Ended transaction receipt.now) }
    {
        if let Some(at) = self.numbers.place_of(transaction) {
            close_at(&mut self.purchases, at, receipt);
        }
    }

    // A receipt came, with which the purchase ends so. After want of memory all is as before.
    pub(crate) fn finish(
        &mut self,
        transaction: u64,
        receipt: &Signed,
        end: &End,
    ) -> Result<(), NoMemory>
        requires { IfSome (state.purchase_of self.old transaction) (λ p. end.now ≡ end_of receipt.now.receipt p.held) }
        ensures remembered { OnOk result (self.new ≡ state.remembered self.old (items.Ended transaction receipt.now)) }
        ensures err { OnErr result (self.new ≡ self.old) }
    {
        let stage = stage_ended(&receipt.receipt, end);
        self.change(transaction, stage, Change::Same)
    }

    // The house has at least so many entries. After want of memory all is as before.
    fn raise(&mut self, transaction: u64, place: u64) -> Result<(), NoMemory>
        ensures raised { OnOk result (self.new ≡ record self.old { purchases = state.changed self.old.purchases transaction (state.raised place) }) }
        ensures err { OnErr result (self.new ≡ self.old) }
    {
        let Some(p) = self.purchase_of(transaction) else {
            return Ok(());
        };
        let stage = raised_from(&p.stage(), place);
        self.change(transaction, stage, Change::Same)
    }

    // Does what a row says.
    pub(crate) fn carry_out(&mut self, deed: Deed) -> Result<Step, NoMemory>
        requires { deeds.DeedFits self.old deed }
        ensures answers { deeds.Answers self.old self.new (Ok deed) result }
        ensures lawful { IfOk result StepKeepsRules }
    {
        match deed {
            Deed::Sends { to, message } => Ok(Step::Move {
                keep: None,
                to,
                message,
            }),
            Deed::Hears {
                transaction,
                place,
                to,
                message,
            } => self.raise_and_send(transaction, place, to, message),
            Deed::Keeps { item, to, message } => self.keep_and_send(item, to, message),
            Deed::Ends {
                transaction,
                receipt,
                end,
            } => self.keep_and_end(transaction, receipt, end),
        }
    }

    // Learns how many entries the house has, and sends a message.
    fn raise_and_send(
        &mut self,
        transaction: u64,
        place: u64,
        to: To,
        message: Message,
    ) -> Result<Step, NoMemory>
        requires { deeds.DeedFits self.old (does.Hears transaction place to message) }
        ensures answers { deeds.Answers self.old self.new (Ok (does.Hears transaction place to message)) result }
        ensures lawful { IfOk result StepKeepsRules }
    {
        self.raise(transaction, place)?;
        Ok(Step::Move {
            keep: None,
            to,
            message,
        })
    }

    // Keeps an item, which is spelled and remembered, and sends a message.
    fn keep_and_send(&mut self, item: Item, to: To, message: Message) -> Result<Step, NoMemory>
        requires { deeds.DeedFits self.old (does.Keeps item to message) }
        ensures answers { deeds.Answers self.old self.new (Ok (does.Keeps item to message)) result }
        ensures lawful { IfOk result StepKeepsRules }
    {
        match self.spell_and_remember(item) {
            Ok(keep) => Ok(Step::Move {
                keep: Some(keep),
                to,
                message,
            }),
            Err(no) => Err(no),
        }
    }

    // Spells an item, and remembers it.
    fn spell_and_remember(&mut self, item: Item) -> Result<Blob, NoMemory>
        requires lawful { ItemKeepsRules item }
        requires fits { deeds.ItemFits self.old item }
        ensures bytes { IfOk result (λ keep. keep ≡ item_bytes item) }
        ensures spelled { OnOk result (IsItem item) }
        ensures remembered { OnOk result (self.new ≡ state.remembered self.old item) }
        ensures err { OnErr result (self.new ≡ self.old) }
    {
        let keep = item.spelled(self.alloc)?;
        self.remember(item)?;
        Ok(keep)
    }

    // Keeps a receipt, with which a purchase ends.
    fn keep_and_end(
        &mut self,
        transaction: u64,
        receipt: Signed,
        end: End,
    ) -> Result<Step, NoMemory>
        requires { deeds.DeedFits self.old (does.Ends transaction receipt end) }
        ensures answers { deeds.Answers self.old self.new (Ok (does.Ends transaction receipt end)) result }
        ensures lawful { IfOk result StepKeepsRules }
    {
        let item = Item::Ended {
            transaction,
            receipt,
        };
        let keep = item.spelled(self.alloc)?;
        self.finish(transaction, &receipt, &end)?;
        Ok(Step::Ended { keep, end })
    }

    // The step of what a row gives.
    pub(crate) fn answer(&mut self, deed: Result<Deed, Halt>) -> Result<Step, NoMemory>
        requires { IfOk deed (deeds.DeedFits self.old) }
        ensures answers { deeds.AnswersRow self.old self.new deed result }
        ensures lawful { IfOk result StepKeepsRules }
    {
        match deed {
            Ok(deed) => self.carry_out(deed),
            Err(Halt::Ignored(why)) => Ok(Step::Ignored(why)),
            Err(Halt::NoMemory) => Err(NoMemory),
        }
    }

    // The goods of a purchase that was paid, opened from what is held.
    pub(crate) fn goods(&self, transaction: u64) -> Result<Option<Blob>, NoMemory>
        ensures { IfOk result (λ goods. goods ≡ goods_in (state.purchase_of self.now transaction)) }
    {
        let Some(purchase) = self.purchase_of(transaction) else {
            return Ok(None);
        };
        purchase.goods(self.alloc)
    }
}
