ghost use Rattle.std.specs.Prelude.{◌≡◌, ◌≤◌, ◌<◌, ◌^◌, ◌∷◌, ◌++◌, [], length, true, Some, None, Ok, Err, IfOk, IfErr, IfSome, OnOk, OnErr, option_map};
ghost use Rattle.std.specs.List.{AllByRecursion};
ghost use Rattle.nb_ticket.specs.declared.ticket.TheConstants.{TICKET_BYTES};
ghost use Rattle.nb_endorse.specs.declared.receipt.TheConstants.{RECEIPT_BYTES};
ghost use Rattle.nb_msgs.specs.declared.lengths.TheConstants.{MAX_SEALED_PRICE_REQUEST, MAX_SEALED_GOODS_REQUEST, MAX_SEALED_PAYMENT};
ghost use Rattle.nb_msgs.specs.Bodies.{MessageKeepsRules};
ghost use Rattle.nb_merchant.specs.Laws.{kept_bytes};
ghost use Rattle.nb_merchant.specs.Keeping.{follows, order_follows, taken_up, restarted, IsKept};
ghost use Rattle.nb_stall.specs.Reading.{item_of};
ghost use Rattle.nb_stall.specs.Tests.{ticket_in};
ghost use Rattle.nb_merchant.specs.Noting.{held_of, HasParts, PlansParts, PlansPlain, IsNoDelivery, SealsNext};
ghost use Rattle.nb_merchant.specs.Telling.{Performs, performed, TakesUp, IsSameMerchant, TakesAll, Restarts};
ghost use Rattle.nb_stall.specs.Sales.{sale_in, epoid_in, stage_of, deliveries_in, next_serial, sold_as};
ghost use Rattle.nb_merchant.specs.Shop.{new_shop, unkept, with_item};
ghost use Rattle.nb_merchant.specs.Sending.{StepIs};
ghost use Rattle.nb_stall.specs.Spelling.{IsItem, item_bytes};
ghost use Rattle.nb_merchant.specs.Table as table;
ghost use Rattle.nb_merchant.specs.Telling.{Plans};

use crate::answer::{Answer, Halt, Planned};
use crate::rows;
use nb_body::GoodsRequest;
use nb_goods::Parts;
use nb_groups::Offers;
use nb_msgs::{Message, Reason, RestartFault, Step, open_receipt};
use nb_price::Catalogue;
use nb_seal::KeyState;
use nb_stall::{
    Delivery, Held, Item, Progress, Purchase, Stage, Stall, delivery_at, note, note_delivery,
    open_for, open_goods_request, open_payment, open_price_request,
};
use nb_units::{Blob, Digest, Epoid, NoMemory, PartyId, Small};
use std::alloc::Global;
use std::collections::BTreeMap;
use std::marker::Model;
use std::mem;

/// A merchant: who it is, what it sells, what it offers to groups, and what it kept.
pub struct Merchant {
    stall: Stall,
    catalogue: Catalogue,
    offers: Option<Offers>,
    // What was kept, in order.
    items: Vec<Item>,
    // What is known of each purchase, and what the parts of its goods are made from.
    sales: BTreeMap<Purchase, Held>,
    // The goods that were sealed, in the order of their serial numbers, which begin at 1.
    deliveries: Vec<Delivery>,
}

impl Drop for Merchant {
    fn drop(self) {
        let Self {
            stall: _,
            catalogue: _,
            offers: _,
            items: _,
            sales: _,
            deliveries: _,
        } = self;
    }
}

impl Model for Merchant {
    ghost use Rattle.std.specs.BTreeMap.{get};
    ghost use Rattle.nb_merchant.specs.Shop.{Shop};
    ghost use Rattle.nb_stall.specs.Sales.{purchase_cmp};
    ghost use Rattle.nb_merchant.specs.Noting.{Holds};

    ghost Value = { Shop };

    ghost view = { λ m. record { stall = m.stall; products = m.catalogue; offers = m.offers; items = m.items.items } };

    ghost invariant = { λ m. Holds (record { stall = m.stall; products = m.catalogue; offers = m.offers; items = m.items.items }) (get purchase_cmp m.sales) m.deliveries.items };
}

impl Merchant {
    /// A merchant that has kept nothing, and has no offers for groups: it quotes the catalogue's prices.
    pub fn new(alloc: Global, stall: Stall, catalogue: Catalogue) -> Merchant
        ensures { result ≡ new_shop stall catalogue None }
    {
        Merchant::opened(alloc, stall, catalogue, None)
    }

    /// A merchant that has kept nothing. It quotes who asks for a product at first what [`nb_groups::quote`] gives for its ticket's consumer, its request and
    /// the moment.
    pub fn with_offers(
        alloc: Global,
        stall: Stall,
        catalogue: Catalogue,
        offers: Offers,
    ) -> Merchant
        ensures { result ≡ new_shop stall catalogue (Some offers) }
    {
        Merchant::opened(alloc, stall, catalogue, Some(offers))
    }

    // A merchant that has kept nothing.
    fn opened(alloc: Global, stall: Stall, catalogue: Catalogue, offers: Option<Offers>) -> Merchant
        ensures { result ≡ new_shop stall catalogue offers }
    {
        Merchant {
            stall,
            catalogue,
            offers,
            items: Vec::new(alloc),
            sales: BTreeMap::new(alloc),
            deliveries: Vec::new(alloc),
        }
    }

    // What is held of a purchase.
    fn find(&self, purchase: Purchase) -> Option<&Held>
        ensures sale { sale_in self.now.items purchase ≡ option_map (λ held. held.now.sale) result }
        ensures held { IfSome result (λ held. held.now ≡ held_of self.now.stall self.now.products held.now.sale) }
    {
        self.sales.get(&purchase)
    }

    /// How far a purchase has come, or `None` where nothing was kept of it.
    pub fn state(&self, consumer: PartyId, transaction: u64) -> Option<Stage>
        ensures { result ≡ option_map (λ sale. stage_of sale.progress) (sale_in self.now.items (table.purchase_by consumer transaction)) }
    {
        match self.find(Purchase {
            consumer,
            transaction,
        }) {
            Some(held) => Some(held.sale.progress.stage()),
            None => None,
        }
    }

    /// What the merchant does at a message of a consumer that came at this moment, in seconds since 1970-01-01 00:00 UTC. Each text of the
    /// message is within its limit.
    ///
    /// A role in it is one of the two, and an amount in its range. The step is that of the table in `specs/Table.antt`, and what is kept is the step's
    /// item. Messages of other kinds are ignored.
    /// Answers [`NoMemory`] where there is none for what has to be made or kept: then nothing changes.
    pub fn on_consumer(&mut self, message: &Message, moment: u64) -> Result<Step, NoMemory>
        requires { MessageKeepsRules message.now }
        // After Ok the step of the table: the item of the row, spelled, whom the message is for, and the message; or the reason of the first test that
        // fails.
        ensures step { IfOk result (λ step. step ≡ table.step_of (table.heard self.old message.now moment)) }
        ensures kept { OnOk result (self.new ≡ table.after self.old (table.heard self.old message.now moment)) }
        ensures err { OnErr result (self.new ≡ self.old) }

        // What is kept is within its limits.
        ensures fits { OnOk result (AllByRecursion IsItem (table.kept_by (table.heard self.old message.now moment))) }

        // What is sent is as it was kept, and what is endorsed opens the goods, or there is a collision.
        ensures sent { IfOk result (StepIs self.new) }
    {
        let alloc = *self.items.allocator();
        let planned = self.hear(alloc, message, moment);
        let step = self.perform(alloc, planned);
        self.witness();
        step
    }

    /// What the merchant does at a message of the house, of which each text is within its limit. It is as with
    /// [`on_consumer`](Merchant::on_consumer).
    pub fn on_server(&mut self, message: &Message) -> Result<Step, NoMemory>
        requires { MessageKeepsRules message.now }
        // The same, at a message of the house.
        ensures step { IfOk result (λ step. step ≡ table.step_of (table.heard_of_house self.old message.now)) }
        ensures kept { OnOk result (self.new ≡ table.after self.old (table.heard_of_house self.old message.now)) }
        ensures err { OnErr result (self.new ≡ self.old) }

        // What is kept is within its limits.
        ensures fits { OnOk result (AllByRecursion IsItem (table.kept_by (table.heard_of_house self.old message.now))) }

        // What is sent is as it was kept, and what is endorsed opens the goods, or there is a collision.
        ensures sent { IfOk result (StepIs self.new) }
    {
        let alloc = *self.items.allocator();
        let planned = self.hear_house(alloc, message);
        let step = self.perform(alloc, planned);
        self.witness();
        step
    }

    /// What the merchant does where it heard nothing of a purchase for long: it endorses the kept order again, or passes the kept result
    /// on again. One that it does not know, or has no order of, it ignores.
    pub fn quiet(&mut self, consumer: PartyId, transaction: u64) -> Result<Step, NoMemory>
        // The same, where nothing was heard of a purchase for long.
        ensures step { IfOk result (λ step. step ≡ table.step_of (table.silent self.old (table.purchase_by consumer transaction))) }
        ensures kept { OnOk result (self.new ≡ table.after self.old (table.silent self.old (table.purchase_by consumer transaction))) }
        ensures err { OnErr result (self.new ≡ self.old) }

        // What is kept is within its limits.
        ensures fits { OnOk result (AllByRecursion IsItem (table.kept_by (table.silent self.old (table.purchase_by consumer transaction)))) }

        // What is sent is as it was kept, and what is endorsed opens the goods, or there is a collision.
        ensures sent { IfOk result (StepIs self.new) }
    {
        let alloc = *self.items.allocator();
        let planned = self.silent(
            alloc,
            Purchase {
                consumer,
                transaction,
            },
        );
        let step = self.perform(alloc, planned);
        self.witness();
        step
    }

    /// The consumer whose ticket a message shows. It answers `None` exactly where the message asks for no price and no goods and
    /// is no order, or its ticket does not open for this merchant at this moment. Each text of the message is within its limit.
    pub fn asker(&self, message: &Message, moment: u64) -> Option<PartyId>
        requires { MessageKeepsRules message.now }
        ensures { result ≡ table.asker_in self.now message.now moment }
    {
        match message {
            Message::PriceAsk { ticket, .. } => self.asker_by(ticket, moment),
            Message::GoodsAsk { ticket, .. } => self.asker_by(ticket, moment),
            Message::Order { ticket, .. } => self.asker_by(ticket, moment),
            _ => None,
        }
    }

    // The consumer of a ticket.
    fn asker_by(&self, ticket: &Blob, moment: u64) -> Option<PartyId>
        requires { length ticket.now ≤ TICKET_BYTES }
        ensures { result ≡ table.asker_of (ticket_in self.now.stall ticket.now moment) }
    {
        match open_for(&self.stall, ticket.as_slice(), moment) {
            Ok(opened) => Some(opened.consumer),
            Err(_why) => None,
        }
    }

    /// What this merchant kept may stand in a stall's journal as it does: so a [`restart`](Merchant::restart) over it with its own stall and catalogue finds
    /// no bad item.
    pub fn witness(&self)
        // Each item may stand where it does, and is within its limits.
        ensures kept { IsKept self.now }

        // The stall's account has its width.
        ensures account { self.now.stall.acct.0 < 2 ^ 32 }
    {
        let _account = self.stall.acct.0;
    }

    /// The merchant that kept these items, at most 2^32, with this catalogue and no offers: each must be the spelling of an item that a merchant keeps
    /// behind those before it. A price may have changed since; each product that was quoted is there, and has the goods that were sealed.
    ///
    /// Answers [`RestartFault::BadItem`] with the number of the first item that is not so, from 0 on, and [`RestartFault::NoMemory`] where there is
    /// none for what is held.
    pub fn restart(
        alloc: Global,
        stall: Stall,
        catalogue: Catalogue,
        items: &[Blob],
    ) -> Result<Merchant, RestartFault>
        requires few { length items.now ≤ 2 ^ 32 }
        ensures restarts { Restarts (restarted (new_shop stall catalogue None) 0 items.now) result }
        // It kept exactly these.
        ensures kept { IfOk result (λ merchant. kept_bytes merchant ≡ items.now) }
    {
        Merchant::reopened(alloc, stall, catalogue, None, items)
    }

    /// The same with offers for groups, which may have changed since, too: prices that were told stand as they were kept.
    pub fn restart_with(
        alloc: Global,
        stall: Stall,
        catalogue: Catalogue,
        offers: Offers,
        items: &[Blob],
    ) -> Result<Merchant, RestartFault>
        requires few { length items.now ≤ 2 ^ 32 }
        ensures restarts { Restarts (restarted (new_shop stall catalogue (Some offers)) 0 items.now) result }
        // It kept exactly these.
        ensures kept { IfOk result (λ merchant. kept_bytes merchant ≡ items.now) }
    {
        Merchant::reopened(alloc, stall, catalogue, Some(offers), items)
    }

    // The merchant that kept these items.
    fn reopened(
        alloc: Global,
        stall: Stall,
        catalogue: Catalogue,
        offers: Option<Offers>,
        items: &[Blob],
    ) -> Result<Merchant, RestartFault>
        requires few { length items.now ≤ 2 ^ 32 }
        ensures restarts { Restarts (restarted (new_shop stall catalogue offers) 0 items.now) result }
        ensures kept { IfOk result (λ merchant. kept_bytes merchant ≡ items.now) }
    {
        let mut merchant = Merchant::opened(alloc, stall, catalogue, offers);
        merchant.take_all(items)?;
        Ok(merchant)
    }

    /// Starts again with these items, at most 2^32, in place of those that it kept: as [`restart`](Merchant::restart) does, with who it is, the
    /// catalogue and the offers that it has. Where it answers a fault it is as before.
    pub fn start_again(&mut self, items: &[Blob]) -> Result<(), RestartFault>
        requires few { length items.now ≤ 2 ^ 32 }
        ensures taken { TakesAll (restarted (unkept self.old) 0 items.now) self.new result }
        // It kept exactly these then.
        ensures kept { OnOk result (kept_bytes self.new ≡ items.now) }
        ensures err { OnErr result (self.new ≡ self.old) }
    {
        let alloc = *self.items.allocator();
        let kept = mem::replace(&mut self.items, Vec::new(alloc));
        let sales = mem::replace(&mut self.sales, BTreeMap::new(alloc));
        let deliveries = mem::replace(&mut self.deliveries, Vec::new(alloc));
        match self.take_all(items) {
            Ok(()) => Ok(()),
            Err(fault) => {
                self.items = kept;
                self.sales = sales;
                self.deliveries = deliveries;
                Err(fault)
            }
        }
    }

    // Keeps the items that these bytes spell behind those that it kept, up to the first that may not stand where it does.
    fn take_all(&mut self, items: &[Blob]) -> Result<(), RestartFault>
        requires few { length items.now ≤ 2 ^ 32 }
        ensures taken { TakesAll (restarted self.old 0 items.now) self.new result }
        ensures kept { OnOk result (kept_bytes self.new ≡ kept_bytes self.old ++ items.now) }
        ensures same { IsSameMerchant self.old self.new }
    {
        for i in 0..items.len() {
            self.take_up(i as u32, items[i].as_slice())?;
        }
        Ok(())
    }

    // Keeps the item that the bytes spell, where it may stand next. This is its number.
    fn take_up(&mut self, number: u32, bytes: &[u8]) -> Result<(), RestartFault>
        ensures taken { TakesUp (taken_up self.old (item_of bytes.now)) self.new number result }
        ensures kept { OnOk result (kept_bytes self.new ≡ kept_bytes self.old ++ bytes.now ∷ []) }
        ensures same { IsSameMerchant self.old self.new }
    {
        let bad = RestartFault::BadItem { item: number };
        let Ok(item) = Item::read(bytes) else {
            return Err(bad);
        };
        if let Item::Delivered {
            purchase,
            epoid,
            checksum,
        } = item
        {
            let Some(made) = self.delivery_parts(purchase, &epoid, &checksum) else {
                return Err(bad);
            };
            self.keep(item, Some(made))?;
            return Ok(());
        }
        if !self.may_follow(&item) {
            return Err(bad);
        }
        self.keep(item, None)?;
        Ok(())
    }

    // Whether an item that seals no goods may stand next.
    fn may_follow(&self, item: &Item) -> bool
        requires { IsNoDelivery item.now }
        ensures { result ≡ follows self.now item.now }
    {
        match item {
            Item::Quoted {
                purchase,
                product,
                ..
            } => self.find(*purchase).is_none() && self.catalogue.goods(*product).is_some(),
            Item::Delivered { .. } => false,
            Item::Endorsed { purchase, order } => match self.find(*purchase) {
                Some(held) => self.order_follows(*purchase, order, held),
                None => false,
            },
            Item::Settled { purchase, .. } => match self.find(*purchase) {
                Some(held) => matches!(held.sale.progress, Progress::Endorsed { .. }),
                None => false,
            },
        }
    }

    // Whether an order may be endorsed next, for what is held of the purchase.
    fn order_follows(&self, purchase: Purchase, order: &Small, held: &Held) -> bool
        requires held { held.now ≡ held_of self.now.stall self.now.products held.now.sale }
        ensures { result ≡ order_follows self.now purchase order.now held.now.sale held.now.sale.progress }
    {
        match &held.sale.progress {
            Progress::Delivered { epoid } => {
                let made = held.parts.as_ref().unwrap();
                rows::order_taken(&self.stall, purchase, &held.sale, epoid, made, order).is_ok()
            }
            _ => false,
        }
    }

    // What the parts of goods are made from that may be sealed next.
    fn delivery_parts(&self, purchase: Purchase, epoid: &Epoid, checksum: &Digest) -> Option<Parts>
        ensures { SealsNext self.now purchase epoid.now checksum.now result }
    {
        let held = self.find(purchase)?;
        let goods = rows::goods_of(&self.catalogue, held.sale.product);
        let next = self.next_serial();
        rows::delivery_parts(
            &self.stall,
            goods,
            next,
            epoid,
            checksum,
            &held.sale.progress,
        )
    }

    // Keeps an item that may stand next.
    fn keep(&mut self, item: Item, parts: Option<Parts>) -> Result<(), NoMemory>
        requires within { IsItem item }
        requires follows { follows self.old item ≡ true }
        requires parts { HasParts self.old item parts }
        ensures kept { OnOk result (self.new ≡ with_item self.old item) }
        ensures err { OnErr result (self.new ≡ self.old) }
    {
        self.items.reserve(1)?;
        self.deliveries.reserve(1)?;
        note(&mut self.sales, &item, parts)?;
        self.items.push_reserved(item);
        note_delivery(&mut self.deliveries, &item);
        Ok(())
    }

    // ---- the rows, by message

    #[tactic(auto, unfolding(crate::specs::Table::price_asked))]
    fn price_asked(
        &self,
        alloc: Global,
        ticket: &Blob,
        sealed: &Blob,
        moment: u64,
    ) -> Result<Planned, Halt>
        requires ticket { length ticket.now ≤ TICKET_BYTES }
        requires sealed { length sealed.now ≤ MAX_SEALED_PRICE_REQUEST }
        ensures row { Plans result (table.price_asked self.now ticket.now sealed.now moment) }
        ensures parts { IfOk result PlansPlain }
    {
        let ticket = open_for(&self.stall, ticket.as_slice(), moment)?;
        let session = KeyState::new(&ticket.session);
        let asked = open_price_request(&session, sealed.as_slice())?;
        let purchase = Purchase {
            consumer: ticket.consumer,
            transaction: asked.request.transaction,
        };
        match self.find(purchase) {
            None => rows::first_quote(
                alloc,
                &self.catalogue,
                &self.offers,
                &session,
                ticket.consumer,
                &asked,
                moment,
            ),
            Some(held) => {
                rows::quote_again(alloc, &session, ticket.consumer, &asked, &held.sale)
            }
        }
    }

    #[tactic(auto, unfolding(crate::specs::Table::goods_asked))]
    fn goods_asked(
        &self,
        alloc: Global,
        ticket: &Blob,
        sealed: &Blob,
        moment: u64,
    ) -> Result<Planned, Halt>
        requires ticket { length ticket.now ≤ TICKET_BYTES }
        requires sealed { length sealed.now ≤ MAX_SEALED_GOODS_REQUEST }
        ensures row { Plans result (table.goods_asked self.now ticket.now sealed.now moment) }
        ensures parts { IfOk result (PlansParts self.now) }
    {
        let ticket = open_for(&self.stall, ticket.as_slice(), moment)?;
        let session = KeyState::new(&ticket.session);
        let request = open_goods_request(&session, sealed.as_slice())?;
        let purchase = Purchase {
            consumer: ticket.consumer,
            transaction: request.transaction,
        };
        let Some(held) = self.find(purchase) else {
            return Err(Halt::Ignored(Reason::Unknown));
        };
        self.delivered(alloc, &session, ticket.consumer, &request, held, moment)
    }

    // The serial number of the goods that are sealed next.
    fn next_serial(&self) -> u64
        ensures { result ≡ next_serial self.now.items }
    {
        self.deliveries.len() as u64 + 1
    }

    // The part of the goods at a place, for what is held of the purchase.
    fn delivered(
        &self,
        alloc: Global,
        session: &KeyState,
        consumer: PartyId,
        request: &GoodsRequest,
        held: &Held,
        moment: u64,
    ) -> Result<Planned, Halt>
        requires held { held.now ≡ held_of self.now.stall self.now.products held.now.sale }
        requires sale { sale_in self.now.items (table.purchase_by consumer request.now.transaction) ≡ Some held.now.sale }
        ensures row { Plans result (table.delivered self.now session.now consumer request.now held.now.sale moment (epoid_in held.now.sale.progress)) }
        ensures parts { IfOk result (PlansParts self.now) }
    {
        let goods = rows::goods_of(&self.catalogue, held.sale.product);
        match held.sale.progress.epoid() {
            None => {
                let next = self.next_serial();
                rows::first_part(
                    alloc,
                    &self.stall,
                    goods,
                    next,
                    session,
                    consumer,
                    request,
                    moment,
                )
            }
            Some(epoid) => {
                let made = held.parts.as_ref().unwrap();
                rows::part_again(alloc, goods, session, consumer, request, epoid, made)
            }
        }
    }

    #[tactic(auto, unfolding(crate::specs::Table::order_sent))]
    fn order_sent(
        &self,
        alloc: Global,
        ticket: &Blob,
        sealed: &Blob,
        moment: u64,
    ) -> Result<Planned, Halt>
        requires ticket { length ticket.now ≤ TICKET_BYTES }
        requires sealed { length sealed.now ≤ MAX_SEALED_PAYMENT }
        ensures row { Plans result (table.order_sent self.now ticket.now sealed.now moment) }
        ensures parts { IfOk result PlansPlain }
    {
        let ticket = open_for(&self.stall, ticket.as_slice(), moment)?;
        let session = KeyState::new(&ticket.session);
        let request = open_payment(&session, sealed.as_slice())?;
        let purchase = Purchase {
            consumer: ticket.consumer,
            transaction: request.transaction,
        };
        let Some(held) = self.find(purchase) else {
            return Err(Halt::Ignored(Reason::Unknown));
        };
        self.ordered(alloc, purchase, held, &request.order)
    }

    // An order, for what is held of the purchase.
    fn ordered(
        &self,
        alloc: Global,
        purchase: Purchase,
        held: &Held,
        order: &Small,
    ) -> Result<Planned, Halt>
        requires held { held.now ≡ held_of self.now.stall self.now.products held.now.sale }
        ensures row { Plans result (table.ordered self.now purchase held.now.sale order.now held.now.sale.progress) }
        ensures parts { IfOk result PlansPlain }
    {
        let stall = &self.stall;
        match &held.sale.progress {
            Progress::Quoted => Err(Halt::Ignored(Reason::State)),
            Progress::Delivered { epoid } => {
                let made = held.parts.as_ref().unwrap();
                rows::first_order(alloc, stall, purchase, &held.sale, epoid, made, order)
            }
            Progress::Endorsed { epoid, order: kept } => {
                rows::order_again(alloc, stall, epoid, kept, order)
            }
            Progress::Settled {
                order: kept,
                part,
                ..
            } => rows::order_settled(alloc, purchase, kept, part, order),
        }
    }

    #[tactic(auto, unfolding(crate::specs::Table::silent))]
    fn silent(&self, alloc: Global, purchase: Purchase) -> Result<Planned, Halt>
        ensures row { Plans result (table.silent self.now purchase) }
        ensures parts { IfOk result PlansPlain }
    {
        let Some(held) = self.find(purchase) else {
            return Err(Halt::Ignored(Reason::Unknown));
        };
        self.unheard(alloc, purchase, held)
    }

    // What is sent again, for what is held of the purchase.
    fn unheard(&self, alloc: Global, purchase: Purchase, held: &Held) -> Result<Planned, Halt>
        ensures row { Plans result (table.unheard self.now.stall purchase held.now.sale.progress) }
        ensures parts { IfOk result PlansPlain }
    {
        match &held.sale.progress {
            Progress::Quoted | Progress::Delivered { .. } => Err(Halt::Ignored(Reason::State)),
            Progress::Endorsed { epoid, order } => {
                Ok(rows::endorsed_again(alloc, &self.stall, epoid, order)?)
            }
            Progress::Settled { part, .. } => Ok(rows::passed_again(alloc, purchase, part)?),
        }
    }

    #[tactic(auto, unfolding(crate::specs::Table::result_sent))]
    fn result_sent(&self, alloc: Global, merchant: &Blob, consumer: &Blob) -> Result<Planned, Halt>
        requires merchant { length merchant.now ≤ RECEIPT_BYTES }
        requires consumer { length consumer.now ≤ RECEIPT_BYTES }
        ensures row { Plans result (table.result_sent self.now merchant.now consumer.now) }
        ensures parts { IfOk result PlansPlain }
    {
        let signed = open_receipt(&self.stall.key, merchant.as_slice())?;
        let receipt = signed.receipt;
        let Some(purchase) = self.sold_as(&receipt.epoid) else {
            return Err(Halt::Ignored(Reason::Unknown));
        };
        let Some(held) = self.find(purchase) else {
            return Err(Halt::Ignored(Reason::Unknown));
        };
        match &held.sale.progress {
            Progress::Endorsed { .. } => {
                rows::first_result(alloc, purchase, &held.sale, &receipt, consumer.as_slice())
            }
            _ => Err(Halt::Ignored(Reason::State)),
        }
    }

    // The purchase whose goods were sealed under an identifier.
    fn sold_as(&self, epoid: &Epoid) -> Option<Purchase>
        ensures { result ≡ sold_as (deliveries_in self.now.items) epoid.now }
    {
        delivery_at(&self.deliveries, epoid)
    }

    // ---- steps

    // What a message of a consumer makes it do.
    fn hear(&self, alloc: Global, message: &Message, moment: u64) -> Result<Planned, Halt>
        requires { MessageKeepsRules message.now }
        ensures row { Plans result (table.heard self.now message.now moment) }
        ensures parts { IfOk result (PlansParts self.now) }
    {
        match message {
            Message::PriceAsk { ticket, sealed } => {
                self.price_asked(alloc, ticket, sealed, moment)
            }
            Message::GoodsAsk { ticket, sealed } => {
                self.goods_asked(alloc, ticket, sealed, moment)
            }
            Message::Order { ticket, sealed } => self.order_sent(alloc, ticket, sealed, moment),
            Message::Refusal(refusal) => Err(Halt::Ignored(Reason::Refused(refusal.code))),
            _ => Err(Halt::Ignored(Reason::Kind)),
        }
    }

    // What a message of the house makes it do.
    fn hear_house(&self, alloc: Global, message: &Message) -> Result<Planned, Halt>
        requires { MessageKeepsRules message.now }
        ensures row { Plans result (table.heard_of_house self.now message.now) }
        ensures parts { IfOk result PlansPlain }
    {
        match message {
            Message::Result { merchant, consumer } => self.result_sent(alloc, merchant, consumer),
            Message::Refusal(refusal) => Err(Halt::Ignored(Reason::Refused(refusal.code))),
            _ => Err(Halt::Ignored(Reason::Kind)),
        }
    }

    // Does what was planned: keeps the item, and hands out the step. What is kept may stand next.
    fn perform(&mut self, alloc: Global, planned: Result<Planned, Halt>) -> Result<Step, NoMemory>
        requires follows { IfOk planned (λ p. IfSome p.answer.keep (λ x. follows self.old x ≡ true)) }
        requires parts { IfOk planned (PlansParts self.old) }
        ensures step { IfOk result (λ step. Performs planned step) }
        ensures kept { OnOk result (self.new ≡ performed self.old planned) }
        ensures err { OnErr result (self.new ≡ self.old) }
    {
        match planned {
            Ok(planned) => self.answer(alloc, planned),
            Err(Halt::Ignored(why)) => Ok(Step::Ignored(why)),
            Err(Halt::NoMemory) => Err(NoMemory),
        }
    }

    // The step of what was planned.
    fn answer(&mut self, alloc: Global, planned: Planned) -> Result<Step, NoMemory>
        requires follows { IfSome planned.answer.keep (λ x. follows self.old x ≡ true) }
        requires parts { PlansParts self.old planned }
        ensures step { IfOk result (λ step. step ≡ table.step_of (Ok planned.answer)) }
        ensures kept { OnOk result (self.new ≡ table.after self.old (Ok planned.answer)) }
        ensures err { OnErr result (self.new ≡ self.old) }
    {
        let Planned { answer, parts } = planned;
        let Answer { keep, to, message } = answer;
        match keep {
            None => Ok(Step::Move {
                keep: None,
                to,
                message,
            }),
            Some(item) => {
                match self.spell_and_keep(alloc, item, parts) {
                    Ok(kept) => Ok(Step::Move {
                        keep: Some(kept),
                        to,
                        message,
                    }),
                    Err(no) => Err(no),
                }
            }
        }
    }

    // Spells an item, and keeps it.
    fn spell_and_keep(
        &mut self,
        alloc: Global,
        item: Item,
        parts: Option<Parts>,
    ) -> Result<Blob, NoMemory>
        requires follows { follows self.old item ≡ true }
        requires parts { HasParts self.old item parts }
        ensures bytes { IfOk result (λ kept. kept ≡ item_bytes item) }
        ensures kept { OnOk result (self.new ≡ with_item self.old item) }
        ensures err { OnErr result (self.new ≡ self.old) }
    {
        let bytes = item.spelled();
        let kept = Blob::of(alloc, bytes.as_slice())?;
        self.keep(item, parts)?;
        Ok(kept)
    }
}
