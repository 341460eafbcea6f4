ghost use Rattle.std.specs.Prelude.{◌≡◌, ◌≤◌, ◌↔◌, ◌++◌, ◌∷◌, [], IfOk, OnOk, IsTrue};
ghost use Rattle.std.specs.List.{list_any};
ghost use Rattle.nb_script.specs.declared.limits.TheConstants.{MAX_SCRIPT_CAP};
ghost use Rattle.nb_script.specs.Settings as settings;

use crate::act::{Act, Addressee};
use crate::limits::{MAX_ALL_GOODS, MAX_LENGTH, MAX_SCRIPT_CAP};
use crate::line::{Consumer, Line, Merchant, Shelf};
use crate::script::Script;
use nb_book::{Book, MAX_PRICE};
use nb_entry::{CONSUMER, Entry, MERCHANT};
use nb_units::{AcctId, FIRST_VERSION, HEAD, NoMemory, PartyId};
use std::alloc::Global;
use std::marker::Model;

// What the lines so far set up. It is seen as a `Setting`.
#[derive(Drop)]
pub(crate) struct Scene {
    head: [u8; HEAD],
    book: Book,
    entries: Vec<Entry>,
    consumers: Vec<Consumer>,
    merchants: Vec<Merchant>,
    shelves: Vec<Shelf>,
    // The bytes of all goods.
    goods: u64,
    acts: Vec<Act>,
    // Something happened.
    begun: bool,
}

impl Model for Scene {
    ghost use Rattle.std.specs.Prelude.{◌≡◌, ◌≤◌};
    ghost use Rattle.nb_script.specs.declared.limits.TheConstants.{MAX_ALL_GOODS};
    ghost use Rattle.nb_script.specs.Settings.{Setting, all_goods, has_begun};

    ghost Value = { Setting };

    ghost view = { λ s. record {
      head = s.head;
      cap = s.book.cap;
      entries = s.entries.items;
      consumers = s.consumers.items;
      merchants = s.merchants.items;
      shelves = s.shelves.items;
      acts = s.acts.items;
    } };

    ghost invariant = { λ s. record {
      book : s.book.entries ≡ s.entries.items;
      goods : s.goods ≡ all_goods s.shelves.items;
      within : s.goods ≤ MAX_ALL_GOODS;
      begun : s.begun ≡ has_begun s.acts.items;
    } };
}

// The entry that enrols a consumer.
fn consumer_entry(w: &Consumer) -> Entry
    ensures { result ≡ settings.consumer_entry w.now }
{
    Entry::Enrol {
        id: w.id,
        role: CONSUMER,
        acct: w.acct,
        nonce: w.nonce,
        key: w.key,
    }
}

// The entry that enrols a merchant.
fn merchant_entry(s: &Merchant) -> Entry
    ensures { result ≡ settings.merchant_entry s.now }
{
    Entry::Enrol {
        id: s.id,
        role: MERCHANT,
        acct: s.acct,
        nonce: 0,
        key: s.key,
    }
}

// The entry of a fund.
fn fund_entry(number: u32, acct: AcctId, amount: u64) -> Entry
    ensures { result ≡ settings.fund_entry number acct amount }
{
    Entry::Fund {
        acct,
        amount,
        reference: u128::from(number).to_be_bytes(),
    }
}

// Whether the party of this number is enrolled in this role.
fn has_role(book: &Book, role: u8, id: PartyId) -> bool
    ensures { result ≡ settings.has_role book.now.entries role id }
{
    match book.party(id) {
        Some(party) => party.role == role,
        None => false,
    }
}

// Whether whom a packet is for is there.
fn is_addressee(book: &Book, to: &Addressee) -> bool
    ensures { result ≡ settings.is_addressee book.now.entries to.now }
{
    match to {
        Addressee::Server => true,
        Addressee::Consumer(id) => has_role(book, CONSUMER, *id),
        Addressee::Merchant(id) => has_role(book, MERCHANT, *id),
    }
}

// Whether each party that is named is enrolled in the role in which it is named.
fn names_parties(book: &Book, act: &Act) -> bool
    ensures { result ≡ settings.names_parties book.now.entries act.now }
{
    match act {
        Act::Buy {
            consumer,
            merchant,
            ..
        }
        | Act::QuietMerchant {
            merchant,
            consumer,
            ..
        } => has_role(book, CONSUMER, *consumer) && has_role(book, MERCHANT, *merchant),
        Act::QuietConsumer { consumer, .. } | Act::RestartConsumer { consumer } => {
            has_role(book, CONSUMER, *consumer)
        }
        Act::RestartMerchant { merchant } => has_role(book, MERCHANT, *merchant),
        Act::Inject { to, .. } => is_addressee(book, to),
        Act::Clock { .. }
        | Act::Deliver { .. }
        | Act::Turn { .. }
        | Act::Write { .. }
        | Act::Open { .. }
        | Act::Answer { .. }
        | Act::Serve { .. }
        | Act::Stop { .. } => true,
    }
}

// Whether it lets something happen, and does not set the clock alone.
fn begins(act: &Act) -> bool
    ensures { result ≡ settings.begins act.now }
{
    !matches!(act, Act::Clock { .. })
}

// Whether the price and the length of the goods are within their limits.
fn is_shelf(shelf: &Shelf) -> bool
    ensures { IsTrue result ↔ settings.IsShelf shelf.now }
{
    shelf.price.0 >= 1 && shelf.price.0 <= u64::from(MAX_PRICE) && shelf.length <= MAX_LENGTH
}

// Whether a merchant sells a product of this number.
fn is_sold(shelves: &[Shelf], merchant: PartyId, product: u32) -> bool
    ensures { result ≡ list_any (settings.is_of merchant product) shelves.now }
{
    for shelf in shelves {
        if shelf.merchant.0 == merchant.0 && product == shelf.product {
            return true;
        }
    }
    false
}

impl Scene {
    // A house with this head and this cap, and nothing else.
    pub(crate) fn new(alloc: Global, head: [u8; HEAD], cap: u32) -> Result<Scene, NoMemory>
        requires some { 1 ≤ cap }
        requires most { cap ≤ MAX_SCRIPT_CAP }
        ensures { IfOk result (λ s. s ≡ settings.bare head cap) }
    {
        let mut index = [0u8; 16];
        index.copy_from_slice(head.split_at(HEAD - 16).1);
        Ok(Scene {
            head,
            book: Book::new(alloc, cap, &index)?,
            entries: Vec::new(alloc),
            consumers: Vec::new(alloc),
            merchants: Vec::new(alloc),
            shelves: Vec::new(alloc),
            goods: 0,
            acts: Vec::new(alloc),
            begun: false,
        })
    }

    // Whether an entry may come next, with room for it.
    fn may_enter(&self, e: &Entry) -> bool
        ensures { IsTrue result ↔ settings.MayEnter self.now e.now }
    {
        self.book.len() < self.book.cap() && self.book.legal(e, FIRST_VERSION, 0)
    }

    // Whether a merchant may sell this too.
    fn may_sell(&self, shelf: &Shelf) -> bool
        ensures { IsTrue result ↔ settings.MaySell self.now shelf.now }
    {
        is_shelf(shelf)
            && has_role(&self.book, MERCHANT, shelf.merchant)
            && !is_sold(self.shelves.as_slice(), shelf.merchant, shelf.product)
            && self.goods + u64::from(shelf.length) <= MAX_ALL_GOODS
    }

    // Whether a line may stand as the one of this number.
    fn may_follow(&self, number: u32, line: &Line) -> bool
        ensures { IsTrue result ↔ settings.MayFollow self.now number line.now }
    {
        match line {
            Line::Consumer(w) => !self.begun && self.may_enter(&consumer_entry(w)),
            Line::Merchant(s) => !self.begun && self.may_enter(&merchant_entry(s)),
            Line::Fund { acct, amount } => {
                !self.begun && self.may_enter(&fund_entry(number, *acct, *amount))
            }
            Line::Shelf(shelf) => !self.begun && self.may_sell(shelf),
            Line::Does(act) => names_parties(&self.book, act),
        }
    }

    // An entry more.
    fn enter(&mut self, e: Entry) -> Result<(), NoMemory>
        requires { settings.MayEnter self.old e }
        ensures { OnOk result (self.new ≡ record self.old { entries = self.old.entries ++ e ∷ [] }) }
    {
        self.entries.push(e)?;
        self.book.apply(&e);
        Ok(())
    }

    // What is set up behind a line that may stand as the one of this number.
    fn add(&mut self, number: u32, line: Line) -> Result<(), NoMemory>
        requires { settings.MayFollow self.old number line }
        ensures { OnOk result (self.new ≡ settings.behind self.old number line) }
    {
        match line {
            Line::Consumer(w) => {
                self.enter(consumer_entry(&w))?;
                self.consumers.push(w)?;
            }
            Line::Merchant(s) => {
                self.enter(merchant_entry(&s))?;
                self.merchants.push(s)?;
            }
            Line::Fund { acct, amount } => {
                self.enter(fund_entry(number, acct, amount))?;
            }
            Line::Shelf(shelf) => {
                self.shelves.push(shelf)?;
                self.goods += u64::from(shelf.length);
            }
            Line::Does(act) => {
                let begins = begins(&act);
                self.acts.push(act)?;
                self.begun = self.begun || begins;
            }
        }
        Ok(())
    }

    // Takes the line of this number, where it may stand there.
    pub(crate) fn take(&mut self, number: u32, line: Line) -> Result<bool, NoMemory>
        ensures { IfOk result (settings.Takes self.old number line self.new) }
    {
        if !self.may_follow(number, &line) {
            return Ok(false);
        }
        self.add(number, line)?;
        Ok(true)
    }

    // What was set up.
    pub(crate) fn into_script(self) -> Script
        ensures { settings.setting_of result ≡ self }
    {
        let Scene {
            head,
            book,
            entries,
            consumers,
            merchants,
            shelves,
            acts,
            ..
        } = self;
        Script {
            head,
            cap: book.cap(),
            entries,
            consumers,
            merchants,
            shelves,
            acts,
        }
    }
}
