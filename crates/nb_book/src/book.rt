ghost use Rattle.std.specs.Prelude.{◌≡◌, ◌≤◌, ◌<◌, ◌-◌, ◌↔◌, [], ◌∷◌, ◌++◌, length, slice_get, take, Some, IsTrue, IfOk, IfSome};
ghost use Rattle.std.specs.List.{AllByRecursion};
ghost use Rattle.nb_units.specs.declared.limits.TheConstants.{MAX_CAP};
ghost use Rattle.nb_units.specs.Charter.{MayRule};
ghost use Rattle.nb_index.specs.Puts.{IsShaped};
ghost use Rattle.nb_book.specs.declared.limits.TheConstants.{MAX_TOTAL};
ghost use Rattle.nb_book.specs.Searches.{party_in, holder_in, funded_in, order_in};
ghost use Rattle.nb_book.specs.Money.{account_in, balance, fees, total, house_account};
ghost use Rattle.nb_book.specs.Legal.{LegalAfter, Legal, NextUnder};
ghost use Rattle.nb_book.specs.Indexes.{slots_for};

use crate::account::Account;
use crate::funded::Funded;
use crate::kept::Kept;
use crate::legal::is_next_under;
use crate::limits::{MAX_CAP, MAX_TOTAL};
use crate::list::EntryList;
use crate::party::Party;
use nb_entry::Entry;
use nb_index::{HashedKey, SlotHasher};
use nb_units::{AcctId, Epoid, NoMemory, PartyId};
use std::alloc::Global;
use std::marker::Model;

/// The entries of a house in order, at most as many as its cap.
pub struct Book {
    list: EntryList,
}

impl Drop for Book {
    fn drop(self) {
        let Self { list: _ } = self;
    }
}

impl Model for Book {
    ghost use Rattle.std.specs.Prelude.{◌≤◌, vec_len, vec_capacity};
    ghost use Rattle.nb_book.specs.Ledger.{Ledger};
    ghost use Rattle.nb_book.specs.Legal.{Legal};
    ghost use Rattle.nb_book.specs.Indexes.{Tied, list_places, list_indexes};

    ghost Value = { Ledger };

    ghost view = { λ b. record { entries = b.list.entries.items; cap = b.list.cap; places = list_places b.list; indexes = list_indexes b.list } };

    ghost invariant = { λ b. record {
      within : vec_len b.list.entries ≤ b.list.cap;
      some : 1 ≤ b.list.cap;
      legal : Legal b.list.entries.items;
      room : b.list.cap ≤ vec_capacity b.list.entries;
      tied : Tied b.list b.list.entries.items;
    } };
}

#[tactic(auto, using(crate::proofs::Summing::total_fits))]
impl Book {
    /// An empty book for at most `cap` entries, from 1 to [`MAX_CAP`]. It takes the memory for all of them, and answers
    /// [`NoMemory`] where there is none. By the key, 16 bytes, its look-ups are spread. That who does not know it cannot choose
    /// numbers and identifiers that make them slow is no claim of the proofs.
    pub fn new(alloc: Global, cap: u32, key: &[u8; 16]) -> Result<Book, NoMemory>
        requires some { 1 ≤ cap }
        requires most { cap ≤ MAX_CAP }
        ensures entries { IfOk result (λ book. book.entries ≡ []) }
        ensures cap { IfOk result (λ book. book.cap ≡ cap) }
        // Memory for as many entries and balances as the cap.
        ensures places { IfOk result (λ book. AllByRecursion (λ n. cap ≤ n) book.places) }
        // Each index has this key, two slots more than twice the cap, and memory for as many puts as such an index may have.
        ensures indexes { IfOk result (λ book. AllByRecursion (IsShaped (slots_for cap) key.now) book.indexes) }
    {
        Ok(Book {
            list: EntryList::new(alloc, cap, key)?,
        })
    }

    /// The party of this number, if it is enrolled.
    pub fn party(&self, id: PartyId) -> Option<Party>
        // The party of the first enrolment of this number; None exactly where none names it.
        ensures found { result ≡ party_in self.now.entries id }
        ensures legal { Legal self.now.entries }
    {
        self.list.party(id)
    }

    /// The account of this number with its balance now, if a party holds it.
    pub fn account(&self, id: AcctId) -> Option<Account>
        ensures found { result ≡ account_in self.now.entries id }
        // Its balance is at most the total.
        ensures within { IfSome result (λ account. account.balance ≤ total self.now.entries) }
        ensures legal { Legal self.now.entries }
    {
        self.list.account(id)
    }

    // Who holds the account of this number.
    pub(crate) fn holder(&self, id: AcctId) -> Option<PartyId>
        ensures found { result ≡ holder_in self.now.entries id }
        ensures legal { Legal self.now.entries }
    {
        self.list.holder(id)
    }

    /// What is in the account of an enrolled party, as [`Book::party`] told it, in the house's smallest unit of money. The place of
    /// its enrolment is known, so that nothing is looked up.
    pub fn balance_of(&self, id: PartyId, party: &Party) -> u64
        requires enrolled { party_in self.now.entries id ≡ Some party.now }
        ensures balance { result ≡ balance self.now.entries party.now.acct }
        ensures within { result ≤ total self.now.entries }
        ensures legal { Legal self.now.entries }
    {
        self.list.balance_of(id, party)
    }

    /// The fund of this reference, if there is one.
    pub fn reference(&self, r: &[u8; 16]) -> Option<Funded>
        // The first fund with this reference; None exactly where none has it.
        ensures found { result ≡ funded_in self.now.entries r.now }
        ensures legal { Legal self.now.entries }
    {
        self.list.reference(r)
    }

    /// The payment or refusal of the order of this identifier, if there is one.
    pub fn order(&self, epoid: &Epoid) -> Option<Kept>
        ensures found { result ≡ order_in self.now.entries epoid.now }
        ensures legal { Legal self.now.entries }
    {
        self.list.order(epoid)
    }

    /// What hashes identifiers of orders, the 16 bytes that they are written as, for the look-ups of this book.
    pub fn order_hasher(&self) -> SlotHasher {
        self.list.order_hasher()
    }

    /// Keeps what was hashed of an identifier by [`Book::order_hasher`], in place of the one before: looking that order up and applying its entry then make
    /// no hash. This takes no memory.
    pub fn remember_order(&mut self, identifier: &HashedKey)
        // No answer depends on what is kept.
        ensures { self.new ≡ self.old }
    {
        self.list.remember_order(identifier);
    }

    /// The entry at this place, counted from 0, if there are so many.
    pub fn entry(&self, i: u32) -> Option<Entry>
        ensures { result ≡ slice_get self.now.entries i }
    {
        self.list.entry(i)
    }

    /// How many entries are held.
    pub fn len(&self) -> u32
        ensures len { result ≡ length self.now.entries }
        ensures within { result ≤ self.now.cap }
        ensures legal { Legal self.now.entries }
    {
        self.list.len() as u32
    }

    /// How many entries can be held.
    pub fn cap(&self) -> u32
        ensures cap { result ≡ self.now.cap }
        ensures some { 1 ≤ result }
        ensures most { result ≤ MAX_CAP }
    {
        self.list.cap()
    }

    /// All money that came in, in the house's smallest unit of money.
    pub fn total(&self) -> u64
        ensures total { result ≡ total self.now.entries }
        ensures most { result ≤ MAX_TOTAL }
        ensures legal { Legal self.now.entries }
    {
        self.list.total()
    }

    /// What is in account 0, which is the house's own: all fees, in the house's smallest unit of money.
    #[tactic(auto, using(crate::proofs::Balances::fees_le_total, crate::proofs::Balances::house_has_fees))]
    pub fn fees(&self) -> u64
        ensures fees { result ≡ fees self.now.entries }
        ensures balance { result ≡ balance self.now.entries house_account }
        ensures within { result ≤ total self.now.entries }
        ensures legal { Legal self.now.entries }
    {
        self.list.fees()
    }

    /// Whether the entry may come next in a journal of this version and this rate, by what the entries say: whether the cap is reached is
    /// not tested. The version is [`FIRST_VERSION`](nb_units::FIRST_VERSION) or [`FEE_VERSION`](nb_units::FEE_VERSION), the rate is in
    /// thousandths of a price and at most [`MAX_RATE`](crate::MAX_RATE).
    pub fn legal(&self, e: &Entry, version: u8, rate: u16) -> bool
        requires { MayRule version rate }
        // True exactly where the entry may come next in a journal of this version and this rate: a payment with a fee in version 2 alone, and with the
        // fee of the rate.
        ensures { IsTrue result ↔ NextUnder version rate self.now.entries e.now }
    {
        is_next_under(e, self, version, rate)
    }

    /// Appends the entry, which may come next under some version and rate, where fewer are held than the cap says. This takes no memory.
    pub fn apply(&mut self, e: &Entry)
        requires legal { LegalAfter self.old.entries e.now }
        requires room { length self.old.entries < self.old.cap }
        ensures entries { self.new.entries ≡ self.old.entries ++ e.now ∷ [] }
        ensures cap { self.new.cap ≡ self.old.cap }
        // None of the lists that entries and puts are appended to took memory.
        ensures places { self.new.places ≡ self.old.places }
        ensures indexes { self.new.indexes ≡ self.old.indexes }
    {
        self.list.push(e);
    }

    /// Takes the last entry off: the entries are as they were before it was applied. This takes no memory.
    #[tactic(auto, using(crate::proofs::Growing::front_legal))]
    pub fn undo(&mut self)
        requires { 0 < length self.old.entries }
        // The entries are those before the last one.
        ensures entries { self.new.entries ≡ take (length self.old.entries - 1) self.old.entries }
        ensures cap { self.new.cap ≡ self.old.cap }
        ensures places { self.new.places ≡ self.old.places }
        ensures indexes { self.new.indexes ≡ self.old.indexes }
    {
        self.list.pop();
    }
}
