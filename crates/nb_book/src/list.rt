ghost use Rattle.std.specs.Prelude.{◌≡◌, ◌≤◌, ◌<◌, ◌==◌, ◌+◌, ◌*◌, ◌-◌, ◌^◌, ◌++◌, ◌∷◌, [], ℕ, List, Some, IfOk, IfSome, length, slice_get, slice_index, take, vec_len, vec_capacity, IsNone, IsSome, if◌then◌else◌};
ghost use Rattle.std.specs.List.{HoldsAt, AllByRecursion};
ghost use Rattle.nb_units.specs.declared.limits.TheConstants.{MAX_CAP};
ghost use Rattle.nb_book.specs.Searches.{party_in, holder_in, funded_in, order_in};
ghost use Rattle.nb_book.specs.Money.{account_in, balance, brought, fee_in, fees, fund, taken, total};
ghost use Rattle.nb_book.specs.Legal.{Legal, LegalAfter};
ghost use Rattle.nb_book.specs.Laws.{opens};
ghost use Rattle.nb_units.specs.declared.ids.AcctId.{AcctId};
ghost use Rattle.nb_index.specs.declared.put.Put.{Put};
ghost use Rattle.nb_index.specs.Puts.{IsShaped, value_in};
ghost use Rattle.nb_book.specs.Indexes.{AreEmptyIndexes, Indexes, IsEmptyIndex, KeepsBalances, KeysFit, Tied, account_key, first_place, list_indexes, list_places, order_key, party_key, puts_at, reference_key, slots_for};

use crate::account::Account;
use crate::found::{funded_at, holder_at, order_at, party_at};
use crate::funded::Funded;
use crate::kept::Kept;
use crate::keys::{keys_of, name_key};
use crate::party::Party;
use nb_entry::Entry;
use nb_index::{FixedIndex, HashedKey, SlotHasher};
use nb_units::{AcctId, Epoid, NoMemory, PartyId};
use std::alloc::Global;

// The entries in order, and the answers to all that they are asked: the party of a number, the holder of an account, the settlement of an order,
// the fund of a reference, the balance of an account, and the total. Nothing else in this crate looks into them. An answer is found by an index
// of places of entries, and balances and the total are kept; `Tied` says how. Where a party is enrolled is found without an index too, by a place that
// the entry there confirms. All memory is taken by `new`.
#[derive(Drop)]
pub(crate) struct EntryList {
    entries: Vec<Entry>,
    // How many entries it has memory for.
    cap: u32,
    // For each number of a party, of an account, each reference, each identifier of an order the place of the entry that names it first.
    parties: FixedIndex,
    accounts: FixedIndex,
    references: FixedIndex,
    orders: FixedIndex,
    // For each remainder of a party's number the place of the last enrolment of such a number, or any other place: it is believed only where the
    // entry there enrols the number that is asked for.
    enrolments: Vec<u32>,
    // A number for each entry: at the place of an enrolment the balance of the account that it opens.
    balances: Vec<u64>,
    // All that the entries brought into the house.
    total: u64,
    // All that the house kept of payments.
    fees: u64,
}

// How many remainders of parties' numbers have a place of an enrolment.
const REMAINDERS: usize = 4096;

// The indexes of a list with no entries, and its places of enrolments.
#[derive(Drop)]
struct EmptyIndexes {
    parties: FixedIndex,
    accounts: FixedIndex,
    references: FixedIndex,
    orders: FixedIndex,
    enrolments: Vec<u32>,
}

// Indexes with room for so many entries, and places for all remainders.
fn indexes_for(alloc: Global, cap: u32, key: &[u8; 16]) -> Result<EmptyIndexes, NoMemory>
    requires { cap ≤ MAX_CAP }
    ensures { IfOk result (AreEmptyIndexes cap key.now) }
{
    let enrolments = vec![in alloc; 0; REMAINDERS]?;
    let (parties, accounts) = two_indexes(alloc, cap, key)?;
    let (references, orders) = two_indexes(alloc, cap, key)?;
    Ok(EmptyIndexes {
        parties,
        accounts,
        references,
        orders,
        enrolments,
    })
}

// Two indexes, each for so many keys.
fn two_indexes(
    alloc: Global,
    cap: u32,
    key: &[u8; 16],
) -> Result<(FixedIndex, FixedIndex), NoMemory>
    requires { cap ≤ MAX_CAP }
    ensures { IfOk result (λ two. IsEmptyIndex cap key.now two.0 × IsEmptyIndex cap key.now two.1) }
{
    let first = index_for(alloc, cap, key)?;
    let second = index_for(alloc, cap, key)?;
    Ok((first, second))
}

// An index for so many keys.
fn index_for(alloc: Global, cap: u32, key: &[u8; 16]) -> Result<FixedIndex, NoMemory>
    requires { cap ≤ MAX_CAP }
    ensures { IfOk result (IsEmptyIndex cap key.now) }
{
    match FixedIndex::new(alloc, 2 * cap + 2, key) {
        Ok(index) => Ok(index),
        Err(_) => Err(NoMemory),
    }
}

// Keeps the place of the entry, if it is an enrolment, for the number that it enrols.
fn keep_place(places: &mut Vec<u32>, e: &Entry, at: u32) {
    if let Entry::Enrol { id, .. } = *e {
        if let Some(place) = places.get_mut(id.0 as usize % REMAINDERS) {
            *place = at;
        }
    }
}

// Puts the place of an entry under its key, if it has one.
fn put_key(index: &mut FixedIndex, key: Option<[u8; 16]>, at: u32)
    requires absent { IfSome key (λ k. IsNone (value_in index.old.puts k)) }
    requires room { 2 * length index.old.puts < index.old.shape.slots }
    ensures puts { index.new.puts ≡ index.old.puts ++ puts_at key at }
    ensures shape { index.new.shape ≡ index.old.shape }
{
    if let Some(key) = key {
        index.put(&key, at);
    }
}

// Takes the key of the last entry off, if it has one: the puts are those before it.
fn take_off_key(index: &mut FixedIndex, key: Option<[u8; 16]>)
    requires last { (before : List Put) × (at : ℕ) × (index.old.puts ≡ before ++ puts_at key at) }
    ensures puts { (before : List Put) (at : ℕ) → index.old.puts ≡ before ++ puts_at key at → index.new.puts ≡ before }
    ensures shape { index.new.shape ≡ index.old.shape }
{
    if let Some(key) = key {
        index.take_off(&key);
    }
}

// The money that an entry moves: what it takes at the place of one balance, what it brings at that of another, what comes into the house by it, and what the
// house keeps of it.
#[derive(Clone, Copy)]
struct Moved {
    payer: usize,
    taken: u64,
    payee: usize,
    brought: u64,
    fund: u64,
    fee: u64,
}

// Takes an amount from the one number, and then adds an amount to the other.
fn transfer(balances: &mut Vec<u64>, payer: usize, price: u64, payee: usize, rest: u64)
    requires payer { payer < vec_len balances.old }
    requires payee { payee < vec_len balances.old }
    requires held { price ≤ slice_index balances.old.items payer }
    requires fits { slice_index balances.old.items payee + rest < 2 ^ 64 }
    ensures each { (at : ℕ) → slice_index balances.new.items at + (if payer == at then price else 0)
        ≡ slice_index balances.old.items at + (if payee == at then rest else 0) }
    ensures long { length balances.new.items ≡ length balances.old.items }
    ensures capacity { vec_capacity balances.new ≡ vec_capacity balances.old }
{
    balances[payer] -= price;
    balances[payee] += rest;
}

impl EntryList {
    // A list with no entries and memory for so many.
    pub(crate) fn new(alloc: Global, cap: u32, key: &[u8; 16]) -> Result<EntryList, NoMemory>
        requires { cap ≤ MAX_CAP }
        ensures entries { IfOk result (λ list. list.entries.items ≡ []) }
        ensures cap { IfOk result (λ list. list.cap ≡ cap) }
        ensures places { IfOk result (λ list. AllByRecursion (λ n. cap ≤ n) (list_places list)) }
        ensures indexes { IfOk result (λ list. AllByRecursion (IsShaped (slots_for cap) key.now) (list_indexes list)) }
        ensures tied { IfOk result (λ list. Tied list []) }
    {
        let entries = Vec::with_capacity(alloc, cap as usize)?;
        let balances = Vec::with_capacity(alloc, cap as usize)?;
        let EmptyIndexes {
            parties,
            accounts,
            references,
            orders,
            enrolments,
        } = indexes_for(alloc, cap, key)?;
        Ok(EntryList {
            entries,
            cap,
            parties,
            accounts,
            references,
            orders,
            enrolments,
            balances,
            total: 0,
            fees: 0,
        })
    }

    pub(crate) fn len(&self) -> usize
        ensures { result ≡ length self.now.entries.items }
    {
        self.entries.len()
    }

    pub(crate) fn entry(&self, i: u32) -> Option<Entry>
        ensures { result ≡ slice_get self.now.entries.items i }
    {
        self.entries.get(i as usize).copied()
    }

    pub(crate) fn cap(&self) -> u32
        ensures { result ≡ self.now.cap }
    {
        self.cap
    }

    // Appends the entry, for which there is room.
    pub(crate) fn push(&mut self, e: &Entry)
        requires tied { Tied self.old self.old.entries.items }
        requires legal { Legal self.old.entries.items }
        requires next { LegalAfter self.old.entries.items e.now }
        requires within { length self.old.entries.items < self.old.cap }
        requires room { self.old.cap ≤ vec_capacity self.old.entries }
        ensures entries { self.new.entries.items ≡ self.old.entries.items ++ e.now ∷ [] }
        ensures cap { self.new.cap ≡ self.old.cap }
        ensures places { list_places self.new ≡ list_places self.old }
        ensures indexes { list_indexes self.new ≡ list_indexes self.old }
        ensures tied { Tied self.new self.new.entries.items }
    {
        self.record(e);
        self.entries.push_reserved(*e);
    }

    // Keeps what the entry says, which comes behind the entries.
    fn record(&mut self, e: &Entry)
        requires tied { Tied self.old self.old.entries.items }
        requires legal { Legal self.old.entries.items }
        requires next { LegalAfter self.old.entries.items e.now }
        requires within { length self.old.entries.items < self.old.cap }
        ensures tied { Tied self.new (self.old.entries.items ++ e.now ∷ []) }
        ensures entries { self.new.entries ≡ self.old.entries }
        ensures cap { self.new.cap ≡ self.old.cap }
        ensures places { list_places self.new ≡ list_places self.old }
        ensures indexes { list_indexes self.new ≡ list_indexes self.old }
    {
        self.post(e);
        self.balances.push_reserved(0);
        self.put_keys(e);
    }

    // The money that the entry moves, if it moves some. It takes from one account alone and brings into one alone, and these have their places there.
    // The entry may come behind some of the entries, the first n: behind all of them where it is to be appended, behind all but one where it is the last.
    fn moved(&self, e: &Entry) -> Option<Moved>
        requires tied { Tied self.now self.now.entries.items }
        requires legal { Legal self.now.entries.items }
        requires next { (n : ℕ) × LegalAfter (take n self.now.entries.items) e.now }
        ensures payer { IfSome result (λ m. (b : AcctId) × (first_place (opens b) self.now.entries.items ≡ Some m.payer) × ((a : AcctId) → taken a e.now ≡ (if b.0 == a.0 then m.taken else 0))) }
        ensures payee { IfSome result (λ m. (b : AcctId) × (first_place (opens b) self.now.entries.items ≡ Some m.payee) × ((a : AcctId) → brought a e.now ≡ (if b.0 == a.0 then m.brought else 0))) }
        ensures fund { IfSome result (λ m. m.fund ≡ fund e.now) }
        ensures fee { IfSome result (λ m. m.fee ≡ fee_in e.now) }
        ensures none { IsNone result → ((a : AcctId) → (taken a e.now ≡ 0) × (brought a e.now ≡ 0)) × (fund e.now ≡ 0) × (fee_in e.now ≡ 0) }
    {
        match *e {
            Entry::Fund { acct, amount, .. } => {
                let payee = self.seat(acct);
                Some(Moved {
                    payer: payee,
                    taken: 0,
                    payee,
                    brought: amount,
                    fund: amount,
                    fee: 0,
                })
            }
            Entry::Paid {
                consumer,
                merchant,
                price,
                cacct,
                macct,
                ..
            } => {
                let payer = self.seat_of(consumer, cacct);
                let payee = self.seat_of(merchant, macct);
                Some(Moved {
                    payer,
                    taken: price.0,
                    payee,
                    brought: price.0,
                    fund: 0,
                    fee: 0,
                })
            }
            Entry::Charged {
                consumer,
                merchant,
                price,
                fee,
                cacct,
                macct,
                ..
            } => {
                let payer = self.seat_of(consumer, cacct);
                let payee = self.seat_of(merchant, macct);
                Some(Moved {
                    payer,
                    taken: price.0,
                    payee,
                    brought: price.0 - fee,
                    fund: 0,
                    fee,
                })
            }
            Entry::Enrol { .. } | Entry::Refused { .. } => None,
        }
    }

    // Moves this money. The account that the entry opens, if it opens one, has no number yet.
    fn post(&mut self, e: &Entry)
        requires tied { Tied self.old self.old.entries.items }
        requires legal { Legal self.old.entries.items }
        requires next { LegalAfter self.old.entries.items e.now }
        ensures balances { KeepsBalances (self.old.entries.items ++ e.now ∷ []) (self.new.balances.items ++ 0 ∷ []) }
        ensures capacity { vec_capacity self.new.balances ≡ vec_capacity self.old.balances }
        ensures sum { self.new.total ≡ total (self.old.entries.items ++ e.now ∷ []) }
        ensures fees { self.new.fees ≡ fees (self.old.entries.items ++ e.now ∷ []) }
        ensures rest { self.new ≡ record self.old { balances = self.new.balances; total = self.new.total; fees = self.new.fees } }
    {
        if let Some(m) = self.moved(e) {
            transfer(&mut self.balances, m.payer, m.taken, m.payee, m.brought);
            self.total += m.fund;
            self.fees += m.fee;
        }
    }

    // Puts the keys of the entry, with its place behind the entries.
    fn put_keys(&mut self, e: &Entry)
        requires most { self.old.cap ≤ MAX_CAP }
        requires fit { AllByRecursion KeysFit self.old.entries.items }
        requires next { LegalAfter self.old.entries.items e.now }
        requires within { length self.old.entries.items < self.old.cap }
        requires parties { Indexes party_key self.old.cap self.old.parties self.old.entries.items }
        requires accounts { Indexes account_key self.old.cap self.old.accounts self.old.entries.items }
        requires references { Indexes reference_key self.old.cap self.old.references self.old.entries.items }
        requires orders { Indexes order_key self.old.cap self.old.orders self.old.entries.items }
        ensures fit { KeysFit e.now }
        ensures parties { Indexes party_key self.new.cap self.new.parties (self.old.entries.items ++ e.now ∷ []) }
        ensures accounts { Indexes account_key self.new.cap self.new.accounts (self.old.entries.items ++ e.now ∷ []) }
        ensures references { Indexes reference_key self.new.cap self.new.references (self.old.entries.items ++ e.now ∷ []) }
        ensures orders { Indexes order_key self.new.cap self.new.orders (self.old.entries.items ++ e.now ∷ []) }
        ensures indexes { list_indexes self.new ≡ list_indexes self.old }
        ensures rest { self.new ≡ record self.old { parties = self.new.parties; accounts = self.new.accounts; references = self.new.references; orders = self.new.orders; enrolments = self.new.enrolments } }
    {
        let at = self.entries.len() as u32;
        let keys = keys_of(e);
        put_key(&mut self.parties, keys.party, at);
        put_key(&mut self.accounts, keys.account, at);
        put_key(&mut self.references, keys.reference, at);
        put_key(&mut self.orders, keys.order, at);
        keep_place(&mut self.enrolments, e, at);
    }

    // Takes the last entry off: all is as it was before it.
    pub(crate) fn pop(&mut self)
        requires tied { Tied self.old self.old.entries.items }
        requires legal { Legal self.old.entries.items }
        requires some { 0 < length self.old.entries.items }
        ensures entries { self.new.entries.items ≡ take (length self.old.entries.items - 1) self.old.entries.items }
        ensures cap { self.new.cap ≡ self.old.cap }
        ensures places { list_places self.new ≡ list_places self.old }
        ensures indexes { list_indexes self.new ≡ list_indexes self.old }
        ensures tied { Tied self.new self.new.entries.items }
    {
        let last = self.entries[self.entries.len() - 1];
        self.forget(&last);
        let _ = self.entries.pop();
    }

    // Takes back what is kept of the last entry.
    fn forget(&mut self, e: &Entry)
        requires tied { Tied self.old self.old.entries.items }
        requires legal { Legal self.old.entries.items }
        requires some { 0 < length self.old.entries.items }
        requires last { HoldsAt (λ x. x ≡ e.now) self.old.entries.items (length self.old.entries.items - 1) }
        ensures tied { Tied self.new (take (length self.old.entries.items - 1) self.old.entries.items) }
        ensures entries { self.new.entries ≡ self.old.entries }
        ensures cap { self.new.cap ≡ self.old.cap }
        ensures places { list_places self.new ≡ list_places self.old }
        ensures indexes { list_indexes self.new ≡ list_indexes self.old }
    {
        self.reverse(e);
        self.take_off_keys(e);
        let _ = self.balances.pop();
    }

    // Moves it back, of the last entry. The number at its place is still there.
    fn reverse(&mut self, e: &Entry)
        requires tied { Tied self.old self.old.entries.items }
        requires legal { Legal self.old.entries.items }
        requires some { 0 < length self.old.entries.items }
        requires last { HoldsAt (λ x. x ≡ e.now) self.old.entries.items (length self.old.entries.items - 1) }
        ensures balances { KeepsBalances (take (length self.old.entries.items - 1) self.old.entries.items) (take (length self.old.entries.items - 1) self.new.balances.items) }
        ensures long { length self.new.balances.items ≡ length self.old.balances.items }
        ensures capacity { vec_capacity self.new.balances ≡ vec_capacity self.old.balances }
        ensures sum { self.new.total ≡ total (take (length self.old.entries.items - 1) self.old.entries.items) }
        ensures fees { self.new.fees ≡ fees (take (length self.old.entries.items - 1) self.old.entries.items) }
        ensures rest { self.new ≡ record self.old { balances = self.new.balances; total = self.new.total; fees = self.new.fees } }
    {
        if let Some(m) = self.moved(e) {
            transfer(&mut self.balances, m.payee, m.brought, m.payer, m.taken);
            self.total -= m.fund;
            self.fees -= m.fee;
        }
    }

    // Takes the keys of the last entry off.
    fn take_off_keys(&mut self, e: &Entry)
        requires last { self.old.entries.items ≡ take (length self.old.entries.items - 1) self.old.entries.items ++ e.now ∷ [] }
        requires parties { Indexes party_key self.old.cap self.old.parties self.old.entries.items }
        requires accounts { Indexes account_key self.old.cap self.old.accounts self.old.entries.items }
        requires references { Indexes reference_key self.old.cap self.old.references self.old.entries.items }
        requires orders { Indexes order_key self.old.cap self.old.orders self.old.entries.items }
        ensures parties { Indexes party_key self.new.cap self.new.parties (take (length self.old.entries.items - 1) self.old.entries.items) }
        ensures accounts { Indexes account_key self.new.cap self.new.accounts (take (length self.old.entries.items - 1) self.old.entries.items) }
        ensures references { Indexes reference_key self.new.cap self.new.references (take (length self.old.entries.items - 1) self.old.entries.items) }
        ensures orders { Indexes order_key self.new.cap self.new.orders (take (length self.old.entries.items - 1) self.old.entries.items) }
        ensures indexes { list_indexes self.new ≡ list_indexes self.old }
        ensures rest { self.new ≡ record self.old { parties = self.new.parties; accounts = self.new.accounts; references = self.new.references; orders = self.new.orders } }
    {
        let keys = keys_of(e);
        take_off_key(&mut self.parties, keys.party);
        take_off_key(&mut self.accounts, keys.account);
        take_off_key(&mut self.references, keys.reference);
        take_off_key(&mut self.orders, keys.order);
    }

    // The place of the enrolment that opens the account of this number, at which its balance stands.
    fn place_of(&self, id: AcctId) -> Option<u32>
        requires { Tied self.now self.now.entries.items }
        ensures place { result ≡ first_place (opens id) self.now.entries.items }
        ensures within { IfSome result (λ at. at < length self.now.entries.items) }
    {
        self.accounts.find(&name_key(id.0))
    }

    // The same for an account that a party holds.
    fn seat(&self, id: AcctId) -> usize
        requires tied { Tied self.now self.now.entries.items }
        requires held { IsSome (holder_in self.now.entries.items id) }
        ensures place { first_place (opens id) self.now.entries.items ≡ Some result }
        ensures within { result < length self.now.entries.items }
    {
        match self.place_of(id) {
            Some(at) => at as usize,
            None => unreachable!(),
        }
    }

    // The same for the account of a party, which stands at the place of the party's enrolment.
    fn seat_of(&self, id: PartyId, account: AcctId) -> usize
        requires tied { Tied self.now self.now.entries.items }
        requires legal { Legal self.now.entries.items }
        requires held { IsSome (holder_in self.now.entries.items account) }
        ensures place { first_place (opens account) self.now.entries.items ≡ Some result }
        ensures within { result < length self.now.entries.items }
    {
        if let Some(party) = self.confirmed(id) {
            if party.acct == account {
                return party.at as usize;
            }
        }
        self.seat(account)
    }

    // The party that the first enrolment of this number enrols.
    pub(crate) fn party(&self, id: PartyId) -> Option<Party>
        requires tied { Tied self.now self.now.entries.items }
        requires legal { Legal self.now.entries.items }
        ensures { result ≡ party_in self.now.entries.items id }
    {
        match self.confirmed(id) {
            Some(party) => Some(party),
            None => self.indexed(id),
        }
    }

    // The same, where the entry at the place that is kept for this number enrols it.
    fn confirmed(&self, id: PartyId) -> Option<Party>
        requires { Legal self.now.entries.items }
        ensures { IfSome result (λ party. party_in self.now.entries.items id ≡ Some party) }
    {
        match self.enrolments.get(id.0 as usize % REMAINDERS) {
            Some(at) => self.enrolled_at(*at, id),
            None => None,
        }
    }

    // The same, where the entry at this place, if there is one, enrols it.
    fn enrolled_at(&self, at: u32, id: PartyId) -> Option<Party>
        requires { Legal self.now.entries.items }
        ensures { IfSome result (λ party. party_in self.now.entries.items id ≡ Some party) }
    {
        if at as usize >= self.entries.len() {
            return None;
        }
        party_at(&self.entries[at as usize], at, id)
    }

    // The same by the index.
    fn indexed(&self, id: PartyId) -> Option<Party>
        requires { Tied self.now self.now.entries.items }
        ensures { result ≡ party_in self.now.entries.items id }
    {
        match self.parties.find(&name_key(id.0)) {
            Some(at) => party_at(&self.entries[at as usize], at, id),
            None => None,
        }
    }

    // The party that the first enrolment with this account enrols.
    pub(crate) fn holder(&self, id: AcctId) -> Option<PartyId>
        requires { Tied self.now self.now.entries.items }
        ensures { result ≡ holder_in self.now.entries.items id }
    {
        match self.place_of(id) {
            Some(at) => holder_at(&self.entries[at as usize], id),
            None => None,
        }
    }

    // The first payment or refusal of the order of this identifier.
    pub(crate) fn order(&self, epoid: &Epoid) -> Option<Kept>
        requires { Tied self.now self.now.entries.items }
        ensures { result ≡ order_in self.now.entries.items epoid.now }
    {
        match self.orders.find(&epoid.write()) {
            Some(at) => order_at(&self.entries[at as usize], at, epoid),
            None => None,
        }
    }

    // What hashes identifiers for the index of orders.
    pub(crate) fn order_hasher(&self) -> SlotHasher {
        self.orders.hasher()
    }

    // Keeps the slot of an identifier that was hashed so.
    pub(crate) fn remember_order(&mut self, identifier: &HashedKey)
        ensures { self.new ≡ self.old }
    {
        self.orders.remember(identifier);
    }

    // The first fund under this reference.
    pub(crate) fn reference(&self, reference: &[u8; 16]) -> Option<Funded>
        requires { Tied self.now self.now.entries.items }
        ensures { result ≡ funded_in self.now.entries.items reference.now }
    {
        match self.references.find(reference) {
            Some(at) => funded_at(&self.entries[at as usize], at, reference),
            None => None,
        }
    }

    // The party that holds the account of this number, and what is in it.
    pub(crate) fn account(&self, id: AcctId) -> Option<Account>
        requires tied { Tied self.now self.now.entries.items }
        requires legal { Legal self.now.entries.items }
        ensures { result ≡ account_in self.now.entries.items id }
    {
        match self.place_of(id) {
            Some(at) => match holder_at(&self.entries[at as usize], id) {
                Some(party) => Some(Account {
                    party,
                    balance: self.balances[at as usize],
                }),
                None => None,
            },
            None => None,
        }
    }

    // What is in the account of a party that is enrolled. It stands at the place of the enrolment.
    pub(crate) fn balance_of(&self, id: PartyId, party: &Party) -> u64
        requires tied { Tied self.now self.now.entries.items }
        requires legal { Legal self.now.entries.items }
        requires enrolled { party_in self.now.entries.items id ≡ Some party.now }
        ensures { result ≡ balance self.now.entries.items party.now.acct }
    {
        self.balances[party.at as usize]
    }

    // All that the entries brought into the house.
    pub(crate) fn total(&self) -> u64
        requires { Tied self.now self.now.entries.items }
        ensures { result ≡ total self.now.entries.items }
    {
        self.total
    }

    // All that the house kept of payments.
    pub(crate) fn fees(&self) -> u64
        requires { Tied self.now self.now.entries.items }
        ensures { result ≡ fees self.now.entries.items }
    {
        self.fees
    }
}
