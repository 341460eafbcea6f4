ghost use Rattle.std.specs.Prelude.{◌≡◌, ◌<◌, ◌==◌, ◌++◌, ◌∷◌, [], length, map, slice_get, is_some, option_map, Some, None, OnOk, OnErr, IfOk, IfSome};
ghost use Rattle.std.specs.List.{position};
ghost use Rattle.nb_msgs.specs.Reading.{message_of};
ghost use Rattle.nb_wallet.specs.Spelling.{StartKeepsRules};
ghost use Rattle.nb_consumer.specs.Restart.{untold};
ghost use Rattle.nb_consumer.specs.State.{new_buyer, purchase_of};
ghost use Rattle.nb_consumer.specs.Table.{started, silent};
ghost use Rattle.nb_parties.specs.Rules.{buyer_goes, buyer_hears};
ghost use Rattle.nb_packets.specs.Doing.{WentAt, BecameAt, TestsAt, DidSo};
ghost use Rattle.nb_buyers.specs.Buyers.{buyer_number, phase_of_first, told_of, knows_of};

use crate::buying::Buying;
use nb_consumer::Phase;
use nb_msgs::{BodyFault, read_body};
use nb_numbers::Numbers;
use nb_packets::{Content, Did, Parcel};
use nb_units::{NoMemory, PartyId};
use nb_wallet::{Start, Wallet};
use std::alloc::Global;
use std::marker::Model;

/// Consumers, found by their numbers. They are seen as the list of them.
pub struct Buyers {
    numbers: Numbers,
    each: Vec<Buying>,
}

impl Drop for Buyers {
    fn drop(self) {
        let Self {
            numbers: _,
            each: _,
        } = self;
    }
}

impl Model for Buyers {
    ghost use Rattle.std.specs.Prelude.{◌≡◌, List, map};
    ghost use Rattle.nb_consumer.specs.State.{Buyer};
    ghost use Rattle.nb_buyers.specs.Buyers.{buyer_number};

    ghost Value = { List Buyer };

    ghost view = { λ b. b.each.items };

    ghost invariant = { λ b. b.numbers ≡ map buyer_number b.each.items };
}

// The consumer at a place starts a purchase.
#[tactic(auto, using(nb_packets::proofs::Places::numbers_set))]
fn start_at(each: &mut Vec<Buying>, i: usize, start: &Start) -> Result<Did, NoMemory>
    requires within { i < length each.old.items }
    requires lawful { StartKeepsRules start.now }
    ensures goes { IfOk result (λ did. WentAt (λ b. buyer_goes b (started b start.now)) each.old.items each.new.items i did × DidSo did) }
    ensures numbers { map buyer_number each.new.items ≡ map buyer_number each.old.items }
    ensures err { OnErr result (each.new.items ≡ each.old.items) }
{
    each[i].start(start)
}

// It hears what a packet brings, where that is a message.
#[tactic(auto, using(nb_packets::proofs::Places::numbers_set))]
fn hear_at(
    each: &mut Vec<Buying>,
    i: usize,
    alloc: Global,
    packet: &Parcel,
) -> Result<Did, NoMemory>
    requires within { i < length each.old.items }
    ensures goes { IfOk result (λ did. WentAt (λ b. buyer_hears b (message_of packet.now.kind packet.now.body)) each.old.items each.new.items i did × DidSo did) }
    ensures numbers { map buyer_number each.new.items ≡ map buyer_number each.old.items }
    ensures err { OnErr result (each.new.items ≡ each.old.items) }
{
    match &packet.content {
        Content::Said(message) => each[i].hear(message),
        Content::Raw { kind, body } => match read_body(alloc, *kind, body.as_slice()) {
            Ok(message) => {
                let did = each[i].hear(&message);
                drop(message);
                did
            }
            Err(BodyFault::Malformed { .. }) => Ok(Did::Stayed),
            Err(BodyFault::NoMemory) => Err(NoMemory),
        },
    }
}

// It has heard nothing of a purchase for long.
#[tactic(auto, using(nb_packets::proofs::Places::numbers_set))]
fn quiet_at(each: &mut Vec<Buying>, i: usize, transaction: u64) -> Result<Did, NoMemory>
    requires within { i < length each.old.items }
    ensures goes { IfOk result (λ did. WentAt (λ b. buyer_goes b (silent b transaction)) each.old.items each.new.items i did × DidSo did) }
    ensures numbers { map buyer_number each.new.items ≡ map buyer_number each.old.items }
    ensures err { OnErr result (each.new.items ≡ each.old.items) }
{
    each[i].quiet(transaction)
}

// It starts again.
#[tactic(auto, using(nb_packets::proofs::Places::numbers_set))]
fn restart_at(each: &mut Vec<Buying>, i: usize, alloc: Global) -> Result<(), NoMemory>
    requires within { i < length each.old.items }
    ensures again { OnOk result (BecameAt untold each.old.items each.new.items i) }
    ensures numbers { map buyer_number each.new.items ≡ map buyer_number each.old.items }
    ensures err { OnErr result (each.new.items ≡ each.old.items) }
{
    each[i].restart(alloc)
}

impl Buyers {
    /// None yet.
    pub fn new(alloc: Global) -> Buyers
        ensures { result ≡ [] }
    {
        Buyers {
            numbers: Numbers::new(alloc),
            each: Vec::new(alloc),
        }
    }

    /// The place of the one with this number.
    #[tactic(auto, using(nb_packets::proofs::Places::position_number))]
    pub fn find(&self, id: PartyId) -> Option<usize>
        ensures found { result ≡ position (λ b. b.wallet.id.0 == id.0) self.now }
        ensures within { IfSome result (λ i. i < length self.now) }
    {
        self.numbers.place_of(id.0 as u64)
    }

    /// One more, whose number is new. Answers [`NoMemory`] where there is none, and nothing changed then.
    pub fn add(&mut self, alloc: Global, wallet: Wallet) -> Result<(), NoMemory>
        requires new { position (λ b. b.wallet.id.0 == wallet.id.0) self.old ≡ None }
        // It stands behind the others, and has kept nothing.
        ensures added { OnOk result (self.new ≡ self.old ++ new_buyer wallet ∷ []) }
        ensures err { OnErr result (self.new ≡ self.old) }
    {
        self.each.reserve(1)?;
        self.numbers.add(wallet.id.0 as u64)?;
        self.each.push_reserved(Buying::new(alloc, wallet));
        Ok(())
    }

    /// Whether the one at a place knows a purchase of this number.
    pub fn knows(&self, i: usize, transaction: u64) -> bool
        requires { i < length self.now }
        // It is what the consumer at that place knows.
        ensures { TestsAt (λ b. is_some (purchase_of b transaction)) self.now i result }
    {
        self.each[i].knows(transaction)
    }

    /// How many there are.
    pub fn len(&self) -> usize
        ensures { result ≡ length self.now }
    {
        self.each.len()
    }

    /// The number of the one at a place, and those of its purchases; none where nobody stands there.
    pub fn purchases(&self, i: usize) -> Option<(PartyId, &[u64])>
        ensures { told_of result ≡ option_map knows_of (slice_get self.now i) }
    {
        let buying = self.each.get(i)?;
        Some(buying.purchases())
    }

    /// How far a purchase of the one with this number has come; none where nobody has it, or there is no such purchase.
    pub fn phase(&self, id: PartyId, transaction: u64) -> Option<Phase>
        ensures { result ≡ phase_of_first self.now id transaction }
    {
        let i = self.find(id)?;
        self.each[i].phase(transaction)
    }

    /// The one at a place starts a purchase. Answers [`NoMemory`] where there is none, and nothing changed then.
    pub fn start(&mut self, i: usize, start: &Start) -> Result<Did, NoMemory>
        requires within { i < length self.old }
        requires lawful { StartKeepsRules start.now }
        // It goes as the rules say of a start, and the others stay; what it sent can be written.
        ensures goes { IfOk result (λ did. WentAt (λ b. buyer_goes b (started b start.now)) self.old self.new i did × DidSo did) }
        ensures err { OnErr result (self.new ≡ self.old) }
    {
        start_at(&mut self.each, i, start)
    }

    /// It hears what a packet brings, where that is a message. Answers [`NoMemory`] where there is none, and nothing changed then.
    pub fn hear(&mut self, i: usize, alloc: Global, packet: &Parcel) -> Result<Did, NoMemory>
        requires within { i < length self.old }
        // It goes as the rules say of that message, and the others stay; what it sent can be written.
        ensures goes { IfOk result (λ did. WentAt (λ b. buyer_hears b (message_of packet.now.kind packet.now.body)) self.old self.new i did × DidSo did) }
        ensures err { OnErr result (self.new ≡ self.old) }
    {
        hear_at(&mut self.each, i, alloc, packet)
    }

    /// It has heard nothing of a purchase for long. Answers [`NoMemory`] where there is none, and nothing changed then.
    pub fn quiet(&mut self, i: usize, transaction: u64) -> Result<Did, NoMemory>
        requires within { i < length self.old }
        // It goes as the rules say of that silence, and the others stay; what it sent can be written.
        ensures goes { IfOk result (λ did. WentAt (λ b. buyer_goes b (silent b transaction)) self.old self.new i did × DidSo did) }
        ensures err { OnErr result (self.new ≡ self.old) }
    {
        quiet_at(&mut self.each, i, transaction)
    }

    /// It starts again. Answers [`NoMemory`] where there is none, and nothing changed then.
    pub fn restart(&mut self, i: usize, alloc: Global) -> Result<(), NoMemory>
        requires within { i < length self.old }
        // It is what it kept, without the places that it was told, and the others stay.
        ensures again { OnOk result (BecameAt untold self.old self.new i) }
        ensures err { OnErr result (self.new ≡ self.old) }
    {
        restart_at(&mut self.each, i, alloc)
    }
}
