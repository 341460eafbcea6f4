ghost use Rattle.std.specs.Prelude.{◌≡◌, ◌<◌, ◌==◌, ◌++◌, ◌∷◌, [], length, map, is_some, None, OnOk, OnErr, IfOk, IfSome};
ghost use Rattle.std.specs.List.{position};
ghost use Rattle.nb_msgs.specs.Reading.{message_of};
ghost use Rattle.nb_stall.specs.Sales.{sale_in};
ghost use Rattle.nb_merchant.specs.Shop.{new_shop};
ghost use Rattle.nb_merchant.specs.Table.{silent, purchase_by};
ghost use Rattle.nb_parties.specs.Rules.{shop_goes, shop_hears};
ghost use Rattle.nb_packets.specs.Doing.{WentAt, TestsAt, DidSo};
ghost use Rattle.nb_sellers.specs.Sellers.{shop_number};

use crate::selling::Selling;
use nb_msgs::{BodyFault, read_body};
use nb_numbers::Numbers;
use nb_packets::{Content, Did, Parcel};
use nb_price::Catalogue;
use nb_stall::Stall;
use nb_units::{NoMemory, PartyId};
use std::alloc::Global;
use std::marker::Model;

/// Merchants, found by their numbers. They are seen as the list of them.
pub struct Sellers {
    numbers: Numbers,
    each: Vec<Selling>,
}

impl Drop for Sellers {
    fn drop(self) {
        let Self {
            numbers: _,
            each: _,
        } = self;
    }
}

impl Model for Sellers {
    ghost use Rattle.std.specs.Prelude.{◌≡◌, List, map};
    ghost use Rattle.nb_merchant.specs.Shop.{Shop};
    ghost use Rattle.nb_sellers.specs.Sellers.{shop_number};

    ghost Value = { List Shop };

    ghost view = { λ s. s.each.items };

    ghost invariant = { λ s. s.numbers ≡ map shop_number s.each.items };
}

// The merchant at a place hears what a packet brings at a moment, where that is a message.
#[tactic(auto, using(nb_packets::proofs::Places::numbers_set))]
fn hear_at(
    each: &mut Vec<Selling>,
    i: usize,
    alloc: Global,
    packet: &Parcel,
    moment: u64,
) -> Result<Did, NoMemory>
    requires within { i < length each.old.items }
    ensures goes { IfOk result (λ did. WentAt (λ s. shop_hears s (message_of packet.now.kind packet.now.body) moment) each.old.items each.new.items i did × DidSo did) }
    ensures numbers { map shop_number each.new.items ≡ map shop_number each.old.items }
    ensures err { OnErr result (each.new.items ≡ each.old.items) }
{
    match &packet.content {
        Content::Said(message) => each[i].hear(message, moment),
        Content::Raw { kind, body } => match read_body(alloc, *kind, body.as_slice()) {
            Ok(message) => {
                let did = each[i].hear(&message, moment);
                drop(message);
                did
            }
            Err(BodyFault::Malformed { .. }) => Ok(Did::Stayed),
            Err(BodyFault::NoMemory) => Err(NoMemory),
        },
    }
}

// It has heard nothing of a consumer's purchase for long.
#[tactic(auto, using(nb_packets::proofs::Places::numbers_set))]
fn quiet_at(
    each: &mut Vec<Selling>,
    i: usize,
    consumer: PartyId,
    transaction: u64,
) -> Result<Did, NoMemory>
    requires within { i < length each.old.items }
    ensures goes { IfOk result (λ did. WentAt (λ s. shop_goes s (silent s (purchase_by consumer transaction))) each.old.items each.new.items i did × DidSo did) }
    ensures numbers { map shop_number each.new.items ≡ map shop_number each.old.items }
    ensures err { OnErr result (each.new.items ≡ each.old.items) }
{
    each[i].quiet(consumer, transaction)
}

// It starts again, which leaves it as it is.
fn restart_at(each: &mut Vec<Selling>, i: usize) -> Result<(), NoMemory>
    requires within { i < length each.old.items }
    ensures { each.new.items ≡ each.old.items }
{
    each[i].restart()
}

impl Sellers {
    /// None yet.
    pub fn new(alloc: Global) -> Sellers
        ensures { result ≡ [] }
    {
        Sellers {
            numbers: Numbers::new(alloc),
            each: Vec::new(alloc),
        }
    }

    /// The place of the one with this number.
    #[tactic(auto, using(nb_packets::proofs::Places::position_number))]
    pub fn find(&self, id: PartyId) -> Option<usize>
        ensures found { result ≡ position (λ s. s.stall.id.0 == id.0) self.now }
        ensures within { IfSome result (λ i. i < length self.now) }
    {
        self.numbers.place_of(id.0 as u64)
    }

    /// One more, whose number is new. Answers [`NoMemory`] where there is none, and nothing changed then.
    pub fn add(&mut self, alloc: Global, stall: Stall, catalogue: Catalogue) -> Result<(), NoMemory>
        requires new { position (λ s. s.stall.id.0 == stall.id.0) self.old ≡ None }
        // It stands behind the others, and has kept nothing.
        ensures added { OnOk result (self.new ≡ self.old ++ new_shop stall catalogue None ∷ []) }
        ensures err { OnErr result (self.new ≡ self.old) }
    {
        self.each.reserve(1)?;
        self.numbers.add(stall.id.0 as u64)?;
        self.each
            .push_reserved(Selling::new(alloc, stall, catalogue));
        Ok(())
    }

    /// Whether the one at a place knows a consumer's purchase of this number.
    pub fn knows(&self, i: usize, consumer: PartyId, transaction: u64) -> bool
        requires { i < length self.now }
        // It is what the merchant at that place knows.
        ensures { TestsAt (λ s. is_some (sale_in s.items (purchase_by consumer transaction))) self.now i result }
    {
        self.each[i].knows(consumer, transaction)
    }

    /// The one at a place hears what a packet brings at a moment, where that is a message. Answers [`NoMemory`] where there is none, and nothing changed then.
    pub fn hear(
        &mut self,
        i: usize,
        alloc: Global,
        packet: &Parcel,
        moment: u64,
    ) -> Result<Did, NoMemory>
        requires within { i < length self.old }
        // It goes as the rules say of that message, and the others stay; what it sent can be written.
        ensures goes { IfOk result (λ did. WentAt (λ s. shop_hears s (message_of packet.now.kind packet.now.body) moment) self.old self.new i did × DidSo did) }
        ensures err { OnErr result (self.new ≡ self.old) }
    {
        hear_at(&mut self.each, i, alloc, packet, moment)
    }

    /// It has heard nothing of a consumer's purchase for long. Answers [`NoMemory`] where there is none, and nothing changed then.
    pub fn quiet(&mut self, i: usize, consumer: PartyId, transaction: u64) -> Result<Did, NoMemory>
        requires within { i < length self.old }
        // It goes as the rules say of that silence, and the others stay; what it sent can be written.
        ensures goes { IfOk result (λ did. WentAt (λ s. shop_goes s (silent s (purchase_by consumer transaction))) self.old self.new i did × DidSo did) }
        ensures err { OnErr result (self.new ≡ self.old) }
    {
        quiet_at(&mut self.each, i, consumer, transaction)
    }

    /// It starts again, which leaves it as it is. Answers [`NoMemory`] where there is none, and nothing changed then.
    pub fn restart(&mut self, i: usize) -> Result<(), NoMemory>
        requires within { i < length self.old }
        ensures { self.new ≡ self.old }
    {
        restart_at(&mut self.each, i)
    }
}
