ghost use Rattle.std.specs.Prelude.{◌≡◌, ◌≤◌, ◌<◌, ◌^◌, ◌-◌, ◌∷◌, ◌++◌, [], List, length, slice_get, option_map, None, Some, OnErr, IfOk};
ghost use Rattle.nb_units.specs.Charter.{MayRule};
ghost use Rattle.nb_units.specs.declared.limits.TheConstants.{MAX_CAP, MAX_MEMO};
ghost use Rattle.nb_body.specs.declared.limits.TheConstants.{MAX_REQUEST};
ghost use Rattle.nb_escrow.specs.Head.{IsRuling, head_of};
ghost use Rattle.nb_msgs.specs.declared.node.To.TheVariants as to;
ghost use Rattle.nb_world.specs.declared.call.CallPhase.TheVariants as phase;
ghost use Rattle.nb_world.specs.Steps as steps;
ghost use Rattle.nb_world.specs.World.{entry_written};
ghost use Rattle.nb_simulator.specs.Laws.{IsBehind};
ghost use Rattle.nb_simulator.specs.Setups.{Fills, IsLawful, SellersFit, Sets, world_of};
ghost use Rattle.nb_buyers.specs.Buyers.{phase_of_first, told_of, knows_of};
ghost use Rattle.nb_simulator.specs.Worlds.{Tells, SameHouse, rules_of};

use crate::setup::{Parties, Setup, SetupFault, book_of, may_start, parties_of};
use crate::verdict::verdict_on;
use nb_body::MAX_REQUEST;
use nb_book::Book;
use nb_buyers::Buyers;
use nb_consumer::Phase;
use nb_entry::Entry;
use nb_escrow::Head;
use nb_msgs::To;
use nb_packets::{
    Content, Parcel, acknowledge, addressee, asker_of, call_at, come_to, hand_out, left_by_stop,
    let_go, may_answer, send,
};
use nb_sellers::Sellers;
use nb_units::frames::{LAST_KIND, MAX_BODY};
use nb_units::{Blob, MAX_MEMO, NoMemory, PartyId};
use nb_wallet::Start;
use nb_world::{Acknowledged, Call, CallPhase, Event, Maker, Origin, Stage, Turning};
use std::alloc::Global;
use std::marker::Model;

/// What became of an event.
#[derive(Clone, Copy, PartialEq, Eq)]
pub enum Stepped {
    /// It fits; a node that it reached may have ignored it, and then nothing changed.
    Moved,
    /// It does not fit, and nothing changed.
    Unfit,
}

/// A world: consumers, merchants, a house, all packets and all calls, and a clock. It is seen as the world of `nb_world`, with the head and the cap of
/// its house.
pub struct World {
    alloc: Global,
    head: Head,
    book: Book,
    consumers: Buyers,
    merchants: Sellers,
    packets: Vec<Parcel>,
    calls: Vec<Call>,
    turn: Option<Turning>,
    origins: Vec<Origin>,
    acknowledged: Vec<Acknowledged>,
    moment: u64,
}

impl Drop for World {
    fn drop(self) {
        let Self {
            alloc: _,
            head: _,
            book: _,
            consumers: _,
            merchants: _,
            packets: _,
            calls: _,
            turn: _,
            origins: _,
            acknowledged: _,
            moment: _,
        } = self;
    }
}

impl Model for World {
    ghost use Rattle.std.specs.Prelude.{◌<◌, ◌^◌, length};
    ghost use Rattle.nb_escrow.specs.Head.{IsRuling};
    ghost use Rattle.nb_simulator.specs.Worlds.{Simulated, TurnReady};

    ghost Value = { Simulated };

    // The book serves as both lists of entries: they are one in every world.
    ghost view = { λ w. record {
      head = w.head;
      cap = w.book.cap;
      world = record {
        consumers = w.consumers;
        merchants = w.merchants;
        packets = w.packets.items;
        calls = w.calls.items;
        turn = w.turn;
        durable = w.book.entries;
        server = w.book.entries;
        origins = w.origins.items;
        acknowledged = w.acknowledged.items;
        moment = w.moment;
      };
    } };

    ghost invariant = { λ w. record {
      ruling : IsRuling w.head;
      ready : TurnReady w.head w.book.entries w.book.cap w.turn;
      packets : length w.packets.items < 2 ^ 32;
      calls : length w.calls.items < 2 ^ 32;
    } };
}

impl World {
    /// The world of a set-up, before anything happened in it, or [`SetupFault::NoMemory`] where there is none, or else [`SetupFault::Unlawful`] exactly where the set-up is not as it must be: its version is
    /// one of the two, its rate and its cap are within their limits; the entries are at most as many as the cap, and Legal under the version and the rate;
    /// each consumer and each merchant is listed once, and enrolled as it is there.
    pub fn try_new(alloc: Global, setup: Setup) -> Result<World, SetupFault>
        ensures sets { Sets setup result }
        // It is behind no event.
        ensures behind { IfOk result (IsBehind setup []) }
        // The numbers of its merchants have their widths, as laws over them premise.
        ensures fit { IfOk result (λ _. SellersFit setup.merchants.items) }
    {
        if !may_start(setup.version, setup.rate, setup.cap) {
            drop(setup);
            return Err(SetupFault::Unlawful);
        }
        let head = Head::read(&setup.head, setup.version, setup.rate);
        match book_of(alloc, &head, setup.cap, setup.entries.as_slice()) {
            Ok(Some(book)) => World::of_book(alloc, head, book, setup),
            Ok(None) => {
                drop(setup);
                Err(SetupFault::Unlawful)
            }
            Err(_) => {
                drop(setup);
                Err(SetupFault::NoMemory)
            }
        }
    }

    // The world of a set-up of which a house is made.
    fn of_book(alloc: Global, head: Head, book: Book, setup: Setup) -> Result<World, SetupFault>
        requires ruling { MayRule setup.version setup.rate }
        requires some { 1 ≤ setup.cap }
        requires most { setup.cap ≤ MAX_CAP }
        requires head { head ≡ head_of (record { head = setup.head; version = setup.version; rate = setup.rate }) }
        requires filled { Fills head setup.cap setup.entries.items (Some book) }
        ensures sets { Sets setup result }
        ensures fit { IfOk result (λ _. SellersFit setup.merchants.items) }
    {
        let Setup {
            consumers,
            merchants,
            entries,
            ..
        } = setup;
        drop(entries);
        let made = parties_of(alloc, &book, consumers.as_slice(), merchants);
        drop(consumers);
        match made {
            Ok(Some(parties)) => Ok(World::at_first(alloc, head, book, parties)),
            Ok(None) => {
                drop(book);
                Err(SetupFault::Unlawful)
            }
            Err(_) => {
                drop(book);
                Err(SetupFault::NoMemory)
            }
        }
    }

    // The world of a house and of those who buy and sell, before anything happened in it.
    fn at_first(alloc: Global, head: Head, book: Book, parties: Parties) -> World
        requires { IsRuling head }
        ensures { result ≡ record {
          head = head;
          cap = book.cap;
          world = record {
            consumers = parties.consumers;
            merchants = parties.merchants;
            packets = [];
            calls = [];
            turn = None;
            durable = book.entries;
            server = book.entries;
            origins = [];
            acknowledged = [];
            moment = 0;
          };
        } }
    {
        let Parties {
            consumers,
            merchants,
        } = parties;
        World {
            alloc,
            head,
            book,
            consumers,
            merchants,
            packets: Vec::new(alloc),
            calls: Vec::new(alloc),
            turn: None,
            origins: Vec::new(alloc),
            acknowledged: Vec::new(alloc),
            moment: 0,
        }
    }

    /// The world of a set-up that is as it must be ([`try_new`](World::try_new)).
    pub fn new(alloc: Global, setup: Setup) -> Result<World, NoMemory>
        requires { IsLawful setup }
        ensures made { IfOk result (λ w. w ≡ world_of setup) }
        ensures behind { IfOk result (IsBehind setup []) }
        ensures fit { IfOk result (λ _. SellersFit setup.merchants.items) }
    {
        match World::try_new(alloc, setup) {
            Ok(world) => Ok(world),
            Err(SetupFault::NoMemory) => Err(NoMemory),
            Err(SetupFault::Unlawful) => unreachable!(),
        }
    }

    /// Takes the world on by an event. Packets and calls go by numbers of 4 bytes: there are fewer than 4,294,967,295 of each before it.
    pub fn step(&mut self, e: &Event) -> Result<Stepped, NoMemory>
        requires packets { length self.old.world.packets < 2 ^ 32 - 1 }
        requires calls { length self.old.world.calls < 2 ^ 32 - 1 }
        // It is the world that the event leads to; or the event does not fit, and nothing changes.
        ensures world { IfOk result (λ stepped. Tells (steps.step (rules_of self.old) self.old.world e.now) self.old.world self.new.world stepped) }
        // A world that is a set-up's behind some events is then the set-up's behind these and this one, whether it fits or not: what `laws` say of it holds.
        ensures run { IfOk result (λ _. (s : Setup) (es : List Event) → IsBehind s es self.old → IsBehind s (es ++ e.now ∷ []) self.new) }
        ensures err { OnErr result (self.new ≡ self.old) }
        ensures house { SameHouse self.old self.new }
    {
        self.take_on(e)
    }

    // Takes the world on by an event.
    fn take_on(&mut self, e: &Event) -> Result<Stepped, NoMemory>
        requires packets { length self.old.world.packets < 2 ^ 32 - 1 }
        requires calls { length self.old.world.calls < 2 ^ 32 - 1 }
        ensures world { IfOk result (λ stepped. Tells (steps.step (rules_of self.old) self.old.world e.now) self.old.world self.new.world stepped) }
        ensures err { OnErr result (self.new ≡ self.old) }
        ensures house { SameHouse self.old self.new }
    {
        match e {
            Event::Buy { consumer, start } => self.buy(*consumer, start),
            Event::Deliver { packet } => self.deliver(*packet),
            Event::Turn { call } => self.turn(*call),
            Event::Write { call } => Ok(self.write(*call)),
            Event::Open { call } => self.open(*call),
            Event::Answer { call } => self.answer(*call),
            Event::QuietConsumer { consumer, tid } => self.quiet_consumer(*consumer, *tid),
            Event::QuietMerchant {
                merchant,
                consumer,
                tid,
            } => self.quiet_merchant(*merchant, *consumer, *tid),
            Event::Stop { with } => self.stop(*with),
            Event::RestartConsumer { consumer } => self.restart_consumer(*consumer),
            Event::RestartMerchant { merchant } => self.restart_merchant(*merchant),
            Event::Clock { moment } => Ok(self.set_clock(*moment)),
            Event::Inject { to, kind, body } => self.inject(*to, *kind, body),
        }
    }

    // ---- the house

    // A call takes its turn.
    #[tactic(auto, unfolding(nb_world::specs::Steps::turn_of))]
    fn turn(&mut self, number: u32) -> Result<Stepped, NoMemory>
        ensures world { IfOk result (λ stepped. Tells (steps.turn_of (rules_of self.old) self.old.world number) self.old.world self.new.world stepped) }
        ensures err { OnErr result (self.new ≡ self.old) }
        ensures house { SameHouse self.old self.new }
    {
        if self.turn.is_some() {
            return Ok(Stepped::Unfit);
        }
        let Some(call) = call_at(self.calls.as_slice(), number) else {
            return Ok(Stepped::Unfit);
        };
        if !matches!(call.phase, CallPhase::Waiting) {
            return Ok(Stepped::Unfit);
        }
        self.take_turn(number, call)
    }

    // A call that waits takes the turn, which is free.
    #[tactic(auto, unfolding(nb_world::specs::Steps::turn_of))]
    fn take_turn(&mut self, number: u32, call: Call) -> Result<Stepped, NoMemory>
        requires free { self.old.world.turn ≡ None }
        requires call { slice_get self.old.world.calls number ≡ Some call }
        requires waits { call.phase ≡ phase.Waiting }
        ensures world { IfOk result (λ stepped. Tells (steps.turn_of (rules_of self.old) self.old.world number) self.old.world self.new.world stepped) }
        ensures err { OnErr result (self.new ≡ self.old) }
        ensures house { SameHouse self.old self.new }
    {
        let Some(packet) = self.packets.get(call.packet as usize) else {
            return Ok(Stepped::Unfit);
        };
        let verdict = verdict_on(self.alloc, &self.book, &self.head, packet, call.moment)?;
        self.turn = Some(Turning {
            call: number,
            at: self.book.len(),
            verdict,
            stage: Stage::Decided,
        });
        come_to(&mut self.calls, number, CallPhase::InTurn);
        Ok(Stepped::Moved)
    }

    // The entry of a turn is written.
    #[tactic(auto, unfolding(nb_world::specs::Steps::write_of))]
    fn write(&mut self, number: u32) -> Stepped
        ensures world { Tells (steps.write_of self.old.world number) self.old.world self.new.world result }
        ensures house { SameHouse self.old self.new }
    {
        let Some(turn) = &mut self.turn else {
            return Stepped::Unfit;
        };
        if turn.call != number || !matches!(turn.stage, Stage::Decided) {
            return Stepped::Unfit;
        }
        let Some(_entry) = turn.verdict.entry else {
            return Stepped::Unfit;
        };
        turn.stage = Stage::Written;
        Stepped::Moved
    }

    // The entry of a turn is opened.
    #[tactic(auto, unfolding(nb_world::specs::Steps::open_of))]
    fn open(&mut self, number: u32) -> Result<Stepped, NoMemory>
        ensures world { IfOk result (λ stepped. Tells (steps.open_of self.old.world number) self.old.world self.new.world stepped) }
        ensures err { OnErr result (self.new ≡ self.old) }
        ensures house { SameHouse self.old self.new }
    {
        let Some(turn) = &self.turn else {
            return Ok(Stepped::Unfit);
        };
        if turn.call != number || !matches!(turn.stage, Stage::Written) {
            return Ok(Stepped::Unfit);
        }
        let Some(entry) = turn.verdict.entry else {
            return Ok(Stepped::Unfit);
        };
        self.open_entry(number, &entry)
    }

    // The entry of the turn of this call, which is written, is opened.
    #[tactic(auto, unfolding(nb_world::specs::Steps::open_of))]
    fn open_entry(&mut self, number: u32, entry: &Entry) -> Result<Stepped, NoMemory>
        requires call { option_map (λ t. t.call) self.old.world.turn ≡ Some number }
        requires written { entry_written self.old.world.turn ≡ Some entry.now }
        ensures world { IfOk result (λ stepped. Tells (steps.open_of self.old.world number) self.old.world self.new.world stepped) }
        ensures err { OnErr result (self.new ≡ self.old) }
        ensures house { SameHouse self.old self.new }
    {
        self.origins.reserve(1)?;
        let Some(turn) = &mut self.turn else {
            unreachable!()
        };
        turn.stage = Stage::Opened;
        self.origins.push_reserved(Origin {
            place: self.book.len(),
            call: number,
        });
        self.book.apply(entry);
        Ok(Stepped::Moved)
    }

    // The reply of a turn is handed out.
    #[tactic(auto, unfolding(nb_world::specs::Steps::answer_of))]
    fn answer(&mut self, number: u32) -> Result<Stepped, NoMemory>
        requires packets { length self.old.world.packets < 2 ^ 32 - 1 }
        ensures world { IfOk result (λ stepped. Tells (steps.answer_of self.old.world number) self.old.world self.new.world stepped) }
        ensures err { OnErr result (self.new ≡ self.old) }
        ensures house { SameHouse self.old self.new }
    {
        if !may_answer(&self.turn, number) {
            return Ok(Stepped::Unfit);
        }
        self.packets.reserve(1)?;
        self.acknowledged.reserve(1)?;
        let asker = asker_of(self.calls.as_slice(), self.packets.as_slice(), number);
        let Some(turn) = self.turn.take() else {
            unreachable!()
        };
        come_to(&mut self.calls, number, CallPhase::Answered);
        acknowledge(&mut self.acknowledged, &turn);
        hand_out(&mut self.packets, turn, asker);
        Ok(Stepped::Moved)
    }

    // The house stops and starts again.
    #[tactic(auto, unfolding(nb_world::specs::Steps::stop_of))]
    fn stop(&mut self, keep: bool) -> Result<Stepped, NoMemory>
        ensures world { IfOk result (λ stepped. Tells (Some (steps.stop_of self.old.world keep)) self.old.world self.new.world stepped) }
        ensures err { OnErr result (self.new ≡ self.old) }
        ensures house { SameHouse self.old self.new }
    {
        self.origins.reserve(1)?;
        if let Some((call, entry)) = left_by_stop(&self.turn, keep) {
            self.origins.push_reserved(Origin {
                place: self.book.len(),
                call,
            });
            self.book.apply(&entry);
        }
        self.turn = None;
        let_go(&mut self.calls);
        Ok(Stepped::Moved)
    }

    // ---- the network

    // The clock is set.
    fn set_clock(&mut self, moment: u64) -> Stepped
        ensures world { Tells (Some (record self.old.world { moment = moment })) self.old.world self.new.world result }
        ensures house { SameHouse self.old self.new }
    {
        self.moment = moment;
        Stepped::Moved
    }

    // Whether somebody is the house, or a party that there is.
    fn knows(&self, to: To) -> bool
        ensures { result ≡ steps.is_known (rules_of self.now) self.now.world to }
    {
        match to {
            To::Server => true,
            To::Merchant(id) => self.merchants.find(id).is_some(),
            To::Consumer(id) => self.consumers.find(id).is_some(),
        }
    }

    // Somebody puts a packet on the network.
    #[tactic(auto, unfolding(nb_world::specs::Steps::inject_of))]
    fn inject(&mut self, to: To, kind: u8, body: &Blob) -> Result<Stepped, NoMemory>
        requires packets { length self.old.world.packets < 2 ^ 32 - 1 }
        ensures world { IfOk result (λ stepped. Tells (steps.inject_of (rules_of self.old) self.old.world to kind body.now) self.old.world self.new.world stepped) }
        ensures err { OnErr result (self.new ≡ self.old) }
        ensures house { SameHouse self.old self.new }
    {
        if kind < 1 || kind > LAST_KIND || body.as_slice().len() > MAX_BODY as usize {
            return Ok(Stepped::Unfit);
        }
        if !self.knows(to) {
            return Ok(Stepped::Unfit);
        }
        self.packets.reserve(1)?;
        let body = Blob::of(self.alloc, body.as_slice())?;
        self.packets.push_reserved(Parcel {
            content: Content::Raw { kind, body },
            maker: Maker::Network,
            to,
        });
        Ok(Stepped::Moved)
    }

    // A packet reaches whom it is for.
    fn deliver(&mut self, number: u32) -> Result<Stepped, NoMemory>
        requires packets { length self.old.world.packets < 2 ^ 32 - 1 }
        requires calls { length self.old.world.calls < 2 ^ 32 - 1 }
        ensures world { IfOk result (λ stepped. Tells (steps.deliver_of (rules_of self.old) self.old.world number) self.old.world self.new.world stepped) }
        ensures err { OnErr result (self.new ≡ self.old) }
        ensures house { SameHouse self.old self.new }
    {
        match addressee(self.packets.as_slice(), number) {
            None => Ok(Stepped::Unfit),
            Some(To::Server) => self.reach_house(number),
            Some(To::Merchant(id)) => self.reach_merchant(number, id),
            Some(To::Consumer(id)) => self.reach_consumer(number, id),
        }
    }

    // A packet reaches the house: a call that waits.
    fn reach_house(&mut self, number: u32) -> Result<Stepped, NoMemory>
        requires calls { length self.old.world.calls < 2 ^ 32 - 1 }
        requires to { option_map (λ p. p.to) (slice_get self.old.world.packets number) ≡ Some to.Server }
        ensures world { IfOk result (λ stepped. Tells (steps.deliver_of (rules_of self.old) self.old.world number) self.old.world self.new.world stepped) }
        ensures err { OnErr result (self.new ≡ self.old) }
        ensures house { SameHouse self.old self.new }
    {
        self.calls.reserve(1)?;
        self.calls.push_reserved(Call {
            packet: number,
            moment: self.moment,
            phase: CallPhase::Waiting,
        });
        Ok(Stepped::Moved)
    }

    // A packet reaches a merchant.
    fn reach_merchant(&mut self, number: u32, id: PartyId) -> Result<Stepped, NoMemory>
        requires packets { length self.old.world.packets < 2 ^ 32 - 1 }
        requires within { number < length self.old.world.packets }
        requires to { option_map (λ p. p.to) (slice_get self.old.world.packets number) ≡ Some (to.Merchant id) }
        ensures world { IfOk result (λ stepped. Tells (steps.deliver_of (rules_of self.old) self.old.world number) self.old.world self.new.world stepped) }
        ensures err { OnErr result (self.new ≡ self.old) }
        ensures house { SameHouse self.old self.new }
    {
        let i = match self.merchants.find(id) {
            Some(i) => i,
            None => return Ok(Stepped::Unfit),
        };
        self.packets.reserve(1)?;
        let packet = &self.packets[number as usize];
        let did = self.merchants.hear(i, self.alloc, packet, self.moment)?;
        send(&mut self.packets, Maker::Merchant(id), did);
        Ok(Stepped::Moved)
    }

    // A packet reaches a consumer.
    fn reach_consumer(&mut self, number: u32, id: PartyId) -> Result<Stepped, NoMemory>
        requires packets { length self.old.world.packets < 2 ^ 32 - 1 }
        requires within { number < length self.old.world.packets }
        requires to { option_map (λ p. p.to) (slice_get self.old.world.packets number) ≡ Some (to.Consumer id) }
        ensures world { IfOk result (λ stepped. Tells (steps.deliver_of (rules_of self.old) self.old.world number) self.old.world self.new.world stepped) }
        ensures err { OnErr result (self.new ≡ self.old) }
        ensures house { SameHouse self.old self.new }
    {
        let i = match self.consumers.find(id) {
            Some(i) => i,
            None => return Ok(Stepped::Unfit),
        };
        self.packets.reserve(1)?;
        let packet = &self.packets[number as usize];
        let did = self.consumers.hear(i, self.alloc, packet)?;
        send(&mut self.packets, Maker::Consumer(id), did);
        Ok(Stepped::Moved)
    }

    // ---- nodes

    // A consumer starts a purchase.
    fn buy(&mut self, id: PartyId, start: &Start) -> Result<Stepped, NoMemory>
        requires packets { length self.old.world.packets < 2 ^ 32 - 1 }
        ensures world { IfOk result (λ stepped. Tells (steps.buy_of (rules_of self.old) self.old.world id start.now) self.old.world self.new.world stepped) }
        ensures err { OnErr result (self.new ≡ self.old) }
        ensures house { SameHouse self.old self.new }
    {
        let i = match self.consumers.find(id) {
            Some(i) => i,
            None => return Ok(Stepped::Unfit),
        };
        if start.request.as_slice().len() > MAX_REQUEST {
            return Ok(Stepped::Unfit);
        }
        if start.memo.as_slice().len() > MAX_MEMO {
            return Ok(Stepped::Unfit);
        }
        self.start_purchase(i, id, start)
    }

    // The consumer at a place starts a purchase whose request and memo are short enough.
    fn start_purchase(&mut self, i: usize, id: PartyId, start: &Start) -> Result<Stepped, NoMemory>
        requires packets { length self.old.world.packets < 2 ^ 32 - 1 }
        requires within { i < length self.old.world.consumers }
        requires place { steps.consumer_at (rules_of self.old) self.old.world id ≡ Some i }
        requires request { length start.now.request ≤ MAX_REQUEST }
        requires memo { length start.now.memo ≤ MAX_MEMO }
        ensures world { IfOk result (λ stepped. Tells (steps.buy_of (rules_of self.old) self.old.world id start.now) self.old.world self.new.world stepped) }
        ensures err { OnErr result (self.new ≡ self.old) }
        ensures house { SameHouse self.old self.new }
    {
        self.packets.reserve(1)?;
        let did = self.consumers.start(i, start)?;
        if did.is_nothing() {
            drop(did);
            return Ok(Stepped::Unfit);
        }
        send(&mut self.packets, Maker::Consumer(id), did);
        Ok(Stepped::Moved)
    }

    // A consumer has heard nothing of a purchase for long.
    fn quiet_consumer(&mut self, id: PartyId, transaction: u64) -> Result<Stepped, NoMemory>
        requires packets { length self.old.world.packets < 2 ^ 32 - 1 }
        ensures world { IfOk result (λ stepped. Tells (steps.quiet_consumer_of (rules_of self.old) self.old.world id transaction) self.old.world self.new.world stepped) }
        ensures err { OnErr result (self.new ≡ self.old) }
        ensures house { SameHouse self.old self.new }
    {
        let i = match self.consumers.find(id) {
            Some(i) => i,
            None => return Ok(Stepped::Unfit),
        };
        if !self.consumers.knows(i, transaction) {
            return Ok(Stepped::Unfit);
        }
        self.packets.reserve(1)?;
        let did = self.consumers.quiet(i, transaction)?;
        send(&mut self.packets, Maker::Consumer(id), did);
        Ok(Stepped::Moved)
    }

    // A merchant has heard nothing of a consumer's purchase for long.
    fn quiet_merchant(
        &mut self,
        id: PartyId,
        consumer: PartyId,
        transaction: u64,
    ) -> Result<Stepped, NoMemory>
        requires packets { length self.old.world.packets < 2 ^ 32 - 1 }
        ensures world { IfOk result (λ stepped. Tells (steps.quiet_merchant_of (rules_of self.old) self.old.world id consumer transaction) self.old.world self.new.world stepped) }
        ensures err { OnErr result (self.new ≡ self.old) }
        ensures house { SameHouse self.old self.new }
    {
        let i = match self.merchants.find(id) {
            Some(i) => i,
            None => return Ok(Stepped::Unfit),
        };
        if !self.merchants.knows(i, consumer, transaction) {
            return Ok(Stepped::Unfit);
        }
        self.packets.reserve(1)?;
        let did = self.merchants.quiet(i, consumer, transaction)?;
        send(&mut self.packets, Maker::Merchant(id), did);
        Ok(Stepped::Moved)
    }

    // A consumer starts again, with what it kept.
    fn restart_consumer(&mut self, id: PartyId) -> Result<Stepped, NoMemory>
        ensures world { IfOk result (λ stepped. Tells (steps.restart_consumer_of (rules_of self.old) self.old.world id) self.old.world self.new.world stepped) }
        ensures err { OnErr result (self.new ≡ self.old) }
        ensures house { SameHouse self.old self.new }
    {
        let i = match self.consumers.find(id) {
            Some(i) => i,
            None => return Ok(Stepped::Unfit),
        };
        self.consumers.restart(i, self.alloc)?;
        Ok(Stepped::Moved)
    }

    // A merchant starts again, with what it kept.
    fn restart_merchant(&mut self, id: PartyId) -> Result<Stepped, NoMemory>
        ensures world { IfOk result (λ stepped. Tells (steps.restart_merchant_of (rules_of self.old) self.old.world id) self.old.world self.new.world stepped) }
        ensures err { OnErr result (self.new ≡ self.old) }
        ensures house { SameHouse self.old self.new }
    {
        let i = match self.merchants.find(id) {
            Some(i) => i,
            None => return Ok(Stepped::Unfit),
        };
        self.merchants.restart(i)?;
        Ok(Stepped::Moved)
    }

    /// How many packets were made so far, 4 bytes wide.
    pub fn packets(&self) -> u32
        ensures { result ≡ length self.now.world.packets }
    {
        self.packets.len() as u32
    }

    /// How many calls were made so far, 4 bytes wide.
    pub fn calls(&self) -> u32
        ensures { result ≡ length self.now.world.calls }
    {
        self.calls.len() as u32
    }

    /// The book of the durable entries.
    pub fn list(&self) -> &Book
        ensures entries { result.now.entries ≡ self.now.world.durable }
        ensures cap { result.now.cap ≡ self.now.cap }
    {
        &self.book
    }

    /// How many consumers there are.
    pub fn consumers(&self) -> usize
        ensures { result ≡ length self.now.world.consumers }
    {
        self.consumers.len()
    }

    /// The number of the consumer at a place, counted from 0 in the order of the set-up, and those of its purchases, in the order in which they were
    /// started; or `None` where there are not so many consumers.
    pub fn consumer(&self, i: usize) -> Option<(PartyId, &[u64])>
        ensures { told_of result ≡ option_map knows_of (slice_get self.now.world.consumers i) }
    {
        self.consumers.purchases(i)
    }

    /// How far a purchase of a consumer has come, or `None` where the consumer is not known, or knows no such purchase.
    pub fn phase(&self, consumer: PartyId, tid: u64) -> Option<Phase>
        ensures { result ≡ phase_of_first self.now.world.consumers consumer tid }
    {
        self.consumers.phase(consumer, tid)
    }
}
