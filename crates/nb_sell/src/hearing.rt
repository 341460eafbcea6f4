ghost use Rattle.std.specs.Prelude.{◌≡◌, ◌≤◌, ◌<◌, Some, length, IfOk};
ghost use Rattle.nb_journal.specs.Growing.{IsAtRest};
ghost use Rattle.nb_journal.specs.declared.limits.TheConstants.{MAX_ITEM};
ghost use Rattle.nb_frame.specs.declared.stream.TheConstants.{MAX_PIECE};
ghost use Rattle.nb_units.specs.declared.frames.TheConstants.{LAST_KIND};
ghost use Rattle.nb_sell.specs.declared.ended.TheConstants.{MOST_FRAMES};
ghost use Rattle.nb_sell.specs.declared.peer.Peer.TheVariants.{House, Consumer};
ghost use Rattle.nb_sell.specs.Run.{frame_asker, heard_row, told_row};
ghost use Rattle.nb_sell.specs.Steps.{Answers, IsForNoHouse, IsLawful, IsNear, IsNearAt, IsNext, Listens, at, done_awaits, lines_of, of_heard};

use crate::acting::act;
use crate::peer::{Next, Over, Peer};
use crate::sides::Sides;
use nb_journal::Journal;
use nb_link::Link;
use nb_merchant::Merchant;
use nb_msgs::{BodyFault, Reason, Step, read_body};
use nb_port::{Clock, Disk};
use nb_trade::Lost;
use nb_units::{NoMemory, PartyId};
use nb_wire::Fetched;
use std::alloc::Global;

// Hears the next frame of the consumer's link, at the moment that the clock gives then, and does what the merchant does at it.
pub fn hear<D: Disk, L: Link, M: Link, C: Clock>(
    alloc: Global,
    journal: &mut Journal<D>,
    merchant: &mut Merchant,
    link: &mut L,
    server: &mut M,
    clock: &mut C,
    sides: &mut Sides,
    piece: &mut [u8],
) -> Result<Next, Lost>
    requires rest { IsAtRest D.tells journal.old }
    requires room { journal.old.room ≡ MAX_ITEM }
    requires piece { length piece.old ≡ MAX_PIECE }
    requires near { IsNear Consumer sides.old }
    requires few { sides.old.read < MOST_FRAMES }
    ensures listens { Listens D.tells (at journal.old merchant.old (lines_of (M.seen server.old) (L.seen link.old) sides.old) (C.moments clock.old) sides.old.last (Some Consumer)) (at journal.new merchant.new (lines_of (M.seen server.new) (L.seen link.new) sides.new) (C.moments clock.new) sides.new.last (done_awaits result)) Consumer sides.old.read sides.new.read result }
    ensures near { IfOk result (λ next. IsNearAt next sides.new) }
    ensures turn { IfOk result (IsNext Consumer) }
{
    let f = match sides.consumer.fetch(link, piece) {
        Fetched::Frame(f) => f,
        Fetched::End(end) => return Ok(Next::Over(Over::NoFrame(Peer::Consumer, end))),
    };
    sides.read += 1;
    let moment = clock.now();
    match heard(alloc, merchant, f.kind, sides.consumer.body(&f), moment) {
        Ok(heard) => {
            let Stepped { asker, step } = heard;
            sides.last = asker;
            let done = act(alloc, journal, link, server, sides, &step);
            drop(step);
            done
        }
        Err(_) => Err(Lost::NoMemory),
    }
}

// Hears the next frame of the house's link, and does what the merchant does at it.
pub fn be_told<D: Disk, L: Link, M: Link, C: Clock>(
    alloc: Global,
    journal: &mut Journal<D>,
    merchant: &mut Merchant,
    link: &mut L,
    server: &mut M,
    _clock: &C,
    sides: &mut Sides,
    piece: &mut [u8],
) -> Result<Next, Lost>
    requires rest { IsAtRest D.tells journal.old }
    requires room { journal.old.room ≡ MAX_ITEM }
    requires piece { length piece.old ≡ MAX_PIECE }
    requires near { IsNear House sides.old }
    // The clock gives nothing.
    ensures listens { Listens D.tells (at journal.old merchant.old (lines_of (M.seen server.old) (L.seen link.old) sides.old) (C.moments _clock.now) sides.old.last (Some House)) (at journal.new merchant.new (lines_of (M.seen server.new) (L.seen link.new) sides.new) (C.moments _clock.now) sides.new.last (done_awaits result)) House sides.old.read sides.new.read result }
    ensures near { IfOk result (λ next. IsNearAt next sides.new) }
    ensures turn { IfOk result (IsNext House) }
{
    let f = match sides.house.fetch(server, piece) {
        Fetched::Frame(f) => f,
        Fetched::End(end) => return Ok(Next::Over(Over::NoFrame(Peer::House, end))),
    };
    match told(alloc, merchant, f.kind, sides.house.body(&f)) {
        Ok(step) => {
            let done = act(alloc, journal, link, server, sides, &step);
            drop(step);
            done
        }
        Err(_) => Err(Lost::NoMemory),
    }
}

// What the merchant does at a consumer's frame, and whose message that is.
#[derive(Drop)]
pub struct Stepped {
    pub asker: Option<PartyId>,
    pub step: Step,
}

// What the merchant does at a frame of the consumer's link. One whose body spells no message is ignored.
#[tactic(auto, unfolding(crate::specs::Run::heard_row, crate::specs::Run::frame_asker))]
fn heard(
    alloc: Global,
    merchant: &mut Merchant,
    kind: u8,
    body: &[u8],
    moment: u64,
) -> Result<Stepped, NoMemory>
    requires least { 1 ≤ kind }
    requires most { kind ≤ LAST_KIND }
    ensures answers { Answers merchant.old merchant.new (heard_row merchant.old (record { kind = kind; body = body.now }) moment) (of_heard result) }
    ensures asker { IfOk result (λ heard. heard.asker ≡ frame_asker merchant.old (record { kind = kind; body = body.now }) moment) }
    ensures lawful { IfOk result (λ heard. IsLawful heard.step) }
{
    match read_body(alloc, kind, body) {
        Ok(message) => {
            let asker = merchant.asker(&message, moment);
            let step = merchant.on_consumer(&message, moment);
            drop(message);
            match step {
                Ok(step) => Ok(Stepped { asker, step }),
                Err(none) => Err(none),
            }
        }
        Err(BodyFault::Malformed { .. }) => Ok(Stepped {
            asker: None,
            step: Step::Ignored(Reason::Kind),
        }),
        Err(BodyFault::NoMemory) => Err(NoMemory),
    }
}

// What the merchant does at a frame of the house's link. One whose body spells no message is ignored.
#[tactic(auto, unfolding(crate::specs::Run::told_row))]
fn told(alloc: Global, merchant: &mut Merchant, kind: u8, body: &[u8]) -> Result<Step, NoMemory>
    requires least { 1 ≤ kind }
    requires most { kind ≤ LAST_KIND }
    ensures answers { Answers merchant.old merchant.new (told_row merchant.old (record { kind = kind; body = body.now })) result }
    ensures lawful { IfOk result IsLawful }
    ensures whom { IfOk result IsForNoHouse }
{
    match read_body(alloc, kind, body) {
        Ok(message) => {
            let step = merchant.on_server(&message);
            drop(message);
            step
        }
        Err(BodyFault::Malformed { .. }) => Ok(Step::Ignored(Reason::Kind)),
        Err(BodyFault::NoMemory) => Err(NoMemory),
    }
}
