ghost use Rattle.std.specs.Prelude.{◌≡◌, ◌≤◌, length, IfOk};
ghost use Rattle.nb_journal.specs.Growing.{IsAtRest};
ghost use Rattle.nb_journal.specs.declared.limits.TheConstants.{MAX_ITEM};
ghost use Rattle.nb_frame.specs.declared.stream.TheConstants.{MAX_PIECE};
ghost use Rattle.nb_units.specs.declared.frames.TheConstants.{LAST_KIND};
ghost use Rattle.nb_consumer.specs.Deeds.{Answers};
ghost use Rattle.nb_consumer.specs.Goods.{IsOpen};
ghost use Rattle.nb_msgs.specs.Steps.{StepKeepsRules};
ghost use Rattle.nb_wallet.specs.declared.wallet.Start.{Start};
ghost use Rattle.nb_wallet.specs.Spelling.{StartKeepsRules};
ghost use Rattle.nb_buy.specs.declared.peer.Peer.TheVariants.{House};
ghost use Rattle.nb_buy.specs.Run.{Starts, Waits, frame_row, phase_for};
ghost use Rattle.nb_buy.specs.Bought.{point};
ghost use Rattle.nb_buy.specs.Steps.{AreItsGoods, CanRead, IsNear, Carries, Listens, SameReaders, lines_of, next_heard};
ghost use Rattle.nb_buy.specs.Run as runs;

use crate::acting::act;
use crate::ended::Lost;
use crate::peer::{Next, Over, Peer};
use crate::sides::{Sides, fetch};
use nb_consumer::Consumer;
use nb_journal::Journal;
use nb_link::Link;
use nb_msgs::{BodyFault, End, Reason, Step, read_body};
use nb_port::Disk;
use nb_units::frames::REFUSED_REPLY;
use nb_units::{Blob, NoMemory};
use nb_wallet::Start;
use nb_wire::Fetched;
use std::alloc::Global;

// What listening to a peer gives.
#[derive(Drop)]
pub struct Listened {
    // What is done next.
    pub next: Next,
    // The goods that the frame opened, where a purchase ended with it as paid.
    pub opened: Option<Blob>,
}

// Starts the purchase.
pub fn begin<D: Disk, L: Link>(
    alloc: Global,
    journal: &mut Journal<D>,
    consumer: &mut Consumer,
    start: &Start,
    server: &mut L,
    seller: &mut L,
    sides: &mut Sides,
) -> Result<Next, Lost>
    requires rest { IsAtRest D.tells journal.old }
    requires room { journal.old.room ≡ MAX_ITEM }
    requires start { StartKeepsRules start.now }
    ensures carries { Carries D.tells start.now (point journal.old consumer.old (lines_of (L.seen server.old) (L.seen seller.old) sides.old)) (point journal.new consumer.new (lines_of (L.seen server.new) (L.seen seller.new) sides.new)) House Starts result }
    ensures readers { SameReaders sides.old sides.new }
{
    match consumer.start(start) {
        Ok(step) => {
            let done = act(alloc, journal, server, seller, sides, Peer::House, &step);
            drop(step);
            done
        }
        Err(_) => Err(Lost::NoMemory),
    }
}

// Waits no more for the answer of a peer: the last message of the purchase is sent again, and of an order the house is asked.
pub fn go_on<D: Disk, L: Link>(
    alloc: Global,
    journal: &mut Journal<D>,
    consumer: &mut Consumer,
    start: &Start,
    server: &mut L,
    seller: &mut L,
    sides: &mut Sides,
    from: Peer,
) -> Result<Next, Lost>
    requires rest { IsAtRest D.tells journal.old }
    requires room { journal.old.room ≡ MAX_ITEM }
    ensures carries { Carries D.tells start.now (point journal.old consumer.old (lines_of (L.seen server.old) (L.seen seller.old) sides.old)) (point journal.new consumer.new (lines_of (L.seen server.new) (L.seen seller.new) sides.new)) from Waits result }
    ensures readers { SameReaders sides.old sides.new }
{
    match consumer.quiet(start.transaction) {
        Ok(step) => {
            let done = act(alloc, journal, server, seller, sides, from, &step);
            drop(step);
            done
        }
        Err(_) => Err(Lost::NoMemory),
    }
}

// Hears the next frame of a peer, does what the consumer does at it, and hands goods back that it opened: of this purchase, or of another of the same wallet.
pub fn listen<D: Disk, L: Link>(
    alloc: Global,
    journal: &mut Journal<D>,
    consumer: &mut Consumer,
    server: &mut L,
    seller: &mut L,
    sides: &mut Sides,
    piece: &mut [u8],
    from: Peer,
) -> Result<Listened, Lost>
    requires rest { IsAtRest D.tells journal.old }
    requires room { journal.old.room ≡ MAX_ITEM }
    requires piece { length piece.old ≡ MAX_PIECE }
    requires near { CanRead sides.old }
    // By the table, whichever purchase is asked about.
    ensures listens { (s : Start) → Listens D.tells s (point journal.old consumer.old (lines_of (L.seen server.old) (L.seen seller.old) sides.old)) (point journal.new consumer.new (lines_of (L.seen server.new) (L.seen seller.new) sides.new)) from sides.old.read sides.new.read result }
    // Where they end a purchase that was going on they are its own.
    ensures goods { (s : Start) → IsOpen (phase_for s consumer.old) → IfOk result (λ x. AreItsGoods s consumer.new x.opened) }
    ensures near { IsNear sides.new }
{
    let f = match fetch(server, seller, sides, piece, from) {
        Fetched::Frame(f) => f,
        Fetched::End(end) => {
            return Ok(Listened {
                next: Next::Over(from, Over::Ended(end)),
                opened: None,
            });
        }
    };
    match hear(alloc, consumer, f.kind, sides.body(from, &f)) {
        Ok(step) => {
            let done = act(alloc, journal, server, seller, sides, from, &step);
            let opened = opened_by(step);
            match done {
                Ok(next) => Ok(Listened {
                    next: heard(from, f.kind, next),
                    opened,
                }),
                Err(why) => Err(why),
            }
        }
        Err(_) => Err(Lost::NoMemory),
    }
}

// What the consumer does at a frame. One whose body spells no message is ignored.
#[tactic(auto, unfolding(crate::specs::Run::frame_row))]
fn hear(alloc: Global, consumer: &mut Consumer, kind: u8, body: &[u8]) -> Result<Step, NoMemory>
    requires least { 1 ≤ kind }
    requires most { kind ≤ LAST_KIND }
    ensures answers { Answers consumer.old consumer.new (frame_row consumer.old (record { kind = kind; body = body.now })) result }
    ensures lawful { IfOk result StepKeepsRules }
{
    match read_body(alloc, kind, body) {
        Ok(message) => {
            let step = consumer.on(&message);
            drop(message);
            step
        }
        Err(BodyFault::Malformed { .. }) => Ok(Step::Ignored(Reason::Kind)),
        Err(BodyFault::NoMemory) => Err(NoMemory),
    }
}

// The goods that a step opened.
fn opened_by(step: Step) -> Option<Blob>
    ensures { result ≡ runs.opened_by step }
{
    match step {
        Step::Ended { end, .. } => match end {
            End::Paid(goods) => Some(goods),
            _ => None,
        },
        _ => None,
    }
}

// What is done next behind a frame.
fn heard(from: Peer, kind: u8, next: Next) -> Next
    ensures { result ≡ next_heard from kind next }
{
    if kind == REFUSED_REPLY {
        return Next::Over(from, Over::Refused);
    }
    next
}
