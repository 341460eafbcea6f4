ghost use Rattle.std.specs.Prelude.{◌≡◌, ◌≢◌, ◌<◌, ◌≤◌, ◌+◌, ◌^◌, length, IfOk};
ghost use Rattle.nb_frame.specs.declared.stream.TheConstants.{MAX_PIECE};
ghost use Rattle.nb_turn.specs.Passes.{sees};
ghost use Rattle.nb_desk.specs.Desks.{IsAt};
ghost use Rattle.nb_frame.specs.State.{waiting};
ghost use Rattle.nb_session.specs.Session.{Session, IsTold, around};
ghost use Rattle.nb_session.specs.Steps.{EndsAt, HasRoom, IsBegun, TurnIs, point};
ghost use Rattle.nb_session.specs.declared.ended.TheConstants.{MOST_FRAMES};
ghost use Rattle.nb_session.specs.declared.ended.SessionEnd.TheVariants as ends;

use crate::answering::answer;
use crate::ended::{MOST_FRAMES, Record, SessionEnd};
use crate::gathering::{Gathered, gather};
use crate::outside::Outside;
use crate::sending::send_replies;
use nb_desk::{Desk, Pass};
use nb_frame::{Frames, MAX_PIECE};
use nb_link::{Gate, Link, Point};
use nb_msgs::REPLY_ROOM;
use nb_port::{Clock, Disk};
use nb_turns::{MAX_REQUESTS, Mark};
use nb_units::NoMemory;
use nb_vault::AskAt;
use nb_wire::{ReadOn, Sent, read_on};
use std::alloc::Global;
use std::sync::Wait;

// All memory of a session: the reader of frames; the requests of a turn, what is made of it outside, their places and the replies; the
// moments and marks so far.
#[derive(Drop)]
struct Work {
    frames: Frames,
    asks: Vec<AskAt>,
    outside: Outside,
    ats: Vec<u64>,
    out: Vec<u8>,
    moments: Vec<u64>,
    marks: Vec<Mark>,
}

impl Work {
    fn new(alloc: Global) -> Result<Work, NoMemory>
        ensures { IfOk result (λ work. IsBegun work) }
    {
        Ok(Work {
            frames: Frames::new(alloc)?,
            asks: Vec::with_capacity(alloc, MAX_REQUESTS)?,
            outside: Outside::new(alloc)?,
            ats: Vec::with_capacity(alloc, MAX_REQUESTS)?,
            out: Vec::with_capacity(alloc, MAX_REQUESTS * REPLY_ROOM)?,
            moments: Vec::with_capacity(alloc, MOST_FRAMES)?,
            marks: Vec::with_capacity(alloc, MOST_FRAMES)?,
        })
    }
}

/// Answers the frames of a link in the name of a pass, as session number `number` of worker number `worker`, and tells how it went.
/// All memory is taken at its start; where there is none nothing is done. Each frame that is answered asks the clock once. What was read
/// is answered before more is read.
///
/// No clause speaks of the gate, nor of how the replies are cut into writes. That the replies of a turn are sent only once what they tell stands in
/// the vault that the pass gave back is the condition of the one call that sends them. Tests show that each turn passes
/// [`Point::BeforeTurn`], is taken at the desk, has its replies sent, each by writes of its own, and passes [`Point::AfterReply`], also
/// where a write failed, before more is read; and that no call of the link is tried again where it failed.
pub fn session<R: Wait, D: Disk + Drop, L: Link, C: Clock, G: Gate>(
    rt: &R,
    alloc: Global,
    desk: &Desk<D>,
    pass: Pass<D>,
    link: &mut L,
    clock: &mut C,
    gate: &G,
    worker: u32,
    number: u32,
) -> (Pass<D>, Record)
    requires desk { IsAt pass desk.now }
    ensures desk { IsAt result.0 desk.now }
    ensures pass { result.0.number ≡ pass.number }
    ensures told { IsTold D.tells pass.number number (around (sees pass) (L.seen link.old) (C.moments clock.old)) (around (sees result.0) (L.seen link.new) (C.moments clock.new)) result.1 }
    // Where there was no memory the link and the clock are as before, and so is what the pass knows.
    ensures starved { result.1.end ≡ ends.NoMemory → (link.new ≡ link.old) × (clock.new ≡ clock.old) × (sees result.0 ≡ sees pass) }
{
    let seen_before = pass.seen();
    let Ok(mut work) = Work::new(alloc) else {
        let record = Record {
            number,
            seen_before,
            seen_after: seen_before,
            moments: Vec::new(alloc),
            marks: Vec::new(alloc),
            end: SessionEnd::NoMemory,
        };
        return (pass, record);
    };
    let (pass, end) = serve(rt, desk, pass, &mut work, link, clock, gate, worker, number);
    let seen_after = pass.seen();
    let Work { moments, marks, .. } = work;
    let record = Record {
        number,
        seen_before,
        seen_after,
        moments,
        marks,
        end,
    };
    (pass, record)
}

// Has the frames that were read answered, turn by turn, and reads on where no whole one is left, up to the end.
fn serve<R: Wait, D: Disk + Drop, L: Link, C: Clock, G: Gate>(
    rt: &R,
    desk: &Desk<D>,
    pass: Pass<D>,
    work: &mut Work,
    link: &mut L,
    clock: &mut C,
    gate: &G,
    worker: u32,
    number: u32,
) -> (Pass<D>, SessionEnd)
    requires desk { IsAt pass desk.now }
    requires begun { IsBegun work.old }
    ensures desk { IsAt result.0 desk.now }
    ensures pass { result.0.number ≡ pass.number }
    ensures session { Session D.tells pass.number (sees pass) (sees result.0) (L.seen link.old) (L.seen link.new) (C.moments clock.old) (C.moments clock.new) work.new.moments.items work.new.marks.items result.1 }
    ensures begun { result.1 ≢ ends.NoMemory }
{
    let mut pass = pass;
    let mut piece = [0u8; MAX_PIECE];
    'serving: loop {
        let (next, gathered, sent) = turn(rt, desk, pass, work, link, clock, gate, worker, number);
        pass = next;
        match sent {
            Sent::Failed => {
                // What waits are bytes, so that it reads as frames and a rest.
                let _waiting = work.frames.bytes();
                return (pass, SessionEnd::WriteFault);
            }
            Sent::All => {}
        }
        match gathered {
            Gathered::Full => {
                if work.moments.len() < MOST_FRAMES {
                    continue 'serving;
                }
                let _waiting = work.frames.bytes();
                return (pass, SessionEnd::Spent);
            }
            Gathered::Bad(fault) => return (pass, SessionEnd::BadFrame(fault)),
            Gathered::More => {}
        }
        match read_on(link, &mut work.frames, &mut piece) {
            ReadOn::Fed => {}
            ReadOn::Ended => {
                let end = at_end(&work.frames);
                return (pass, end);
            }
            ReadOn::Failed => return (pass, SessionEnd::ReadFault),
        }
    }
}

// Gathers frames that were read, and where there are some opens what it can of them, has them answered in one turn, and sends the replies.
fn turn<R: Wait, D: Disk + Drop, L: Link, C: Clock, G: Gate>(
    rt: &R,
    desk: &Desk<D>,
    pass: Pass<D>,
    work: &mut Work,
    link: &mut L,
    clock: &mut C,
    gate: &G,
    worker: u32,
    number: u32,
) -> (Pass<D>, Gathered, Sent)
    requires desk { IsAt pass desk.now }
    requires room { HasRoom work.old }
    requires moments { length work.old.moments.items < MOST_FRAMES }
    requires marks { length work.old.marks.items ≡ length work.old.moments.items }
    ensures desk { IsAt result.0 desk.now }
    ensures pass { result.0.number ≡ pass.number }
    ensures turn { TurnIs D.tells pass.number
        (point (sees pass) (L.seen link.old) (C.moments clock.old) work.old.frames work.old.moments.items work.old.marks.items)
        (point (sees result.0) (L.seen link.new) (C.moments clock.new) work.new.frames work.new.moments.items work.new.marks.items) result.1 result.2 }
    ensures room { HasRoom work.new }
    ensures most { length work.new.moments.items ≤ MOST_FRAMES }
{
    work.asks.clear();
    work.ats.clear();
    work.out.clear();
    let most = (MOST_FRAMES - work.moments.len()).min(MAX_REQUESTS);
    let gathered = gather(
        &mut work.frames,
        clock,
        &mut work.asks,
        &mut work.moments,
        most,
    );
    if work.asks.is_empty() {
        return (pass, gathered, Sent::All);
    }
    work.outside.open_each(
        work.frames.bytes(),
        work.asks.as_slice(),
        desk.order_hasher(),
    );
    gate.at(worker, number, Point::BeforeTurn);
    let pass = answer(
        rt,
        desk,
        pass,
        work.frames.bytes(),
        work.asks.as_slice(),
        &mut work.outside,
        &mut work.ats,
        &mut work.marks,
        &mut work.out,
    );
    let sent = send_replies(&pass, link, work.out.as_slice());
    gate.at(worker, number, Point::AfterReply);
    (pass, gathered, sent)
}

// How a session ends where nothing is left of its link.
fn at_end(frames: &Frames) -> SessionEnd
    requires { frames.now.taken + length (waiting frames.now) < 2 ^ 63 }
    ensures { EndsAt frames.now result }
{
    let rest = frames.rest();
    if rest == 0 {
        return SessionEnd::Clean;
    }
    SessionEnd::Cut {
        place: frames.taken() + rest,
    }
}
