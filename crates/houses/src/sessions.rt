// One session at a desk.

ghost use Rattle.std.specs.Prelude.{IfSome};
ghost use Rattle.nb_desk.specs.Desks.{IsAt};

use crate::house::{House, MOMENT};
use crate::telling;
use crate::watch::{Passes, Passing, SeenLink, Watch};
use nb_desk::{Desk, Pass};
use nb_lines::Told;
use nb_link::MemLink;
use nb_port::{MemClock, MemDisk};
use nb_session::{Record, session};
use nb_turns::Line;
use nb_units::NoMemory;
use nb_vault::Vault;
use std::alloc::Global;
use std::mem;
use std::sync::Wait;
use std::sync::atomic::{AtomicU64, Ordering};

// Under which numbers a session is served.
const WORKER: u32 = 2;

const SESSION: u32 = 7;

/// What a session left.
#[derive(Drop)]
pub struct Left {
    pub record: Record,
    pub disk: MemDisk,
    pub lines: Vec<Line>,
    // What the gate saw before turns, and behind replies.
    pub before: Passes,
    pub behind: Passes,
}

impl House {
    /// `session STEP CALL..`: a session over a link whose peer sent what was given to it, of which one read gives at most so many bytes,
    /// and of which these calls fail.
    pub fn session<R: Wait>(
        &mut self,
        rt: &R,
        told: &mut Told,
        words: &[&str],
    ) -> Result<(), NoMemory> {
        let [step, calls @ ..] = words else {
            return told.unclear();
        };
        let fails = nb_lines::numbers(self.alloc, calls, 0)?;
        let link = self.next_link(*step, &fails)?;
        let left = left_of(rt, told, self.disk()?, link)?;
        let is_left = left.is_some();
        drop(mem::replace(&mut self.left, left));
        if is_left { told.done() } else { told.unclear() }
    }

    /// `lines`: the last lines of the last session's vault.
    pub fn lines(&self, told: &mut Told) -> Result<(), NoMemory> {
        match &self.left {
            Some(left) => {
                telling::lines(told, &left.lines);
                told.done()
            }
            None => told.unclear(),
        }
    }
}

// Serves a link at a desk over a disk, and tells what the session did.
fn left_of<R: Wait>(
    rt: &R,
    told: &mut Told,
    disk: MemDisk,
    link: MemLink,
) -> Result<Option<Left>, NoMemory> {
    let watch = Watch::new();
    let mut link = SeenLink {
        link,
        watch: &watch,
    };
    let left = serve_link(rt, told.alloc(), disk, &mut link, &watch);
    if let Ok(Some(left)) = &left {
        tell(told, &left.record, link.link.sent(), &watch);
    }
    drop(link);
    left
}

impl House {
    /// `passes`: of each point of the gate, as which passes of all points it was passed in the last session, from 0 on, and behind how many
    /// writes; of both those below 64.
    pub fn passes(&self, told: &mut Told) -> Result<(), NoMemory> {
        match &self.left {
            Some(left) => {
                all_passes(told.text("before"), left.before);
                all_passes(told.text("; behind"), left.behind);
                told.done()
            }
            None => told.unclear(),
        }
    }
}

fn all_passes(told: &mut Told, passes: Passes) {
    numbers_in(told, passes.orders);
    numbers_in(told.text(" with"), passes.writes);
    told.text(" writes");
}

// The numbers whose bits are set.
fn numbers_in(told: &mut Told, word: u64) {
    for number in 0..64u64 {
        if word >> number & 1 == 1 {
            told.show(" ", &number);
        }
    }
}

// Opens a desk over a journal.
fn desk_over(alloc: Global, disk: MemDisk) -> Option<(Desk<MemDisk>, Pass<MemDisk>)>
    ensures { IfSome result (λ r. IsAt r.1 r.0) }
{
    let vault = Vault::open(alloc, disk).ok()?;
    Desk::open(alloc, vault).ok()
}

// Serves a link at a desk over a disk.
fn serve_link<'a, R: Wait>(
    rt: &R,
    alloc: Global,
    disk: MemDisk,
    link: &mut SeenLink<'a>,
    watch: &Watch,
) -> Result<Option<Left>, NoMemory> {
    let mut clock = MemClock::new(alloc, &[MOMENT])?;
    match desk_over(alloc, disk) {
        Some((desk, pass)) => Ok(Some(serve_at(rt, alloc, desk, pass, link, &mut clock, watch))),
        None => Ok(None),
    }
}

fn serve_at<'a, R: Wait>(
    rt: &R,
    alloc: Global,
    desk: Desk<MemDisk>,
    pass: Pass<MemDisk>,
    link: &mut SeenLink<'a>,
    clock: &mut MemClock,
    watch: &Watch,
) -> Left
    requires { IsAt pass desk }
{
    let (pass, record) = session(rt, alloc, &desk, pass, link, clock, watch, WORKER, SESSION);
    let (disk, lines) = desk.close(rt, pass).into_parts();
    Left {
        record,
        disk,
        lines,
        before: watch.before_turn.passes(),
        behind: watch.after_reply.passes(),
    }
}

// What a session did, in words.
fn tell(told: &mut Told, record: &Record, sent: &[u8], watch: &Watch) {
    ended(told, record);
    telling::marks(told, &record.marks);
    told.show("\n", &count(&watch.writes))
        .bytes(" writes: ", sent)
        .text("\n");
    passed(told, watch);
}

fn ended(told: &mut Told, record: &Record) {
    let moment = record.moments.first().copied().unwrap_or(0);
    let count = record.moments.iter().filter(|one| **one == moment).count();
    telling::end(told.show("", &record.number).text(": "), record.end)
        .show(", lines ", &record.seen_before)
        .show(" to ", &record.seen_after)
        .show(", ", &count)
        .show(" at ", &moment)
        .text("\n");
}

fn count(word: &AtomicU64) -> u64 {
    word.load(Ordering::SeqCst)
}

// What the gate saw: how often each point was passed, and the last pass of each.
fn passed(told: &mut Told, watch: &Watch) {
    let turns = count(&watch.before_turns);
    let replies = count(&watch.passed).saturating_sub(turns);
    passing(told.show("", &turns).text(" before"), &watch.before_turn);
    passing(
        told.show("; ", &replies).text(" behind"),
        &watch.after_reply,
    );
}

fn passing(told: &mut Told, passing: &Passing) {
    told.show(" ", &count(&passing.worker))
        .show(" ", &count(&passing.session))
        .show(" ", &count(&passing.order))
        .show(" ", &count(&passing.writes));
}
