ghost use Rattle.std.specs.Prelude.{◌≡◌, ◌≢◌, ◌≤◌, ◌<◌, ◌^◌, ◌⊎◌, MatchResult};
ghost use Rattle.nb_book.specs.Money.{total};
ghost use Rattle.nb_journal.specs.Making.{InitFails, SparesJournal, without_fee};
ghost use Rattle.nb_play.specs.Feed.{cap_of};
ghost use Rattle.nb_play.specs.declared.frames.TheConstants.{MAX_ORDERS};
ghost use Rattle.nb_port.specs.Faults.{Rose};
ghost use Rattle.nb_commands.specs.declared.ending.TheConstants.{CLEAN, SINK_FAILED, OUT_OF_MEMORY, DISK_FAILED};
ghost use Rattle.nb_answers.specs.Drill as drills;
ghost use Rattle.nb_commands.specs.Init.{HasNoJournal, IsMade};

use crate::batch::{Batched, answer_batch};
use crate::tally::tally_of;
use nb_batch::{Answerer, Sent, send_all};
use nb_commands::{
    CLEAN, DISK_FAILED, Ending, NOT_MADE, OUT_OF_MEMORY, SINK_FAILED, SOURCE_FAILED,
};
use nb_journal::{HEAD, InitFault, init};
use nb_play::{DrillClock, DrillSource, NullSink, drill_head, entry_count};
use nb_port::{Disk, Sink};
use nb_turns::Line;
use nb_units::NoMemory;
use std::alloc::Global;

/// Makes a journal on the disk, without fees and with room for the entries of so many orders, at most [`MAX_ORDERS`](nb_play::MAX_ORDERS), answers the frames that the seed gives over it, and sends one
/// line of what came of them. The disk is handed back. Where it has a journal none is made, and the status is 9; it is 7 where the disk failed as a journal
/// was looked for, made or opened, 8 where the disk then gives none, with the place of the damage as a batch shows it, 6 where memory was wanting, and 4 where
/// the line was not sent whole. Elsewhere the place is 0.
pub fn drill<K: Sink, D: Disk>(
    alloc: Global,
    seed: u64,
    orders: u32,
    sink: &mut K,
    disk: D,
) -> (Ending, D)
    requires { orders ≤ MAX_ORDERS }
    // No journal was made; or one was made and not opened; or its frames were answered. Then, unless memory was wanting, all were, each at the one moment, and the
    // line is that of the last list, or a part of it where the sink failed, where the disk tells its content.
    ensures drill { drills.DrillIs D.tells disk result.1 (K.sent sink.old) (K.sent sink.new) seed orders result.0 }
    // Nothing is written over a journal that is there.
    ensures spares { SparesJournal D.tells disk result.1 }
    // No count of faults falls.
    ensures counts { (K.faults sink.old ≤ K.faults sink.new) × (D.tells.faults disk ≤ D.tells.faults result.1) }
    // A fault is answered only where the count of that object rose.
    ensures sink { result.0.status ≡ SINK_FAILED → Rose (K.faults sink.old) (K.faults sink.new) }
    // Of the disk.
    ensures fault { result.0.status ≡ DISK_FAILED → Rose (D.tells.faults disk) (D.tells.faults result.1) }
    // After any status but 0 and 4 the sink is as before.
    ensures closed { (result.0.status ≢ CLEAN) → (result.0.status ≢ SINK_FAILED) → sink.new ≡ sink.old }
    // Where there is no journal and nothing fails the line is sent, unless memory is wanting.
    ensures complete { HasNoJournal (D.tells.content disk) → (Rose (K.faults sink.old) (K.faults sink.new) → ⊥) → (Rose (D.tells.faults disk) (D.tells.faults result.1) → ⊥)
        → (result.0.status ≡ CLEAN) ⊎ (result.0.status ≡ OUT_OF_MEMORY) }
{
    let mut disk = disk;
    match make(&mut disk, &drill_head(seed), orders) {
        Ok(()) => answer(alloc, seed, orders, sink, disk),
        Err(fault) => (unmade(fault), disk),
    }
}

// Makes a journal for so many orders with this head, without entries.
fn make<D: Disk>(disk: &mut D, head: &[u8; HEAD], orders: u32) -> Result<(), InitFault>
    requires { orders ≤ MAX_ORDERS }
    ensures made { MatchResult result (λ done. IsMade D.tells disk.old disk.new (without_fee head.now) (cap_of orders)) (λ fault. InitFails D.tells disk.old disk.new (cap_of orders) (without_fee head.now) fault) }
    ensures spares { SparesJournal D.tells disk.old disk.new }
    ensures count { D.tells.faults disk.old ≤ D.tells.faults disk.new }
{
    match init(disk, head, entry_count(orders)) {
        Ok(()) => Ok(()),
        Err(fault) => Err(fault),
    }
}

// How a run ends where no journal was made.
fn unmade(fault: InitFault) -> Ending
    ensures { result ≡ drills.unmade fault }
{
    match fault {
        InitFault::DiskFault { .. } | InitFault::LookFailed { .. } => Ending::at_no_place(
            DISK_FAILED,
        ),
        InitFault::BadCap { .. } | InitFault::BadRate { .. } | InitFault::Exists { .. } => {
            Ending::at_no_place(NOT_MADE)
        }
    }
}

// Answers the frames of a drill over the journal that was made, and tells what came of it.
fn answer<K: Sink, D: Disk>(
    alloc: Global,
    seed: u64,
    orders: u32,
    sink: &mut K,
    disk: D,
) -> (Ending, D)
    requires { orders ≤ MAX_ORDERS }
    ensures answered { drills.Answers D.tells disk result.1 (K.sent sink.old) (K.sent sink.new) seed orders result.0 }
    ensures counts { (K.faults sink.old ≤ K.faults sink.new) × (D.tells.faults disk ≤ D.tells.faults result.1) }
    ensures sink { result.0.status ≡ SINK_FAILED → Rose (K.faults sink.old) (K.faults sink.new) }
    ensures fault { result.0.status ≡ DISK_FAILED → Rose (D.tells.faults disk) (D.tells.faults result.1) }
    ensures closed { (result.0.status ≢ CLEAN) → (result.0.status ≢ SINK_FAILED) → sink.new ≡ sink.old }
    ensures complete { drills.IsFresh (D.tells.content disk) seed orders → (Rose (K.faults sink.old) (K.faults sink.new) → ⊥) → (Rose (D.tells.faults disk) (D.tells.faults result.1) → ⊥)
        → (result.0.status ≡ CLEAN) ⊎ (result.0.status ≡ OUT_OF_MEMORY) }
{
    let mut source = DrillSource::new(alloc, seed, orders);
    let mut clock = DrillClock::new();
    let Batched {
        ending,
        disk,
        lines,
    } = answer_batch(
        alloc,
        Answerer::House,
        &mut source,
        &mut NullSink,
        disk,
        &mut clock,
    );
    if ending.status == CLEAN && clock.tells() {
        return (tell(alloc, orders, lines.as_slice(), sink), disk);
    }
    // a frame was wanting, or the clock's count of moments was at its end
    if ending.status == CLEAN || ending.status == SOURCE_FAILED {
        return (Ending::at_no_place(OUT_OF_MEMORY), disk);
    }
    (ending, disk)
}

// Tells in one line what the entries come to that these lines record.
fn tell<K: Sink>(alloc: Global, orders: u32, lines: &[Line], sink: &mut K) -> Ending
    requires { total (drills.recorded lines.now) < 2 ^ 64 }
    ensures line { drills.TellsLine (K.sent sink.old) (K.sent sink.new) (drills.line_with orders (drills.tally (drills.recorded lines.now))) result }
    ensures count { K.faults sink.old ≤ K.faults sink.new }
    ensures fault { result.status ≡ SINK_FAILED → Rose (K.faults sink.old) (K.faults sink.new) }
    ensures ends { (result.status ≡ CLEAN) ⊎ (result.status ≡ SINK_FAILED) ⊎ (result.status ≡ OUT_OF_MEMORY) }
    ensures closed { (result.status ≢ CLEAN) → (result.status ≢ SINK_FAILED) → sink.new ≡ sink.old }
{
    let Ok(line) = tally_of(lines).line(alloc, orders) else {
        return Ending::at_no_place(OUT_OF_MEMORY);
    };
    match send_all(sink, line.as_bytes()) {
        Sent::All => Ending::at_no_place(CLEAN),
        Sent::Failed => Ending::at_no_place(SINK_FAILED),
    }
}
