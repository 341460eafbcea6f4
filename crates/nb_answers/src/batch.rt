ghost use Rattle.std.specs.Prelude.{◌≡◌, ◌≢◌, ◌≤◌};
ghost use Rattle.nb_port.specs.Faults.{Rose};
ghost use Rattle.nb_journal.specs.Time.{Unwritten};
ghost use Rattle.nb_commands.specs.declared.ending.TheConstants.{SOURCE_FAILED, SINK_FAILED, DISK_FAILED, NO_JOURNAL};
ghost use Rattle.nb_commands.specs.Opening.{IsJournal};
ghost use Rattle.nb_answers.specs.Batch as batches;
ghost use Rattle.nb_answers.specs.Ending.{EndsEarly};
ghost use Rattle.nb_answers.specs.Ending as endings;

use nb_batch::{Answerer, BatchEnd, answer_frames};
use nb_commands::{
    BAD_INPUT, CLEAN, Ending, FRAME_LIMIT, OUT_OF_MEMORY, SINK_FAILED, SOURCE_FAILED,
};
use nb_port::{Clock, Disk, Sink, Source};
use nb_turns::Line;
use nb_vault::Vault;
use std::alloc::Global;

/// What came of a batch.
pub struct Batched<D> {
    /// How it ends the program.
    pub ending: Ending,
    /// The disk that was handed in.
    pub disk: D,
    /// What was done in it, in order. The entries that they record, behind those at the opening, are those at its end; what they tell of doubts and of faults
    /// no clause ties to the disk. Where the journal was not opened there are none.
    pub lines: Vec<Line>,
}

/// Opens the house on the disk, or the standby, and answers the frames of the source in order, each by one reply to the sink: a house at one moment of the
/// clock each, and a standby, which asks no clock, by an acknowledgement. The disk is handed back. At most [`MOST_FRAMES`](nb_batch::MOST_FRAMES) frames are
/// answered. The status is 0 where the input ended at a frame's end, or had no byte, 3 or 4 where the source or the sink failed, 5 where the input holds what is
/// no whole frame, 6 where there was no memory, 7 where the disk failed as it was opened, 8 where it gives no journal, and 11 where so many frames were answered. After 6, 7
/// and 8 nothing was read or sent. After 5 the place is one of the input: how many
/// bytes were read where its last frame is cut, and where the first fault stands where no frame begins so. After 8 it is that of the damage in the journal, or
/// 0, and elsewhere 0.
pub fn answer_batch<S: Source, K: Sink, D: Disk, C: Clock>(
    alloc: Global,
    by: Answerer,
    source: &mut S,
    sink: &mut K,
    disk: D,
    clock: &mut C,
) -> Batched<D>
    // The journal was not opened, or these frames were answered and those replies sent, with what a stop at any moment leaves of the disk; and the lines
    // record what was recorded behind the opening.
    ensures batch { batches.BatchLines D.tells by disk result.disk
        (record { left = S.left source.old; sent = K.sent sink.old; moments = C.moments clock.old })
        (record { left = S.left source.new; sent = K.sent sink.new; moments = C.moments clock.new }) result.lines.items result.ending }
    // No count of faults falls.
    ensures counts { (S.faults source.old ≤ S.faults source.new) × (K.faults sink.old ≤ K.faults sink.new) × (D.tells.faults disk ≤ D.tells.faults result.disk) }
    // A fault is answered only where the count of that object rose.
    ensures source { result.ending.status ≡ SOURCE_FAILED → Rose (S.faults source.old) (S.faults source.new) }
    // Of the sink.
    ensures sink { result.ending.status ≡ SINK_FAILED → Rose (K.faults sink.old) (K.faults sink.new) }
    // Of the disk.
    ensures fault { result.ending.status ≡ DISK_FAILED → Rose (D.tells.faults disk) (D.tells.faults result.disk) }
    // Where it ends before a frame was taken, for want of memory or of a journal, or as the disk failed, source, sink and clock are as before.
    ensures closed { EndsEarly result.ending → (source.new ≡ source.old) × (sink.new ≡ sink.old) × (clock.new ≡ clock.old) }
    // And nothing is written to the disk.
    ensures unwritten { EndsEarly result.ending → Unwritten D.tells disk result.disk }
    // Whole frames alone, fewer than are answered at most, are no bad input, and do not reach the limit, where the sink's count does not rise.
    ensures whole { batches.IsWholeInput (S.left source.old) → (Rose (K.faults sink.old) (K.faults sink.new) → ⊥) → batches.EndsWhole result.ending }
    // A journal is opened, unless the disk fails or memory is wanting.
    ensures opens { IsJournal (D.tells.content disk) → (Rose (D.tells.faults disk) (D.tells.faults result.disk) → ⊥)
        → (result.ending.status ≢ NO_JOURNAL) × (result.ending.status ≢ DISK_FAILED) }
{
    let mut house = match Vault::open(alloc, disk) {
        Ok(house) => house,
        Err((fault, disk)) => {
            return Batched {
                ending: Ending::unopened(fault),
                disk,
                lines: Vec::new(alloc),
            };
        }
    };
    let end = answer_frames(alloc, by, &mut house, source, sink, clock);
    // What the disk is at rest in is what every vault keeps.
    house.witness();
    let (disk, lines) = house.into_parts();
    Batched {
        ending: ended(end),
        disk,
        lines,
    }
}

// How a batch ends the program.
fn ended(end: BatchEnd) -> Ending
    ensures { result ≡ endings.ended end }
{
    match end {
        BatchEnd::Clean => Ending::at_no_place(CLEAN),
        BatchEnd::Cut { place } => Ending {
            status: BAD_INPUT,
            place,
        },
        BatchEnd::BadFrame(fault) => Ending {
            status: BAD_INPUT,
            place: fault.place(),
        },
        BatchEnd::ReadFault => Ending::at_no_place(SOURCE_FAILED),
        BatchEnd::WriteFault => Ending::at_no_place(SINK_FAILED),
        BatchEnd::NoMemory => Ending::at_no_place(OUT_OF_MEMORY),
        BatchEnd::FrameLimit => Ending::at_no_place(FRAME_LIMIT),
    }
}
