ghost use Rattle.std.specs.Prelude.{◌≡◌, ◌≢◌, ◌≤◌};
ghost use Rattle.nb_script.specs.declared.limits.TheConstants.{MAX_SCRIPT};
ghost use Rattle.nb_run.specs.declared.playing.PlayEnd.TheVariants as ends;
ghost use Rattle.nb_run.specs.Play.{PlaysAs, play_ending};

use nb_batch::{Sent, send_all};
use nb_commands::{
    BAD_INPUT, CLEAN, Ending, InputRead, OUT_OF_MEMORY, SINK_FAILED, SOURCE_FAILED, read_most,
};
use nb_player::play;
use nb_port::{Sink, Source};
use nb_script::{MAX_SCRIPT, PlayFault};
use std::alloc::Global;

/// How playing a script ended.
#[derive(Clone, Copy)]
pub enum PlayEnd {
    /// The report was written.
    Played,
    /// The source failed. Nothing was written, as at the next two, and for want of memory.
    ReadFault,
    /// The input is longer than [`MAX_SCRIPT`](nb_script::MAX_SCRIPT).
    TooLong,
    /// The input is no script: the number of its first bad line, from 1 on.
    BadLine { line: u32 },
    /// A write failed. A part of the report was written, from its front.
    WriteFault,
    /// There was no memory.
    NoMemory,
}

impl PlayEnd {
    /// How it ends the program.
    pub fn ending(self) -> Ending
        ensures { result ≡ play_ending self }
    {
        match self {
            PlayEnd::Played => Ending::at_no_place(CLEAN),
            PlayEnd::ReadFault => Ending::at_no_place(SOURCE_FAILED),
            PlayEnd::TooLong => Ending {
                status: BAD_INPUT,
                place: MAX_SCRIPT as u64,
            },
            PlayEnd::BadLine { line } => Ending {
                status: BAD_INPUT,
                place: u64::from(line),
            },
            PlayEnd::WriteFault => Ending::at_no_place(SINK_FAILED),
            PlayEnd::NoMemory => Ending::at_no_place(OUT_OF_MEMORY),
        }
    }
}

/// Plays the script that is the whole input, and writes its report. Nothing is written before all of it was played.
pub fn play_input<S: Source, K: Sink>(alloc: Global, source: &mut S, sink: &mut K) -> PlayEnd
    ensures played { PlaysAs (S.left source.old) (S.left source.new) (S.faults source.old) (S.faults source.new) (K.sent sink.old) (K.sent sink.new) (K.faults sink.old) (K.faults sink.new) result }
    // No count of faults falls.
    ensures counts { (S.faults source.old ≤ S.faults source.new) × (K.faults sink.old ≤ K.faults sink.new) }
    // The sink is as before but where the report was written, or a write failed.
    ensures silent { (result ≢ ends.Played) → (result ≢ ends.WriteFault) → sink.new ≡ sink.old }
{
    let input = match read_most(alloc, source, MAX_SCRIPT) {
        InputRead::All(input) => input,
        InputRead::Longer => return PlayEnd::TooLong,
        InputRead::Failed => return PlayEnd::ReadFault,
        InputRead::NoMemory => return PlayEnd::NoMemory,
    };
    let mut report = Vec::new(alloc);
    match play(alloc, input.as_slice(), &mut report) {
        Ok(()) => {}
        Err(PlayFault::BadLine { line }) => return PlayEnd::BadLine { line },
        Err(PlayFault::NoMemory) => return PlayEnd::NoMemory,
    }
    match send_all(sink, report.as_slice()) {
        Sent::All => PlayEnd::Played,
        Sent::Failed => PlayEnd::WriteFault,
    }
}
