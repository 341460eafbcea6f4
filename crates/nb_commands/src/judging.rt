ghost use Rattle.std.specs.Prelude.{◌≡◌, ◌≢◌, ◌≤◌, IfOk, string_bytes};
ghost use Rattle.nb_judge.specs.declared.case_bytes.TheConstants.{MAX_CASE};
ghost use Rattle.nb_commands.specs.declared.judging.JudgeEnd.TheVariants as ends;
ghost use Rattle.nb_commands.specs.Judge.{JudgesAs, TellsRuling, judge_ending, ruling_line};

use crate::ending::{BAD_INPUT, CLEAN, Ending, OUT_OF_MEMORY, SINK_FAILED, SOURCE_FAILED};
use crate::input::{InputRead, read_most};
use nb_batch::{Sent, send_all};
use nb_judge::{CaseBytes, MAX_CASE, Ruling};
use nb_port::{Sink, Source};
use nb_units::{Malformed, NoMemory};
use std::alloc::Global;

/// How ruling on a case ended.
#[derive(Clone, Copy)]
pub enum JudgeEnd {
    /// The ruling was written.
    Ruled,
    /// The source failed. Nothing was written, as at the next two, and for want of memory.
    ReadFault,
    /// The input is longer than [`MAX_CASE`](nb_judge::MAX_CASE).
    TooLong,
    /// The input is no case: the place of the first field that fails, in bytes from its front.
    Malformed { place: u64 },
    /// A write failed. A part of the ruling's line was written, from its front.
    WriteFault,
    /// There was no memory.
    NoMemory,
}

impl JudgeEnd {
    /// How it ends the program.
    pub fn ending(self) -> Ending
        ensures { result ≡ judge_ending self }
    {
        match self {
            JudgeEnd::Ruled => Ending::at_no_place(CLEAN),
            JudgeEnd::ReadFault => Ending::at_no_place(SOURCE_FAILED),
            JudgeEnd::TooLong => Ending {
                status: BAD_INPUT,
                place: MAX_CASE as u64,
            },
            JudgeEnd::Malformed { place } => Ending {
                status: BAD_INPUT,
                place,
            },
            JudgeEnd::WriteFault => Ending::at_no_place(SINK_FAILED),
            JudgeEnd::NoMemory => Ending::at_no_place(OUT_OF_MEMORY),
        }
    }
}

/// Rules on the case that is the whole input, and writes the ruling in one line. What is held is the input and little more.
pub fn rule_on<S: Source, K: Sink>(alloc: Global, source: &mut S, sink: &mut K) -> JudgeEnd
    ensures judged { JudgesAs (S.left source.old) (S.left source.new) (S.faults source.old) (S.faults source.new) (K.sent sink.old) (K.sent sink.new) (K.faults sink.old) (K.faults sink.new) result }
    // No count of faults falls.
    ensures counts { (S.faults source.old ≤ S.faults source.new) × (K.faults sink.old ≤ K.faults sink.new) }
    // The sink is as before but where the ruling was written, or a write failed.
    ensures silent { (result ≢ ends.Ruled) → (result ≢ ends.WriteFault) → sink.new ≡ sink.old }
{
    let input = match read_most(alloc, source, MAX_CASE) {
        InputRead::All(input) => input,
        InputRead::Longer => return JudgeEnd::TooLong,
        InputRead::Failed => return JudgeEnd::ReadFault,
        InputRead::NoMemory => return JudgeEnd::NoMemory,
    };
    let ruling = match CaseBytes::read(input.as_slice()) {
        Ok(case) => case.judge(),
        Err(Malformed { place }) => return JudgeEnd::Malformed {
            place: place as u64,
        },
    };
    tell(alloc, &ruling, sink)
}

// Writes the line of a ruling.
fn tell<K: Sink>(alloc: Global, ruling: &Ruling, sink: &mut K) -> JudgeEnd
    ensures tells { TellsRuling (K.sent sink.old) (K.sent sink.new) (K.faults sink.old) (K.faults sink.new) ruling.now result }
    ensures count { K.faults sink.old ≤ K.faults sink.new }
    ensures silent { (result ≢ ends.Ruled) → (result ≢ ends.WriteFault) → sink.new ≡ sink.old }
{
    let Ok(line) = line_of(alloc, ruling) else {
        return JudgeEnd::NoMemory;
    };
    match send_all(sink, line.as_bytes()) {
        Sent::All => JudgeEnd::Ruled,
        Sent::Failed => JudgeEnd::WriteFault,
    }
}

// The line of a ruling.
fn line_of(alloc: Global, ruling: &Ruling) -> Result<String, NoMemory>
    ensures { IfOk result (λ line. string_bytes line ≡ ruling_line ruling.now) }
{
    let line = match ruling {
        Ruling::NoOrder { .. } => format!(in alloc; "no order\n")?,
        Ruling::NoReceipt { .. } => format!(in alloc; "no receipt\n")?,
        Ruling::OtherOrder { field } => format!(in alloc; "other order {field}\n")?,
        Ruling::NotPaid { code } => format!(in alloc; "not paid {code}\n")?,
        Ruling::WrongGoods { .. } => format!(in alloc; "wrong goods\n")?,
        Ruling::WrongKey { .. } => format!(in alloc; "wrong key\n")?,
        Ruling::KeyOpens { len } => format!(in alloc; "key opens {len}\n")?,
    };
    Ok(line)
}
