ghost use Rattle.std.specs.Prelude.{◌≡◌, ◌≢◌, ◌≤◌, ◌⊎◌, IfOk, string_bytes};
ghost use Rattle.nb_journal.specs.Time.{Unwritten};
ghost use Rattle.nb_port.specs.Faults.{Rose};
ghost use Rattle.nb_commands.specs.declared.ending.TheConstants.{CLEAN, SINK_FAILED, OUT_OF_MEMORY, DISK_FAILED};
ghost use Rattle.nb_commands.specs.Promote.{PromoteIs, TellsLength, promoted_line, promotion_ending};
ghost use Rattle.nb_commands.specs.Opening.{IsJournal};

use crate::ending::{CLEAN, Ending, OUT_OF_MEMORY, SINK_FAILED};
use nb_batch::{Sent, send_all};
use nb_port::{Disk, Sink};
use nb_units::NoMemory;
use nb_vault::Vault;
use std::alloc::Global;

/// How telling how many entries stand went.
#[derive(Clone, Copy)]
pub enum Promotion {
    /// It was told.
    Told,
    /// A write failed. A part of the line was sent, from its front.
    WriteFault,
    /// There was no memory, and nothing was sent.
    NoMemory,
}

impl Promotion {
    /// How it ends the program.
    pub fn ending(self) -> Ending
        ensures { result ≡ promotion_ending self }
    {
        match self {
            Promotion::Told => Ending::at_no_place(CLEAN),
            Promotion::WriteFault => Ending::at_no_place(SINK_FAILED),
            Promotion::NoMemory => Ending::at_no_place(OUT_OF_MEMORY),
        }
    }
}

/// Opens the house on the disk, as one that answers requests is opened, and tells the sink how many entries stand. Nothing is written to the disk.
pub fn promote<K: Sink, D: Disk>(alloc: Global, sink: &mut K, disk: D) -> (Ending, D)
    ensures promotes { PromoteIs D.tells disk result.1 (K.sent sink.old) (K.sent sink.new) result.0 }
    ensures unwritten { Unwritten D.tells disk result.1 }
    // No count of faults falls.
    ensures counts { (K.faults sink.old ≤ K.faults sink.new) × (D.tells.faults disk ≤ D.tells.faults result.1) }
    // A write is answered to have failed only where the count of the sink rose.
    ensures sink { result.0.status ≡ SINK_FAILED → Rose (K.faults sink.old) (K.faults sink.new) }
    // And the disk, only where its count rose.
    ensures fault { result.0.status ≡ DISK_FAILED → Rose (D.tells.faults disk) (D.tells.faults result.1) }
    // After any status but 0 and 4 the sink is as before.
    ensures silent { (result.0.status ≢ CLEAN) → (result.0.status ≢ SINK_FAILED) → sink.new ≡ sink.old }
    // A journal, and nothing that fails: it is told how many entries stand, unless memory is wanting.
    ensures complete { IsJournal (D.tells.content disk) → (Rose (K.faults sink.old) (K.faults sink.new) → ⊥) → (Rose (D.tells.faults disk) (D.tells.faults result.1) → ⊥)
        → (result.0.status ≡ CLEAN) ⊎ (result.0.status ≡ OUT_OF_MEMORY) }
{
    let house = match Vault::open(alloc, disk) {
        Ok(house) => house,
        Err((fault, disk)) => return (Ending::unopened(fault), disk),
    };
    let told = tell_length(alloc, house.entries(), sink);
    (told.ending(), house.into_disk())
}

// Tells how many entries stand.
fn tell_length<K: Sink>(alloc: Global, entries: u32, sink: &mut K) -> Promotion
    ensures tells { TellsLength sink.old sink.new (K.sent sink.old) (K.sent sink.new) (K.faults sink.old) (K.faults sink.new) entries result }
    ensures count { K.faults sink.old ≤ K.faults sink.new }
{
    let Ok(line) = line_of(alloc, entries) else {
        return Promotion::NoMemory;
    };
    match send_all(sink, line.as_bytes()) {
        Sent::All => Promotion::Told,
        Sent::Failed => Promotion::WriteFault,
    }
}

// The line of a number of entries.
fn line_of(alloc: Global, entries: u32) -> Result<String, NoMemory>
    ensures { IfOk result (λ line. string_bytes line ≡ promoted_line entries) }
{
    Ok(format!(in alloc; "promoted {entries}\n")?)
}
