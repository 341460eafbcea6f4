ghost use Rattle.std.specs.Prelude.{◌≡◌, ◌≢◌, ◌≤◌, ◌⊎◌};
ghost use Rattle.nb_journal.specs.Time.{Unwritten};
ghost use Rattle.nb_port.specs.Faults.{Rose};
ghost use Rattle.nb_commands.specs.declared.ending.TheConstants.{CLEAN, SINK_FAILED, OUT_OF_MEMORY, DISK_FAILED, NO_ACCOUNT};
ghost use Rattle.nb_commands.specs.Opening.{IsJournal};
ghost use Rattle.nb_commands.specs.Statement.{StatementIs, told_ending};

use crate::ending::{CLEAN, Ending, NO_ACCOUNT, OUT_OF_MEMORY, SINK_FAILED};
use nb_port::{Disk, Sink};
use nb_statement::{StatementFault, write};
use nb_units::AcctId;
use nb_vault::Vault;
use std::alloc::Global;

/// Opens the house on the disk, and writes the statement of an account to the sink. The disk is handed back, and nothing is written to it.
pub fn write_statement<K: Sink, D: Disk>(
    alloc: Global,
    acct: AcctId,
    sink: &mut K,
    disk: D,
) -> (Ending, D)
    ensures statement { StatementIs D.tells disk result.1 (K.sent sink.old) (K.sent sink.new) acct result.0 }
    ensures unwritten { Unwritten D.tells disk result.1 }
    // No count of faults falls.
    ensures counts { (K.faults sink.old ≤ K.faults sink.new) × (D.tells.faults disk ≤ D.tells.faults result.1) }
    // A write is answered to have failed only where the count of the sink rose.
    ensures sink { result.0.status ≡ SINK_FAILED → Rose (K.faults sink.old) (K.faults sink.new) }
    // And the disk, only where its count rose.
    ensures fault { result.0.status ≡ DISK_FAILED → Rose (D.tells.faults disk) (D.tells.faults result.1) }
    // After any status but 0 and 4 the sink is as before.
    ensures silent { (result.0.status ≢ CLEAN) → (result.0.status ≢ SINK_FAILED) → sink.new ≡ sink.old }
    // A journal, and nothing that fails: the statement is told, or nobody holds the account, unless memory is wanting.
    ensures complete { IsJournal (D.tells.content disk) → (Rose (K.faults sink.old) (K.faults sink.new) → ⊥) → (Rose (D.tells.faults disk) (D.tells.faults result.1) → ⊥)
        → (result.0.status ≡ CLEAN) ⊎ (result.0.status ≡ NO_ACCOUNT) ⊎ (result.0.status ≡ OUT_OF_MEMORY) }
{
    let house = match Vault::open(alloc, disk) {
        Ok(house) => house,
        Err((fault, disk)) => return (Ending::unopened(fault), disk),
    };
    let told = write(alloc, &house, acct, sink);
    (told_as(told), house.into_disk())
}

// How the run ends, by how writing the statement did.
fn told_as(told: Result<(), StatementFault>) -> Ending
    ensures { result ≡ told_ending told }
{
    match told {
        Ok(()) => Ending::at_no_place(CLEAN),
        Err(StatementFault::NoAccount { .. }) => Ending::at_no_place(NO_ACCOUNT),
        Err(StatementFault::WriteFault) => Ending::at_no_place(SINK_FAILED),
        Err(StatementFault::NoMemory) => Ending::at_no_place(OUT_OF_MEMORY),
    }
}
