ghost use Rattle.std.specs.Prelude.{◌≡◌, ◌≢◌, ◌≤◌, ◌⊎◌};
ghost use Rattle.nb_journal.specs.Time.{Unwritten};
ghost use Rattle.nb_port.specs.Faults.{Rose};
ghost use Rattle.nb_commands.specs.declared.ending.TheConstants.{CLEAN, SINK_FAILED, OUT_OF_MEMORY, DISK_FAILED, NO_PLACE};
ghost use Rattle.nb_commands.specs.Opening.{IsJournal};
ghost use Rattle.nb_commands.specs.Ship.{ShipIs, shipped_ending};

use crate::ending::{CLEAN, Ending, NO_PLACE, OUT_OF_MEMORY, SINK_FAILED};
use nb_batch::{ShipFault, ship_from};
use nb_port::{Disk, Sink};
use nb_vault::Vault;
use std::alloc::Global;

/// Opens the house on the disk, and sends the records of its entries from a place on to the sink. The disk is handed back, and nothing is written to it.
pub fn ship_records<K: Sink, D: Disk>(
    alloc: Global,
    from: u64,
    sink: &mut K,
    disk: D,
) -> (Ending, D)
    ensures ships { ShipIs D.tells disk result.1 (K.sent sink.old) (K.sent sink.new) from result.0 }
    ensures unwritten { Unwritten D.tells disk result.1 }
    // No count of faults falls.
    ensures counts { (K.faults sink.old ≤ K.faults sink.new) × (D.tells.faults disk ≤ D.tells.faults result.1) }
    // A write is answered to have failed only where the count of the sink rose.
    ensures sink { result.0.status ≡ SINK_FAILED → Rose (K.faults sink.old) (K.faults sink.new) }
    // And the disk, only where its count rose.
    ensures fault { result.0.status ≡ DISK_FAILED → Rose (D.tells.faults disk) (D.tells.faults result.1) }
    // After any status but 0 and 4 the sink is as before.
    ensures silent { (result.0.status ≢ CLEAN) → (result.0.status ≢ SINK_FAILED) → sink.new ≡ sink.old }
    // A journal, and nothing that fails: its records are shipped, or the place is above them, unless memory is wanting.
    ensures complete { IsJournal (D.tells.content disk) → (Rose (K.faults sink.old) (K.faults sink.new) → ⊥) → (Rose (D.tells.faults disk) (D.tells.faults result.1) → ⊥)
        → (result.0.status ≡ CLEAN) ⊎ (result.0.status ≡ NO_PLACE) ⊎ (result.0.status ≡ OUT_OF_MEMORY) }
{
    let house = match Vault::open(alloc, disk) {
        Ok(house) => house,
        Err((fault, disk)) => return (Ending::unopened(fault), disk),
    };
    let shipped = ship_from(alloc, &house, from, sink);
    (shipped_as(shipped), house.into_disk())
}

// How the run ends, by how shipping did.
fn shipped_as(shipped: Result<(), ShipFault>) -> Ending
    ensures { result ≡ shipped_ending shipped }
{
    match shipped {
        Ok(()) => Ending::at_no_place(CLEAN),
        Err(ShipFault::Beyond { entries }) => Ending {
            status: NO_PLACE,
            place: u64::from(entries),
        },
        Err(ShipFault::WriteFault) => Ending::at_no_place(SINK_FAILED),
        Err(ShipFault::NoMemory) => Ending::at_no_place(OUT_OF_MEMORY),
    }
}
