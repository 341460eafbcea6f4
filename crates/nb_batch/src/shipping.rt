ghost use Rattle.std.specs.Prelude.{◌≡◌, ◌≤◌, ◌↔◌, ◌<◌, ◌+◌, [], Err, length, vec_len, vec_capacity};
ghost use Rattle.nb_standby.specs.declared.limits.TheConstants.{SHIPPED_ROOM};
ghost use Rattle.nb_standby.specs.Following.{house_key};
ghost use Rattle.nb_vault.specs.Vaults.{entries_in};
ghost use Rattle.nb_batch.specs.declared.shipping.ShipFault.TheVariants.{Beyond};
ghost use Rattle.nb_batch.specs.declared.shipping.TheConstants.{SHIPPED_PIECE};
ghost use Rattle.nb_batch.specs.Shipping.{MakesRoom, Ships, ShipsUnheld};

use crate::send::{Sent, send_all};
use nb_port::{Disk, Sink};
use nb_seal::KeyState;
use nb_standby::{SHIPPED_ROOM, ship_with};
use nb_vault::Vault;
use std::alloc::Global;

// So many bytes of records wait at most for a write, 64 KiB.
const SHIPPED_PIECE: usize = 65_536;

/// Why records were not shipped.
#[derive(Clone, Copy)]
pub enum ShipFault {
    /// The place is above the number of entries that stand. So many do.
    Beyond { entries: u32 },
    /// A write failed. A part of the records was sent, from their front.
    WriteFault,
    /// There was no memory, and nothing was sent.
    NoMemory,
}

/// Sends the records of all entries that the vault has recorded from this place on, each as a frame, in their order, for a standby to follow.
pub fn ship_from<D: Disk, K: Sink>(
    alloc: Global,
    vault: &Vault<D>,
    from: u64,
    sink: &mut K,
) -> Result<(), ShipFault>
    // after Ok all of them were sent, after a write fault a part from their front, and the count of faults rose
    ensures ships { Ships (K.faults sink.old) (K.faults sink.new) (K.sent sink.old) (K.sent sink.new) (house_key vault.now) from (entries_in vault.now) result }
    ensures count { K.faults sink.old ≤ K.faults sink.new }
    // a place is refused exactly where it is above the number of entries
    ensures refused { result ≡ Err (Beyond (length (entries_in vault.now))) ↔ length (entries_in vault.now) < from }
    // where it is, and where there was no memory, the sink is as before
    ensures untouched { ShipsUnheld sink.old sink.new result }
{
    let entries = vault.entries();
    if from > u64::from(entries) {
        return Err(ShipFault::Beyond { entries });
    }
    let Ok(mut waits) = Vec::with_capacity(alloc, SHIPPED_PIECE) else {
        return Err(ShipFault::NoMemory);
    };
    ship_all(
        vault,
        from as u32,
        &KeyState::new(&vault.house()),
        &mut waits,
        sink,
    )
}

// Sends the records from a place on that is none beyond the entries, in pieces.
fn ship_all<D: Disk, K: Sink>(
    vault: &Vault<D>,
    from: u32,
    house: &KeyState,
    waits: &mut Vec<u8>,
    sink: &mut K,
) -> Result<(), ShipFault>
    requires key { house.now ≡ house_key vault.now }
    requires within { from ≤ length (entries_in vault.now) }
    requires none { waits.old.items ≡ [] }
    requires room { SHIPPED_PIECE ≤ vec_capacity waits.old }
    ensures ships { Ships (K.faults sink.old) (K.faults sink.new) (K.sent sink.old) (K.sent sink.new) (house_key vault.now) from (entries_in vault.now) result }
    ensures count { K.faults sink.old ≤ K.faults sink.new }
    ensures known { result ≡ Err (Beyond (length (entries_in vault.now))) → length (entries_in vault.now) < from }
    ensures untouched { ShipsUnheld sink.old sink.new result }
{
    // What every vault keeps: its list is Legal.
    vault.witness();
    'entries: for at in from..vault.entries() {
        if let Some(entry) = vault.entry(at) {
            match make_room(waits, sink) {
                Sent::All => ship_with(u64::from(at), &entry, house, waits),
                Sent::Failed => return Err(ShipFault::WriteFault),
            }
        }
    }
    match send_all(sink, waits.as_slice()) {
        Sent::All => Ok(()),
        Sent::Failed => Err(ShipFault::WriteFault),
    }
}

// Makes room for a record: where there is none behind the bytes that wait, these are sent.
fn make_room<K: Sink>(waits: &mut Vec<u8>, sink: &mut K) -> Sent
    ensures made { MakesRoom (K.faults sink.old) (K.faults sink.new) (K.sent sink.old) (K.sent sink.new) waits.old.items waits.new.items result }
    ensures count { K.faults sink.old ≤ K.faults sink.new }
    ensures room { vec_capacity waits.new ≡ vec_capacity waits.old }
    // nothing is written where there is room
    ensures quiet { vec_len waits.old + SHIPPED_ROOM ≤ SHIPPED_PIECE → sink.new ≡ sink.old }
{
    if SHIPPED_PIECE.saturating_sub(waits.len()) >= SHIPPED_ROOM {
        return Sent::All;
    }
    let sent = send_all(sink, waits.as_slice());
    waits.clear();
    sent
}
