// Writes that are made to stay.

ghost use Rattle.std.specs.Prelude.{◌≡◌, ◌≤◌, ◌<◌, ◌+◌, ◌++◌, ◌^◌, IfSome, length, replicate, vec_capacity};
ghost use Rattle.nb_journal.specs.declared.limits.TheConstants.{LEAD, AROUND, AHEAD};
ghost use Rattle.nb_port.specs.Disk.{Torn, Follows};
ghost use Rattle.nb_journal.specs.Layout.{body_bytes};
ghost use Rattle.nb_journal.specs.Layout as layout;
ghost use Rattle.nb_journal.specs.States.{PutGives};
ghost use Rattle.nb_journal.specs.Time.{Since, TornOf};

use crate::limits::{AHEAD, AROUND, CLOSED, MAX_AHEAD_ITEM};
use nb_port::{Disk, DiskOut};

// Writes the piece and syncs.
pub(crate) fn put_synced<D: Disk>(disk: &mut D, place: u64, piece: &[u8]) -> DiskOut
    requires inside { IfSome (D.tells.content disk.old) (λ bytes. place ≤ length bytes) }
    requires small { place + length piece.now < 2 ^ 63 }
    ensures gives { PutGives (D.tells.faults disk.old) (D.tells.faults disk.new) (D.tells.content disk.old) (D.tells.content disk.new)
        place piece.now (D.tells.allowed disk.new) result }
    ensures images { Follows (Torn place (length piece.now)) (D.tells.allowed disk.old) (D.tells.allowed disk.new) }
    ensures time { Since (TornOf (D.tells.allowed disk.old) place (length piece.now))
        (D.tells.moment disk.old) (D.tells.moment disk.new) (D.tells.left disk.old) (D.tells.left disk.new) }
    ensures count { D.tells.faults disk.old ≤ D.tells.faults disk.new }
{
    match disk.write(place, piece) {
        DiskOut::Done => {}
        DiskOut::Failed => return DiskOut::Failed,
    }
    match disk.sync() {
        DiskOut::Done => DiskOut::Done,
        DiskOut::Failed => DiskOut::Failed,
    }
}

// Writes the body of the item, laid out in the buffer with so many zeros behind it, and syncs.
pub(crate) fn put_body<D: Disk>(
    disk: &mut D,
    place: u64,
    buf: &mut Vec<u8>,
    item: &[u8],
    zeros: usize,
) -> DiskOut
    requires inside { IfSome (D.tells.content disk.old) (λ bytes. place ≤ length bytes) }
    requires small { place + (length item.now + LEAD + zeros) < 2 ^ 63 }
    requires item { length item.now < 2 ^ 32 }
    requires room { length item.now + LEAD + zeros ≤ vec_capacity buf.old }
    ensures buffer { vec_capacity buf.old ≤ vec_capacity buf.new }
    ensures gives { PutGives (D.tells.faults disk.old) (D.tells.faults disk.new) (D.tells.content disk.old) (D.tells.content disk.new)
        place (body_bytes item.now ++ replicate zeros 0) (D.tells.allowed disk.new) result }
    ensures images { Follows (Torn place (length (body_bytes item.now ++ replicate zeros 0))) (D.tells.allowed disk.old) (D.tells.allowed disk.new) }
    ensures time { Since (TornOf (D.tells.allowed disk.old) place (length (body_bytes item.now ++ replicate zeros 0)))
        (D.tells.moment disk.old) (D.tells.moment disk.new) (D.tells.left disk.old) (D.tells.left disk.new) }
    ensures count { D.tells.faults disk.old ≤ D.tells.faults disk.new }
{
    lay_out(buf, item, zeros);
    put_synced(disk, place, buf.as_slice())
}

// Lays the body of the item out: its length, its bytes, the next gate, closed; and so many zeros behind it.
#[tactic(auto, unfolding(crate::specs::Layout::body_bytes))]
fn lay_out(buf: &mut Vec<u8>, item: &[u8], zeros: usize)
    requires room { length item.now + LEAD + zeros ≤ vec_capacity buf.old }
    requires item { length item.now < 2 ^ 32 }
    ensures body { buf.new.items ≡ body_bytes item.now ++ replicate zeros 0 }
    ensures long { length buf.new.items ≡ length item.now + LEAD + zeros }
    ensures buffer { vec_capacity buf.old ≤ vec_capacity buf.new }
{
    buf.clear();
    buf.extend_from_slice(&(item.len() as u32).to_be_bytes())
        .unwrap();
    buf.extend_from_slice(item).unwrap();
    buf.push_reserved(CLOSED);
    buf.resize(buf.len() + zeros, 0).unwrap();
}

// How many zeros are written behind an item whose gate stands at the place.
pub(crate) fn zeros_behind(gate: u64, item: &[u8]) -> usize
    requires { gate + (length item.now + AROUND) < 2 ^ 64 }
    ensures zeros { result ≡ layout.zeros_behind gate item.now }
    ensures few { result ≤ AHEAD }
{
    let next = gate + (item.len() as u64 + AROUND);
    if gate / (AHEAD as u64) < next / (AHEAD as u64) && item.len() <= MAX_AHEAD_ITEM {
        AHEAD
    } else {
        0
    }
}
