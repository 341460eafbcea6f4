ghost use Rattle.std.specs.Prelude.{◌≤◌, length};
ghost use Rattle.nb_port.specs.Disk.{Only};
ghost use Rattle.nb_journal.specs.declared.limits.TheConstants.{EMPTY, MAGIC_BYTES, MAX_IMAGE};
ghost use Rattle.nb_journal.specs.Migrating.{LayGives, CrownGives, BlankGives, TornCrown};
ghost use Rattle.nb_journal.specs.Time.{LeavesOnly};

use crate::limits::{MAGIC_BYTES, PIECE};
use crate::putting::put_synced;
use crate::versions::magic;
use nb_port::{Disk, DiskOut};
use nb_units::FEE_VERSION;

/// The disk failed between these two counts of its faults, as an image was laid on it or crowned.
#[derive(Clone, Copy)]
pub struct CopyFault {
    pub before: u64,
    pub after: u64,
}

/// Lays the image of a journal on a disk, with eight zeros for its magic, in writes of at most 65,536 bytes, and syncs. The image
/// has from 97 to [`MAX_IMAGE`](crate::MAX_IMAGE) bytes. What a stop leaves before it is done is not said.
pub fn lay<D: Disk>(disk: &mut D, image: &[u8]) -> Result<(), CopyFault>
    requires some { EMPTY ≤ length image.now }
    requires most { length image.now ≤ MAX_IMAGE }
    ensures gives { LayGives D.tells disk.old disk.new image.now result }
    ensures count { D.tells.faults disk.old ≤ D.tells.faults disk.new }
{
    let before = disk.fault_count();
    match put_blanked(disk, image) {
        DiskOut::Failed => {
            let after = disk.fault_count();
            return Err(CopyFault { before, after });
        }
        DiskOut::Done => {}
    }
    match disk.sync() {
        DiskOut::Failed => {
            let after = disk.fault_count();
            Err(CopyFault { before, after })
        }
        DiskOut::Done => Ok(()),
    }
}

/// Writes the magic of the second version over the first eight bytes of a disk, and syncs. What was laid there is a journal from
/// then on; a stop within the call leaves it with any eight bytes for its magic.
pub fn crown<D: Disk>(disk: &mut D) -> Result<(), CopyFault>
    ensures gives { CrownGives D.tells disk.old disk.new result }
    // Where a stop before the call leaves the content and nothing else, as after `lay`: a stop at any moment of the call leaves the content with its
    // first eight bytes torn, and perhaps more behind its end (`LeavesOnly` with `TornCrown`). What that stands for is said by `laws::crown_stands`.
    ensures any_moment { Only (D.tells.content disk.old) (D.tells.allowed disk.old) → LeavesOnly D.tells disk.old disk.new (TornCrown (D.tells.content disk.old)) }
    ensures count { D.tells.faults disk.old ≤ D.tells.faults disk.new }
{
    let before = disk.fault_count();
    match put_synced(disk, 0, &magic(FEE_VERSION)) {
        DiskOut::Failed => {
            let after = disk.fault_count();
            Err(CopyFault { before, after })
        }
        DiskOut::Done => Ok(()),
    }
}

// Writes eight zeros, and behind them the image from its ninth byte on.
fn put_blanked<D: Disk>(disk: &mut D, image: &[u8]) -> DiskOut
    requires some { MAGIC_BYTES ≤ length image.now }
    requires most { length image.now ≤ MAX_IMAGE }
    ensures gives { BlankGives (D.tells.faults disk.old) (D.tells.faults disk.new) (D.tells.content disk.old) (D.tells.content disk.new) image.now result }
    ensures count { D.tells.faults disk.old ≤ D.tells.faults disk.new }
{
    match disk.write(0, &[0; MAGIC_BYTES]) {
        DiskOut::Failed => return DiskOut::Failed,
        DiskOut::Done => {}
    }
    let mut place = MAGIC_BYTES;
    while place < image.len() {
        let len = PIECE.min(image.len() - place);
        let piece = image.split_at(place).1.split_at(len).0;
        match disk.write(place as u64, piece) {
            DiskOut::Failed => return DiskOut::Failed,
            DiskOut::Done => {}
        }
        place += len;
    }
    DiskOut::Done
}
