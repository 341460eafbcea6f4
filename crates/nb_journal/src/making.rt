ghost use Rattle.std.specs.Prelude.{◌≡◌, ◌≤◌, ◌++◌, ◌∷◌, [], replicate, OnOk};
ghost use Rattle.nb_port.specs.Disk.{wrote_at};
ghost use Rattle.nb_journal.specs.Layout.{terms, front_bytes};
ghost use Rattle.nb_units.specs.declared.limits.TheConstants.{FEE_VERSION};
ghost use Rattle.nb_journal.specs.Making.{InitGives, SparesJournal, MagicGives, with_fee, without_fee};
ghost use Rattle.nb_journal.specs.Time.{Untouched};

use crate::limits::{CAP, EMPTY, HEAD, MAGIC_BYTES, MAX_CAP, RATE};
use crate::opening::front::first_eight;
use crate::putting::put_synced;
use crate::versions::{is_magic, magic};
use nb_port::{Disk, DiskOut, DiskRead};
use nb_units::{Charter, FEE_VERSION, FIRST_VERSION, MAX_RATE};

/// Why no journal was made.
#[derive(Clone, Copy)]
pub enum InitFault {
    /// The cap is 0 or above [`MAX_CAP`](crate::MAX_CAP). The disk was not touched.
    BadCap { cap: u32 },
    /// The rate is above [`MAX_RATE`](nb_units::MAX_RATE). The disk was not touched.
    BadRate { rate: u16 },
    /// The content begins with the magic of a version. Nothing was written.
    Exists { magic: [u8; MAGIC_BYTES] },
    /// The disk failed between these two counts of its faults, as it was read what the content begins with. Nothing was written.
    LookFailed { before: u64, after: u64 },
    /// The disk, which had no journal, failed between these two counts of its faults. The front may be written in part.
    DiskFault { before: u64, after: u64 },
}

/// What the content of a disk begins with.
#[derive(Clone, Copy)]
pub enum MagicRead {
    /// The magic of a version.
    Is([u8; MAGIC_BYTES]),
    /// No magic.
    Other,
    /// The disk failed.
    Failed,
}

/// Makes a journal of the first version without items on a disk that has none, of either version. A journal that is there stays as
/// it is. All but the magic is written and synced, and then the magic. It never answers
/// `BadRate`.
pub fn init<D: Disk>(disk: &mut D, head: &[u8; HEAD], cap: u32) -> Result<(), InitFault>
    ensures gives { InitGives D.tells disk.old disk.new cap (without_fee head.now) result }
    ensures spares { SparesJournal D.tells disk.old disk.new }
    // After Ok the content is the one before with the front and a closed gate put at place 0; past these 97 bytes it is as before.
    ensures bytes { OnOk result (D.tells.content disk.new ≡ wrote_at (D.tells.content disk.old) 0 (front_bytes cap (without_fee head.now) ++ 0 ∷ [])) }
    ensures count { D.tells.faults disk.old ≤ D.tells.faults disk.new }
{
    make(
        disk,
        &Charter {
            head: *head,
            version: FIRST_VERSION,
            rate: 0,
        },
        cap,
    )
}

/// Makes a journal of the second version, whose house keeps a fee of `rate` thousandths, as [`init`] makes one of the first.
pub fn init2<D: Disk>(disk: &mut D, head: &[u8; HEAD], cap: u32, rate: u16) -> Result<(), InitFault>
    ensures gives { InitGives D.tells disk.old disk.new cap (with_fee head.now rate) result }
    ensures spares { SparesJournal D.tells disk.old disk.new }
    // As of `init`, with a rate.
    ensures bytes { OnOk result (D.tells.content disk.new ≡ wrote_at (D.tells.content disk.old) 0 (front_bytes cap (with_fee head.now rate) ++ 0 ∷ [])) }
    ensures count { D.tells.faults disk.old ≤ D.tells.faults disk.new }
{
    make(
        disk,
        &Charter {
            head: *head,
            version: FEE_VERSION,
            rate,
        },
        cap,
    )
}

// Makes a journal with this charter and this cap.
fn make<D: Disk>(disk: &mut D, charter: &Charter, cap: u32) -> Result<(), InitFault>
    requires { charter.now.version ≤ FEE_VERSION }
    ensures gives { InitGives D.tells disk.old disk.new cap charter.now result }
    ensures spares { SparesJournal D.tells disk.old disk.new }
    ensures bytes { OnOk result (D.tells.content disk.new ≡ wrote_at (D.tells.content disk.old) 0 (front_bytes cap charter.now ++ 0 ∷ [])) }
    ensures count { D.tells.faults disk.old ≤ D.tells.faults disk.new }
{
    if cap < 1 {
        return Err(InitFault::BadCap { cap });
    }
    if cap > MAX_CAP {
        return Err(InitFault::BadCap { cap });
    }
    if charter.rate > MAX_RATE {
        return Err(InitFault::BadRate { rate: charter.rate });
    }
    let before = disk.fault_count();
    match magic_of(disk) {
        MagicRead::Failed => {
            let after = disk.fault_count();
            return Err(InitFault::LookFailed { before, after });
        }
        MagicRead::Is(found) => return Err(InitFault::Exists { magic: found }),
        MagicRead::Other => {}
    }
    match put_synced(disk, 0, &unborn(charter, cap)) {
        DiskOut::Failed => {
            let after = disk.fault_count();
            return Err(InitFault::DiskFault { before, after });
        }
        DiskOut::Done => {}
    }
    match put_synced(disk, 0, &magic(charter.version)) {
        DiskOut::Failed => {
            let after = disk.fault_count();
            Err(InitFault::DiskFault { before, after })
        }
        DiskOut::Done => Ok(()),
    }
}

/// Reads whether the content of a disk begins with the magic of a version. Nothing is written.
pub fn magic_of<D: Disk>(disk: &mut D) -> MagicRead
    ensures gives { MagicGives (D.tells.faults disk.old) (D.tells.faults disk.new) (D.tells.content disk.old) result }
    ensures nothing { Untouched D.tells disk.old disk.new }
    ensures count { D.tells.faults disk.old ≤ D.tells.faults disk.new }
{
    let mut bytes = [0u8; MAGIC_BYTES];
    match disk.read(0, &mut bytes) {
        DiskRead::Failed => MagicRead::Failed,
        DiskRead::Got(n) => {
            let found = first_eight(bytes.as_slice().split_at(n).0);
            if is_magic(&found) {
                MagicRead::Is(found)
            } else {
                MagicRead::Other
            }
        }
    }
}

// A journal without items, but for the magic.
fn unborn(charter: &Charter, cap: u32) -> [u8; EMPTY]
    ensures { result ≡ replicate 8 0 ++ (terms cap charter.now ++ 0 ∷ []) }
{
    let mut bytes = [0u8; EMPTY];
    let (_, terms) = bytes.split_at_mut(MAGIC_BYTES);
    let (word, rest) = terms.split_at_mut(CAP);
    let (head, behind) = rest.split_at_mut(HEAD);
    let (thousandths, _) = behind.split_at_mut(RATE);
    word.copy_from_slice(&cap.to_be_bytes());
    head.copy_from_slice(&charter.head);
    thousandths.copy_from_slice(&charter.rate.to_be_bytes());
    bytes
}
