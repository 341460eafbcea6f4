ghost use Rattle.std.specs.Prelude.{◌≤◌};
ghost use Rattle.nb_journal.specs.declared.limits.TheConstants.{MAX_ITEM};
ghost use Rattle.nb_journal.specs.Opening.{OpenGives, disk_of};
ghost use Rattle.nb_journal.specs.Time.{Unwritten};

mod contents;
pub(crate) mod front;
mod items;
mod record;
mod window;

use crate::journal::Journal;
use crate::limits::{HEAD, MAGIC_BYTES};
use crate::opening::contents::{ContentsRead, read_contents};
use nb_port::Disk;
use nb_units::{Blob, Charter};
use std::alloc::Global;

/// A journal that was opened, and what it holds.
#[derive(Drop)]
pub struct Opened<D> {
    pub journal: Journal<D>,
    /// The 80 bytes of its head, as they were given when it was made.
    pub head: [u8; HEAD],
    /// The version of its layout, 1 byte wide: 1 or 2.
    pub version: u8,
    /// The rate of its house's fee in thousandths, 2 bytes wide: at most 1,000, and 0 in version 1.
    pub rate: u16,
    /// The most items that it may hold.
    pub cap: u32,
    /// Its items, from the first on.
    pub items: Vec<Blob>,
}

/// Why no journal was opened.
#[derive(Clone, Copy)]
pub enum OpenFault {
    /// The content begins with no magic of a journal, but with this. Bytes that are missing count as zeros.
    Unborn { found: [u8; MAGIC_BYTES] },
    /// The content begins with a journal's magic and is no journal. `item` is the number, from 0, of the first item that breaks the
    /// layout, also of one past the cap, and `place` is the place of its gate in bytes from the front; they are 0 and 8
    /// where the front is short or bad.
    Damaged { item: u32, place: u64 },
    /// The disk failed between these two counts of its faults.
    DiskFault { before: u64, after: u64 },
    /// There was no memory for the items, or for the place where one is laid out.
    NoMemory,
}

impl<D: Disk> Journal<D> {
    /// Opens the journal on a disk: all that was written is made to stay, and then all of it is read. From then on an item
    /// may have `room` bytes. Items longer than that are opened all the same, up to 2,097,152 bytes.
    pub fn open(alloc: Global, disk: D, room: u32) -> Result<Opened<D>, (OpenFault, D)>
        requires { room ≤ MAX_ITEM }
        // After Ok the journal is at rest with this front and these items, and the content is read as exactly these. `Unborn`: the content begins with
        // no magic. `Damaged`: it begins with the magic of a version, and this is its first fault. `DiskFault`: the count rose between these two.
        // `NoMemory`: a free answer.
        ensures gives { OpenGives D.tells disk room result }
        ensures nothing { Unwritten D.tells disk (disk_of result) }
        ensures count { D.tells.faults disk ≤ D.tells.faults (disk_of result) }
    {
        let mut disk = disk;
        let before = disk.fault_count();
        match read_contents(alloc, &mut disk) {
            ContentsRead::Unborn { found } => Err((OpenFault::Unborn { found }, disk)),
            ContentsRead::Damaged { item, place } => Err((
                OpenFault::Damaged { item, place },
                disk,
            )),
            ContentsRead::NoMemory => Err((OpenFault::NoMemory, disk)),
            ContentsRead::Failed => {
                let after = disk.fault_count();
                Err((OpenFault::DiskFault { before, after }, disk))
            }
            ContentsRead::Whole {
                terms,
                items,
                place,
            } => {
                let Charter {
                    head,
                    version,
                    rate,
                } = terms.charter;
                match Journal::over(alloc, disk, place, items.len(), terms.cap, room) {
                    Ok(journal) => Ok(Opened {
                        journal,
                        head,
                        version,
                        rate,
                        cap: terms.cap,
                        items,
                    }),
                    Err(disk) => Err((OpenFault::NoMemory, disk)),
                }
            }
        }
    }
}
