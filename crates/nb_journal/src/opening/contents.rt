// The whole content of a disk.

ghost use Rattle.std.specs.Prelude.{◌≤◌};
ghost use Rattle.nb_journal.specs.Scanning.{ContentsGive};
ghost use Rattle.nb_journal.specs.Time.{Unwritten};

use crate::limits::MAGIC_BYTES;
use crate::opening::front::{FrontRead, Terms, read_front};
use crate::opening::items::{ItemsRead, read_items};
use nb_port::{Disk, DiskOut};
use nb_units::Blob;
use std::alloc::Global;

// The place that is told where there is no front: that of the cap.
const TERMS_PLACE: u64 = 8;

// What the content is.
#[derive(Drop)]
pub(crate) enum ContentsRead {
    // A journal with these items, whose last gate stands at the place.
    Whole {
        terms: Terms,
        items: Vec<Blob>,
        place: u64,
    },
    // It begins with no magic, but with this.
    Unborn {
        found: [u8; MAGIC_BYTES],
    },
    // The first record that is none is that of this item, and its gate stands at the place.
    Damaged {
        item: u32,
        place: u64,
    },
    // The disk failed.
    Failed,
    NoMemory,
}

// Makes all that was written stay, and reads it.
pub(crate) fn read_contents<D: Disk>(alloc: Global, disk: &mut D) -> ContentsRead
    ensures gives { ContentsGive (D.tells.faults disk.old) (D.tells.faults disk.new) (D.tells.content disk.old) (D.tells.allowed disk.new) result }
    ensures nothing { Unwritten D.tells disk.old disk.new }
    ensures count { D.tells.faults disk.old ≤ D.tells.faults disk.new }
{
    match disk.sync() {
        DiskOut::Failed => return ContentsRead::Failed,
        DiskOut::Done => {}
    }
    match read_front(disk) {
        FrontRead::Is(terms) => match read_items(alloc, disk, terms.cap) {
            ItemsRead::Whole { items, place } => ContentsRead::Whole {
                terms,
                items,
                place,
            },
            ItemsRead::Damaged { item, place } => ContentsRead::Damaged { item, place },
            ItemsRead::Failed => ContentsRead::Failed,
            ItemsRead::NoMemory => ContentsRead::NoMemory,
        },
        FrontRead::Unborn { found } => ContentsRead::Unborn { found },
        FrontRead::Missing => ContentsRead::Damaged {
            item: 0,
            place: TERMS_PLACE,
        },
        FrontRead::Failed => ContentsRead::Failed,
    }
}
