// The items of a journal, from the first gate on.

ghost use Rattle.std.specs.Prelude.{◌≤◌};
ghost use Rattle.nb_units.specs.declared.limits.TheConstants.{MAX_CAP};
ghost use Rattle.nb_journal.specs.Scanning.{ItemsGive};
ghost use Rattle.nb_journal.specs.Time.{Untouched};

use crate::limits::{AROUND, FRONT};
use crate::opening::record::{LeadRead, RecordRead, lead_at, record_at};
use crate::opening::window::Window;
use nb_port::Disk;
use nb_units::Blob;
use std::alloc::Global;

// What stands behind a front.
#[derive(Drop)]
pub(crate) enum ItemsRead {
    // These items, and the gate behind them at the place.
    Whole { items: Vec<Blob>, place: u64 },
    // The first record that is none is that of this item, and its gate stands at the place.
    Damaged { item: u32, place: u64 },
    // The disk failed.
    Failed,
    NoMemory,
}

// Reads the items of a journal of at most `cap` items.
pub(crate) fn read_items<D: Disk>(alloc: Global, disk: &mut D, cap: u32) -> ItemsRead
    requires { cap ≤ MAX_CAP }
    ensures gives { ItemsGive (D.tells.faults disk.old) (D.tells.faults disk.new) (D.tells.content disk.old) cap result }
    ensures nothing { Untouched D.tells disk.old disk.new }
    ensures count { D.tells.faults disk.old ≤ D.tells.faults disk.new }
{
    let Ok(mut window) = Window::new(alloc) else {
        return ItemsRead::NoMemory;
    };
    let mut items = Vec::new(alloc);
    let mut place = FRONT;
    for item in 0..cap {
        match record_at(alloc, &mut window, disk, place) {
            RecordRead::Shut => return ItemsRead::Whole { items, place },
            RecordRead::Broken => return ItemsRead::Damaged { item, place },
            RecordRead::Failed => return ItemsRead::Failed,
            RecordRead::NoMemory => return ItemsRead::NoMemory,
            RecordRead::Item(blob) => {
                place += blob.as_slice().len() as u64 + AROUND;
                match items.push(blob) {
                    Ok(()) => {}
                    Err(_) => return ItemsRead::NoMemory,
                }
            }
        }
    }
    match lead_at(&mut window, disk, place) {
        LeadRead::Shut => ItemsRead::Whole { items, place },
        LeadRead::Broken => ItemsRead::Damaged { item: cap, place },
        LeadRead::Sized(_) => ItemsRead::Damaged { item: cap, place },
        LeadRead::Failed => ItemsRead::Failed,
    }
}
