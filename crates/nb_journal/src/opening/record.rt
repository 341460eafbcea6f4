// One record: a gate, and the item behind it where the gate is open.

ghost use Rattle.std.specs.Prelude.{◌≡◌, ◌≤◌, ◌<◌, ◌+◌, ◌^◌, length};
ghost use Rattle.nb_journal.specs.declared.limits.TheConstants.{LEAD, MAX_ITEM};
ghost use Rattle.nb_journal.specs.Scanning.{LeadIs, LeadGives, RecordGives, BodyFrom, BodyGives};
ghost use Rattle.nb_journal.specs.Time.{Untouched};
ghost use Rattle.nb_journal.specs.Window.{Sees};
ghost use Rattle.nb_journal.specs.declared.limits.TheConstants.{WINDOW};

use crate::limits::{AROUND, LEAD, LENGTH, MAX_ITEM, OPEN, WINDOW};
use crate::opening::window::{Reached, Window};
use crate::reading::number;
use nb_port::{Disk, DiskRead};
use nb_units::Blob;
use std::alloc::Global;

// What the gate and the length of a record say.
#[derive(Drop)]
pub(crate) enum LeadRead {
    // The gate is not open.
    Shut,
    // An item of so many bytes is to follow.
    Sized(u32),
    // There is no gate, or an open one with no length behind it or one that is too great.
    Broken,
    // The disk failed.
    Failed,
}

// What a record is.
#[derive(Drop)]
pub(crate) enum RecordRead {
    // The gate is not open.
    Shut,
    Item(Blob),
    // There is no gate, or an open one with no item behind it.
    Broken,
    // The disk failed.
    Failed,
    NoMemory,
}

// What the bytes of an item are.
#[derive(Drop)]
enum BodyRead {
    Got(Blob),
    // Fewer bytes are there.
    Short,
    // The disk failed.
    Failed,
    NoMemory,
}

// What the gate at the place and the length behind it say.
pub(crate) fn lead_at<D: Disk>(window: &mut Window, disk: &mut D, place: u64) -> LeadRead
    requires near { place < 2 ^ 63 }
    requires sees { Sees (D.tells.content disk.old) window.old }
    ensures gives { LeadGives (D.tells.faults disk.old) (D.tells.faults disk.new) (D.tells.content disk.old) place result }
    ensures sees { Sees (D.tells.content disk.new) window.new }
    ensures nothing { Untouched D.tells disk.old disk.new }
    ensures count { D.tells.faults disk.old ≤ D.tells.faults disk.new }
{
    match window.reach(disk, place, LEAD) {
        Reached::Failed => LeadRead::Failed,
        Reached::There => lead_of(window.part(place, LEAD)),
    }
}

// What the gate and the length say, where these are all the bytes from the gate on, or the first five of them.
fn lead_of(bytes: &[u8]) -> LeadRead
    requires { length bytes.now ≤ LEAD }
    ensures { LeadIs bytes.now result }
{
    if bytes.is_empty() {
        return LeadRead::Broken;
    }
    let (gate, word) = bytes.split_at(1);
    if gate[0] != OPEN {
        return LeadRead::Shut;
    }
    if word.len() < LENGTH {
        return LeadRead::Broken;
    }
    let len = number(word);
    if len > MAX_ITEM {
        return LeadRead::Broken;
    }
    LeadRead::Sized(len)
}

// The record whose gate stands at the place.
pub(crate) fn record_at<D: Disk>(
    alloc: Global,
    window: &mut Window,
    disk: &mut D,
    place: u64,
) -> RecordRead
    requires near { place < 2 ^ 62 }
    requires sees { Sees (D.tells.content disk.old) window.old }
    ensures gives { RecordGives (D.tells.faults disk.old) (D.tells.faults disk.new) (D.tells.content disk.old) place result }
    ensures sees { Sees (D.tells.content disk.new) window.new }
    ensures nothing { Untouched D.tells disk.old disk.new }
    ensures count { D.tells.faults disk.old ≤ D.tells.faults disk.new }
{
    match lead_at(window, disk, place) {
        LeadRead::Shut => RecordRead::Shut,
        LeadRead::Broken => RecordRead::Broken,
        LeadRead::Failed => RecordRead::Failed,
        LeadRead::Sized(len) => {
            match body_at(alloc, window, disk, place + AROUND, len as usize) {
                BodyRead::Got(item) => RecordRead::Item(item),
                BodyRead::Short => RecordRead::Broken,
                BodyRead::Failed => RecordRead::Failed,
                BodyRead::NoMemory => RecordRead::NoMemory,
            }
        }
    }
}

// The item of so many bytes at the place.
fn body_at<D: Disk>(
    alloc: Global,
    window: &mut Window,
    disk: &mut D,
    place: u64,
    len: usize,
) -> BodyRead
    requires near { place < 2 ^ 63 }
    requires sees { Sees (D.tells.content disk.old) window.old }
    ensures gives { BodyGives (D.tells.faults disk.old) (D.tells.faults disk.new) (D.tells.content disk.old) place len result }
    ensures sees { Sees (D.tells.content disk.new) window.new }
    ensures nothing { Untouched D.tells disk.old disk.new }
    ensures count { D.tells.faults disk.old ≤ D.tells.faults disk.new }
{
    if len > WINDOW {
        return long_body_at(alloc, disk, place, len);
    }
    match window.reach(disk, place, len) {
        Reached::Failed => BodyRead::Failed,
        Reached::There => body_of(alloc, window.part(place, len), len),
    }
}

// The item of so many bytes, where these are all the bytes from its place on, or the first so many of them.
fn body_of(alloc: Global, bytes: &[u8], len: usize) -> BodyRead
    requires { length bytes.now ≤ len }
    ensures { BodyFrom bytes.now len result }
{
    if bytes.len() < len {
        return BodyRead::Short;
    }
    match Blob::of(alloc, bytes) {
        Ok(blob) => BodyRead::Got(blob),
        Err(_) => BodyRead::NoMemory,
    }
}

// The item of so many bytes at the place, by a read of its own.
fn long_body_at<D: Disk>(alloc: Global, disk: &mut D, place: u64, len: usize) -> BodyRead
    ensures gives { BodyGives (D.tells.faults disk.old) (D.tells.faults disk.new) (D.tells.content disk.old) place len result }
    ensures nothing { Untouched D.tells disk.old disk.new }
    ensures count { D.tells.faults disk.old ≤ D.tells.faults disk.new }
{
    let mut piece = match Vec::from_elem(alloc, 0u8, len) {
        Ok(piece) => piece,
        Err(_) => return BodyRead::NoMemory,
    };
    match disk.read(place, &mut piece) {
        DiskRead::Failed => BodyRead::Failed,
        DiskRead::Got(n) => body_of(alloc, piece.as_slice().split_at(n).0, len),
    }
}
