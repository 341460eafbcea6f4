ghost use Rattle.std.specs.Prelude.{◌≡◌, ◌≤◌, ◌+◌, ◌↔◌, IsTrue, length};
ghost use Rattle.nb_units.specs.declared.limits.TheConstants.{MAX_RATE};
ghost use Rattle.nb_journal.specs.declared.limits.TheConstants.{EMPTY, MAX_IMAGE};
ghost use Rattle.nb_journal.specs.Making.{SparesJournal};
ghost use Rattle.nb_commands.specs.Migrate.{BeginsFirst, JudgedAs, MovesAs, PutsAs, move_ending, refused_for, renewed};

use crate::ending::{
    BAD_INPUT, CLEAN, DISK_FAILED, Ending, NOT_MADE, OUT_OF_MEMORY, SOURCE_FAILED,
};
use crate::input::{InputRead, read_most};
use nb_journal::{MAGIC_BYTES, MAX_IMAGE, MagicRead, crown, lay, magic_of};
use nb_port::{ByteDisk, Disk, Source};
use nb_vault::{Vault, VaultFault};
use std::alloc::Global;

// What a journal of the first version begins with.
const FIRST_MAGIC: [u8; MAGIC_BYTES] = *b"NBJRNL01";

// Where the rate stands in a journal, and its bytes.
const RATE_AT: usize = 92;

const RATE: usize = 2;

/// How moving a journal into one of the second version ended.
#[derive(Clone, Copy)]
pub enum MigrateEnd {
    /// It was moved.
    Moved,
    /// The source failed. The disk was not touched, as it is not at the next five.
    ReadFault,
    /// The input is longer than [`MAX_IMAGE`](nb_journal::MAX_IMAGE).
    TooLong,
    /// The input does not begin with the magic of the first version.
    NotFirst,
    /// The input begins so and is damaged, first at the item whose gate is at this place, or in its front, which is told as place 8.
    Damaged { place: u64 },
    /// The input is a whole journal of the first version with an item that no vault has.
    BadEntry,
    /// There was no memory.
    NoMemory,
    /// The disk has a journal, which stays as it is.
    Exists,
    /// The disk failed as it was read whether it has a journal. Nothing was written.
    LookFault,
    /// The disk, which had no journal, failed as the new one was laid on it. It may hold any bytes.
    LayFault,
    /// It failed as the magic was written: it holds what is no journal of the second version, or the whole one.
    CrownFault,
}

impl MigrateEnd {
    /// How it ends the program.
    pub fn ending(self) -> Ending
        ensures { result ≡ move_ending self }
    {
        match self {
            MigrateEnd::Moved => Ending::at_no_place(CLEAN),
            MigrateEnd::ReadFault => Ending::at_no_place(SOURCE_FAILED),
            MigrateEnd::TooLong => Ending {
                status: BAD_INPUT,
                place: MAX_IMAGE as u64,
            },
            MigrateEnd::NotFirst => Ending::at_no_place(BAD_INPUT),
            MigrateEnd::Damaged { place } => Ending {
                status: BAD_INPUT,
                place,
            },
            MigrateEnd::BadEntry => Ending::at_no_place(BAD_INPUT),
            MigrateEnd::NoMemory => Ending::at_no_place(OUT_OF_MEMORY),
            MigrateEnd::Exists => Ending::at_no_place(NOT_MADE),
            MigrateEnd::LookFault => Ending::at_no_place(DISK_FAILED),
            MigrateEnd::LayFault => Ending::at_no_place(DISK_FAILED),
            MigrateEnd::CrownFault => Ending::at_no_place(DISK_FAILED),
        }
    }
}

/// Makes a journal of the second version on the disk, with this rate, which is at most [`MAX_RATE`](nb_units::MAX_RATE). The whole input is a
/// journal of the first version: its cap, its head and its entries are the new one's.
pub fn move_journal<S: Source, D: Disk>(
    alloc: Global,
    source: &mut S,
    disk: &mut D,
    rate: u16,
) -> MigrateEnd
    requires rate { rate ≤ MAX_RATE }
    ensures moved { MovesAs D.tells (S.left source.old) (S.left source.new) (S.faults source.old) (S.faults source.new) disk.old disk.new rate result }
    ensures spares { SparesJournal D.tells disk.old disk.new }
    ensures source { S.faults source.old ≤ S.faults source.new }
    ensures disk { D.tells.faults disk.old ≤ D.tells.faults disk.new }
{
    let mut image = match read_most(alloc, source, MAX_IMAGE) {
        InputRead::All(image) => image,
        InputRead::Longer => return MigrateEnd::TooLong,
        InputRead::Failed => return MigrateEnd::ReadFault,
        InputRead::NoMemory => return MigrateEnd::NoMemory,
    };
    let gate = match gate_in(alloc, image.as_slice()) {
        Ok(gate) => gate,
        Err(end) => return end,
    };
    renew(&mut image, gate, rate);
    match magic_of(disk) {
        MagicRead::Is(_) => return MigrateEnd::Exists,
        MagicRead::Failed => return MigrateEnd::LookFault,
        MagicRead::Other => {}
    }
    put_journal(disk, image.as_slice())
}

// The place of the gate behind the entries of a journal of the first version.
fn gate_in(alloc: Global, image: &[u8]) -> Result<u64, MigrateEnd>
    ensures { JudgedAs image.now result }
{
    if !begins_first(image) {
        return Err(MigrateEnd::NotFirst);
    }
    match Vault::open(alloc, ByteDisk::over(image)) {
        Ok(house) => Ok(house.end()),
        Err((fault, _disk)) => Err(refused(fault)),
    }
}

// Whether the image begins with the magic of the first version.
fn begins_first(image: &[u8]) -> bool
    ensures { IsTrue result ↔ BeginsFirst image.now }
{
    if image.len() < MAGIC_BYTES {
        return false;
    }
    image.split_at(MAGIC_BYTES).0 == FIRST_MAGIC.as_slice()
}

// Why an image was not opened. A disk over bytes does not fail.
fn refused(fault: VaultFault) -> MigrateEnd
    ensures { result ≡ refused_for fault }
{
    match fault {
        VaultFault::Unborn { .. } => MigrateEnd::NotFirst,
        VaultFault::Damaged { place, .. } => MigrateEnd::Damaged { place },
        VaultFault::BadEntry { .. } => MigrateEnd::BadEntry,
        VaultFault::DiskFault { .. } => MigrateEnd::NoMemory,
        VaultFault::NoMemory => MigrateEnd::NoMemory,
    }
}

// Cuts the image behind its gate, and writes the rate in it.
fn renew(image: &mut Vec<u8>, gate: u64, rate: u16)
    requires front { 93 ≤ gate }
    requires within { gate + 1 ≤ length image.old.items }
    ensures items { image.new.items ≡ renewed image.old.items gate rate }
    ensures len { length image.new.items ≡ gate + 1 }
{
    image.truncate(gate as usize + 1);
    let (_, behind) = image.as_mut_slice().split_at_mut(RATE_AT);
    behind
        .split_at_mut(RATE)
        .0
        .copy_from_slice(&rate.to_be_bytes());
}

// Lays the image on the disk, and then writes the magic of the second version.
fn put_journal<D: Disk>(disk: &mut D, image: &[u8]) -> MigrateEnd
    requires some { EMPTY ≤ length image.now }
    requires most { length image.now ≤ MAX_IMAGE }
    ensures puts { PutsAs D.tells disk.old disk.new image.now result }
    ensures count { D.tells.faults disk.old ≤ D.tells.faults disk.new }
{
    match lay(disk, image) {
        Ok(()) => {}
        Err(_) => return MigrateEnd::LayFault,
    }
    match crown(disk) {
        Ok(()) => MigrateEnd::Moved,
        Err(_) => MigrateEnd::CrownFault,
    }
}
