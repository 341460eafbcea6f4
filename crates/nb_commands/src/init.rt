ghost use Rattle.std.specs.Prelude.{◌≡◌, ◌≤◌, ◌++◌, ◌∷◌, [], IfSome, OnOk};
ghost use Rattle.nb_units.specs.declared.limits.TheConstants.{MAX_RATE};
ghost use Rattle.nb_port.specs.Disk.{wrote_at};
ghost use Rattle.nb_journal.specs.Layout.{front_bytes};
ghost use Rattle.nb_journal.specs.Making.{InitGives, SparesJournal};
ghost use Rattle.nb_commands.specs.Init.{MakesAs, HeadGives, CountedAs, charter_with, ending_of};

use crate::ending::{BAD_INPUT, CLEAN, DISK_FAILED, Ending, NOT_MADE, SOURCE_FAILED};
use nb_journal::{HEAD, InitFault, MAX_CAP, init, init2};
use nb_port::{Disk, ReadOut, Source};

/// How making a journal ended.
#[derive(Clone, Copy)]
pub enum InitEnd {
    /// It was made.
    Made,
    /// The cap is 0 or above [`MAX_CAP`](nb_journal::MAX_CAP). Nothing was read.
    BadCap,
    /// The source failed.
    ReadFault,
    /// The input is not as long as a head. So many bytes were read, at most one more than a head has.
    BadInput { bytes: u64 },
    /// The disk has a journal, which stays as it is.
    Exists,
    /// The disk failed as it was read whether it has a journal. Nothing was written.
    LookFault,
    /// The disk, which had no journal, failed.
    DiskFault,
}

impl InitEnd {
    /// How it ends the program.
    pub fn ending(self) -> Ending
        ensures { result ≡ ending_of self }
    {
        match self {
            InitEnd::Made => Ending::at_no_place(CLEAN),
            InitEnd::BadCap => Ending::at_no_place(NOT_MADE),
            InitEnd::ReadFault => Ending::at_no_place(SOURCE_FAILED),
            InitEnd::BadInput { bytes } => Ending {
                status: BAD_INPUT,
                place: bytes,
            },
            InitEnd::Exists => Ending::at_no_place(NOT_MADE),
            InitEnd::LookFault => Ending::at_no_place(DISK_FAILED),
            InitEnd::DiskFault => Ending::at_no_place(DISK_FAILED),
        }
    }
}

// What the source gave of a head.
#[derive(Drop)]
enum HeadRead {
    Whole([u8; HEAD]),
    Other { bytes: u64 },
    Failed,
}

/// Makes a journal without entries on the disk. Its head is the whole input, and it holds at most `cap` entries. With a rate, of at most
/// [`MAX_RATE`](nb_units::MAX_RATE) thousandths, its house keeps a fee of each payment.
pub fn make_journal<S: Source, D: Disk>(
    source: &mut S,
    disk: &mut D,
    cap: u32,
    rate: Option<u16>,
) -> InitEnd
    requires rate { IfSome rate (λ r. r ≤ MAX_RATE) }
    ensures made { MakesAs D.tells (S.left source.old) (S.left source.new) (S.faults source.old) (S.faults source.new) disk.old disk.new cap rate result }
    ensures spares { SparesJournal D.tells disk.old disk.new }
    ensures source { S.faults source.old ≤ S.faults source.new }
    ensures disk { D.tells.faults disk.old ≤ D.tells.faults disk.new }
{
    if cap < 1 || cap > MAX_CAP {
        return InitEnd::BadCap;
    }
    let head = match read_head(source) {
        HeadRead::Whole(head) => head,
        HeadRead::Other { bytes } => return InitEnd::BadInput { bytes },
        HeadRead::Failed => return InitEnd::ReadFault,
    };
    match make_with(disk, &head, cap, rate) {
        Ok(()) => InitEnd::Made,
        Err(InitFault::Exists { .. }) => InitEnd::Exists,
        Err(InitFault::LookFailed { .. }) => InitEnd::LookFault,
        Err(InitFault::DiskFault { .. }) => InitEnd::DiskFault,
        Err(InitFault::BadCap { .. } | InitFault::BadRate { .. }) => unreachable!(),
    }
}

// Makes the journal of this head, in the version with fees where there is a rate.
fn make_with<D: Disk>(
    disk: &mut D,
    head: &[u8; HEAD],
    cap: u32,
    rate: Option<u16>,
) -> Result<(), InitFault>
    ensures gives { InitGives D.tells disk.old disk.new cap (charter_with head.now rate) result }
    ensures spares { SparesJournal D.tells disk.old disk.new }
    ensures bytes { OnOk result (D.tells.content disk.new ≡ wrote_at (D.tells.content disk.old) 0 (front_bytes cap (charter_with head.now rate) ++ 0 ∷ [])) }
    ensures count { D.tells.faults disk.old ≤ D.tells.faults disk.new }
{
    match rate {
        None => init(disk, head, cap),
        Some(rate) => init2(disk, head, cap, rate),
    }
}

// Reads the source up to its end, or up to one byte more than a head has.
fn read_head<S: Source>(source: &mut S) -> HeadRead
    ensures gives { HeadGives (S.faults source.old) (S.faults source.new) (S.left source.old) (S.left source.new) result }
    ensures count { S.faults source.old ≤ S.faults source.new }
{
    let mut bytes = [0u8; HEAD + 1];
    let mut at = 0;
    'reading: while at < HEAD + 1 {
        match source.read(bytes.split_at_mut(at).1) {
            ReadOut::Bytes(n) => at += n,
            ReadOut::End => return head_in(&bytes, at),
            ReadOut::Failed => return HeadRead::Failed,
        }
    }
    HeadRead::Other { bytes: at as u64 }
}

// The first bytes, of which there are so many.
fn head_in(bytes: &[u8; HEAD + 1], count: usize) -> HeadRead
    ensures { CountedAs bytes.now count result }
{
    if count != HEAD {
        return HeadRead::Other {
            bytes: count as u64,
        };
    }
    let mut head = [0u8; HEAD];
    head.copy_from_slice(bytes.split_at(HEAD).0);
    HeadRead::Whole(head)
}
