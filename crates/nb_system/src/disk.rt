ghost use Rattle.std.specs.Prelude.{◌≡◌, ◌≢◌, ◌<◌, ◌≤◌, ◌+◌, ◌^◌, IfSome, None, length, take};
ghost use Rattle.nb_port.specs.Disk.{DiskReadGives, DiskWriteGives, MayTear, wrote_at};
ghost use Rattle.nb_port.specs.Faults.{Rose};
ghost use Rattle.nb_system.specs.File.{Within, ReadsPart};
ghost use Rattle.nb_system.specs.System.{StaysFailed, WritesFrom};
ghost use Rattle.nb_port.specs.declared.disk.DiskRead.TheVariants as reads;
ghost use Rattle.nb_port.specs.declared.disk.DiskOut.TheVariants as outs;
ghost use Rattle.nb_port.specs.DiskLaws.{untold};

use crate::file::{FileRead, FileWrite, PositionalFile};
use crate::std_file::StdFile;
use nb_port::{Disk, DiskOut, DiskRead};
use std::fs::File;
use std::marker::Model;

// No file has a byte behind this place.
const LAST_PLACE: u64 = i64::MAX as u64;

/// What a disk knows of its file.
#[derive(Clone, Copy)]
pub enum FileState {
    /// No call was made: what is kept in memory of it may not be what the device has.
    Unprepared,
    /// It was prepared, and each sync since was done.
    Prepared,
    /// A sync failed, or preparing did. No call is made of it any more.
    Failed,
}

/// A disk over an open file. The first call prepares the file. Once that, or a sync, failed, each call fails.
#[derive(Drop)]
pub struct FileDisk<F: PositionalFile + Drop> {
    file: F,
    state: FileState,
    faults: u64,
}

impl<F: PositionalFile + Drop> Model for FileDisk<F> {
    ghost use Rattle.std.specs.Prelude.{◌≡◌};
    ghost use Rattle.nb_system.specs.System.{FileAdapter};
    ghost use Rattle.nb_system.specs.declared.disk.FileState.TheVariants as states;

    ghost Value = { FileAdapter F };

    ghost view = { λ d. record { file = d.file; state = d.state; faults = d.faults } };

    ghost invariant = { λ d. d.state ≡ states.Prepared → F.faithful d.file × F.named d.file };
}

impl FileDisk<StdFile> {
    /// A disk whose bytes are those of `file`, which lies in `folder`. No call was made.
    pub fn over(file: File, folder: File) -> FileDisk<StdFile>
        ensures { result ≡ record { file = record { file = file; folder = folder }; state = FileState.Unprepared; faults = 0 } }
    {
        FileDisk::of(StdFile::over(file, folder))
    }
}

impl<F: PositionalFile + Drop> FileDisk<F> {
    /// A disk whose bytes are those of `file`. No call was made.
    pub fn of(file: F) -> FileDisk<F>
        ensures { result ≡ record { file = file; state = FileState.Unprepared; faults = 0 } }
    {
        FileDisk {
            file,
            state: FileState::Unprepared,
            faults: 0,
        }
    }

    /// The file, handed back.
    pub fn into_file(self) -> F
        ensures { result ≡ self.file }
    {
        self.file
    }

    // Prepares the file where no call was made yet.
    fn ready(&mut self) -> DiskOut
        ensures done { result ≡ outs.Done → (self.new.state ≡ FileState.Prepared) × (self.new.faults ≡ self.old.faults) }
        ensures failed { result ≡ outs.Failed → (self.new.state ≡ FileState.Failed) × Rose self.old.faults self.new.faults }
        ensures prepared { self.old.state ≡ FileState.Prepared → self.new ≡ self.old }
        ensures durable { self.old.state ≡ FileState.Unprepared → result ≡ outs.Done → F.durable self.new.file ≡ F.content self.new.file }
        ensures stays { StaysFailed self.old self.new (result ≡ outs.Failed) }
        ensures count { self.old.faults ≤ self.new.faults }
    {
        match self.state {
            FileState::Prepared => return DiskOut::Done,
            FileState::Failed => {}
            FileState::Unprepared => match prepare(&mut self.file) {
                DiskOut::Done => {
                    self.state = FileState::Prepared;
                    return DiskOut::Done;
                }
                DiskOut::Failed => self.state = FileState::Failed,
            },
        }
        self.faults = self.faults.saturating_add(1);
        DiskOut::Failed
    }
}

impl<F: PositionalFile + Drop> Disk for FileDisk<F> {
    ghost tells = { record {
      faults = λ d. d.faults;
      content = λ _. None;
      allowed = λ _ _. ⊥;
      moment = λ _. 0;
      left = λ _ _ _. ⊥;
    } };

    ghost content_counts = { λ _ c is. untold c is };

    ghost counts_now = { λ _ _ _ _ is. is };

    ghost only_now = { λ _ _ is. is };

    fn fault_count(&self) -> u64 {
        self.faults
    }

    fn read(&mut self, place: u64, buf: &mut [u8]) -> DiskRead
        // What the buffer holds is what the file's content has there, fewer bytes than there is room for only where the content ends; the content is
        // that from before where the file was prepared (`kept`), and else that which preparing it left.
        ensures bytes { DiskReadGives self.old.faults self.new.faults (F.content self.new.file) place (length buf.old) buf.new result }
        // A prepared file stays prepared, with the content that it had.
        ensures kept { self.old.state ≡ FileState.Prepared → (self.new.state ≡ FileState.Prepared) × (F.content self.new.file ≡ F.content self.old.file) }
        ensures first { result ≢ reads.Failed → self.new.state ≡ FileState.Prepared }
        ensures stays { StaysFailed self.old self.new (result ≡ reads.Failed) }
        ensures count { self.old.faults ≤ self.new.faults }
    {
        match self.ready() {
            DiskOut::Done => {}
            DiskOut::Failed => return DiskRead::Failed,
        }
        read_whole(&mut self.file, &mut self.faults, place, buf)
    }

    fn write(&mut self, place: u64, piece: &[u8]) -> DiskOut
        requires small { place + length piece.now < 2 ^ 63 }
        ensures told { result ≡ outs.Failed → Rose self.old.faults self.new.faults }
        // At a place within the content of a prepared file, or at its end, exactly the piece stands there, and nothing else changed; one that failed
        // changed nothing outside its range. Of a file that this call prepares the same is said behind some content, that which preparing left.
        ensures bytes { WritesFrom F.content self.old self.new place piece.now result }
        // A prepared file stays prepared.
        ensures kept { self.old.state ≡ FileState.Prepared → self.new.state ≡ FileState.Prepared }
        ensures first { result ≡ outs.Done → self.new.state ≡ FileState.Prepared }
        ensures stays { StaysFailed self.old self.new (result ≡ outs.Failed) }
        ensures count { self.old.faults ≤ self.new.faults }
    {
        match self.ready() {
            DiskOut::Done => {}
            DiskOut::Failed => return DiskOut::Failed,
        }
        write_whole(&mut self.file, &mut self.faults, place, piece)
    }

    fn sync(&mut self) -> DiskOut
        // Once done, the file is prepared and the device has what its content is.
        ensures durable { result ≡ outs.Done → (self.new.state ≡ FileState.Prepared) × (F.durable self.new.file ≡ F.content self.new.file) }
        // Of a prepared file the content is as before.
        ensures kept { self.old.state ≡ FileState.Prepared → F.content self.new.file ≡ F.content self.old.file }
        // Once failed, the count rose and each later call fails.
        ensures failed { result ≡ outs.Failed → (self.new.state ≡ FileState.Failed) × Rose self.old.faults self.new.faults }
        ensures stays { StaysFailed self.old self.new (result ≡ outs.Failed) }
        ensures count { self.old.faults ≤ self.new.faults }
    {
        if self.state != FileState::Prepared {
            // Preparing syncs.
            return self.ready();
        }
        match self.file.sync_all() {
            DiskOut::Done => DiskOut::Done,
            DiskOut::Failed => {
                self.state = FileState::Failed;
                self.faults = self.faults.saturating_add(1);
                DiskOut::Failed
            }
        }
    }
}

// Syncs the file, drops what is kept of it in memory, and syncs its folder.
fn prepare<F: PositionalFile>(file: &mut F) -> DiskOut
    ensures { result ≡ outs.Done → F.faithful file.new × F.named file.new × (F.durable file.new ≡ F.content file.new) }
{
    match file.sync_all() {
        DiskOut::Done => {}
        DiskOut::Failed => return DiskOut::Failed,
    }
    match file.drop_pages() {
        DiskOut::Done => {}
        DiskOut::Failed => return DiskOut::Failed,
    }
    match file.sync_folder() {
        DiskOut::Done => DiskOut::Done,
        DiskOut::Failed => DiskOut::Failed,
    }
}

// Reads the bytes of `file` from `place` on until `buf` is full or the file ends.
fn read_whole<F: PositionalFile>(
    file: &mut F,
    faults: &mut u64,
    place: u64,
    buf: &mut [u8],
) -> DiskRead
    requires faithful { F.faithful file.old }
    requires named { F.named file.old }
    ensures gives { DiskReadGives faults.old faults.new (F.content file.old) place (length buf.old) buf.new result }
    ensures content { F.content file.new ≡ F.content file.old }
    ensures faithful { F.faithful file.new }
    ensures named { F.named file.new }
    ensures count { faults.old ≤ faults.new }
{
    let mut done = 0;
    while done < buf.len() {
        let at = place.saturating_add(done as u64);
        if at > LAST_PLACE {
            return DiskRead::Got(done);
        }
        match read_part(file, faults, at, buf.split_at_mut(done).1) {
            Some(0) => return DiskRead::Got(done),
            Some(n) => done += n,
            None => return DiskRead::Failed,
        }
    }
    DiskRead::Got(done)
}

// One read of `file` that is not interrupted: how many bytes it gave. `faults` counts those that failed.
fn read_part<F: PositionalFile>(
    file: &mut F,
    faults: &mut u64,
    place: u64,
    buf: &mut [u8],
) -> Option<usize>
    requires faithful { F.faithful file.old }
    requires named { F.named file.old }
    requires small { place < 2 ^ 63 }
    ensures some { IfSome result (λ n. (n ≤ length buf.old) × ReadsPart (F.content file.old) place (length buf.old) buf.new n) }
    ensures none { result ≡ None → Rose faults.old faults.new }
    ensures content { F.content file.new ≡ F.content file.old }
    ensures faithful { F.faithful file.new }
    ensures named { F.named file.new }
    ensures count { faults.old ≤ faults.new }
{
    for _ in 0..u64::MAX {
        match file.read_at(place, buf) {
            FileRead::Got(n) => return Some(n),
            FileRead::Interrupted => *faults = faults.saturating_add(1),
            FileRead::Failed => break,
        }
    }
    *faults = faults.saturating_add(1);
    None
}

// Writes all of the piece to `file`, from `place` on.
fn write_whole<F: PositionalFile>(
    file: &mut F,
    faults: &mut u64,
    place: u64,
    piece: &[u8],
) -> DiskOut
    requires faithful { F.faithful file.old }
    requires named { F.named file.old }
    requires small { place + length piece.now < 2 ^ 63 }
    ensures gives { Within (F.content file.old) place → DiskWriteGives faults.old faults.new (F.content file.old) (F.content file.new) place piece.now result }
    ensures failed { result ≡ outs.Failed → Rose faults.old faults.new }
    ensures faithful { F.faithful file.new }
    ensures named { F.named file.new }
    ensures count { faults.old ≤ faults.new }
{
    let mut done = 0;
    'writing: while done < piece.len() {
        match write_part(file, faults, place + done as u64, piece.split_at(done).1) {
            Some(n) => done += n,
            None => return DiskOut::Failed,
        }
    }
    DiskOut::Done
}

// One write of `file` that is not interrupted: how many bytes of the piece were written, at least one. `faults` counts those
// that failed or wrote nothing.
fn write_part<F: PositionalFile>(
    file: &mut F,
    faults: &mut u64,
    place: u64,
    piece: &[u8],
) -> Option<usize>
    requires faithful { F.faithful file.old }
    requires named { F.named file.old }
    requires some { 1 ≤ length piece.now }
    requires small { place + length piece.now < 2 ^ 63 }
    ensures some { IfSome result (λ n. (1 ≤ n) × (n ≤ length piece.now) × (Within (F.content file.old) place → F.content file.new ≡ wrote_at (F.content file.old) place (take n piece.now))) }
    ensures none { result ≡ None → Rose faults.old faults.new × (Within (F.content file.old) place → MayTear (F.content file.old) (F.content file.new) place (length piece.now)) }
    ensures faithful { F.faithful file.new }
    ensures named { F.named file.new }
    ensures count { faults.old ≤ faults.new }
{
    for _ in 0..u64::MAX {
        match file.write_at(place, piece) {
            FileWrite::Took(0) => {
                *faults = faults.saturating_add(1);
                return None;
            }
            FileWrite::Took(n) => return Some(n),
            FileWrite::Interrupted => *faults = faults.saturating_add(1),
            FileWrite::Failed => {
                *faults = faults.saturating_add(1);
                return None;
            }
        }
    }
    *faults = faults.saturating_add(1);
    None
}
