ghost use Rattle.std.specs.Prelude.{◌≡◌, ⊤, None, if◌then◌else◌};
ghost use Rattle.nb_port.specs.DiskLaws.{untold_fits};

use crate::file::{FileRead, FileWrite, PositionalFile};
use nb_port::DiskOut;
use std::fs::File;
use std::io;
use std::os::fd::AsRawFd;
use std::os::unix::fs::FileExt;

// How the system names the limit of a file's size, where it is asked for a limit.
const FILE_SIZE: i32 = 1;

// So many bytes of a file the system is asked to read ahead, once its pages were dropped: a journal is read from its beginning next, by pieces of as many.
const READ_AHEAD: i64 = 65_536;

/// A file of std and its folder.
pub struct StdFile {
    file: File,
    folder: File,
}

impl Drop for StdFile {
    fn drop(self) {
        let Self { file: _, folder: _ } = self;
    }
}

impl StdFile {
    /// The file, in this folder.
    pub fn over(file: File, folder: File) -> StdFile
        ensures { result ≡ record { file = file; folder = folder } }
    {
        StdFile { file, folder }
    }
}

impl PositionalFile for StdFile {
    ghost content = { λ _. None };

    ghost durable = { λ _. None };

    ghost synced = { λ _. ⊤ };

    ghost faithful = { λ _. ⊤ };

    ghost named = { λ _. ⊤ };

    ghost fits = { λ _ bytes is. untold_fits bytes is };

    fn read_at(&mut self, place: u64, buf: &mut [u8]) -> FileRead {
        match self.file.read_at(buf, place) {
            Ok(n) => FileRead::Got(n),
            Err(error) if error.kind() == io::ErrorKind::Interrupted => FileRead::Interrupted,
            Err(_) => FileRead::Failed,
        }
    }

    // A write that begins at the limit of a file's size, or behind it, would end the process by a signal. One that reaches it is cut there.
    fn write_at(&mut self, place: u64, piece: &[u8]) -> FileWrite {
        if place >= longest_file() {
            return FileWrite::Failed;
        }
        match self.file.write_at(piece, place) {
            Ok(n) => FileWrite::Took(n),
            Err(error) if error.kind() == io::ErrorKind::Interrupted => FileWrite::Interrupted,
            Err(_) => FileWrite::Failed,
        }
    }

    fn sync_all(&mut self) -> DiskOut {
        done_if(self.file.sync_all().is_ok())
    }

    // What is read ahead comes from the device, as what is read later does. To ask for it is a hint, and no answer depends on it.
    fn drop_pages(&mut self) -> DiskOut {
        let fd = self.file.as_raw_fd();
        let dropped = libc::posix_fadvise(fd, 0, 0, libc::POSIX_FADV_DONTNEED) == 0;
        let _ = libc::posix_fadvise(fd, 0, READ_AHEAD, libc::POSIX_FADV_WILLNEED);
        done_if(dropped)
    }

    fn sync_folder(&mut self) -> DiskOut {
        done_if(self.folder.sync_all().is_ok())
    }
}

// How many bytes the system lets a file of this process have. Where it does not say there is no limit.
fn longest_file() -> u64 {
    let mut limit = libc::types::rlimit {
        rlim_cur: u64::MAX,
        rlim_max: u64::MAX,
    };
    if libc::getrlimit(FILE_SIZE, &mut limit) != 0 {
        return u64::MAX;
    }
    limit.rlim_cur
}

// What a call that worked, or failed, gives.
fn done_if(worked: bool) -> DiskOut
    ensures { result ≡ (if worked then DiskOut.Done else DiskOut.Failed) }
{
    if worked {
        DiskOut::Done
    } else {
        DiskOut::Failed
    }
}
