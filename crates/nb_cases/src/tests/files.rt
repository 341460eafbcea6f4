// A disk over a file: one whose calls are interrupted, fail or do a part, and real ones.

ghost use Rattle.std.specs.Prelude.{⊤, None, ◌≤◌, ◌+◌};
ghost use Rattle.nb_port.specs.DiskLaws.{untold_fits};

use nb_port::{Disk, DiskOut, DiskRead};
use nb_system::{FileDisk, FileRead, FileWrite, PositionalFile, StdFile};
use std::fs::{File, OpenOptions};
use std::path::PathBuf;
use std::test::Fail;
use std::{env, fs, process};

// A file of eight bytes, which gives and takes two bytes a call at most. Of its calls, numbered from 1, all kinds together, one
// is interrupted and one fails. It keeps the kinds of the first of them: S sync, P pages, F folder, R read, W write.
#[derive(Drop)]
struct Flaky {
    bytes: [u8; 8],
    interrupted: usize,
    fails: usize,
    calls: usize,
    kinds: [u8; 12],
}

// A call that works, is interrupted or fails.
#[derive(Clone, Copy)]
enum Turn {
    Works,
    Interrupted,
    Fails,
}

impl Flaky {
    fn next(&mut self, kind: u8) -> Turn {
        if self.calls < 12 {
            self.kinds[self.calls] = kind;
        }
        self.calls = self.calls.saturating_add(1);
        if self.calls == self.interrupted {
            return Turn::Interrupted;
        }
        if self.calls == self.fails {
            return Turn::Fails;
        }
        Turn::Works
    }

    fn done(&mut self, kind: u8) -> DiskOut {
        match self.next(kind) {
            Turn::Works => DiskOut::Done,
            _ => DiskOut::Failed,
        }
    }
}

// Where the bytes from this place on end that one call gives or takes.
fn part(place: u64, room: usize) -> (usize, usize)
    ensures { (result.0 ≤ result.1) × (result.1 ≤ 8) × (result.1 ≤ result.0 + room) }
{
    let at = place.min(8) as usize;
    (at, at + (8 - at).min(room).min(2))
}

impl PositionalFile for Flaky {
    ghost content = { λ _. None };

    ghost durable = { λ _. None };

    ghost synced = { λ _. ⊤ };

    ghost faithful = { λ _. ⊤ };

    ghost named = { λ _. ⊤ };

    ghost fits = { λ _ bytes is. untold_fits bytes is };

    fn read_at(&mut self, place: u64, buf: &mut [u8]) -> FileRead {
        match self.next(b'R') {
            Turn::Works => {}
            Turn::Interrupted => return FileRead::Interrupted,
            Turn::Fails => return FileRead::Failed,
        }
        let (at, end) = part(place, buf.len());
        buf[..end - at].copy_from_slice(&self.bytes[at..end]);
        FileRead::Got(end - at)
    }

    fn write_at(&mut self, place: u64, piece: &[u8]) -> FileWrite {
        match self.next(b'W') {
            Turn::Works => {}
            Turn::Interrupted => return FileWrite::Interrupted,
            Turn::Fails => return FileWrite::Failed,
        }
        let (at, end) = part(place, piece.len());
        self.bytes[at..end].copy_from_slice(&piece[..end - at]);
        FileWrite::Took(end - at)
    }

    fn sync_all(&mut self) -> DiskOut {
        self.done(b'S')
    }

    fn drop_pages(&mut self) -> DiskOut {
        self.done(b'P')
    }

    fn sync_folder(&mut self) -> DiskOut {
        self.done(b'F')
    }
}

fn over_flaky(interrupted: usize, fails: usize) -> FileDisk<Flaky> {
    FileDisk::of(Flaky {
        bytes: *b"abcdefgh",
        interrupted,
        fails,
        calls: 0,
        kinds: *b"............",
    })
}

// What a read gives, and the buffer behind it.
fn read_at(disk: &mut FileDisk<Flaky>, place: u64, buf: [u8; 5]) -> (DiskRead, [u8; 5]) {
    let mut buf = buf;
    let read = disk.read(place, &mut buf);
    (read, buf)
}

// A short call is gone on with, and one that was interrupted is tried again, which counts.
#[test]
fn reads_on_behind_a_part(rt: HostRuntime) {
    for interrupted in 4..7 {
        let mut disk = over_flaky(interrupted, 0);
        let first = read_at(&mut disk, 1, [0; 5]);
        assert_eq!(rt; first, (DiskRead::Got(5), *b"bcdef"));
        let second = read_at(&mut disk, 6, first.1);
        assert_eq!(rt; second, (DiskRead::Got(2), *b"ghdef"));
        assert_eq!(rt; disk.fault_count(), 1);
    }
}

// A write past the end takes nothing more, and fails.
#[test]
fn writes_on_behind_a_part(rt: HostRuntime) {
    for interrupted in 4..7 {
        let mut disk = over_flaky(interrupted, 0);
        assert_eq!(rt; disk.write(1, b"VWXYZ"), DiskOut::Done);
        assert_eq!(rt; disk.write(6, b"123"), DiskOut::Failed);
        assert_eq!(rt; disk.fault_count(), 2);
        assert_eq!(rt; &disk.into_file().bytes, b"aVWXYZ12");
    }
}

// A call of the disk by its letter, and whether it worked.
fn works(disk: &mut FileDisk<Flaky>, call: u8) -> bool {
    match call {
        b'R' => disk.read(0, &mut [0; 2]) == DiskRead::Got(2),
        b'W' => disk.write(0, b"zz") == DiskOut::Done,
        _ => disk.sync() == DiskOut::Done,
    }
}

// What comes of these calls, one after another, where the call of the file with this number fails: a letter for each that
// worked and a dash for each that did not; and which calls of the file there were.
static FAILS: [(usize, &'static [u8], &'static [u8], &'static [u8]); 15] = [
    (0, b"RWSRWS", b"RWSRWS", b"SPFRWSRWS"),
    (1, b"RWSRWS", b"------", b"S"),
    (2, b"RWSRWS", b"------", b"SP"),
    (3, b"RWSRWS", b"------", b"SPF"),
    (4, b"RWSRWS", b"-WSRWS", b"SPFRWSRWS"),
    (5, b"RWSRWS", b"R-SRWS", b"SPFRWSRWS"),
    (6, b"RWSRWS", b"RW----", b"SPFRWS"),
    (7, b"RWSRWS", b"RWS-WS", b"SPFRWSRWS"),
    (8, b"RWSRWS", b"RWSR-S", b"SPFRWSRWS"),
    (9, b"RWSRWS", b"RWSRW-", b"SPFRWSRWS"),
    (0, b"WSS", b"WSS", b"SPFWSS"),
    (1, b"WSR", b"---", b"S"),
    (0, b"SRS", b"SRS", b"SPFRS"),
    (2, b"SSS", b"---", b"SP"),
    (4, b"SSS", b"S--", b"SPFS"),
];

#[test]
fn a_failed_sync_is_final(rt: HostRuntime) {
    for (fails, calls, wanted, asked) in FAILS.iter() {
        let mut disk = over_flaky(0, *fails);
        let mut failed = 0u64;
        for (at, call) in calls.iter().enumerate() {
            let worked = works(&mut disk, *call);
            if !worked {
                failed = failed.saturating_add(1);
            }
            assert_eq!(rt; worked, wanted.get(at) == Some(call), "{fails} {at}");
            assert_eq!(rt; disk.fault_count(), failed, "{fails} {at}");
        }
        let file = disk.into_file();
        assert_eq!(rt; file.calls, asked.len(), "{fails}");
        assert!(rt; file.kinds.starts_with(*asked), "{fails}");
    }
}

// A path in the folder for temporary files, which no other process uses.
fn temporary(rt: &HostRuntime, name: &str) -> Result<PathBuf, Fail> {
    let name = format!(in rt.alloc(); "nb_cases-{name}-{}", process::id(rt.process()))?;
    Ok(env::temp_dir(rt)?.join(rt.alloc(), name.as_str())?)
}

// The file as a disk, in the folder for temporary files.
fn disk_over(rt: &HostRuntime, file: File) -> Result<FileDisk<StdFile>, Fail> {
    let folder = File::open(rt, env::temp_dir(rt)?.as_path())?;
    Ok(FileDisk::over(file, folder))
}

// Writes and syncs a short piece, and whether the disk has this content then.
fn keeps(disk: &mut FileDisk<StdFile>, place: u64, piece: &[u8], content: &[u8]) -> bool {
    let mut buf = [0u8; 16];
    place < 16
        && piece.len() < 16
        && disk.write(place, piece) == DiskOut::Done
        && disk.sync() == DiskOut::Done
        && disk.read(0, &mut buf) == DiskRead::Got(content.len())
        && buf.starts_with(content)
}

#[test]
fn writes_and_reads_a_file(rt: HostRuntime) -> Result<(), Fail> {
    let path = temporary(&rt, "file")?;
    fs::write(&rt, path.as_path(), "")?;
    let file = OpenOptions::new()
        .read(true)
        .write(true)
        .open(&rt, path.as_path())?;
    let mut disk = disk_over(&rt, file)?;
    for (place, piece, content) in [
        (0, "abcd", "abcd"),
        (4, "efg", "abcdefg"),
        (2, "XYZ", "abXYZfg"),
        (6, "hij", "abXYZfhij"),
    ] {
        assert!(rt; keeps(&mut disk, place, piece.as_bytes(), content.as_bytes()));
    }
    assert_eq!(rt; disk.read(u64::MAX, &mut [0; 16]), DiskRead::Got(0));
    assert_eq!(rt; disk.fault_count(), 0);
    fs::remove_file(&rt, path.as_path())?;
    Ok(())
}

// A file that is open for reading alone takes nothing.
#[test]
fn fails_where_it_may_not_write(rt: HostRuntime) -> Result<(), Fail> {
    let path = temporary(&rt, "read")?;
    fs::write(&rt, path.as_path(), "abXYZfhij")?;
    let mut disk = disk_over(&rt, File::open(&rt, path.as_path())?)?;
    let mut buf = [0u8; 16];
    assert_eq!(rt; disk.write(1, b"z"), DiskOut::Failed);
    assert_eq!(rt; disk.read(7, &mut buf), DiskRead::Got(2));
    assert!(rt; buf.starts_with(b"ij"));
    assert_eq!(rt; disk.fault_count(), 1);
    fs::remove_file(&rt, path.as_path())?;
    Ok(())
}

// A file that is open for writing alone gives nothing.
#[test]
fn fails_where_it_may_not_read(rt: HostRuntime) -> Result<(), Fail> {
    let path = temporary(&rt, "write")?;
    let mut disk = disk_over(&rt, fs::create(&rt, path.as_path())?)?;
    assert_eq!(rt; disk.read(0, &mut [0; 16]), DiskRead::Failed);
    assert_eq!(rt; disk.fault_count(), 1);
    fs::remove_file(&rt, path.as_path())?;
    Ok(())
}

// A device that keeps nothing cannot be synced, neither as a file nor as a folder.
#[test]
fn fails_where_it_may_not_sync(rt: HostRuntime) -> Result<(), Fail> {
    let path = temporary(&rt, "sync")?;
    let nothing = || OpenOptions::new().write(true).open(&rt, "/dev/null");
    let mut disk = disk_over(&rt, nothing()?)?;
    let mut lost = FileDisk::over(fs::create(&rt, path.as_path())?, nothing()?);
    for count in 1..3 {
        assert_eq!(rt; disk.sync(), DiskOut::Failed);
        assert_eq!(rt; disk.fault_count(), count);
        assert_eq!(rt; lost.write(0, b"a"), DiskOut::Failed);
        assert_eq!(rt; lost.fault_count(), count);
    }
    assert_eq!(rt; fs::metadata(&rt, path.as_path())?.len(), 0);
    fs::remove_file(&rt, path.as_path())?;
    Ok(())
}
