// A file as Linux keeps it.

ghost use Rattle.std.specs.Prelude.{⊤, None, ◌≤◌, ◌+◌, ◌-◌};
ghost use Rattle.nb_port.specs.DiskLaws.{untold_fits};

use nb_port::DiskOut;
use nb_system::{FileRead, FileWrite, PositionalFile};

// No journal here is longer.
const SIZE: usize = 1024;

// The most bytes that one read or write moves.
const MOVED: usize = 7;

/// A file whose pages stand in memory. A sync brings what was written since the last one to the device. One that fails brings nothing there and
/// forgets that it was written: a later sync is then done, and a read gives what the device does not have. One read or write moves seven bytes
/// at most, and each third of them may be interrupted.
#[derive(Drop)]
pub struct Kernel {
    pages: [u8; SIZE],
    len: usize,
    written: [bool; SIZE],
    device: [u8; SIZE],
    device_len: usize,
    // how many syncs, of the file and of its folder, and advices were asked for, and which of them fails
    asked: u64,
    fails: u64,
    // how many reads and writes there were, counted where each third is interrupted
    moved: Option<u64>,
}

impl Kernel {
    /// A machine that starts with these bytes on its device.
    pub fn over(bytes: &[u8], fails: u64) -> Kernel {
        let mut device = [0; SIZE];
        let len = bytes.len().min(SIZE);
        device[..len].copy_from_slice(&bytes[..len]);
        Kernel {
            pages: device,
            len,
            written: [false; SIZE],
            device,
            device_len: len,
            asked: 0,
            fails,
            moved: None,
        }
    }

    /// The same machine, where each third read or write is interrupted.
    pub fn interrupting(self) -> Kernel {
        Kernel {
            moved: Some(0),
            ..self
        }
    }

    // Whether one more read or write is interrupted.
    fn is_interrupted(&mut self) -> bool {
        match self.moved {
            None => false,
            Some(count) => {
                self.moved = Some(count.wrapping_add(1));
                count % 3 == 2
            }
        }
    }

    /// How many syncs, of the file and of its folder, and advices were asked for.
    pub fn asked(&self) -> u64 {
        self.asked
    }

    /// What the device has.
    pub fn kept(&self) -> &[u8] {
        &self.device[..self.device_len.min(SIZE)]
    }

    // Whether one more call works.
    fn works(&mut self) -> bool {
        self.asked = self.asked.saturating_add(1);
        self.asked != self.fails
    }
}

// Where the bytes of a place on stand that one call moves, of which there are so many and up to this end.
fn range(place: u64, count: usize, end: usize) -> (usize, usize)
    ensures { (result.0 ≤ result.1) × (result.1 ≤ SIZE) × (result.1 - result.0 ≤ count) }
{
    let end = end.min(SIZE);
    let at = place.min(end as u64) as usize;
    (at, at + (end - at).min(count).min(MOVED))
}

impl PositionalFile for Kernel {
    ghost content = { λ _. None };

    ghost durable = { λ _. None };

    ghost synced = { λ _. ⊤ };

    ghost faithful = { λ _. ⊤ };

    ghost named = { λ _. ⊤ };

    ghost fits = { λ _ bytes is. untold_fits bytes is };

    fn read_at(&mut self, place: u64, buf: &mut [u8]) -> FileRead {
        if self.is_interrupted() {
            return FileRead::Interrupted;
        }
        let (at, end) = range(place, buf.len(), self.len);
        buf[..end - at].copy_from_slice(&self.pages[at..end]);
        FileRead::Got(end - at)
    }

    fn write_at(&mut self, place: u64, piece: &[u8]) -> FileWrite {
        if self.is_interrupted() {
            return FileWrite::Interrupted;
        }
        let (at, end) = range(place, piece.len(), SIZE);
        self.pages[at..end].copy_from_slice(&piece[..end - at]);
        for i in at..end {
            self.written[i] = true;
        }
        self.len = self.len.max(end);
        FileWrite::Took(end - at)
    }

    fn sync_all(&mut self) -> DiskOut {
        let works = self.works();
        for i in 0..SIZE {
            if works && self.written[i] {
                self.device[i] = self.pages[i];
            }
        }
        self.written = [false; SIZE];
        if !works {
            return DiskOut::Failed;
        }
        self.device_len = self.len;
        DiskOut::Done
    }

    fn drop_pages(&mut self) -> DiskOut {
        if !self.works() {
            return DiskOut::Failed;
        }
        for i in 0..SIZE {
            if !self.written[i] {
                self.pages[i] = self.device[i];
            }
        }
        DiskOut::Done
    }

    fn sync_folder(&mut self) -> DiskOut {
        if self.works() {
            DiskOut::Done
        } else {
            DiskOut::Failed
        }
    }
}
