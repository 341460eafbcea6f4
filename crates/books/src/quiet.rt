// A disk in memory that tells a contract nothing of its content, so that who writes it owes no place.

ghost use Rattle.std.specs.Prelude.{None};
ghost use Rattle.nb_port.specs.DiskLaws.{untold};

use nb_port::{Disk, DiskOut, DiskRead, MemDisk};

/// The disk, and nothing said of it but its count of failures. A write past the end of the content goes to the end, which is kept.
#[derive(Drop)]
pub struct QuietDisk {
    pub disk: MemDisk,
    pub went_past: bool,
}

impl QuietDisk {
    /// The disk, of which nothing is said.
    pub fn over(disk: MemDisk) -> QuietDisk {
        QuietDisk {
            disk,
            went_past: false,
        }
    }
}

impl Disk for QuietDisk {
    ghost tells = { record {
      faults = λ d. d.disk.calls.faults;
      content = λ _. None;
      allowed = λ _ _. ⊥;
      moment = λ _. 0;
      left = λ _ _ _. ⊥;
    } };

    ghost content_counts = { λ d c is. untold c is };

    ghost counts_now = { λ d t c le is. is };

    ghost only_now = { λ d c is. is };

    fn fault_count(&self) -> u64 {
        self.disk.fault_count()
    }

    fn read(&mut self, place: u64, buf: &mut [u8]) -> DiskRead {
        self.disk.read(place, buf)
    }

    fn write(&mut self, place: u64, piece: &[u8]) -> DiskOut {
        let end = self.disk.content().len() as u64;
        self.went_past = self.went_past || place > end;
        self.disk.write(place.min(end), piece)
    }

    fn sync(&mut self) -> DiskOut {
        self.disk.sync()
    }
}
