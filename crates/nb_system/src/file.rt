ghost use Rattle.std.specs.Prelude.{◌≡◌, ◌<◌, ◌+◌, ◌^◌, ℕ, List, Option, Some, length};
ghost use Rattle.nb_system.specs.File.{FileReadGives, FileWriteGives};
ghost use Rattle.nb_port.specs.declared.disk.DiskOut.TheVariants as outs;

use nb_port::DiskOut;

/// What one read of a file gives.
#[derive(Clone, Copy)]
pub enum FileRead {
    /// So many bytes stand at the front of the buffer: none only where it has no room or the file has no byte there.
    Got(usize),
    /// The read was interrupted before it gave a byte.
    Interrupted,
    /// The read failed.
    Failed,
}

/// What one write of a file gives.
#[derive(Clone, Copy)]
pub enum FileWrite {
    /// So many bytes from the front of the piece were written.
    Took(usize),
    /// The write was interrupted before it wrote a byte.
    Interrupted,
    /// The write failed. It may have changed any byte of its range, and no other.
    Failed,
}

/// A file and its folder, by the calls of the system that a [`FileDisk`](crate::FileDisk) makes, one each.
///
/// The system keeps pages of a file in memory. A page that it could not write to the device, for this process or an earlier one,
/// may stay there as if it had been: then a read gives what the device does not have, and a later sync says that all is done. So
/// a file is prepared before it is read or written: it is synced, its pages are dropped, and its folder is synced. After a sync
/// that failed nothing of this is known any more.
pub trait PositionalFile {
    /// What a read gives: the bytes from place 0 on; None where the file does not tell.
    ghost content: { Self → Option (List ℕ) };

    /// What the device has of it; None where the file does not tell.
    ghost durable: { Self → Option (List ℕ) };

    /// No page that was written is left to be written to the device.
    ghost synced: { Self → Type 0 };

    /// Nothing is kept in memory that differs from the device, but for what was written since the last sync.
    ghost faithful: { Self → Type 0 };

    /// The folder keeps the file's name.
    ghost named: { Self → Type 0 };

    /// No file has a byte at place 2^63 - 1 or behind it.
    ghost fits: { (file : Self) (bytes : List ℕ) → content file ≡ Some bytes → length bytes < 2 ^ 63 };

    /// Reads bytes from `place` on to the front of `buf`, not always as many as there are.
    fn read_at(&mut self, place: u64, buf: &mut [u8]) -> FileRead
        requires faithful { faithful self.old }
        requires named { named self.old }
        // The place is below 2^63.
        requires small { place < 2 ^ 63 }
        ensures gives { FileReadGives (content self.old) place (length buf.old) buf.new result }
        ensures content { content self.new ≡ content self.old }
        ensures faithful { faithful self.new }
        ensures named { named self.new };

    /// Writes bytes from the front of the piece at `place`, not always all: over what stands there, and past the end.
    fn write_at(&mut self, place: u64, piece: &[u8]) -> FileWrite
        requires faithful { faithful self.old }
        requires named { named self.old }
        requires small { place + length piece.now < 2 ^ 63 }
        ensures gives { FileWriteGives (content self.old) (content self.new) place piece.now result }
        ensures faithful { faithful self.new }
        ensures named { named self.new };

    /// Makes all that was written reach the device.
    fn sync_all(&mut self) -> DiskOut
        ensures content { content self.new ≡ content self.old }
        ensures synced { result ≡ outs.Done → synced self.new }
        // A faithful file stays so, and the device has its content.
        ensures durable { result ≡ outs.Done → faithful self.old → faithful self.new × (durable self.new ≡ content self.new) }
        // A name that the folder keeps is kept.
        ensures named { result ≡ outs.Done → named self.old → named self.new };

    /// Drops the pages that are kept in memory: once done, of a synced file, what is read from then on is what the device has.
    fn drop_pages(&mut self) -> DiskOut
        ensures durable { result ≡ outs.Done → synced self.old → faithful self.new × (durable self.new ≡ content self.new) };

    /// Makes the folder keep the file's name.
    fn sync_folder(&mut self) -> DiskOut
        ensures content { content self.new ≡ content self.old }
        ensures durable { durable self.new ≡ durable self.old }
        ensures faithful { faithful self.old → faithful self.new }
        ensures named { result ≡ outs.Done → named self.new };
}
