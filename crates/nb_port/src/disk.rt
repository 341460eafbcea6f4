ghost use Rattle.std.specs.Prelude.{◌≡◌, ℕ, ◌≤◌, ◌<◌, ◌+◌, ◌^◌, List, Option, Some, IfSome, length};
ghost use Rattle.nb_port.specs.Disk.{DiskReadGives, DiskWriteGives, DiskSyncGives, Torn};
ghost use Rattle.nb_port.specs.Tells.{DiskTells};
ghost use Rattle.nb_port.specs.Disk.{SameImages, NoneNew, NoneLost, Follows, Elapses};

/// What a read of a disk gives.
#[derive(Clone, Copy, PartialEq, Eq, Debug)]
pub enum DiskRead {
    /// So many bytes stand at the front of the buffer: fewer than it holds only where the content ends.
    Got(usize),
    /// The read failed.
    Failed,
}

/// What a write or a sync of a disk gives.
#[derive(Clone, Copy, PartialEq, Eq, Debug)]
pub enum DiskOut {
    /// All of it was done.
    Done,
    /// It failed. A write that failed may have changed any byte of its range, and no other.
    Failed,
}

/// Where bytes are kept, each at its place. What is written is sure to stay only from the next sync on that is done.
pub trait Disk {
    /// What it tells: its count of failures, its content, and what a stop may leave of it.
    ghost tells: { DiskTells Self };

    /// The count of failures so far.
    fn fault_count(&self) -> u64
        ensures { result ≡ tells.faults self.now };

    /// Reads the bytes from `place` on to the front of `buf`, as many as it holds and the content has: none, which is
    /// `Got(0)`, where the place is the content's end or past it. What a stop may leave stays as it is.
    fn read(&mut self, place: u64, buf: &mut [u8]) -> DiskRead
        ensures gives { DiskReadGives (tells.faults self.old) (tells.faults self.new) (tells.content self.old) place
            (length buf.old) buf.new result }
        // Also after a failure.
        ensures content { tells.content self.new ≡ tells.content self.old }
        // Those that there were and no others, also after a failure.
        ensures images { SameImages (tells.allowed self.old) (tells.allowed self.new) }
        ensures time { Elapses (tells.moment self.old) (tells.moment self.new) (tells.left self.old) (tells.left self.new) (tells.allowed self.new) }
        ensures count { tells.faults self.old ≤ tells.faults self.new };

    /// Writes the piece at `place`, over what stands there and past the end. The place is within the content or at its end.
    /// The place and the length of the piece are together below 2^63, so that a signed file offset of 64 bits holds the end.
    fn write(&mut self, place: u64, piece: &[u8]) -> DiskOut
        // Where the disk tells its content, the place is within it or at its end.
        requires inside { IfSome (tells.content self.old) (λ bytes. place ≤ length bytes) }
        requires small { place + length piece.now < 2 ^ 63 }
        ensures gives { DiskWriteGives (tells.faults self.old) (tells.faults self.new) (tells.content self.old) (tells.content self.new)
            place piece.now result }
        ensures images { Follows (Torn place (length piece.now)) (tells.allowed self.old) (tells.allowed self.new) }
        ensures kept { NoneLost (tells.allowed self.old) (tells.allowed self.new) }
        ensures time { Elapses (tells.moment self.old) (tells.moment self.new) (tells.left self.old) (tells.left self.new) (tells.allowed self.new) }
        ensures count { tells.faults self.old ≤ tells.faults self.new };

    /// Makes all that was written stay. A sync that failed leaves what a stop may leave as it is.
    fn sync(&mut self) -> DiskOut
        ensures gives { DiskSyncGives (tells.faults self.old) (tells.faults self.new) (tells.content self.old)
            (tells.allowed self.old) (tells.allowed self.new) result }
        ensures content { tells.content self.new ≡ tells.content self.old }
        ensures images { NoneNew (tells.allowed self.old) (tells.allowed self.new) }
        ensures time { Elapses (tells.moment self.old) (tells.moment self.new) (tells.left self.old) (tells.left self.new) (tells.allowed self.new) }
        ensures count { tells.faults self.old ≤ tells.faults self.new };

    /// The content is allowed, where the disk tells.
    ghost content_counts: { (d : Self) (c : List ℕ) → tells.content d ≡ Some c → tells.allowed d c };

    /// What is allowed now is among what is left since any moment up to now.
    ghost counts_now: { (d : Self) (t : ℕ) (c : List ℕ) → t ≤ tells.moment d → tells.allowed d c → tells.left d t c };

    /// What is left since now is allowed now.
    ghost only_now: { (d : Self) (c : List ℕ) → tells.left d (tells.moment d) c → tells.allowed d c };
}
