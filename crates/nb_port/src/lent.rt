ghost use Rattle.std.specs.Prelude.{◌≡◌, ◌≢◌, ◌≤◌, ◌<◌, ◌+◌, ◌^◌, Some, length};
ghost use Rattle.nb_port.specs.Disk.{DiskReadGives, DiskWriteGives, DiskSyncGives, Torn};
ghost use Rattle.nb_port.specs.Disk.{SameImages, NoneNew, NoneLost, Follows, Elapses};
ghost use Rattle.nb_port.specs.DiskLaws.{lent_counts};
ghost use Rattle.nb_port.specs.Faults.{one_more};
ghost use Rattle.nb_port.specs.Lent.{IsLent};

use crate::disk::{Disk, DiskOut, DiskRead};
use crate::reading::copy_at;
use std::marker::Model;

/// A disk whose content is bytes that somebody lends: they can be read, and never change. A sync has nothing to do, and each write
/// fails.
#[derive(Drop)]
pub struct ByteDisk<'a> {
    bytes: &'a [u8],
    faults: u64,
}

impl<'a> Model for ByteDisk<'a> {
    ghost use Rattle.nb_port.specs.Lent.{Lent};

    ghost Value = { Lent };

    ghost view = { λ d. record { bytes = d.bytes.now; faults = d.faults } };
}

impl<'a> ByteDisk<'a> {
    /// A disk that holds these bytes from place 0 on, and has not failed.
    pub fn over(bytes: &'a [u8]) -> ByteDisk<'a>
        // These bytes are its content, and a stop leaves them and nothing else, at every moment.
        ensures bytes { result.bytes ≡ bytes.now }
        ensures faults { result.faults ≡ 0 }
    {
        ByteDisk { bytes, faults: 0 }
    }
}

impl<'a> Disk for ByteDisk<'a> {
    ghost tells = { record {
      faults = λ d. d.faults;
      content = λ d. Some d.bytes;
      allowed = IsLent;
      moment = λ _. 0;
      left = λ d _. IsLent d;
    } };

    ghost content_counts = { λ d c is. lent_counts d.bytes c is };

    ghost counts_now = { λ _ _ _ _ is. is };

    ghost only_now = { λ _ _ is. is };

    fn fault_count(&self) -> u64 {
        self.faults
    }

    fn read(&mut self, place: u64, buf: &mut [u8]) -> DiskRead
        ensures gives { DiskReadGives self.old.faults self.new.faults (Some self.old.bytes) place (length buf.old) buf.new result }
        ensures content { Some self.new.bytes ≡ Some self.old.bytes }
        ensures images { SameImages (IsLent self.old) (IsLent self.new) }
        // A stop leaves the lent bytes, before the call, within it and behind it.
        ensures time { Elapses 0 0 (λ _. IsLent self.old) (λ _. IsLent self.new) (IsLent self.new) }
        ensures count { self.old.faults ≤ self.new.faults }
        ensures works { result ≢ DiskRead.Failed }
        ensures same { self.new ≡ self.old }
    {
        DiskRead::Got(copy_at(self.bytes, place, buf))
    }

    fn write(&mut self, place: u64, piece: &[u8]) -> DiskOut
        requires inside { place ≤ length self.old.bytes }
        requires small { place + length piece.now < 2 ^ 63 }
        ensures gives { DiskWriteGives self.old.faults self.new.faults (Some self.old.bytes) (Some self.new.bytes) place piece.now result }
        ensures images { Follows (Torn place (length piece.now)) (IsLent self.old) (IsLent self.new) }
        ensures kept { NoneLost (IsLent self.old) (IsLent self.new) }
        // As of a read.
        ensures time { Elapses 0 0 (λ _. IsLent self.old) (λ _. IsLent self.new) (IsLent self.new) }
        ensures count { self.old.faults ≤ self.new.faults }
        ensures fails { result ≡ DiskOut.Failed }
        ensures counted { self.new ≡ record self.old { faults = one_more self.old.faults } }
    {
        let (_, _) = (place, piece);
        self.faults = self.faults.saturating_add(1);
        DiskOut::Failed
    }

    fn sync(&mut self) -> DiskOut
        ensures gives { DiskSyncGives self.old.faults self.new.faults (Some self.old.bytes) (IsLent self.old) (IsLent self.new) result }
        ensures content { Some self.new.bytes ≡ Some self.old.bytes }
        ensures images { NoneNew (IsLent self.old) (IsLent self.new) }
        // As of a read.
        ensures time { Elapses 0 0 (λ _. IsLent self.old) (λ _. IsLent self.new) (IsLent self.new) }
        ensures count { self.old.faults ≤ self.new.faults }
        ensures works { result ≡ DiskOut.Done }
        ensures same { self.new ≡ self.old }
    {
        DiskOut::Done
    }
}
