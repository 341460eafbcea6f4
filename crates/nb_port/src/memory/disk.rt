ghost use Rattle.std.specs.Prelude.{◌≡◌, ◌⊎◌, ◌≤◌, ◌<◌, ◌+◌, ◌*◌, ◌^◌, Some, [], length, take, IfOk};
ghost use Rattle.nb_port.specs.Calls.{no_calls, NextFails};
ghost use Rattle.nb_port.specs.Disk.{DiskReadGives, DiskWriteGives, DiskSyncGives, Torn};
ghost use Rattle.nb_port.specs.Disk.{SameImages, NoneNew, NoneLost, Follows, Elapses};
ghost use Rattle.nb_port.specs.Images.{Images, LeftFrom, image_at};
ghost use Rattle.nb_port.specs.Memory.{content_of, DiskReads, DiskWrites, DiskSyncs};
ghost use Rattle.nb_port.specs.DiskLaws.{content_now, now_counts, now_only};

use crate::disk::{Disk, DiskOut, DiskRead};
use crate::memory::counter::Counter;
use crate::memory::fill::Fill;
use crate::memory::record::{record_pause, record_sync, record_tear, record_write};
use crate::memory::replay::{put, replay};
use crate::memory::step::DiskStep;
use crate::reading::copy_at;
use nb_units::{Blob, NoMemory};
use std::alloc::Global;
use std::marker::Model;

/// A disk whose content is in memory, with a record of its calls. A call for whose record there is no memory is not recorded
/// and fails: it counts as made and as failed, and changes nothing else.
pub struct MemDisk {
    alloc: Global,
    start: Vec<u8>,
    content: Vec<u8>,
    steps: Vec<DiskStep>,
    calls: Counter,
}

impl Drop for MemDisk {
    fn drop(self) {
        let Self {
            alloc: _,
            start: _,
            content: _,
            steps: _,
            calls: _,
        } = self;
    }
}

impl Model for MemDisk {
    ghost use Rattle.std.specs.Prelude.{◌≡◌, ◌-◌, ◌%◌, length, vec_len, vec_capacity};
    ghost use Rattle.nb_port.specs.Memory.{DiskState};
    ghost use Rattle.nb_port.specs.Images.{fresh, after};

    ghost Value = { DiskState };

    ghost view = { λ d. record {
      start = d.start.items;
      steps = d.steps.items;
      spare = vec_capacity d.steps - vec_len d.steps;
      calls = d.calls;
    } };

    ghost invariant = { λ d.
        (d.content.items ≡ (after (fresh d.start.items) d.steps.items).content) × (length d.steps.items % 2 ≡ 0) };
}

impl MemDisk {
    /// A disk that holds the bytes of `content` from place 0 on, and of which a stop leaves these. `fails` has the numbers of
    /// the calls that are to fail, from 1, all kinds together.
    pub fn new(alloc: Global, content: &[u8], fails: &[u64]) -> Result<MemDisk, NoMemory>
        // This content, which is its start too; no step and no call was made.
        ensures content { IfOk result (λ disk. content_of disk ≡ content.now) }
        ensures start { IfOk result (λ disk. disk.start ≡ content.now) }
        ensures steps { IfOk result (λ disk. disk.steps ≡ []) }
        ensures calls { IfOk result (λ disk. disk.calls ≡ no_calls fails.now) }
    {
        Ok(MemDisk {
            alloc,
            start: Vec::from_slice(alloc, content)?,
            content: Vec::from_slice(alloc, content)?,
            steps: Vec::new(alloc),
            calls: Counter::new(alloc, fails)?,
        })
    }

    /// The bytes from place 0 on.
    pub fn content(&self) -> &[u8]
        ensures { result.now ≡ content_of self.now }
    {
        self.content.as_slice()
    }

    /// How many calls are recorded: all but those for whose record there was no memory.
    pub fn calls(&self) -> u64
        ensures { 2 * result ≡ length self.now.steps }
    {
        self.steps.len() as u64 / 2
    }

    /// An image that a stop at a moment may leave: the one with `fill` in the bytes that are not sure to stay. Moment 2i is
    /// after call i of those recorded, and 2i - 1 within it.
    pub fn image(&self, alloc: Global, moment: u64, fill: Fill) -> Result<Blob, NoMemory>
        requires { moment ≤ length self.now.steps }
        ensures left { IfOk result (Images self.now.start (take moment self.now.steps)) }
        ensures since { IfOk result (⟦<MemDisk as Disk>⟧.tells.left self.now moment) }
        // After Ok it is `image_at`, the image at that moment with what the fill says in the ranges that were written since the last sync that was done.
        ensures exact { IfOk result (λ image. image ≡ image_at self.now.start self.now.steps moment fill) }
    {
        let steps = &self.steps.as_slice()[..moment as usize];
        let image = replay(alloc, self.start.as_slice(), steps, fill)?;
        Blob::of(alloc, image.as_slice())
    }
}

impl Disk for MemDisk {
    ghost tells = { record {
      faults = λ d. d.calls.faults;
      content = λ d. Some (content_of d);
      allowed = λ d. Images d.start d.steps;
      moment = λ d. length d.steps;
      left = λ d. LeftFrom d.start d.steps;
    } };

    ghost content_counts = { λ d c is. content_now d.start d.steps c is };

    ghost counts_now = { λ d t c le is. now_counts d.start d.steps t c le is };

    ghost only_now = { λ d c is. now_only d.start d.steps c is };

    fn fault_count(&self) -> u64 {
        self.calls.faults()
    }

    fn read(&mut self, place: u64, buf: &mut [u8]) -> DiskRead
        ensures gives { DiskReadGives self.old.calls.faults self.new.calls.faults (Some (content_of self.old))
            place (length buf.old) buf.new result }
        ensures content { Some (content_of self.new) ≡ Some (content_of self.old) }
        ensures images { SameImages (Images self.old.start self.old.steps) (Images self.new.start self.new.steps) }
        ensures time { Elapses (length self.old.steps) (length self.new.steps) (LeftFrom self.old.start self.old.steps)
            (LeftFrom self.new.start self.new.steps) (Images self.new.start self.new.steps) }
        ensures count { self.old.calls.faults ≤ self.new.calls.faults }
        ensures fails { NextFails self.old.calls → result ≡ DiskRead.Failed }
        // It fails only at a call that is to fail, or where there was no room for two steps more.
        ensures only { result ≡ DiskRead.Failed → NextFails self.old.calls ⊎ (self.old.spare < 2) }
        // It is recorded as two pauses, or, where it fails for want of room, not at all.
        ensures state { DiskReads self.old self.new result }
        ensures spare { self.old.spare ≤ self.new.spare + 2 }
    {
        if self.calls.next() {
            let _ = record_pause(&mut self.steps);
            return DiskRead::Failed;
        }
        if record_pause(&mut self.steps).is_err() {
            self.calls.fail();
            return DiskRead::Failed;
        }
        DiskRead::Got(copy_at(self.content.as_slice(), place, buf))
    }

    fn write(&mut self, place: u64, piece: &[u8]) -> DiskOut
        requires inside { place ≤ length (content_of self.old) }
        requires small { place + length piece.now < 2 ^ 63 }
        ensures gives { DiskWriteGives self.old.calls.faults self.new.calls.faults (Some (content_of self.old))
            (Some (content_of self.new)) place piece.now result }
        ensures images { Follows (Torn place (length piece.now)) (Images self.old.start self.old.steps)
            (Images self.new.start self.new.steps) }
        ensures kept { NoneLost (Images self.old.start self.old.steps) (Images self.new.start self.new.steps) }
        ensures time { Elapses (length self.old.steps) (length self.new.steps) (LeftFrom self.old.start self.old.steps)
            (LeftFrom self.new.start self.new.steps) (Images self.new.start self.new.steps) }
        ensures count { self.old.calls.faults ≤ self.new.calls.faults }
        ensures fails { NextFails self.old.calls → result ≡ DiskOut.Failed }
        // It fails only at a call that is to fail, or where it is not recorded.
        ensures only { result ≡ DiskOut.Failed → NextFails self.old.calls ⊎ (self.new.steps ≡ self.old.steps) }
        ensures state { DiskWrites self.old self.new place piece.now result }
        ensures spare { self.old.spare ≤ self.new.spare + 2 }
    {
        let at = place as usize;
        if self.calls.next() {
            let _ = record_tear(self.alloc, &mut self.steps, at, piece);
            return DiskOut::Failed;
        }
        if self.content.reserve(piece.len()).is_err() {
            self.calls.fail();
            return DiskOut::Failed;
        }
        if record_write(self.alloc, &mut self.steps, at, piece).is_err() {
            self.calls.fail();
            return DiskOut::Failed;
        }
        put(&mut self.content, at, piece).unwrap();
        DiskOut::Done
    }

    fn sync(&mut self) -> DiskOut
        ensures gives { DiskSyncGives self.old.calls.faults self.new.calls.faults (Some (content_of self.old))
            (Images self.old.start self.old.steps) (Images self.new.start self.new.steps) result }
        ensures content { Some (content_of self.new) ≡ Some (content_of self.old) }
        ensures images { NoneNew (Images self.old.start self.old.steps) (Images self.new.start self.new.steps) }
        ensures time { Elapses (length self.old.steps) (length self.new.steps) (LeftFrom self.old.start self.old.steps)
            (LeftFrom self.new.start self.new.steps) (Images self.new.start self.new.steps) }
        ensures count { self.old.calls.faults ≤ self.new.calls.faults }
        ensures fails { NextFails self.old.calls → result ≡ DiskOut.Failed }
        // It fails only at a call that is to fail, or where there was no room for two steps more.
        ensures only { result ≡ DiskOut.Failed → NextFails self.old.calls ⊎ (self.old.spare < 2) }
        // One that works is recorded as a sync, one that fails as two pauses or, for want of room, not at all.
        ensures state { DiskSyncs self.old self.new result }
        ensures spare { self.old.spare ≤ self.new.spare + 2 }
    {
        if self.calls.next() {
            // What is pending stays so.
            let _ = record_pause(&mut self.steps);
            return DiskOut::Failed;
        }
        match record_sync(&mut self.steps) {
            Ok(()) => DiskOut::Done,
            Err(_) => {
                self.calls.fail();
                DiskOut::Failed
            }
        }
    }
}
