// The bytes of a disk that were read last, so that one read of it brings many records.

ghost use Rattle.std.specs.Prelude.{◌≡◌, ◌≤◌, ◌<◌, ◌^◌, ◌↔◌, IsTrue, [], length, IfOk};
ghost use Rattle.nb_journal.specs.declared.limits.TheConstants.{WINDOW};
ghost use Rattle.nb_journal.specs.Window.{Sees, Reaches, ReachGives, part_of};
ghost use Rattle.nb_journal.specs.Time.{Untouched};

use crate::limits::WINDOW;
use nb_port::{Disk, DiskRead};
use std::alloc::{AllocError, Global};
use std::marker::Model;

// What reaching for bytes gives.
#[derive(Drop)]
pub(crate) enum Reached {
    There,
    // The disk failed.
    Failed,
}

// Bytes from a place of the disk on, and how many were asked for.
#[derive(Drop)]
pub(crate) struct Window {
    bytes: Vec<u8>,
    place: u64,
    asked: usize,
    len: usize,
}

impl Model for Window {
    ghost use Rattle.std.specs.Prelude.{◌≡◌, ◌≤◌, ◌<◌, ◌^◌, length, take};
    ghost use Rattle.nb_journal.specs.Held.{Held};
    ghost use Rattle.nb_journal.specs.declared.limits.TheConstants.{WINDOW};

    ghost Value = { Held };

    ghost view = { λ w. record { place = w.place; asked = w.asked; bytes = take w.len w.bytes.items } };

    ghost invariant = { λ w. (length w.bytes.items ≡ WINDOW) × (w.len ≤ w.asked) × (w.asked ≤ WINDOW) × (w.place < 2 ^ 64) };
}

impl Window {
    // One that holds nothing. It takes all of its memory here.
    pub(crate) fn new(alloc: Global) -> Result<Window, AllocError>
        ensures { IfOk result (λ window. window ≡ record { place = 0; asked = 0; bytes = [] }) }
    {
        Ok(Window {
            bytes: Vec::from_elem(alloc, 0u8, WINDOW)?,
            place: 0,
            asked: 0,
            len: 0,
        })
    }

    // Reads on, where what is held does not reach so many bytes from the place on and the content may have them.
    pub(crate) fn reach<D: Disk>(&mut self, disk: &mut D, place: u64, need: usize) -> Reached
        requires need { need ≤ WINDOW }
        requires near { place < 2 ^ 63 }
        requires sees { Sees (D.tells.content disk.old) self.old }
        ensures gives { ReachGives (D.tells.faults disk.old) (D.tells.faults disk.new) self.new place need result }
        ensures sees { Sees (D.tells.content disk.new) self.new }
        ensures nothing { Untouched D.tells disk.old disk.new }
        ensures count { D.tells.faults disk.old ≤ D.tells.faults disk.new }
    {
        if self.reaches(place, need) {
            return Reached::There;
        }
        self.asked = 0;
        self.len = 0;
        match disk.read(place, &mut self.bytes) {
            DiskRead::Failed => Reached::Failed,
            DiskRead::Got(n) => {
                self.place = place;
                self.asked = WINDOW;
                self.len = n;
                Reached::There
            }
        }
    }

    // Whether so many bytes from the place on are held, or all that the content has there.
    fn reaches(&self, place: u64, need: usize) -> bool
        requires need { need ≤ WINDOW }
        requires near { place < 2 ^ 63 }
        ensures { IsTrue result → Reaches self.now place need }
    {
        if place < self.place {
            return false;
        }
        if self.len < self.asked {
            return true;
        }
        place - self.place + need as u64 <= self.len as u64
    }

    // The bytes from the place on that are held, at most so many.
    pub(crate) fn part(&self, place: u64, most: usize) -> &[u8]
        requires { self.now.place ≤ place }
        ensures { result.now ≡ part_of self.now place most }
    {
        let held = self.bytes.as_slice().split_at(self.len).0;
        let before = (place - self.place).min(held.len() as u64) as usize;
        let rest = held.split_at(before).1;
        rest.split_at(most.min(rest.len())).0
    }
}
