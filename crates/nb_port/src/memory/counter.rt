ghost use Rattle.std.specs.Prelude.{◌≡◌, ◌↔◌, ◌≤◌, IfOk, IsTrue, if◌then◌else◌};
ghost use Rattle.nb_port.specs.Calls.{Calls, no_calls, NextFails, worked, failed};
ghost use Rattle.nb_port.specs.Faults.{one_more};

use nb_units::NoMemory;
use std::alloc::Global;
use std::marker::Model;

/// Counts the calls of an object from 1, and says which of them fail.
pub struct Counter {
    fails: Vec<u64>,
    made: u64,
    faults: u64,
}

impl Drop for Counter {
    fn drop(self) {
        let Self {
            fails: _,
            made: _,
            faults: _,
        } = self;
    }
}

impl Model for Counter {
    ghost Value = { Calls };

    ghost view = { λ c. record { fails = c.fails.items; made = c.made; faults = c.faults } };
}

impl Counter {
    /// Counts from the start. `fails` has the numbers of the calls that are to fail.
    pub fn new(alloc: Global, fails: &[u64]) -> Result<Counter, NoMemory>
        ensures { IfOk result (λ counter. counter ≡ no_calls fails.now) }
    {
        Ok(Counter {
            fails: Vec::from_slice(alloc, fails)?,
            made: 0,
            faults: 0,
        })
    }

    /// Counts a call, and says whether it is to fail, which is then counted too.
    pub fn next(&mut self) -> bool
        ensures fails { IsTrue result ↔ NextFails self.old }
        ensures counted { self.new ≡ (if result then failed self.old else worked self.old) }
        ensures count { self.old.faults ≤ self.new.faults }
    {
        self.made = self.made.saturating_add(1);
        let fails = self.fails.contains(&self.made);
        if fails {
            self.faults = self.faults.saturating_add(1);
        }
        fails
    }

    /// Counts the call just made as one that failed after all.
    pub fn fail(&mut self)
        ensures counted { self.new ≡ record self.old { faults = one_more self.old.faults } }
        ensures count { self.old.faults ≤ self.new.faults }
    {
        self.faults = self.faults.saturating_add(1);
    }

    /// How many calls were made.
    pub fn made(&self) -> u64
        ensures { result ≡ self.now.made }
    {
        self.made
    }

    /// How many calls failed.
    pub fn faults(&self) -> u64
        ensures { result ≡ self.now.faults }
    {
        self.faults
    }
}
