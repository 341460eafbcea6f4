ghost use Rattle.std.specs.Prelude.{◌≡◌, ◌↔◌, IfOk, IsTrue};
ghost use Rattle.nb_link.specs.Memory.{none_made, one_made, IsNextToFail};

use nb_units::NoMemory;
use std::alloc::Global;
use std::marker::Model;

/// Counts the calls of an object from 1, and says which of them are to fail.
pub struct Plan {
    fails: Vec<u64>,
    made: u64,
}

impl Drop for Plan {
    fn drop(self) {
        let Self { fails: _, made: _ } = self;
    }
}

impl Model for Plan {
    ghost use Rattle.nb_link.specs.Memory.{Planned};

    ghost Value = { Planned };

    ghost view = { λ p. record { fails = p.fails.items; made = p.made } };
}

impl Plan {
    /// Counts from the start. `fails` has the numbers of the calls that are to fail.
    pub fn new(alloc: Global, fails: &[u64]) -> Result<Plan, NoMemory>
        ensures { IfOk result (λ plan. plan ≡ none_made fails.now) }
    {
        Ok(Plan {
            fails: Vec::from_slice(alloc, fails)?,
            made: 0,
        })
    }

    /// Counts a call, and says whether it is to fail.
    pub fn next(&mut self) -> bool
        ensures fails { IsTrue result ↔ IsNextToFail self.old }
        ensures counted { self.new ≡ one_made self.old }
    {
        self.made = self.made.saturating_add(1);
        self.fails.contains(&self.made)
    }
}
