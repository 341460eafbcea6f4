ghost use Rattle.std.specs.Prelude.{◌≡◌, IfOk};
ghost use Rattle.nb_port.specs.Faults.{one_more};
ghost use Rattle.nb_port.specs.Clock.{Gives};
ghost use Rattle.nb_port.specs.Memory.{moment_at, told_by};

use crate::clock::Clock;
use nb_units::NoMemory;
use std::alloc::Global;
use std::marker::Model;

/// A clock that gives chosen moments, and then the last one again. It tells what it gave until the count
/// of its calls stays, at 2^64 - 1.
pub struct MemClock {
    moments: Vec<u64>,
    calls: u64,
}

impl Drop for MemClock {
    fn drop(self) {
        let Self {
            moments: _,
            calls: _,
        } = self;
    }
}

impl Model for MemClock {
    ghost use Rattle.nb_port.specs.Memory.{ClockState};

    ghost Value = { ClockState };

    ghost view = { λ c. record { moments = c.moments.items; calls = c.calls } };
}

impl MemClock {
    /// A clock that gives `moments` one after another, or always 0 where there are none.
    pub fn new(alloc: Global, moments: &[u64]) -> Result<MemClock, NoMemory>
        ensures { IfOk result (λ clock. clock ≡ record { moments = moments.now; calls = 0 }) }
    {
        Ok(MemClock {
            moments: Vec::from_slice(alloc, moments)?,
            calls: 0,
        })
    }

    // The moment that the next call gives.
    fn next_moment(&self) -> u64
        ensures { result ≡ moment_at self.now.moments self.now.calls }
    {
        let last = self.moments.last().copied().unwrap_or(0);
        match usize::try_from(self.calls) {
            Ok(at) => self.moments.get(at).copied().unwrap_or(last),
            Err(_) => last,
        }
    }
}

impl Clock for MemClock {
    ghost moments = { told_by };

    #[tactic(auto, using(crate::proofs::Moments::told_next))]
    fn now(&mut self) -> u64
        ensures gives { Gives (told_by self.old) (told_by self.new) result }
        // The next of its moments, and at the end the last one again, or 0 where there are none.
        ensures moment { result ≡ moment_at self.old.moments self.old.calls }
        ensures counted { self.new ≡ record self.old { calls = one_more self.old.calls } }
    {
        let moment = self.next_moment();
        self.calls = self.calls.saturating_add(1);
        moment
    }
}
