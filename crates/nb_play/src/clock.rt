ghost use Rattle.std.specs.Prelude.{◌≡◌, ◌<◌, ◌↔◌, IsTrue, Some, replicate};
ghost use Rattle.nb_port.specs.Clock.{Gives};
ghost use Rattle.nb_port.specs.Faults.{last_count, one_more};
ghost use Rattle.nb_play.specs.Feed.{told_by};
ghost use Rattle.nb_play.specs.declared.frames.TheConstants.{MOMENT};

use crate::frames::MOMENT;
use nb_port::Clock;
use std::marker::Model;

/// A clock that stands at the moment of a drill's requests. It tells what it gave until the count of its calls stays, at 2^64 - 1.
#[derive(Drop)]
pub struct DrillClock {
    asked: u64,
}

impl Model for DrillClock {
    ghost use Rattle.std.specs.Prelude.{ℕ};

    ghost Value = { ℕ };

    ghost view = { λ c. c.asked };
}

impl DrillClock {
    /// A clock that was not asked yet.
    pub fn new() -> DrillClock
        ensures { result ≡ 0 }
    {
        DrillClock { asked: 0 }
    }

    /// Whether it tells all that it gave: until the count of its calls stays.
    pub fn tells(&self) -> bool
        // True only where the moments that it gave are told: as many times the one moment as it was asked.
        ensures told { IsTrue result → told_by self.now ≡ Some (replicate self.now MOMENT) }
        // True exactly where it was asked fewer than 2^64 - 1 times.
        ensures counts { IsTrue result ↔ (self.now < last_count) }
    {
        self.asked < u64::MAX
    }
}

impl Clock for DrillClock {
    ghost moments = { told_by };

    #[tactic(auto, using(crate::proofs::Feeding::told_next))]
    fn now(&mut self) -> u64
        ensures gives { Gives (told_by self.old) (told_by self.new) result }
        ensures moment { result ≡ MOMENT }
        ensures counted { self.new ≡ one_more self.old }
    {
        self.asked = self.asked.saturating_add(1);
        MOMENT
    }
}
