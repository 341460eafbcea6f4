ghost use Rattle.std.specs.Prelude.{◌≡◌, None};

use std::marker::Model;
use std::rt::Clock;
use std::time::{SystemTime, UNIX_EPOCH};

/// The system's clock.
#[derive(Drop)]
pub struct SystemClock<R: Clock + Drop> {
    rt: R,
}

impl<R: Clock + Drop> Model for SystemClock<R> {
    ghost Value = { R };

    ghost view = { λ c. c.rt };
}

impl<R: Clock + Drop> SystemClock<R> {
    /// The clock of the runtime `rt`. It gives 0 where the system knows no time, or one before 1970.
    pub fn over(rt: R) -> SystemClock<R>
        ensures { result ≡ rt }
    {
        SystemClock { rt }
    }
}

impl<R: Clock + Drop> nb_port::Clock for SystemClock<R> {
    ghost moments = { λ _. None };

    fn now(&mut self) -> u64 {
        match SystemTime::now(&self.rt) {
            Ok(now) => match now.duration_since(UNIX_EPOCH) {
                Ok(passed) => passed.as_secs(),
                Err(_) => 0,
            },
            Err(_) => 0,
        }
    }
}
