ghost use Rattle.std.specs.Prelude.{ℕ, List, Option};
ghost use Rattle.nb_port.specs.Clock.{Gives};

/// What time it is.
pub trait Clock {
    /// The moments that the clock gave, the first one first; None where it does not tell.
    ghost moments: { Self → Option (List ℕ) };

    /// The moment now, in seconds since 1970-01-01 00:00 UTC. No order is promised from call to call.
    fn now(&mut self) -> u64
        ensures gives { Gives (moments self.old) (moments self.new) result };
}
