//! What holds of every turn. Each law is the contract of a function that does nothing.
ghost use Rattle.nb_turn.specs.Laws.{TurnLimitsAre};

/// How many numbers there are for passes.
pub fn limits()
    ensures { TurnLimitsAre }
{}
