//! What holds of each drill. Each function here does nothing: its contract is the law.

ghost use Rattle.nb_play.specs.Feed.{AreFrames};
ghost use Rattle.nb_play.specs.Numbers.{DrillNumbersAre};

/// A law: each frame of a drill is a frame of the protocol, by its kind and its length.
#[tactic(auto, using(crate::proofs::Lengths::are_frames))]
pub fn are_frames()
    ensures { AreFrames }
{}

/// A law: the numbers of a drill.
pub fn numbers()
    ensures { DrillNumbersAre }
{}
