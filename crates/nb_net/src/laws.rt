//! What holds of the limits, and of where a link is in a frame. Each function here does nothing: its contract is the law.

ghost use Rattle.nb_net.specs.Laws as law;

/// The table of limits in numbers.
pub fn table()
    ensures { law.TableIs }
{}

/// Between two frames, and before the first one, a whole frame leads to where a link is between two frames.
pub fn frame_ends()
    ensures { law.FrameEnds }
{}

/// A frame of which the header and a part of the body are there has begun: so many of its bytes are there, and how many its body has is known.
pub fn body_goes_on()
    ensures { law.BodyGoesOn }
{}

/// Fewer bytes than a header are so many of a frame that has begun.
#[tactic(auto, using(crate::proofs::Placing::header_goes_on))]
pub fn header_goes_on()
    ensures { law.HeaderGoesOn }
{}
