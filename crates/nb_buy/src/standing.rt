ghost use Rattle.std.specs.Prelude.{◌≡◌};
ghost use Rattle.nb_buy.specs.Run.{phase_for};
ghost use Rattle.nb_buy.specs.Steps as steps;

use crate::peer::Peer;
use nb_consumer::{Consumer, Phase};
use nb_wallet::Start;

// How far a purchase is.
#[derive(Clone, Copy)]
pub enum Standing {
    // There is none of this number.
    Unknown,
    // It is going on, and was ordered or not.
    Going { ordered: bool },
    // It is over.
    Ended,
}

// How far the purchase is that is started so.
pub fn standing_of(consumer: &Consumer, start: &Start) -> Standing
    ensures { steps.StandsAs (phase_for start.now consumer.now) result }
{
    match consumer.state(start.transaction) {
        None => Standing::Unknown,
        Some(Phase::Ticketing) => Standing::Going { ordered: false },
        Some(Phase::Asked) => Standing::Going { ordered: false },
        Some(Phase::Wanted) => Standing::Going { ordered: false },
        Some(Phase::Ordered) => Standing::Going { ordered: true },
        Some(Phase::Paid { .. }) => Standing::Ended,
        Some(Phase::Refused { .. }) => Standing::Ended,
        Some(Phase::Foul) => Standing::Ended,
    }
}

// Whether it is over.
pub fn is_over(stands: Standing) -> bool
    ensures { result ≡ steps.is_over stands }
{
    match stands {
        Standing::Ended => true,
        Standing::Going { .. } => false,
        Standing::Unknown => false,
    }
}

// Whether the house may be asked for want of the answer of a peer: once, where the purchase was ordered and that peer is the seller.
pub fn may_ask(asked: bool, peer: Peer, stands: Standing) -> bool
    ensures { result ≡ steps.may_ask_for asked peer stands }
{
    match peer {
        Peer::House => false,
        Peer::Seller => match stands {
            Standing::Going { ordered } => ordered && !asked,
            Standing::Unknown => false,
            Standing::Ended => false,
        },
    }
}
