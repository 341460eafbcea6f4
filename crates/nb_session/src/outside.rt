ghost use Rattle.std.specs.Prelude.{◌≡◌, ◌≤◌, length, IfOk, vec_capacity};
ghost use Rattle.std.specs.List.{All};
ghost use Rattle.nb_turns.specs.declared.limits.TheConstants.{MAX_REQUESTS};
ghost use Rattle.nb_vault.specs.Asking.{IsWithin};
ghost use Rattle.nb_session.specs.Steps.{HasPlaces};

use nb_book::SlotHasher;
use nb_endorse::KeptStates;
use nb_escrow::OpenedOrder;
use nb_msgs::Draft;
use nb_turns::MAX_REQUESTS;
use nb_units::NoMemory;
use nb_units::frames::ORDER_REQUEST;
use nb_vault::AskAt;
use std::alloc::Global;

/// What a session makes outside of its turns: before one, what can be opened of its requests; behind it, the replies of its drafts. Both with the
/// states of the keys that it has met, which it learns from the replies that it writes.
#[derive(Drop)]
pub struct Outside {
    pub opened: Vec<Option<OpenedOrder>>,
    pub drafts: Vec<Draft>,
    pub kept: KeptStates,
}

impl Outside {
    /// With the memory for a turn.
    pub fn new(alloc: Global) -> Result<Outside, NoMemory>
        ensures { IfOk result (λ outside. HasPlaces outside) }
    {
        Ok(Outside {
            opened: Vec::with_capacity(alloc, MAX_REQUESTS)?,
            drafts: Vec::with_capacity(alloc, MAX_REQUESTS)?,
            kept: KeptStates::new(alloc)?,
        })
    }

    /// Opens each order among the requests of a turn, and hashes its identifier, as far as the keys are known. No clause says what is opened: what a turn answers does not
    /// depend on it.
    pub fn open_each(&mut self, bytes: &[u8], asks: &[AskAt], hasher: &SlotHasher)
        requires places { HasPlaces self.old }
        requires most { length asks.now ≤ MAX_REQUESTS }
        requires within { All (IsWithin bytes.now) asks.now }
        ensures places { HasPlaces self.new }
    {
        self.opened.clear();
        for ask in asks {
            let body = bytes.split_at(ask.start).1.split_at(ask.len).0;
            let opened = if ask.kind == ORDER_REQUEST {
                OpenedOrder::of(body, &self.kept, hasher)
            } else {
                None
            };
            self.opened.push_reserved(opened);
        }
    }
}
