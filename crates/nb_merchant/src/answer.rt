use nb_goods::Parts;
use nb_msgs::{Message, Reason, To};
use nb_stall::Item;
use nb_units::NoMemory;

/// What a merchant does where it does something, before what is kept is spelled.
#[derive(Drop)]
pub struct Answer {
    /// The item that it keeps, if there is one.
    pub keep: Option<Item>,
    /// Whom the message is for.
    pub to: To,
    /// The message.
    pub message: Message,
}

// That, and what the parts of goods that were sealed with it are made from.
#[derive(Drop)]
pub(crate) struct Planned {
    pub(crate) answer: Answer,
    pub(crate) parts: Option<Parts>,
}

// Why a row does nothing.
#[derive(Clone, Copy)]
pub(crate) enum Halt {
    Ignored(Reason),
    NoMemory,
}

impl From<Reason> for Halt {
    ghost use Rattle.std.specs.Prelude.{◌≡◌};
    ghost use Rattle.nb_merchant.specs.declared.answer.Halt.TheVariants as halt;

    ghost from_gives = { λ why h. h ≡ halt.Ignored why };

    fn from(why: Reason) -> Halt {
        Halt::Ignored(why)
    }
}

impl From<NoMemory> for Halt {
    ghost use Rattle.std.specs.Prelude.{◌≡◌};
    ghost use Rattle.nb_merchant.specs.declared.answer.Halt.TheVariants as halt;

    ghost from_gives = { λ _ h. h ≡ halt.NoMemory };

    fn from(_none: NoMemory) -> Halt {
        Halt::NoMemory
    }
}
