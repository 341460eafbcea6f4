use nb_endorse::Signed;
use nb_msgs::{End, Message, Reason, To};
use nb_units::NoMemory;
use nb_wallet::Item;

/// What a consumer does where it does something, before what is kept is spelled.
#[derive(Drop)]
pub enum Deed {
    /// It sends a message, and keeps nothing.
    Sends {
        /// Whom the message is for.
        to: To,
        /// The message.
        message: Message,
    },
    /// It learns how many entries the house has, and sends a message.
    Hears {
        /// The consumer's own number of the purchase, 8 bytes wide.
        transaction: u64,
        /// The number of entries, 8 bytes wide.
        place: u64,
        /// Whom the message is for.
        to: To,
        /// The message.
        message: Message,
    },
    /// It keeps an item, and sends a message.
    Keeps {
        /// The item.
        item: Item,
        /// Whom the message is for.
        to: To,
        /// The message.
        message: Message,
    },
    /// It keeps a receipt, and the purchase is over.
    Ends {
        /// The consumer's own number of the purchase, 8 bytes wide.
        transaction: u64,
        /// The receipt, which is kept.
        receipt: Signed,
        /// How it ended.
        end: End,
    },
}

// Why a row does nothing.
#[derive(Clone, Copy)]
pub(crate) enum Halt {
    Ignored(Reason),
    NoMemory,
}

impl From<Reason> for Halt {
    ghost use Rattle.std.specs.Prelude.{◌≡◌};
    ghost use Rattle.nb_consumer.specs.declared.deed.Halt.TheVariants as halt;

    ghost from_gives = { λ why h. h ≡ halt.Ignored why };

    fn from(why: Reason) -> Halt {
        Halt::Ignored(why)
    }
}

impl From<NoMemory> for Halt {
    ghost use Rattle.std.specs.Prelude.{◌≡◌};
    ghost use Rattle.nb_consumer.specs.declared.deed.Halt.TheVariants as halt;

    ghost from_gives = { λ _ h. h ≡ halt.NoMemory };

    fn from(_none: NoMemory) -> Halt {
        Halt::NoMemory
    }
}
