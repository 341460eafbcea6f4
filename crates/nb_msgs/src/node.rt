use crate::message::Message;
use nb_body::End;
use nb_units::{Blob, NoMemory, PartyId};

/// Whom a message is for.
#[derive(Clone, Copy)]
pub enum To {
    /// The house.
    Server,
    /// A party, as a merchant.
    Merchant(PartyId),
    /// A party, as a consumer.
    Consumer(PartyId),
}

/// What a node, a consumer or a merchant, does at a message or at a word of its holder.
#[derive(Drop)]
pub enum Step {
    /// It sends a message.
    Move {
        /// An item that is to be appended to the node's journal before the message is sent, where there is one.
        keep: Option<Blob>,
        /// Whom the message is for.
        to: To,
        /// The message.
        message: Message,
    },
    /// A purchase is over.
    Ended {
        /// An item that is to be appended to the node's journal before the end is told.
        keep: Blob,
        /// How it ended.
        end: End,
    },
    /// It does nothing, and nothing in it changes.
    Ignored(Reason),
}

/// Why a node ignores a message or a word of its holder.
#[derive(Clone, Copy)]
pub enum Reason {
    /// It knows no such purchase.
    Unknown,
    /// The purchase is not where this would be next.
    State,
    /// What is sealed does not open under the key that it should, or spells nothing.
    Seal,
    /// A field is not what it should be. This is the number of the test that failed, counted from 1 on.
    Field(u8),
    /// It takes no messages of this kind.
    Kind,
    /// A refusal came, from whomever. Its code, one byte wide, has its reason in `nb_endorse`.
    Refused(u8),
    /// A merchant has no serial number left.
    Spent,
}

/// Why a node does not start again with the items of its journal.
#[derive(Clone, Copy)]
pub enum RestartFault {
    /// This is the first item that the node does not take up behind those before it, counted from 0 on, 4 bytes wide.
    BadItem { item: u32 },
    /// There is no memory for what it holds.
    NoMemory,
}

impl From<NoMemory> for RestartFault {
    ghost use Rattle.std.specs.Prelude.{◌≡◌};
    ghost use Rattle.nb_msgs.specs.declared.node.RestartFault.TheVariants as fault;

    ghost from_gives = { λ none f. f ≡ fault.NoMemory };

    fn from(_none: NoMemory) -> RestartFault {
        RestartFault::NoMemory
    }
}
