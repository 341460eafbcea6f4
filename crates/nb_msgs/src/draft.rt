ghost use Rattle.std.specs.Prelude.{◌≡◌, ◌≤◌, ◌*◌, ◌++◌, length, vec_capacity};
ghost use Rattle.nb_units.specs.Room.{spare_of};
ghost use Rattle.nb_endorse.specs.Replies.{HasLawfulReceipts};
ghost use Rattle.nb_msgs.specs.ReplyBytes.{joined, reply_bytes};
ghost use Rattle.nb_msgs.specs.declared.reply.TheConstants.{REPLY_ROOM, LONGEST_REPLY};

use crate::reply::write_reply_with;
use nb_endorse::{KeptStates, Reply, ReplyKeys};
use std::marker::Model;

/// A reply that is decided and not written yet, with the keys that it is to be signed and sealed under. It is seen as the bytes of its frame,
/// whatever keeps states of keys when it is written.
#[derive(Drop)]
pub struct Draft {
    reply: Reply,
    keys: ReplyKeys,
}

impl Model for Draft {
    ghost use Rattle.std.specs.Prelude.{ℕ, List};
    ghost use Rattle.nb_endorse.specs.Replies.{HasLawfulReceipts};
    ghost use Rattle.nb_msgs.specs.ReplyBytes.{reply_bytes};

    ghost Value = { List ℕ };

    ghost view = { λ d. reply_bytes d.keys d.reply };

    ghost invariant = { λ d. HasLawfulReceipts d.reply };
}

impl Draft {
    /// The draft of a reply, each receipt of which has a code that receipts have, a key exactly where it says paid, and then nothing that is
    /// shown.
    pub fn of(reply: Reply, keys: ReplyKeys) -> Draft
        requires lawful { HasLawfulReceipts reply }
        ensures { result ≡ reply_bytes keys reply }
    {
        Draft { reply, keys }
    }

    /// Appends the frame, which needs room for [`REPLY_ROOM`] bytes and takes no memory. A state of a key that is not kept is made, and is kept
    /// then.
    pub fn write(&self, kept: &mut KeptStates, out: &mut Vec<u8>)
        requires room { REPLY_ROOM ≤ spare_of out.old }
        ensures bytes { out.new.items ≡ out.old.items ++ self.now }
        ensures short { length self.now ≤ LONGEST_REPLY }
        ensures room { vec_capacity out.new ≡ vec_capacity out.old }
    {
        write_reply_with(&self.reply, &self.keys, kept, out);
    }
}

/// Appends the frames of drafts, one behind the other, as [`Draft::write`] does each. They need room for [`REPLY_ROOM`] bytes each.
pub fn write_each(drafts: &[Draft], kept: &mut KeptStates, out: &mut Vec<u8>)
    requires room { REPLY_ROOM * length drafts.now ≤ spare_of out.old }
    ensures bytes { out.new.items ≡ out.old.items ++ joined drafts.now }
    ensures room { vec_capacity out.new ≡ vec_capacity out.old }
{
    for draft in drafts {
        draft.write(kept, out);
    }
}
