ghost use Rattle.std.specs.Prelude.{◌≡◌, ◌≤◌, ◌⊎◌, ◌++◌, [], vec_capacity};
ghost use Rattle.nb_journal.specs.Time.{LeavesOnly};
ghost use Rattle.nb_msgs.specs.declared.reply.TheConstants.{REPLY_ROOM};
ghost use Rattle.nb_units.specs.Room.{spare_of};
ghost use Rattle.nb_vault.specs.Asking.{request_of};
ghost use Rattle.nb_vault.specs.Rules.{refused};
ghost use Rattle.nb_vault.specs.Vaults.{Keeps, StandsForState, state_of};
ghost use Rattle.nb_standby.specs.Answering.{body_of};
ghost use Rattle.nb_batch.specs.declared.answering.Answerer.TheVariants as answers;
ghost use Rattle.nb_batch.specs.Answering.{AnswersWith, AsksOnce, MayBeSent};

use nb_endorse::refusal::{DISK_FAULT, WORN};
use nb_endorse::{Refusal, Reply, ReplyKeys};
use nb_msgs::write_reply;
use nb_port::{Clock, Disk};
use nb_standby::{SHIPPED_FRAME, follow};
use nb_vault::{Answer, Vault};

// The number of the one who asks in a batch.
const ASKER: u64 = 0;

/// Who answers the frames of a source.
#[derive(Clone, Copy)]
pub enum Answerer {
    /// A house: each frame is a request.
    House,
    /// A standby: each frame is a record of an entry, as its primary shipped it.
    Standby,
}

// The moment at which a frame is answered. A standby's is 0, and it asks no clock.
pub(crate) fn moment_for<C: Clock>(by: Answerer, clock: &mut C) -> u64
    ensures asks { AsksOnce by (C.moments clock.old) (C.moments clock.new) result }
{
    match by {
        Answerer::House => clock.now(),
        Answerer::Standby => 0,
    }
}

// Answers one frame: a request by the house's reply, or by the refusal that says why there is none; a record by the acknowledgement of a standby that takes it
// in. A frame of another kind spells none.
pub(crate) fn answer_by<D: Disk>(
    by: Answerer,
    house: &mut Vault<D>,
    kind: u8,
    body: &[u8],
    moment: u64,
    reply: &mut Vec<u8>,
)
    requires empty { reply.old.items ≡ [] }
    requires room { REPLY_ROOM ≤ spare_of reply.old }
    ensures answers { AnswersWith D.tells by house.old house.new (request_of kind body.now moment) reply.new.items }
    ensures origin { house.new.origin ≡ house.old.origin }
    ensures any_moment { LeavesOnly D.tells house.old.disk house.new.disk
        (λ image. StandsForState house.old image ⊎ StandsForState house.new image) }
    ensures durable { MayBeSent D.tells by house.new reply.new.items }
    ensures keeps { Keeps D.tells house.new }
    ensures quiet { state_of house.new ≡ state_of house.old → D.tells.content house.new.disk ≡ D.tells.content house.old.disk }
    ensures room { vec_capacity reply.new ≡ vec_capacity reply.old }
    ensures disk { D.tells.faults house.old.disk ≤ D.tells.faults house.new.disk }
{
    match by {
        Answerer::House => match house.answer(ASKER, kind, body, moment, reply) {
            Answer::Answered { .. } => {}
            Answer::DiskFault { before, after } => refuse(DISK_FAULT, before, after, reply),
            Answer::Worn { faults } => refuse(WORN, u64::from(faults), 0, reply),
        },
        Answerer::Standby => {
            let _code = follow(house, record_of(kind, body), reply);
        }
    }
}

// What is read of a frame as a record: nothing of one of another kind.
fn record_of(kind: u8, body: &[u8]) -> &[u8]
    ensures { result.now ≡ body_of kind body.now }
{
    if kind == SHIPPED_FRAME { body } else { &[] }
}

// Appends a refusal that shows two numbers.
fn refuse(code: u8, a: u64, b: u64, out: &mut Vec<u8>)
    requires { REPLY_ROOM ≤ spare_of out.old }
    ensures bytes { out.new.items ≡ out.old.items ++ refused code a b }
    ensures room { vec_capacity out.new ≡ vec_capacity out.old }
{
    let refusal = Refusal::of(code, a, b);
    write_reply(&Reply::Refused(refusal), &ReplyKeys::none(), out);
}
