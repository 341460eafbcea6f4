ghost use Rattle.std.specs.Prelude.{◌≡◌, ◌≤◌, ◌<◌, ◌^◌, ◌⊎◌, length, vec_capacity};
ghost use Rattle.nb_frame.specs.declared.stream.TheConstants.{MAX_PIECE};
ghost use Rattle.nb_journal.specs.Time.{LeavesOnly};
ghost use Rattle.nb_msgs.specs.declared.reply.TheConstants.{REPLY_ROOM};
ghost use Rattle.nb_vault.specs.Vaults.{Keeps, StandsForState, state_of};
ghost use Rattle.nb_batch.specs.declared.batch.BatchEnd.TheVariants.{NoMemory};
ghost use Rattle.nb_batch.specs.Batch as batch;
ghost use Rattle.nb_batch.specs.Numbers.{LimitIs};

use crate::answering::{Answerer, answer_by, moment_for};
use crate::fetch::{Fetched, next_frame};
use crate::send::{Sent, send_reply};
use nb_frame::{FrameFault, Frames, MAX_PIECE};
use nb_msgs::REPLY_ROOM;
use nb_port::{Clock, Disk, Sink, Source};
use nb_vault::Vault;
use std::alloc::Global;

/// The most frames that one batch answers.
pub const MOST_FRAMES: u32 = 10_000_000;

/// How a batch ended.
#[derive(Clone, Copy)]
pub enum BatchEnd {
    /// The input ended at a frame's end, and every frame was answered.
    Clean,
    /// The input ended within a frame, and every whole one was answered. The place is the number of bytes that were read.
    Cut { place: u64 },
    /// The input holds what is no frame, and every frame before it was answered.
    BadFrame(FrameFault),
    /// The source failed. Every whole frame that was read was answered.
    ReadFault,
    /// The sink failed.
    WriteFault,
    /// There was no memory, and nothing was read.
    NoMemory,
    /// So many frames were answered.
    FrameLimit,
}

// What came of one look at the input.
#[derive(Clone, Copy)]
enum Step {
    Answered,
    Ended(BatchEnd),
}

/// Answers the frames of the source in order, each by one reply to the sink: a house at one moment of the clock each, and a standby, which asks no clock, by
/// an acknowledgement.
pub fn answer_frames<D: Disk, S: Source, K: Sink, C: Clock>(
    alloc: Global,
    by: Answerer,
    house: &mut Vault<D>,
    source: &mut S,
    sink: &mut K,
    clock: &mut C,
) -> BatchEnd
    // The requests answered, the turns and the states, what was read and sent, by how it ended, with the place of a cut or a bad input. A stop at any
    // moment of the call leaves an image that stands for one of the states; where each is the first the content stays; the faults lie between the disk's
    // counts. The disk holds the entries of the first state before the call and those of each turn's state behind it, and a stop since one of these and
    // up to the next leaves those of the one or of the other.
    ensures served { batch.Served D.tells by house.old house.new
        (record { left = S.left source.old; sent = K.sent sink.old; moments = C.moments clock.old })
        (record { left = S.left source.new; sent = K.sent sink.new; moments = C.moments clock.new }) result }
    ensures origin { house.new.origin ≡ house.old.origin }
    // The count did not fall.
    ensures disk { D.tells.faults house.old.disk ≤ D.tells.faults house.new.disk }
    ensures source { S.faults source.old ≤ S.faults source.new }
    ensures sink { K.faults sink.old ≤ K.faults sink.new }
    ensures fault { batch.FaultOf (S.faults source.old) (S.faults source.new) (K.faults sink.old) (K.faults sink.new) result }
    // Where there was no memory all that was lent is as before.
    ensures starved { result ≡ NoMemory → (house.new ≡ house.old) × (source.new ≡ source.old) × (sink.new ≡ sink.old) × (clock.new ≡ clock.old) }
{
    // What a stop leaves at the start is what every vault keeps.
    house.witness();
    let Ok(mut frames) = Frames::new(alloc) else {
        return BatchEnd::NoMemory;
    };
    let Ok(mut reply) = Vec::with_capacity(alloc, REPLY_ROOM) else {
        return BatchEnd::NoMemory;
    };
    let mut piece = [0u8; MAX_PIECE];
    'frames: for _ in 0..MOST_FRAMES {
        match answer_next(
            by,
            house,
            &mut frames,
            &mut piece,
            &mut reply,
            source,
            sink,
            clock,
        ) {
            Step::Answered => {}
            Step::Ended(end) => {
                // What waits are bytes, so that it reads as frames and a rest.
                let _waiting = frames.bytes();
                return end;
            }
        }
    }
    let _waiting = frames.bytes();
    BatchEnd::FrameLimit
}

// Answers the next frame of the source, which is read as far as that needs, and sends the reply.
fn answer_next<D: Disk, S: Source, K: Sink, C: Clock>(
    by: Answerer,
    house: &mut Vault<D>,
    frames: &mut Frames,
    piece: &mut [u8],
    reply: &mut Vec<u8>,
    source: &mut S,
    sink: &mut K,
    clock: &mut C,
) -> Step
    requires room { REPLY_ROOM ≤ vec_capacity reply.old }
    requires piece { length piece.old ≡ MAX_PIECE }
    requires near { frames.old.taken < 2 ^ 62 }
    ensures step { batch.StepIs D.tells by frames.old frames.new house.old house.new
        (record { left = S.left source.old; sent = K.sent sink.old; moments = C.moments clock.old })
        (record { left = S.left source.new; sent = K.sent sink.new; moments = C.moments clock.new }) result }
    ensures origin { house.new.origin ≡ house.old.origin }
    ensures any_moment { LeavesOnly D.tells house.old.disk house.new.disk
        (λ image. StandsForState house.old image ⊎ StandsForState house.new image) }
    ensures keeps { Keeps D.tells house.new }
    ensures quiet { state_of house.new ≡ state_of house.old → D.tells.content house.new.disk ≡ D.tells.content house.old.disk }
    ensures room { vec_capacity reply.old ≤ vec_capacity reply.new }
    ensures disk { D.tells.faults house.old.disk ≤ D.tells.faults house.new.disk }
    ensures source { S.faults source.old ≤ S.faults source.new }
    ensures sink { K.faults sink.old ≤ K.faults sink.new }
    ensures fault { batch.StepFaultOf (S.faults source.old) (S.faults source.new) (K.faults sink.old) (K.faults sink.new) result }
{
    // Where nothing is done, a stop leaves what every vault keeps.
    house.witness();
    let f = match next_frame(frames, source, piece) {
        Fetched::Frame(f) => f,
        Fetched::Ended(end) => return Step::Ended(end),
    };
    let moment = moment_for(by, clock);
    reply.clear();
    answer_by(by, house, f.kind, frames.body(&f), moment, reply);
    match send_reply(by, house, sink, reply.as_slice()) {
        Sent::All => Step::Answered,
        Sent::Failed => Step::Ended(BatchEnd::WriteFault),
    }
}

/// A law: the limit of a batch in numbers.
pub fn limit()
    ensures { LimitIs }
{}
