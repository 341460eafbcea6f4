ghost use Rattle.std.specs.Prelude.{◌≡◌, IfOk};
ghost use Rattle.nb_escrow.specs.Head.{IsRuling};
ghost use Rattle.nb_parties.specs.Rules.{house_verdict};
ghost use Rattle.nb_world.specs.World.{request_of};
ghost use Rattle.nb_packets.specs.Parcels.{IsKind};
ghost use Rattle.nb_simulator.specs.Worlds.{EntryReady};

use nb_book::Book;
use nb_escrow::{Head, decide};
use nb_msgs::{REPLY_ROOM, write_message, write_reply};
use nb_packets::{Content, Parcel};
use nb_units::frames::HEADER;
use nb_units::{Blob, NoMemory};
use nb_world::Verdict;
use std::alloc::Global;

// Where the kind of a frame stands.
const KIND: usize = 3;

// The verdict on a request over the entries of a book, with the reply as it is spelled.
fn decided(
    alloc: Global,
    book: &Book,
    head: &Head,
    kind: u8,
    body: &[u8],
    moment: u64,
) -> Result<Verdict, NoMemory>
    requires terms { IsRuling head.now }
    ensures verdict { IfOk result (λ v. v ≡ house_verdict head.now book.now.cap book.now.entries (record { kind = kind; body = body.now; moment = moment })) }
    ensures ready { IfOk result (λ v. IsKind v.kind × EntryReady head.now book.now.entries book.now.cap v.entry) }
{
    let mut frame = Vec::with_capacity(alloc, REPLY_ROOM)?;
    let decision = decide(book, head, kind, body, moment);
    write_reply(&decision.reply, &decision.keys, &mut frame);
    Ok(Verdict {
        kind: frame[KIND],
        body: Blob::of(alloc, &frame[HEADER..])?,
        entry: decision.entry,
    })
}

// The verdict on what a packet asks at a moment.
pub(crate) fn verdict_on(
    alloc: Global,
    book: &Book,
    head: &Head,
    packet: &Parcel,
    moment: u64,
) -> Result<Verdict, NoMemory>
    requires terms { IsRuling head.now }
    ensures verdict { IfOk result (λ v. v ≡ house_verdict head.now book.now.cap book.now.entries (request_of packet.now moment)) }
    ensures ready { IfOk result (λ v. IsKind v.kind × EntryReady head.now book.now.entries book.now.cap v.entry) }
{
    match &packet.content {
        Content::Said(message) => {
            let mut frame = Vec::new(alloc);
            write_message(message, &mut frame)?;
            decided(alloc, book, head, message.kind(), &frame[HEADER..], moment)
        }
        Content::Raw { kind, body } => decided(alloc, book, head, *kind, body.as_slice(), moment),
    }
}
