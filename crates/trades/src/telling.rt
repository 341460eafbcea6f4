// What a consumer and a merchant do, in words.

ghost use Rattle.nb_msgs.specs.Bodies.{MessageKeepsRules};

use nb_consumer::Phase;
use nb_lines::Told;
use nb_msgs::{End, Message, Reason, RestartFault, To, write_message};
use nb_stall::Stage;
use nb_units::{Blob, NoMemory, PartyId};
use std::alloc::Global;

// Why a message is ignored.
pub(crate) fn why(told: &mut Told, reason: Reason) -> &mut Told {
    match reason {
        Reason::Unknown => told.text("ignored: unknown"),
        Reason::State => told.text("ignored: state"),
        Reason::Seal => told.text("ignored: seal"),
        Reason::Kind => told.text("ignored: kind"),
        Reason::Spent => told.text("ignored: spent"),
        Reason::Field(number) => told.show("ignored: field ", &number),
        Reason::Refused(code) => told.show("ignored: refused ", &code),
    }
}

// How a purchase ends.
pub(crate) fn end(told: &mut Told, end: &End) {
    match end {
        End::Paid(goods) => told.show("paid: ", &goods.as_slice().len()).text(" bytes"),
        End::Refused(code) => told.show("refused: ", code),
        End::Foul => told.text("foul"),
    };
}

// How far a purchase has come.
pub(crate) fn phase(told: &mut Told, phase: Option<Phase>) -> &mut Told {
    match phase {
        None => told.text("none"),
        Some(Phase::Ticketing) => told.text("ticketing"),
        Some(Phase::Asked) => told.text("asked"),
        Some(Phase::Wanted) => told.text("wanted"),
        Some(Phase::Ordered) => told.text("ordered"),
        Some(Phase::Paid { len }) => told.show("paid: ", &len).text(" bytes"),
        Some(Phase::Refused { code }) => told.show("refused: ", &code),
        Some(Phase::Foul) => told.text("foul"),
    }
}

// The goods of a purchase, by their number of bytes and their digest where they are long.
pub(crate) fn goods<'a>(told: &'a mut Told, goods: &Option<Blob>) -> &'a mut Told {
    match goods {
        Some(goods) => told.bytes("goods ", goods.as_slice()),
        None => told.text("no goods"),
    }
}

// The kind of the item that is kept, and that of the message that is sent.
pub(crate) fn moved(told: &mut Told, kept: &[u8], message: &Message) {
    if let Some(kind) = kept.first() {
        told.hex("keeps ", &[*kind]).text(", ");
    }
    told.hex("sends ", &[message.kind()]);
}

// Whom that is for.
pub(crate) fn sent(told: &mut Told, to: To) -> &mut Told {
    match to {
        To::Server => told.text(" to the house"),
        To::Merchant(PartyId(number)) => told.show(" to merchant ", &number),
        To::Consumer(PartyId(number)) => told.show(" to consumer ", &number),
    }
}

// How far a merchant's purchase has come.
pub(crate) fn stage(told: &mut Told, stage: Option<Stage>) -> &mut Told {
    told.text(match stage {
        None => "none",
        Some(Stage::Quoted) => "quoted",
        Some(Stage::Delivered) => "delivered",
        Some(Stage::Endorsed) => "endorsed",
        Some(Stage::Settled) => "settled",
    })
}

// Whose ticket a message shows.
pub(crate) fn asker(told: &mut Told, asker: Option<PartyId>) -> &mut Told {
    match asker {
        None => told.text("nobody"),
        Some(PartyId(number)) => told.show("consumer ", &number),
    }
}

// Why items are not started with.
pub(crate) fn fault(told: &mut Told, fault: RestartFault) -> Result<(), NoMemory> {
    match fault {
        RestartFault::BadItem { item } => told.show("bad item ", &item).done(),
        RestartFault::NoMemory => Err(NoMemory),
    }
}

// The frame of a message.
pub(crate) fn frame(alloc: Global, message: &Message) -> Result<Vec<u8>, NoMemory>
    requires { MessageKeepsRules message.now }
{
    let mut frame = Vec::new(alloc);
    write_message(message, &mut frame)?;
    Ok(frame)
}
