// Messages: a body that is read, and the frame that is written of what it says.

ghost use Rattle.nb_msgs.specs.Bodies.{MessageKeepsRules};

use crate::telling;
use nb_lines::Told;
use nb_msgs::{BodyFault, Message, read_body, write_message};
use nb_units::frames::{HEADER, LAST_KIND};

/// What a body of the kind that a word spells says, the header of its frame, and whether the body behind it is the same.
pub fn read(told: &mut Told, kind: &str, body: &[u8]) -> Result<(), BodyFault> {
    let kind = kind_of(told, kind);
    if kind < 1 || LAST_KIND < kind {
        return Ok(told.unclear()?);
    }
    match read_body(told.alloc(), kind, body) {
        Ok(message) => framed(told, &message, body),
        Err(fault) => Err(fault),
    }
}

fn kind_of(told: &Told, word: &str) -> u8 {
    let bytes = nb_lines::spelled(told.alloc(), word);
    bytes.first().copied().unwrap_or(0)
}

fn framed(told: &mut Told, message: &Message, body: &[u8]) -> Result<(), BodyFault>
    requires { MessageKeepsRules message.now }
{
    let mut frame = Vec::new(told.alloc());
    write_message(message, &mut frame)?;
    let (header, rest) = frame.split_at(frame.len().min(HEADER));
    told.show("kind ", &message.kind()).text(": ");
    telling::back(told, message, rest == body);
    told.hex(" behind ", header);
    Ok(())
}
