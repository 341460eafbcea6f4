// Messages with a part of goods: each round of `writegoods` writes the frame of one, each round of `readgoods` reads its body, and a number
// is made of what came of all rounds.

ghost use Rattle.std.specs.Prelude.{IsTrue};
ghost use Rattle.nb_msgs.specs.Bodies.{MessageKeepsRules};

use crate::Made;
use crate::pattern::pattern;
use nb_goods::PART_BYTES;
use nb_msgs::{BodyFault, MAX_SEALED_HEAD, Message, read_body, write_message};
use nb_seal::NoMemory;
use nb_units::Blob;
use nb_units::frames::{GOODS_REPLY, HEADER};
use std::alloc::Global;

/// The rows `writegoods` and `readgoods`, of a part of at most 1,000,000 bytes.
pub fn run(alloc: Global, row: &str, size: u32, times: u32) -> Result<Made, NoMemory> {
    match row {
        "writegoods" => written(alloc, size, times),
        "readgoods" => read(alloc, size, times),
        _ => Ok(Made::Unknown),
    }
}

// A message with a part of so many bytes, whose head is as long as one may be.
fn message_of(alloc: Global, size: u32) -> Result<Message, NoMemory> {
    let head = Blob::from_vec(pattern(alloc, MAX_SEALED_HEAD as u32)?);
    let part = Blob::from_vec(pattern(alloc, size)?);
    Ok(Message::Goods {
        transaction: 0,
        head,
        part,
    })
}

// The frame that was written last, and behind it the number.
fn written(alloc: Global, size: u32, times: u32) -> Result<Made, NoMemory> {
    let message = message_of(alloc, size)?;
    let made = write_often(alloc, &message, times);
    drop(message);
    made
}

fn write_often(alloc: Global, message: &Message, times: u32) -> Result<Made, NoMemory> {
    let mut frame = Vec::new(alloc);
    let mut made = 0;
    for _ in 0..times {
        if !is_lawful(message) {
            return Ok(Made::Unknown);
        }
        frame.clear();
        write_message(message, &mut frame).map_err(|_| NoMemory)?;
        made = mixed(made, frame.as_slice());
    }
    frame
        .extend_from_slice(&made.to_be_bytes())
        .map_err(|_| NoMemory)?;
    Ok(Made::Bytes(frame))
}

// The number alone.
fn read(alloc: Global, size: u32, times: u32) -> Result<Made, NoMemory> {
    let Made::Bytes(frame) = written(alloc, size, 1)? else {
        return Ok(Made::Unknown);
    };
    if frame.len() < HEADER + 8 {
        return Ok(Made::Unknown);
    }
    let (front, _) = frame.as_slice().split_at(frame.len() - 8);
    match read_often(alloc, front.split_at(HEADER).1, times)? {
        Some(made) => Made::number(alloc, made),
        None => Ok(Made::Unknown),
    }
}

// The number, where the body is one of a part of goods.
fn read_often(alloc: Global, body: &[u8], times: u32) -> Result<Option<u64>, NoMemory> {
    let mut made = 0;
    for _ in 0..times {
        match read_body(alloc, GOODS_REPLY, body) {
            Ok(Message::Goods { part, .. }) => made = mixed(made, part.as_slice()),
            Ok(_) | Err(BodyFault::Malformed { .. }) => return Ok(None),
            Err(BodyFault::NoMemory) => return Err(NoMemory),
        }
    }
    Ok(Some(made))
}

// Whether it can be written.
fn is_lawful(message: &Message) -> bool
    ensures { IsTrue result → MessageKeepsRules message.now }
{
    match message {
        Message::Goods { head, part, .. } => {
            head.as_slice().len() <= MAX_SEALED_HEAD && part.as_slice().len() <= PART_BYTES
        }
        _ => false,
    }
}

// The next number, of the last of these bytes.
fn mixed(number: u64, bytes: &[u8]) -> u64 {
    let last = bytes.last().copied().unwrap_or(0);
    number
        .wrapping_mul(31)
        .wrapping_add(u64::from(last))
        .wrapping_add(1)
}
