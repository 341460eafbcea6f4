// Frames out of a stream in pieces, and a plain copy of as many bytes to set beside them.

ghost use Rattle.std.specs.Prelude.{◌≤◌};
ghost use Rattle.nb_units.specs.declared.frames.TheConstants.{MAX_BODY};
ghost use Rattle.nb_frame.specs.declared.stream.TheConstants.{MAX_PIECE};

use crate::Made;
use crate::pattern::{pattern, write_over};
use nb_frame::{Frames, MAX_PIECE, Next, write_frame};
use nb_seal::NoMemory;
use nb_units::frames::{HEADER, LAST_KIND, MAX_BODY};
use nb_units::room;
use std::alloc::Global;
use std::mem;

// A stream has as many frames as have so many bytes, and at least one.
const STREAM: usize = 262_144;

/// The rows `frames1`, `frames100` and `frames65536`: frames with bodies of so many bytes from a stream in pieces of 1, 100 and 65,536
/// bytes; and `copy`: so many bytes copied.
pub fn run(alloc: Global, row: &str, size: u32, times: u32) -> Result<Made, NoMemory> {
    match row {
        "frames1" => framed(alloc, size, 1, times),
        "frames100" => framed(alloc, size, 100, times),
        "frames65536" => framed(alloc, size, MAX_PIECE, times),
        "copy" => Ok(Made::Bytes(copied(alloc, size, times)?)),
        _ => Ok(Made::Unknown),
    }
}

// Takes so many frames from a stream that begins again at its end. What is made is a sum over all of them, in their order.
fn framed(alloc: Global, size: u32, step: usize, times: u32) -> Result<Made, NoMemory>
    requires { step ≤ MAX_PIECE }
{
    if size > MAX_BODY {
        return Ok(Made::Unknown);
    }
    let stream = stream_of(alloc, size)?;
    Made::number(alloc, sum_of(alloc, &stream, step, times)?)
}

fn sum_of(alloc: Global, stream: &[u8], step: usize, times: u32) -> Result<u64, NoMemory>
    requires { step ≤ MAX_PIECE }
{
    let mut frames = Frames::new(alloc).map_err(|_| NoMemory)?;
    let mut at = 0;
    let mut given = 0;
    let mut sum: u64 = 0;
    'reading: for _ in 0..u64::MAX {
        if given == times {
            break 'reading;
        }
        match frames.next() {
            Next::Frame(f) => {
                let last = frames.body(&f).last().copied().unwrap_or(f.kind);
                sum = sum.wrapping_mul(31).wrapping_add(u64::from(last));
                given += 1;
            }
            Next::More => {
                let n = step.min(stream.len() - at);
                frames.feed(&stream[at..at + n]);
                at += n;
                if at == stream.len() {
                    at = 0;
                }
            }
            Next::Bad(_) => break 'reading,
        }
    }
    Ok(sum)
}

// Frames of all kinds in turn, whose bodies are a pattern of so many bytes; the last byte of each is its number.
fn stream_of(alloc: Global, size: u32) -> Result<Vec<u8>, NoMemory>
    requires { size ≤ MAX_BODY }
{
    let mut body = pattern(alloc, size)?;
    let mut stream = Vec::new(alloc);
    let mut kind = 1;
    let mut number: u8 = 0;
    let count = (STREAM / (HEADER + body.len())).max(1);
    'writing: for _ in 0..count {
        if let Some(last) = body.last_mut() {
            *last = number;
        }
        room(&mut stream, HEADER + body.len()).map_err(|_| NoMemory)?;
        write_frame(kind, &body, &mut stream);
        number = number.wrapping_add(1);
        kind = if kind == LAST_KIND { 1 } else { kind + 1 };
    }
    Ok(stream)
}

// Copies the bytes so often, each time from where they were copied to.
fn copied(alloc: Global, size: u32, times: u32) -> Result<Vec<u8>, NoMemory> {
    let mut from = pattern(alloc, size)?;
    let mut to = pattern(alloc, size)?;
    'copying: for i in 0..times {
        write_over(&i.to_be_bytes(), &mut from);
        to.copy_from_slice(&from);
        mem::swap(&mut from, &mut to);
    }
    Ok(from)
}
