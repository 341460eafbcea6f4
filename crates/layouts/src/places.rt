// What bytes spell, and where they are bad.

use crate::{records, telling};
use nb_goods::OpenGoods;
use nb_lines::Told;
use nb_msgs::BodyFault;
use nb_seal::Unsealed;
use nb_units::NoMemory;
use std::fmt::Display;

// The most bytes that a line repeats.
const MOST: u32 = 2_000_000;

// What the bytes spell, or why they spell none, in words.
fn tell(told: &mut Told, what: &str, bytes: &[u8]) -> Result<(), NoMemory> {
    match records::read(told, what, bytes) {
        Ok(()) => Ok(()),
        Err(fault) => telling::fault(told, &fault),
    }
}

/// `read WHAT BYTES`: what the bytes spell, where WHAT is the name of a record or the kind of a message.
pub fn whole(told: &mut Told, words: &[&str]) -> Result<(), NoMemory> {
    let alloc = told.alloc();
    let [what, bytes] = words else {
        return told.unclear();
    };
    tell(told, *what, &nb_lines::spelled(alloc, *bytes))
}

/// `cut WHAT BYTES LENGTH..`: at which byte they are bad where only so many of them are left.
pub fn cuts(told: &mut Told, words: &[&str]) -> Result<(), NoMemory> {
    let alloc = told.alloc();
    told.text("bad:");
    if let [what, bytes, lengths @ ..] = words {
        let bytes = nb_lines::spelled(alloc, *bytes);
        for length in lengths {
            let (front, _) = bytes.split_at((telling::short(*length) as usize).min(bytes.len()));
            place(told.text(" ").text(*length), *what, front);
        }
    }
    told.done()
}

fn place(told: &mut Told, what: &str, front: &[u8]) {
    let mut untold = Told::new(told.alloc());
    match records::read(&mut untold, what, front) {
        Err(BodyFault::Malformed { place }) => told.show(":", &place),
        _ => told.text(":no"),
    };
}

/// `long KIND FRONT LENGTH BEHIND`: what a body says with a text of so many times 07, behind its length, between these bytes; a word
/// that spells none is none.
pub fn long(told: &mut Told, words: &[&str]) -> Result<(), NoMemory> {
    let alloc = told.alloc();
    let [kind, front, length, behind] = words else {
        return told.unclear();
    };
    let mut body = nb_lines::spelled(alloc, *front);
    put_text(&mut body, telling::short(*length).min(MOST))?;
    body.extend_from_slice(&nb_lines::spelled(alloc, *behind))?;
    tell_long(told, *kind, &body)
}

fn tell_long(told: &mut Told, kind: &str, body: &[u8]) -> Result<(), NoMemory> {
    let mut long = Told::new(told.alloc());
    tell(&mut long, kind, body)?;
    telling::clipped(told, long.as_str())
}

// A text of so many times 07, behind its length.
fn put_text(body: &mut Vec<u8>, length: u32) -> Result<(), NoMemory> {
    body.extend_from_slice(&length.to_be_bytes())?;
    put_sevens(body, length)
}

/// `sevens KIND LENGTH`: what a body of so many times 07 says.
pub fn sevens(told: &mut Told, words: &[&str]) -> Result<(), NoMemory> {
    let alloc = told.alloc();
    let [kind, length] = words else {
        return told.unclear();
    };
    let mut body = Vec::new(alloc);
    put_sevens(&mut body, telling::short(*length).min(MOST))?;
    tell(told, *kind, &body)
}

fn put_sevens(body: &mut Vec<u8>, length: u32) -> Result<(), NoMemory> {
    for _ in 0..length {
        body.push(7)?;
    }
    Ok(())
}

/// `no-memory`: what is said where there is none for a body, and none for goods. `no-memory WHERE`: what `nb_units` or `nb_seal` says.
pub fn no_memory(told: &mut Told, words: &[&str]) -> Result<(), NoMemory> {
    match words {
        [] => no_memory_for(told, &BodyFault::NoMemory, &OpenGoods::NoMemory),
        ["nb_units"] => told.show("", &NoMemory).done(),
        ["nb_seal"] => no_memory_for(told, &nb_seal::NoMemory, &Unsealed::NoMemory),
        _ => told.unclear(),
    }
}

fn no_memory_for<F: Display, G: Display>(
    told: &mut Told,
    first: &F,
    second: &G,
) -> Result<(), NoMemory> {
    told.show("", first).show("; ", second).done()
}
