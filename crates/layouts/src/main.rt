//! A program that reads and writes what the lines of standard input spell, and prints what came of it: the trials of the layouts of `nb_units`,
//! `nb_body`, `nb_ticket`, `nb_epo`, `nb_goods`, `nb_endorse` and `nb_msgs`, of the rulings of `nb_judge`, of the offers and quotes of `nb_groups`, of the codes and seals of `nb_seal`, and of the frames of `nb_play`, as
//! data. Each line is a word and what it is about; the function that a word calls says what it does. A key is 32 bytes, or one byte that stands 32
//! times; `-` spells no bytes. A line that begins with `#` is printed as it is.
//!
//! It claims nothing: what it prints is compared with what another program wrote.
#![tactic(auto)]

mod cases;
mod codes;
mod drills;
mod fields;
mod goods;
mod messages;
mod offers;
mod places;
mod records;
mod replies;
mod sealed;
mod signed;
mod telling;
mod tickets;

use crate::goods::Shelf;
use anyhow::anyhow;
use nb_lines::Told;
use nb_units::NoMemory;

fn main(rt: HostRuntime) -> anyhow::Result<()> {
    let mut shelf = Shelf::new(rt.alloc());
    let ended = do_lines(&rt, &mut shelf);
    drop(shelf);
    ended
}

// Does what each line says.
fn do_lines(rt: &HostRuntime, shelf: &mut Shelf) -> anyhow::Result<()> {
    for line in rt.lines(rt.alloc()) {
        do_line(rt, shelf, line?.as_str())?;
    }
    Ok(())
}

// Does what a line says, and prints what is told of it; nothing where the line is empty.
fn do_line(rt: &HostRuntime, shelf: &mut Shelf, line: &str) -> anyhow::Result<()> {
    let mut told = Told::new(rt.alloc());
    if done(shelf, &mut told, line).is_err() || told.done().is_err() {
        return Err(anyhow!("out of memory"));
    }
    let told = told.as_str();
    if !told.is_empty() {
        println!(rt; "{told}")?;
    }
    Ok(())
}

fn done(shelf: &mut Shelf, told: &mut Told, line: &str) -> Result<(), NoMemory> {
    let words: Vec<&str> = line.split_whitespace().collect(told.alloc())?;
    match words.as_slice() {
        [] => Ok(()),
        ["#", ..] => told.text(line).done(),
        [word, rest @ ..] => done_with(shelf, told, *word, rest),
    }
}

// What comes of a line about goods.
fn done_with(
    shelf: &mut Shelf,
    told: &mut Told,
    word: &str,
    words: &[&str],
) -> Result<(), NoMemory> {
    match word {
        "parts" => shelf.sale(told, words),
        "all" => shelf.all(told, words),
        "came" => shelf.came(told, words),
        "goods-key" => goods::key(told, words),
        "seal-goods" => goods::seal(told, words),
        "judge" => cases::ruled(told, words),
        "judge-sale" => cases::sale(told, words),
        _ => done_spelled(told, word, words),
    }
}

// What comes of a line about what bytes spell.
fn done_spelled(told: &mut Told, word: &str, words: &[&str]) -> Result<(), NoMemory> {
    match word {
        "read" => places::whole(told, words),
        "cut" => places::cuts(told, words),
        "long" => places::long(told, words),
        "sevens" => places::sevens(told, words),
        "no-memory" => places::no_memory(told, words),
        "row" => fields::row(told, words),
        "reason" => fields::reason(told, words),
        _ => done_signed(told, word, words),
    }
}

// What comes of a line about what is signed or sealed.
fn done_signed(told: &mut Told, word: &str, words: &[&str]) -> Result<(), NoMemory> {
    match word {
        "sign-receipt" => signed::sign(told, words),
        "sign-order" => signed::sign_anew(told, words),
        "ask" => signed::ask(told, words),
        "asked" => signed::asked(told, words),
        "endorse" => sealed::endorse(told, words),
        "open-endorsement" => sealed::open_endorsement(told, words),
        "seal-receipt" => sealed::seal_receipt(told, words),
        "open-receipt" => sealed::open_receipt(told, words),
        "hide" => sealed::hidden(told, words),
        "reveal" => sealed::revealed(told, words),
        "account" => sealed::account(told, words),
        _ => done_told(told, word, words),
    }
}

// What comes of a line about a ticket or a reply.
fn done_told(told: &mut Told, word: &str, words: &[&str]) -> Result<(), NoMemory> {
    match word {
        "session" => tickets::session(told, words),
        "until" => tickets::last_second(told, words),
        "ticket" => tickets::ticket(told, words),
        "open-ticket" => tickets::opened(told, words),
        "grant" => tickets::granted(told, words),
        "open-grant" => tickets::opened_grant(told, words),
        "reply-result" => replies::result(told, words),
        "reply-status" => replies::status(told, words),
        "reply-grant" => replies::grant(told, words),
        "reply-done" => replies::done(told, words),
        "reply-refused" => replies::refused(told, words),
        _ => done_offered(told, word, words),
    }
}

// What comes of a line about groups.
fn done_offered(told: &mut Told, word: &str, words: &[&str]) -> Result<(), NoMemory> {
    match word {
        "credential" => offers::made(told, words),
        "offers" => offers::read(told, words),
        "quote" => offers::quoted(told, words),
        _ => done_below(told, word, words),
    }
}

// What comes of a line about a code, a seal or a drill.
fn done_below(told: &mut Told, word: &str, words: &[&str]) -> Result<(), NoMemory> {
    match word {
        "digest" => codes::digest(told, words),
        "code" => codes::code(told, words),
        "keystream" => codes::keystream(told, words),
        "seal" => codes::sealed(told, words),
        "unseal" => codes::unsealed(told, words),
        "number" => drills::number(told, words),
        "draw" => drills::drawn(told, words),
        "drill-head" => drills::head(told, words),
        "drill-frame" => drills::frame(told, words),
        "drill" => drills::whole(told, words),
        _ => told.unclear(),
    }
}
