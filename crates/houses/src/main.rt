//! A program that does with houses what the lines of standard input say, and prints what they do: the trials of `nb_wire`, `nb_session`,
//! `nb_server` and `nb_work`, as data. Each line is a word and what it is about; [`House`] says what they do. A line that begins with `#` is printed as it is.
//!
//! It claims nothing: what it prints is compared with what another program wrote.
#![tactic(auto)]

mod frames;
mod house;
mod images;
mod jobs;
mod selling;
mod servers;
mod sessions;
mod standing;
mod telling;
mod watch;

use crate::house::House;
use anyhow::anyhow;
use nb_lines::Told;
use nb_units::NoMemory;
use std::sync::Wait;
use std::thread::Threads;
use std::time::Clock;

fn main(rt: HostRuntime) -> anyhow::Result<()> {
    let mut house = House::new(rt.alloc());
    let ended = do_lines(&rt, &rt, &mut house);
    drop(house);
    ended
}

// Does what each line says, with the threads that `many` starts.
fn do_lines<R: Threads + Wait + Clock + Sync>(
    rt: &HostRuntime,
    many: &R,
    house: &mut House,
) -> anyhow::Result<()> {
    for line in rt.lines(rt.alloc()) {
        do_line(rt, many, house, line?.as_str())?;
    }
    Ok(())
}

// Does what a line says, and prints what is told of it; nothing where the line is empty.
fn do_line<R: Threads + Wait + Clock + Sync>(
    rt: &HostRuntime,
    many: &R,
    house: &mut House,
    line: &str,
) -> anyhow::Result<()> {
    let mut told = Told::new(rt.alloc());
    if done(many, house, &mut told, line).is_err() || told.done().is_err() {
        return Err(anyhow!("out of memory"));
    }
    let told = told.as_str();
    if !told.is_empty() {
        println!(rt; "{told}")?;
    }
    Ok(())
}

fn done<R: Threads + Wait + Clock + Sync>(
    rt: &R,
    house: &mut House,
    told: &mut Told,
    line: &str,
) -> Result<(), NoMemory> {
    let words: Vec<&str> = line.split_whitespace().collect(told.alloc())?;
    match words.as_slice() {
        [] => Ok(()),
        ["#", ..] => told.text(line).done(),
        [word, rest @ ..] => done_by_word(rt, house, told, *word, rest),
    }
}

// Does what a line of this first word says, by the words behind it.
fn done_by_word<R: Threads + Wait + Clock + Sync>(
    rt: &R,
    house: &mut House,
    told: &mut Told,
    word: &str,
    words: &[&str],
) -> Result<(), NoMemory> {
    match word {
        "session" => house.session(rt, told, words),
        "frames" => house.frames(told, words),
        "work" => house.work(rt, told, words),
        "sell" => house.sell(rt, told, words),
        "serve" => house.serve(rt, told, words),
        "image" => house.image(told, words),
        "entries" => house.entries(told, words),
        "stand" => house.stand(told, words),
        "lines" | "calls" | "content" | "passes" | "sent" | "made" => left(
            house, told, word, words,
        ),
        _ => set(house, told, word, words),
    }
}

// What the next house is made of.
fn set(house: &mut House, told: &mut Told, word: &str, words: &[&str]) -> Result<(), NoMemory> {
    match word {
        "journal" => house.journal(told, words),
        "disk" => house.disk_fails(words),
        "opening" => house.opening_fails(words),
        "send" => house.send(told, words),
        "link" => house.link(told, words),
        "worker" => house.worker(told, words),
        "shelf" => house.shelf(told, words),
        "offers" => house.offers(told, words),
        "server" => house.server(told, words),
        _ => told.unclear(),
    }
}

// What came of the last one.
fn left(house: &House, told: &mut Told, word: &str, words: &[&str]) -> Result<(), NoMemory> {
    if !words.is_empty() {
        return told.unclear();
    }
    match word {
        "lines" => house.lines(told),
        "calls" => house.calls(told),
        "content" => house.content(told),
        "passes" => house.passes(told),
        "sent" => house.sent(told),
        _ => house.made(told),
    }
}
