//! A program that does with a vault and with desks what the lines of standard input say, and prints what they do: the trials of `nb_vault`, of
//! `nb_desk`, of `nb_statement` and of `nb_standby`, as data. Each line is a word and what it is about; [`House`] says what they do. A line that begins with `#` is printed as it is.
//!
//! It claims nothing: what it prints is compared with what another program wrote.
#![tactic(auto)]

mod asking;
mod batch;
mod callers;
mod crowd;
mod deciding;
mod desks;
mod house;
mod images;
mod names;
mod slow;
mod standby;
mod statements;
mod telling;

use crate::house::House;
use anyhow::anyhow;
use nb_lines::Told;
use nb_units::NoMemory;
use std::sync::Wait;
use std::thread::Threads;
use std::time::Clock;

fn main(rt: HostRuntime) -> anyhow::Result<()> {
    let mut house = House::new(rt.alloc());
    let ended = do_lines(&rt, &rt, &mut house);
    drop(house);
    ended
}

// Does what each line says, with the threads that `many` starts.
fn do_lines<R: Threads + Wait + Clock + Sync>(
    rt: &HostRuntime,
    many: &R,
    house: &mut House,
) -> anyhow::Result<()> {
    for line in rt.lines(rt.alloc()) {
        do_line(rt, many, house, line?.as_str())?;
    }
    Ok(())
}

// Does what a line says, and prints what is told of it; nothing where the line is empty.
fn do_line<R: Threads + Wait + Clock + Sync>(
    rt: &HostRuntime,
    many: &R,
    house: &mut House,
    line: &str,
) -> anyhow::Result<()> {
    let mut told = Told::new(rt.alloc());
    if done(many, house, &mut told, line).is_err() || told.done().is_err() {
        return Err(anyhow!("out of memory"));
    }
    let told = told.as_str();
    if !told.is_empty() {
        println!(rt; "{told}")?;
    }
    Ok(())
}

fn done<R: Threads + Wait + Clock + Sync>(
    rt: &R,
    house: &mut House,
    told: &mut Told,
    line: &str,
) -> Result<(), NoMemory> {
    let words: Vec<&str> = line.split_whitespace().collect(told.alloc())?;
    match words.as_slice() {
        [] => Ok(()),
        ["#", ..] => told.text(line).done(),
        ["desk", ..] => house.desk(rt, told, line),
        [word, rest @ ..] => done_by_word(rt, house, told, *word, rest),
    }
}

// Does what a line of this first word says, by the words behind it.
fn done_by_word<R: Threads + Wait + Clock + Sync>(
    rt: &R,
    house: &mut House,
    told: &mut Told,
    word: &str,
    words: &[&str],
) -> Result<(), NoMemory> {
    match word {
        "busy" => house.busy(rt, told, words),
        "crowd" => house.crowd(rt, told, words),
        "ask" => house.ask(told, words),
        "turn" => house.turn(told, words),
        "decide" => house.decide(told, words),
        "forget" => house.forget(),
        "stops" => house.stops(told, words),
        "follow" => house.follow(told, words),
        "ship" => house.ship(told, words),
        "statement" => house.statement(told, words),
        "open" | "close" => begin_or_end(house, told, word, words),
        _ => set(house, told, word, words),
    }
}

// What the next vault is made of.
fn set(house: &mut House, told: &mut Told, word: &str, words: &[&str]) -> Result<(), NoMemory> {
    match word {
        "request" => house.request(told, words),
        "entry" => house.entry(told, words),
        "journal" => house.journal(told, words),
        "disk" => house.disk_fails(words),
        _ => told.unclear(),
    }
}

// A vault begins or ends.
fn begin_or_end(
    house: &mut House,
    told: &mut Told,
    word: &str,
    words: &[&str],
) -> Result<(), NoMemory> {
    if !words.is_empty() {
        return told.unclear();
    }
    if word == "open" {
        house.open(told)
    } else {
        house.close(told)
    }
}
