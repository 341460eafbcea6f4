//! A program that runs the house's program as the lines of standard input say, over sources, sinks, disks and clocks in memory, and prints what
//! comes of it: the trials of `nb_run`, as data. Each line is a word and what it is about; [`Trial`] says what they do. A line that begins with
//! `#` is printed as it is.
//!
//! It claims nothing: what it prints is compared with what another program wrote.
#![tactic(auto)]

mod files;
mod images;
mod kernel;
mod ports;
mod running;
mod telling;
mod trial;

use crate::trial::Trial;
use anyhow::anyhow;
use nb_lines::Told;
use nb_units::NoMemory;

fn main(rt: HostRuntime) -> anyhow::Result<()> {
    let mut trial = Trial::new(rt.alloc());
    let ended = do_lines(&rt, &mut trial);
    drop(trial);
    ended
}

// Does what each line says.
fn do_lines(rt: &HostRuntime, trial: &mut Trial) -> anyhow::Result<()> {
    for line in rt.lines(rt.alloc()) {
        do_line(rt, trial, line?.as_str())?;
    }
    Ok(())
}

// Does what a line says, and prints what is told of it; nothing where the line is empty.
fn do_line(rt: &HostRuntime, trial: &mut Trial, line: &str) -> anyhow::Result<()> {
    let mut told = Told::new(rt.alloc());
    if done(trial, &mut told, line).is_err() || told.done().is_err() {
        return Err(anyhow!("out of memory"));
    }
    let told = told.as_str();
    if !told.is_empty() {
        println!(rt; "{told}")?;
    }
    Ok(())
}

fn done(trial: &mut Trial, told: &mut Told, line: &str) -> Result<(), NoMemory> {
    let words: Vec<&str> = line.split_whitespace().collect(told.alloc())?;
    match words.as_slice() {
        [] => Ok(()),
        ["#", ..] => told.text(line).done(),
        [word, rest @ ..] => done_by_word(trial, told, *word, rest),
    }
}

// Does what a line of this first word says, by the words behind it.
fn done_by_word(
    trial: &mut Trial,
    told: &mut Told,
    word: &str,
    words: &[&str],
) -> Result<(), NoMemory> {
    match word {
        "run" => trial.run(told, words),
        "image" => trial.image(told, words),
        "journal" => trial.journal(told, words),
        "input" => trial.input(told, words),
        "more" => trial.more(told, words),
        "clock" => trial.clock(words),
        "fails" => trial.fails(told, words),
        "file" => trial.file(told, words),
        "cut" | "step" | "sink" => set(trial, told, word, words),
        _ => go_on(trial, told, word, words),
    }
}

// What is set to one word.
fn set(trial: &mut Trial, told: &mut Told, word: &str, words: &[&str]) -> Result<(), NoMemory> {
    let [value] = words else {
        return told.unclear();
    };
    match word {
        "cut" => trial.cut(*value),
        "step" => trial.step(*value),
        _ => trial.sink(told, *value),
    }
}

// What the last run left, and how the next runs go on from it.
fn go_on(trial: &mut Trial, told: &mut Told, word: &str, words: &[&str]) -> Result<(), NoMemory> {
    if !words.is_empty() {
        return told.unclear();
    }
    match word {
        "disk" => trial.disk(told),
        "device" => trial.device(told),
        "again" => trial.again(told),
        _ => go_on_over(trial, told, word),
    }
}

// Over which disk the next runs go.
fn go_on_over(trial: &mut Trial, told: &mut Told, word: &str) -> Result<(), NoMemory> {
    match word {
        "hold" => trial.hold(),
        "restart" => trial.restart(),
        "interrupt" => trial.interrupt(),
        "memory" => trial.memory(),
        _ => return told.unclear(),
    }
    Ok(())
}
