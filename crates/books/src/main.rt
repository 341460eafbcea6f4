//! A program that does with books and journals what the lines of standard input say, and prints what they do: the trials of `nb_book`,
//! `nb_journal` and `nb_script`, of the indexes of `nb_index` and of the disk in memory of `nb_port`, as data. Each line is a word and what it is about; [`Trial`] says what they do. A line that begins with `#` is printed as it
//! is.
//!
//! It claims nothing: what it prints is compared with what another program wrote.
#![tactic(auto)]

mod books;
mod disks;
mod entries;
mod indexes;
mod journals;
mod quiet;
mod scripts;
mod steps;
mod trial;
mod words;

use crate::trial::Trial;
use anyhow::anyhow;
use nb_lines::Told;
use nb_units::NoMemory;

fn main(rt: HostRuntime) -> anyhow::Result<()> {
    let mut trial = Trial::new(rt.alloc());
    let ended = do_lines(&rt, &mut trial);
    drop(trial);
    ended
}

// Does what each line says.
fn do_lines(rt: &HostRuntime, trial: &mut Trial) -> anyhow::Result<()> {
    for line in rt.lines(rt.alloc()) {
        do_line(rt, trial, line?.as_str())?;
    }
    Ok(())
}

// Does what a line says, and prints what is told of it; nothing where the line is empty.
fn do_line(rt: &HostRuntime, trial: &mut Trial, line: &str) -> anyhow::Result<()> {
    let mut told = Told::new(rt.alloc());
    if done(trial, &mut told, line).is_err() || told.done().is_err() {
        return Err(anyhow!("out of memory"));
    }
    let told = told.as_str();
    if !told.is_empty() {
        println!(rt; "{told}")?;
    }
    Ok(())
}

fn done(trial: &mut Trial, told: &mut Told, line: &str) -> Result<(), NoMemory> {
    let words: Vec<&str> = line.split_whitespace().collect(told.alloc())?;
    match words.as_slice() {
        [] => Ok(()),
        ["#", ..] => told.text(line).done(),
        [word, rest @ ..] => done_by_word(trial, told, *word, rest),
    }
}

// Does what a line of this first word says, by the words behind it.
fn done_by_word(
    trial: &mut Trial,
    told: &mut Told,
    word: &str,
    words: &[&str],
) -> Result<(), NoMemory> {
    match word {
        "book" | "next" | "apply" | "undo" => trial.of_book(told, word, words),
        "party" | "account" | "reference" | "order" | "counts" | "fees" => {
            trial.asked(told, word, words)
        }
        "read" | "write" => trial.of_entries(told, word, words),
        "index" | "put" | "try" | "find" => trial.of_index(told, word, words),
        "disk" | "images" => trial.of_disk(told, word, words),
        "script" => trial.of_script(told, words),
        _ => trial.of_journal(told, word, words),
    }
}
