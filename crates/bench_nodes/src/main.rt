//! A program that does one step of a consumer or of a merchant a number of times, so that its speed can be measured:
//! `bench_nodes consumer|merchant SIZE TIMES`, among SIZE purchases; or that hands out all parts of goods of SIZE bytes so many times over links in memory:
//! `bench_nodes sell SIZE TIMES`; or that quotes a price so many times over SIZE offers: `bench_nodes quote SIZE TIMES`. It prints the SHA-256 digest of what the steps made, in hexadecimal.
//! `bench_nodes rows` does what each line of standard input says, in the same words. It is beside `bench`, since it stands on what nodes are made
//! of, and on nothing of a house. How long a step takes is no claim of the proofs: bench/run measures from outside. What is made is compared with
//! another program: the digests in `stdout` are from it.
#![tactic(auto)]

mod discount;
mod nodes;
mod sale;

use anyhow::anyhow;
use nb_seal::{NoMemory, sha};
use std::alloc::Global;
use std::env;
use std::process::ExitCode;

const USAGE: &str = "usage: bench_nodes consumer|merchant|sell|quote SIZE TIMES
       bench_nodes rows";

// The words are none of the program's.
const BAD_WORDS: u8 = 2;

/// What came of a row.
#[derive(Drop)]
pub enum Made {
    /// The bytes that it made.
    Bytes(Vec<u8>),
    /// There is no such row.
    Unknown,
}

impl Made {
    /// A number in 8 bytes, the highest first.
    pub fn number(alloc: Global, number: u64) -> Result<Made, NoMemory> {
        Ok(Made::Bytes(Vec::from_slice(alloc, &number.to_be_bytes())?))
    }
}

fn main(rt: HostRuntime) -> anyhow::Result<ExitCode> {
    let words: Vec<String> = env::args(&rt)?.skip(1).collect(rt.alloc())?;
    do_words(&rt, words.as_slice())
}

fn do_words(rt: &HostRuntime, words: &[String]) -> anyhow::Result<ExitCode> {
    match words {
        [word] if word.as_str() == "rows" => do_rows(rt)?,
        _ => return do_row(rt, words),
    }
    Ok(ExitCode::SUCCESS)
}

// Does what the words say, and prints the digest of what it made.
fn do_row(rt: &HostRuntime, words: &[String]) -> anyhow::Result<ExitCode> {
    match line_of(rt.alloc(), words) {
        Ok(Some(line)) => {
            println!(rt; "{line}")?;
            Ok(ExitCode::SUCCESS)
        }
        Ok(None) => {
            eprintln!(rt; "{USAGE}")?;
            Ok(ExitCode::from(BAD_WORDS))
        }
        Err(_) => Err(anyhow!("out of memory")),
    }
}

// Does what each line of standard input says, and prints the line and the digest of what it made.
fn do_rows(rt: &HostRuntime) -> anyhow::Result<()> {
    for line in rt.lines(rt.alloc()) {
        do_line(rt, line?.as_str())?;
    }
    Ok(())
}

fn do_line(rt: &HostRuntime, line: &str) -> anyhow::Result<()> {
    let Ok(made) = row_of(rt.alloc(), line) else {
        return Err(anyhow!("out of memory"));
    };
    let made = made.as_deref().unwrap_or("no such row");
    println!(rt; "{line}: {made}")?;
    Ok(())
}

// Does what a line says.
fn row_of(alloc: Global, line: &str) -> Result<Option<String>, NoMemory> {
    let words = line
        .split(' ')
        .map(|word| String::from_str(alloc, word))
        .try_collect::<Vec<String>>(alloc)?;
    line_of(alloc, words.as_slice())
}

// Does what the words say, and gives the digest of what it made, where the words are a row, a size and a number of times.
fn line_of(alloc: Global, words: &[String]) -> Result<Option<String>, NoMemory> {
    if words.len() != 3 {
        return Ok(None);
    }
    let (Ok(size), Ok(times)) = (words[1].as_str().parse(), words[2].as_str().parse()) else {
        return Ok(None);
    };
    digest_of(alloc, words[0].as_str(), size, times)
}

// The digest of what a row makes.
fn digest_of(alloc: Global, row: &str, size: u32, times: u32) -> Result<Option<String>, NoMemory> {
    match nodes::run(alloc, row, size, times)? {
        Made::Bytes(bytes) => Ok(Some(hex::encode(alloc, sha(&bytes))?)),
        Made::Unknown => Ok(None),
    }
}
