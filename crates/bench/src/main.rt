//! A program that does a named piece of work over bytes a number of times, so that its speed can be measured:
//! `bench ROW SIZE TIMES`. It prints the SHA-256 digest of what the work made, in hexadecimal.
//!
//! The work begins with SIZE bytes of a pattern; a turn and a lock have no bytes, and SIZE is the number of threads; of look-ups it is
//! how many keys there are, and of a shelf how many products. Each round works on what the last one made, so that none can be left out.
//! `bench rows` does what each line of standard input says, in the same words.
//! `bench answer JOURNAL REQUESTS` answers the frames on standard input over a journal, so many in a turn, and prints how many bytes their
//! replies have; `bench decide JOURNAL REQUESTS plain` does so up to the drafts of the replies, which are written behind the turn, and with `opened` each order
//! is opened before its turn; `bench ask JOURNAL REQUESTS THREADS` asks a desk for them, by 1, 2 or 4 threads. A file has one subject and its rows: a
//! new row touches that file alone. How long a round takes is no claim of the proofs, and no clause says more than its safety needs:
//! bench/run measures from outside. What the rows make is compared with other programs: the digests in `stdout` are from Python over hashlib, hmac
//! and another ChaCha20, for parts from openssl, and sums of frames and of look-ups from ones that read no frames and have no index.
#![tactic(auto)]

mod answering;
mod asking;
mod framing;
mod goods;
mod hashing;
mod indexing;
mod keystream;
mod messages;
mod pattern;
mod sealing;
mod shelves;
mod turning;

use anyhow::anyhow;
use nb_seal::{NoMemory, sha};
use std::alloc::{AllocError, Global};
use std::env;
use std::process::ExitCode;
use std::sync::Wait;
use std::thread::Threads;

const USAGE: &str =
    "usage: bench sha|hmac|seal|unseal|stream|parts|openparts|lookup|shelf SIZE TIMES
       bench frames1|frames100|frames65536|copy SIZE TIMES
       bench writegoods|readgoods SIZE TIMES
       bench turn|lock THREADS TIMES
       bench answer JOURNAL REQUESTS
       bench decide JOURNAL REQUESTS plain|opened
       bench ask JOURNAL REQUESTS THREADS
       bench rows";

// The words are none of the program's.
const BAD_WORDS: u8 = 2;

/// What came of a row.
#[derive(Drop)]
pub enum Made {
    /// The bytes that it made.
    Bytes(Vec<u8>),
    /// There is no such row.
    Unknown,
}

impl Made {
    /// A number in 8 bytes, the highest first.
    pub fn number(alloc: Global, number: u64) -> Result<Made, NoMemory> {
        Ok(Made::Bytes(Vec::from_slice(alloc, &number.to_be_bytes())?))
    }
}

fn main(rt: HostRuntime) -> anyhow::Result<ExitCode> {
    let words: Vec<String> = env::args(&rt)?.skip(1).collect(rt.alloc())?;
    do_words(&rt, &rt, words.as_slice())
}

// Does what the words say.
fn do_words<R: Threads + Wait + Sync>(
    rt: &HostRuntime,
    many: &R,
    words: &[String],
) -> anyhow::Result<ExitCode> {
    if let Some(told) = told(rt, many, words)? {
        println!(rt; "{told}")?;
        return Ok(ExitCode::SUCCESS);
    }
    if let [row] = words
        && row.as_str() == "rows"
    {
        do_rows(rt, many)?;
        return Ok(ExitCode::SUCCESS);
    }
    do_line(rt, many, words)
}

// How many bytes the replies to the requests on standard input have, where the words are for them.
fn told<R: Threads + Wait + Sync>(
    rt: &HostRuntime,
    many: &R,
    words: &[String],
) -> anyhow::Result<Option<usize>> {
    match words {
        [row, name, turn] if row.as_str() == "answer" => answered(rt, name.as_str(), turn.as_str()),
        [row, name, turn, how] if row.as_str() == "decide" => {
            decided(rt, name.as_str(), turn.as_str(), how.as_str())
        }
        [row, name, turn, threads] if row.as_str() == "ask" => {
            asked(rt, many, name.as_str(), turn.as_str(), threads.as_str())
        }
        _ => Ok(None),
    }
}

fn answered(rt: &HostRuntime, name: &str, turn: &str) -> anyhow::Result<Option<usize>> {
    let Ok(turn) = turn.parse() else {
        return Ok(None);
    };
    Ok(Some(answering::run(rt, name, turn)?))
}

fn decided(rt: &HostRuntime, name: &str, turn: &str, how: &str) -> anyhow::Result<Option<usize>> {
    let Ok(turn) = turn.parse() else {
        return Ok(None);
    };
    let opens = match how {
        "plain" => false,
        "opened" => true,
        _ => return Ok(None),
    };
    Ok(Some(answering::run_decided(rt, name, turn, opens)?))
}

fn asked<R: Threads + Wait + Sync>(
    rt: &HostRuntime,
    many: &R,
    name: &str,
    turn: &str,
    threads: &str,
) -> anyhow::Result<Option<usize>> {
    let (Ok(turn), Ok(threads)) = (turn.parse(), threads.parse()) else {
        return Ok(None);
    };
    Ok(Some(asking::run(rt, many, name, turn, threads)?))
}

// Does what the words say, where they are a row, a size and a number of times.
fn do_line<R: Threads + Wait + Sync>(
    rt: &HostRuntime,
    many: &R,
    words: &[String],
) -> anyhow::Result<ExitCode> {
    let Some(line) = line_of(many, rt.alloc(), words)? else {
        eprintln!(rt; "{USAGE}")?;
        return Ok(ExitCode::from(BAD_WORDS));
    };
    println!(rt; "{line}")?;
    Ok(ExitCode::SUCCESS)
}

// Does what each line of standard input says, and prints the line and the digest of what it made.
fn do_rows<R: Threads + Wait + Sync>(rt: &HostRuntime, threads: &R) -> anyhow::Result<()> {
    for line in rt.lines(rt.alloc()) {
        do_row(rt, threads, line?.as_str())?;
    }
    Ok(())
}

fn do_row<R: Threads + Wait + Sync>(
    rt: &HostRuntime,
    threads: &R,
    line: &str,
) -> anyhow::Result<()> {
    let made = row_of(threads, rt.alloc(), line)?;
    let made = made.as_deref().unwrap_or("no such row");
    println!(rt; "{line}: {made}")?;
    Ok(())
}

// Does what a line says.
fn row_of<R: Threads + Wait + Sync>(
    rt: &R,
    alloc: Global,
    line: &str,
) -> anyhow::Result<Option<String>> {
    match words_of(alloc, line) {
        Ok(words) => line_of(rt, alloc, words.as_slice()),
        Err(_) => Err(anyhow!("out of memory")),
    }
}

fn words_of(alloc: Global, line: &str) -> Result<Vec<String>, AllocError> {
    line.split(' ')
        .map(|word| String::from_str(alloc, word))
        .try_collect(alloc)
}

// Does what the words say, and gives the digest of what it made, where the words are a row, a size and a number of times.
fn line_of<R: Threads + Wait + Sync>(
    rt: &R,
    alloc: Global,
    words: &[String],
) -> anyhow::Result<Option<String>> {
    let [row, size, times] = words else {
        return Ok(None);
    };
    let (Ok(size), Ok(times)) = (size.as_str().parse(), times.as_str().parse()) else {
        return Ok(None);
    };
    match digest_of(rt, alloc, row.as_str(), size, times) {
        Ok(digest) => Ok(digest),
        Err(NoMemory) => Err(anyhow!("out of memory")),
    }
}

// The digest of what a row makes, in hexadecimal.
fn digest_of<R: Threads + Wait + Sync>(
    rt: &R,
    alloc: Global,
    row: &str,
    size: u32,
    times: u32,
) -> Result<Option<String>, NoMemory> {
    match run(rt, alloc, row, size, times)? {
        Made::Bytes(bytes) => Ok(Some(hex::encode(alloc, sha(&bytes))?)),
        Made::Unknown => Ok(None),
    }
}

// What a row makes: the first subject that has it does it.
fn run<R: Threads + Wait + Sync>(
    rt: &R,
    alloc: Global,
    row: &str,
    size: u32,
    times: u32,
) -> Result<Made, NoMemory> {
    match bytes_by(alloc, row, size, times)? {
        Made::Unknown => {}
        made => return Ok(made),
    }
    match goods_by(alloc, row, size, times)? {
        Made::Unknown => turning::run(rt, alloc, row, size, times),
        made => Ok(made),
    }
}

// What a row over bytes, frames or keys makes.
fn bytes_by(alloc: Global, row: &str, size: u32, times: u32) -> Result<Made, NoMemory> {
    match hashing::run(alloc, row, size, times)? {
        Made::Unknown => {}
        made => return Ok(made),
    }
    match keystream::run(alloc, row, size, times)? {
        Made::Unknown => {}
        made => return Ok(made),
    }
    match framing::run(alloc, row, size, times)? {
        Made::Unknown => indexing::run(alloc, row, size, times),
        made => Ok(made),
    }
}

// What a row over goods, messages, shelves or seals makes.
fn goods_by(alloc: Global, row: &str, size: u32, times: u32) -> Result<Made, NoMemory> {
    match goods::run(alloc, row, size, times)? {
        Made::Unknown => {}
        made => return Ok(made),
    }
    match messages::run(alloc, row, size, times)? {
        Made::Unknown => {}
        made => return Ok(made),
    }
    match shelves::run(alloc, row, size, times)? {
        Made::Unknown => sealing::run(alloc, row, size, times),
        made => Ok(made),
    }
}
