//! A program that does with a consumer and with a merchant what the lines of standard input say, and prints what they do: the trials of `nb_consumer`
//! and of `nb_merchant`, as data, of the heads of `nb_wallet` and `nb_stall`, of the shelves of `nb_price`, and of whole purchases. Each line is a word
//! and what it is about. [`Trade`] says what those of a consumer do, which are `kept`, `again`, `start`, `hear`, `quiet`, `phase`, `goods`, `seal` and
//! `part`, and those of a merchant, which are `shelf`, `offers`, `stall`, `anew`, `consumer`, `house`, `silent`, `stage` and `asker`; `item` and `bytes` are of
//! both. [`heads`] and [`whole`] have the lines of that name, `head` and `whole`, and [`shelves`] has `catalogue`, `puts` and `shortage`. A line that
//! begins with `#` is printed as it is. Purchases over links are the program `deals`'s.
//!
//! It claims nothing: what it prints is compared with what another program wrote.
#![tactic(auto)]

mod bytes;
mod heads;
mod shelves;
mod telling;
mod trade;
mod whole;

use crate::trade::Trade;
use anyhow::anyhow;
use nb_lines::Told;
use nb_units::NoMemory;

fn main(rt: HostRuntime) -> anyhow::Result<()> {
    match Trade::new(rt.alloc()) {
        Ok(mut trade) => {
            let ended = do_lines(&rt, &mut trade);
            drop(trade);
            ended
        }
        Err(_) => Err(anyhow!("out of memory")),
    }
}

// Does what each line says.
fn do_lines(rt: &HostRuntime, trade: &mut Trade) -> anyhow::Result<()> {
    for line in rt.lines(rt.alloc()) {
        do_line(rt, trade, line?.as_str())?;
    }
    Ok(())
}

// Does what a line says, and prints what is told of it; nothing where the line is empty.
fn do_line(rt: &HostRuntime, trade: &mut Trade, line: &str) -> anyhow::Result<()> {
    let mut told = Told::new(rt.alloc());
    if done(trade, &mut told, line).is_err() || told.done().is_err() {
        return Err(anyhow!("out of memory"));
    }
    let told = told.as_str();
    if !told.is_empty() {
        println!(rt; "{told}")?;
    }
    Ok(())
}

fn done(trade: &mut Trade, told: &mut Told, line: &str) -> Result<(), NoMemory> {
    let words: Vec<&str> = line.split_whitespace().collect(told.alloc())?;
    match words.as_slice() {
        [] => Ok(()),
        ["#", ..] => told.text(line).done(),
        [word, rest @ ..] => done_by_word(trade, told, *word, rest),
    }
}

// What is done at a line of this first word, by the words behind it.
fn done_by_word(
    trade: &mut Trade,
    told: &mut Told,
    word: &str,
    words: &[&str],
) -> Result<(), NoMemory> {
    match word {
        "item" => trade.item(told, words),
        "bytes" => trade.bytes(told),
        "catalogue" => shelves::catalogue(told, words),
        "puts" => shelves::puts(told, words),
        "shortage" => shelves::shortage(told),
        "whole" => whole::purchase(told, words),
        "head" => heads::head(told, words),
        _ => done_by_consumer(trade, told, word, words),
    }
}

// What is done at a line of a consumer.
fn done_by_consumer(
    trade: &mut Trade,
    told: &mut Told,
    word: &str,
    words: &[&str],
) -> Result<(), NoMemory> {
    match word {
        "kept" => trade.kept(told, words),
        "again" => trade.again(told),
        "start" => trade.start(told, words),
        "hear" => trade.hear(told, words),
        "quiet" => trade.quiet(told, words),
        "phase" => trade.phase(told, words),
        "goods" => trade.goods(told, words),
        "seal" => trade.seal(told, words),
        "part" => trade.part(told, words),
        _ => done_by_merchant(trade, told, word, words),
    }
}

// What is done at a line of a merchant.
fn done_by_merchant(
    trade: &mut Trade,
    told: &mut Told,
    word: &str,
    words: &[&str],
) -> Result<(), NoMemory> {
    match word {
        "shelf" => trade.shelf(words),
        "offers" => trade.offers(told, words),
        "stall" => trade.stall(told, words),
        "anew" => trade.anew(told, words),
        "consumer" => trade.consumer_says(told, words),
        "house" => trade.house_says(told, words),
        "silent" => trade.silent(told, words),
        "stage" => trade.stage(told, words),
        "asker" => trade.asker(told, words),
        _ => told.unclear(),
    }
}
