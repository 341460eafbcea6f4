//! A program that makes purchases over links in memory and serves them, as the lines of standard input say, and prints what came of each: the trials of `nb_buy`
//! and of `nb_sell`, as data. Each line is a word and what it is about. [`Deal`](crate::deal::Deal) says what they do: `wallet` and `buy` are of a consumer's
//! purchase, `journal`, `shelf`, `moments`, `sell` and `cuts` of what a merchant does on a consumer's link, `comes` and `fails` of both. A line that begins
//! with `#` is printed as it is.
//!
//! It claims nothing: what it prints is compared with what another program wrote.
#![tactic(auto)]

mod deal;

use crate::deal::Deal;
use anyhow::anyhow;
use nb_lines::Told;
use nb_units::NoMemory;

fn main(rt: HostRuntime) -> anyhow::Result<()> {
    let mut deal = Deal::new(rt.alloc());
    do_lines(&rt, &mut deal)
}

// Does what each line says.
fn do_lines(rt: &HostRuntime, deal: &mut Deal) -> anyhow::Result<()> {
    for line in rt.lines(rt.alloc()) {
        do_line(rt, deal, line?.as_str())?;
    }
    Ok(())
}

// Does what a line says, and prints what is told of it; nothing where the line is empty.
fn do_line(rt: &HostRuntime, deal: &mut Deal, line: &str) -> anyhow::Result<()> {
    let mut told = Told::new(rt.alloc());
    if done(deal, &mut told, line).is_err() || told.done().is_err() {
        return Err(anyhow!("out of memory"));
    }
    let told = told.as_str();
    if !told.is_empty() {
        println!(rt; "{told}")?;
    }
    Ok(())
}

fn done(deal: &mut Deal, told: &mut Told, line: &str) -> Result<(), NoMemory> {
    let words: Vec<&str> = line.split_whitespace().collect(told.alloc())?;
    match words.as_slice() {
        [] => Ok(()),
        ["#", ..] => told.text(line).done(),
        [word, rest @ ..] => done_by_word(deal, told, *word, rest),
    }
}

// What is done at a line of this first word, by the words behind it.
fn done_by_word(
    deal: &mut Deal,
    told: &mut Told,
    word: &str,
    words: &[&str],
) -> Result<(), NoMemory> {
    match word {
        "wallet" => deal.wallet(told, words),
        "comes" => deal.comes(told, words),
        "fails" => deal.fails(told, words),
        "buy" => deal.buy(told, words),
        "journal" => deal.journal(told, words),
        "shelf" => deal.shelf(words),
        "moments" => deal.moments(words),
        "sell" => deal.sell(told, words),
        "cuts" => deal.cuts(told, words),
        _ => told.unclear(),
    }
}
