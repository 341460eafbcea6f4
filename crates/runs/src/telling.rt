// What a run does, in words.

use nb_commands::{Ending, Job, Outcome};
use nb_lines::Told;
use nb_price::Catalogue;
use nb_units::NoMemory;
use std::alloc::Global;

// The most bytes that are shown.
pub(crate) const SHOWN: usize = 64;

// Words, as a program is given them.
pub(crate) fn words(alloc: Global, words: &[&str]) -> Result<Vec<String>, NoMemory> {
    let mut given = Vec::new(alloc);
    for word in words {
        given.push(given_as(alloc, *word)?)?;
    }
    Ok(given)
}

// Two quotes are a word of no letters, and a low line is a blank.
fn given_as(alloc: Global, word: &str) -> Result<String, NoMemory> {
    if word == "''" {
        return Ok(String::new(alloc));
    }
    let mut given = String::new(alloc);
    for letter in word.chars() {
        given.push(if letter == '_' { ' ' } else { letter })?;
    }
    Ok(given)
}

// How a run ended, or the work that it leaves.
pub(crate) fn outcome(told: &mut Told, outcome: Outcome) {
    match outcome {
        Outcome::Done(Ending { status, place }) => {
            told.show("status ", &status).show(" at ", &place);
        }
        Outcome::Work(job) => tell_job(told, &job),
    }
}

// The work that is left.
fn tell_job(told: &mut Told, job: &Job) {
    match job {
        Job::Serve { workers, sessions } => {
            told.show("", workers)
                .show(" workers are to serve ", sessions)
                .text(" sessions each");
        }
        Job::Buy {
            merchant,
            product,
            limit,
            transaction,
            request,
        } => {
            told.show("product ", product)
                .show(" of party ", &merchant.0)
                .show(" is to be bought for at most ", &limit.0)
                .show(" as ", transaction);
            tell_request(told, request.as_slice());
        }
        Job::Sell {
            links,
            shelf,
            offers,
        } => {
            told.show("", links).text(" links are to be sold on");
            if offers.is_some() {
                told.text(" with offers");
            }
            for product in [7, 9] {
                tell_product(told, shelf, product);
            }
        }
    }
}

// What is said as the price is asked for, where something is.
fn tell_request(told: &mut Told, request: &[u8]) {
    if !request.is_empty() {
        told.bytes(" with ", request);
    }
}

// A product of a shelf: its price, and its goods.
fn tell_product(told: &mut Told, shelf: &Catalogue, product: u32) {
    match (shelf.quote(product), shelf.goods(product)) {
        (Ok(price), Some(goods)) => {
            told.show(", product ", &product)
                .show(" at ", &price.0)
                .bytes_up_to(": ", goods, SHOWN);
        }
        _ => {
            told.show(", no product ", &product);
        }
    }
}
