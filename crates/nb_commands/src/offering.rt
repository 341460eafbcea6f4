ghost use Rattle.std.specs.Prelude.{◌≡◌, ◌≤◌};
ghost use Rattle.nb_commands.specs.Offering.{OffersAs, OffersOnly, WaresAre, wares_ending};

use crate::ending::{BAD_INPUT, Ending, Job, OUT_OF_MEMORY, Outcome, SOURCE_FAILED};
use crate::input::{InputRead, read_most};
use nb_groups::{Offers, OffersFault};
use nb_port::Source;
use nb_price::{Catalogue, MAX_SHELF, ShelfFault};
use std::alloc::Global;

/// Why there is nothing to sell with offers.
#[derive(Clone, Copy)]
pub enum WaresEnd {
    /// The source failed.
    ReadFault,
    /// The input is longer than [`MAX_SHELF`](nb_price::MAX_SHELF).
    TooLong,
    /// The line of this number, from 1 on, is none of offers, or is for the product and the group of one before it; or it is where an empty line is missing. Those
    /// before it are good.
    BadLine { line: u32 },
    /// The item of this number, from 1 on, is none of a shelf, or has the product's number of one before it. The offers and the items before it are good.
    BadItem { item: u32 },
    /// There was no memory.
    NoMemory,
}

impl WaresEnd {
    /// How it ends the program.
    pub fn ending(self) -> Ending
        ensures { result ≡ wares_ending self }
    {
        match self {
            WaresEnd::ReadFault => Ending::at_no_place(SOURCE_FAILED),
            WaresEnd::TooLong => Ending::at_no_place(BAD_INPUT),
            WaresEnd::BadLine { line } => Ending {
                status: BAD_INPUT,
                place: u64::from(line),
            },
            WaresEnd::BadItem { item } => Ending {
                status: BAD_INPUT,
                place: u64::from(item),
            },
            WaresEnd::NoMemory => Ending::at_no_place(OUT_OF_MEMORY),
        }
    }
}

/// The job of one who sells over so many links with the offers and the shelf that are the whole input, or how the run ends where it is not that.
pub fn take_offers<S: Source>(alloc: Global, links: u32, source: &mut S) -> Outcome
    ensures offers { OffersAs (S.left source.old) (S.left source.new) (S.faults source.old) (S.faults source.new) links result }
    ensures only { OffersOnly (S.left source.old) (S.left source.new) (S.faults source.old) (S.faults source.new) links result }
    ensures count { S.faults source.old ≤ S.faults source.new }
{
    match read_wares(alloc, source) {
        Ok((offers, shelf)) => Outcome::Work(Job::Sell {
            links,
            shelf,
            offers: Some(offers),
        }),
        Err(end) => Outcome::Done(end.ending()),
    }
}

// The offers and the shelf that are the whole input. While it is read the input and its goods are held.
fn read_wares<S: Source>(alloc: Global, source: &mut S) -> Result<(Offers, Catalogue), WaresEnd>
    ensures reads { WaresAre (S.left source.old) (S.left source.new) (S.faults source.old) (S.faults source.new) result }
    ensures count { S.faults source.old ≤ S.faults source.new }
{
    let input = match read_most(alloc, source, MAX_SHELF) {
        InputRead::All(input) => input,
        InputRead::Longer => return Err(WaresEnd::TooLong),
        InputRead::Failed => return Err(WaresEnd::ReadFault),
        InputRead::NoMemory => return Err(WaresEnd::NoMemory),
    };
    let (offers, goods) = match Offers::read_front(alloc, input.as_slice()) {
        Ok(front) => front,
        Err(OffersFault::BadLine { line }) => return Err(WaresEnd::BadLine { line }),
        Err(OffersFault::Twice { line }) => return Err(WaresEnd::BadLine { line }),
        Err(OffersFault::NoMemory) => return Err(WaresEnd::NoMemory),
    };
    match Catalogue::read(alloc, goods) {
        Ok(shelf) => Ok((offers, shelf)),
        Err(ShelfFault::BadItem { item }) => Err(WaresEnd::BadItem { item }),
        Err(ShelfFault::Twice { item, .. }) => Err(WaresEnd::BadItem { item }),
        Err(ShelfFault::NoMemory) => Err(WaresEnd::NoMemory),
    }
}
