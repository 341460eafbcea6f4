ghost use Rattle.std.specs.Prelude.{◌≡◌, ◌≤◌};
ghost use Rattle.nb_commands.specs.Selling.{ReadsAs, StocksAs, StocksOnly, shelf_ending};

use crate::ending::{BAD_INPUT, Ending, Job, OUT_OF_MEMORY, Outcome, SOURCE_FAILED};
use crate::input::{InputRead, read_most};
use nb_port::Source;
use nb_price::{Catalogue, MAX_SHELF, ShelfFault};
use std::alloc::Global;

/// Why no shelf was read.
#[derive(Clone, Copy)]
pub enum ShelfEnd {
    /// The source failed.
    ReadFault,
    /// The input is longer than [`MAX_SHELF`](nb_price::MAX_SHELF).
    TooLong,
    /// The item of this number, from 1 on, is not of the form of items, or has the product's number of one before it. Those before it are good.
    BadItem { item: u32 },
    /// There was no memory.
    NoMemory,
}

impl ShelfEnd {
    /// How it ends the program.
    pub fn ending(self) -> Ending
        ensures { result ≡ shelf_ending self }
    {
        match self {
            ShelfEnd::ReadFault => Ending::at_no_place(SOURCE_FAILED),
            ShelfEnd::TooLong => Ending::at_no_place(BAD_INPUT),
            ShelfEnd::BadItem { item } => Ending {
                status: BAD_INPUT,
                place: u64::from(item),
            },
            ShelfEnd::NoMemory => Ending::at_no_place(OUT_OF_MEMORY),
        }
    }
}

/// The job of one who sells over so many links what the whole input has, or how the run ends where that is no shelf.
pub fn take_stock<S: Source>(alloc: Global, links: u32, source: &mut S) -> Outcome
    ensures stocks { StocksAs (S.left source.old) (S.left source.new) (S.faults source.old) (S.faults source.new) links result }
    ensures only { StocksOnly (S.left source.old) (S.left source.new) (S.faults source.old) (S.faults source.new) links result }
    ensures count { S.faults source.old ≤ S.faults source.new }
{
    match read_shelf(alloc, source) {
        Ok(shelf) => Outcome::Work(Job::Sell {
            links,
            shelf,
            offers: None,
        }),
        Err(end) => Outcome::Done(end.ending()),
    }
}

// The shelf that is the whole input. While it is read the input and its goods are held.
fn read_shelf<S: Source>(alloc: Global, source: &mut S) -> Result<Catalogue, ShelfEnd>
    ensures reads { ReadsAs (S.left source.old) (S.left source.new) (S.faults source.old) (S.faults source.new) result }
    ensures count { S.faults source.old ≤ S.faults source.new }
{
    let input = match read_most(alloc, source, MAX_SHELF) {
        InputRead::All(input) => input,
        InputRead::Longer => return Err(ShelfEnd::TooLong),
        InputRead::Failed => return Err(ShelfEnd::ReadFault),
        InputRead::NoMemory => return Err(ShelfEnd::NoMemory),
    };
    match Catalogue::read(alloc, input.as_slice()) {
        Ok(shelf) => Ok(shelf),
        Err(ShelfFault::BadItem { item }) => Err(ShelfEnd::BadItem { item }),
        Err(ShelfFault::Twice { item, .. }) => Err(ShelfEnd::BadItem { item }),
        Err(ShelfFault::NoMemory) => Err(ShelfEnd::NoMemory),
    }
}
