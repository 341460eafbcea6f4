ghost use Rattle.std.specs.Prelude.{◌≡◌, ◌≤◌};
ghost use Rattle.nb_commands.specs.Asking.{AsksAs, AsksOnly, RequestIs, request_ending};

use crate::ending::{BAD_INPUT, Ending, Job, OUT_OF_MEMORY, Outcome, SOURCE_FAILED};
use crate::input::{InputRead, read_most};
use nb_body::MAX_REQUEST;
use nb_port::Source;
use nb_units::{PartyId, Price, Small};
use std::alloc::Global;

/// Why there is no request to buy with.
#[derive(Clone, Copy)]
pub enum RequestEnd {
    /// The source failed.
    ReadFault,
    /// The input is longer than [`MAX_REQUEST`](nb_body::MAX_REQUEST).
    TooLong,
    /// There was no memory.
    NoMemory,
}

impl RequestEnd {
    /// How it ends the program.
    pub fn ending(self) -> Ending
        ensures { result ≡ request_ending self }
    {
        match self {
            RequestEnd::ReadFault => Ending::at_no_place(SOURCE_FAILED),
            RequestEnd::TooLong => Ending {
                status: BAD_INPUT,
                place: MAX_REQUEST as u64,
            },
            RequestEnd::NoMemory => Ending::at_no_place(OUT_OF_MEMORY),
        }
    }
}

/// The job of a purchase with the request that is the whole input, or how the run ends where there is none.
pub fn ask_with<S: Source>(
    alloc: Global,
    merchant: PartyId,
    product: u32,
    limit: Price,
    transaction: u64,
    source: &mut S,
) -> Outcome
    ensures asks { AsksAs (S.left source.old) (S.left source.new) (S.faults source.old) (S.faults source.new) merchant product limit transaction result }
    ensures only { AsksOnly (S.left source.old) (S.left source.new) (S.faults source.old) (S.faults source.new) merchant product limit transaction result }
    ensures count { S.faults source.old ≤ S.faults source.new }
{
    match read_request(alloc, source) {
        Ok(request) => Outcome::Work(Job::Buy {
            merchant,
            product,
            limit,
            transaction,
            request,
        }),
        Err(end) => Outcome::Done(end.ending()),
    }
}

// The request that is the whole input.
fn read_request<S: Source>(alloc: Global, source: &mut S) -> Result<Small, RequestEnd>
    ensures reads { RequestIs (S.left source.old) (S.left source.new) (S.faults source.old) (S.faults source.new) result }
    ensures count { S.faults source.old ≤ S.faults source.new }
{
    let input = match read_most(alloc, source, MAX_REQUEST) {
        InputRead::All(input) => input,
        InputRead::Longer => return Err(RequestEnd::TooLong),
        InputRead::Failed => return Err(RequestEnd::ReadFault),
        InputRead::NoMemory => return Err(RequestEnd::NoMemory),
    };
    Ok(Small::of(input.as_slice()).unwrap())
}
