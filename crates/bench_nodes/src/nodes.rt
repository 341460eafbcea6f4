// Nodes: each round is one step of the purchase in the middle of so many. A consumer has heard nothing of it for long, and asks for its ticket again;
// a merchant is asked for its price again.

ghost use Rattle.std.specs.Prelude.{IfOk};
ghost use Rattle.nb_msgs.specs.Bodies.{MessageKeepsRules};
ghost use Rattle.nb_wallet.specs.Spelling.{StartKeepsRules, PassKeepsRules};

use crate::{Made, discount, sale};
use nb_asking::price_request;
use nb_consumer::Consumer;
use nb_merchant::Merchant;
use nb_msgs::{Message, Step};
use nb_price::Catalogue;
use nb_seal::NoMemory;
use nb_stall::Stall;
use nb_ticket::{Ticket, write_ticket};
use nb_units::{AcctId, PartyId, Price, Secret, Small};
use nb_wallet::{SessionTicket, Start, Wallet};
use std::alloc::Global;

/// The key of all parties, of the house and of the keeper of groups.
pub const KEY: Secret = [0x44; 32];

const CONSUMER: PartyId = PartyId(1);

const MERCHANT: PartyId = PartyId(2);

// The merchant's one product.
const SHELF: &[u8] = b"7;300;goods;2\nhi";

const PRODUCT: u32 = 7;

/// The moment of all messages, and the last second of the ticket.
pub const MOMENT: u64 = 1000;

/// The rows `consumer` and `merchant`: SIZE purchases. The row `sell`: goods of SIZE bytes. The row `quote`: SIZE offers.
pub fn run(alloc: Global, row: &str, size: u32, times: u32) -> Result<Made, NoMemory> {
    match row {
        "consumer" => asked_again(alloc, size, times),
        "merchant" => told_again(alloc, size, times),
        "sell" => sale::run(alloc, size, times),
        "quote" => discount::run(alloc, size, times),
        _ => Ok(Made::Unknown),
    }
}

/// The start of the purchase of this number.
pub fn start_of(number: u32) -> Start
    ensures { StartKeepsRules result }
{
    let nothing = Small::of(&[]).unwrap();
    Start {
        transaction: u64::from(number),
        merchant: MERCHANT,
        product: PRODUCT,
        limit: Price(300),
        request: nothing,
        memo: nothing,
    }
}

const WALLET: Wallet = Wallet {
    id: CONSUMER,
    acct: AcctId(1),
    nonce: 7,
    key: KEY,
};

// What is made is a sum over all steps, in their order.
fn asked_again(alloc: Global, size: u32, times: u32) -> Result<Made, NoMemory> {
    let mut consumer = Consumer::new(alloc, WALLET);
    match sum_asked(&mut consumer, size, times) {
        Ok(sum) => Made::number(alloc, sum),
        Err(_) => Err(NoMemory),
    }
}

// The sum over all steps of a consumer that first starts so many purchases, numbered from 0 on.
fn sum_asked(consumer: &mut Consumer, size: u32, times: u32) -> Result<u64, nb_units::NoMemory> {
    for number in 0..size {
        drop(consumer.start(&start_of(number))?);
    }
    let middle = u64::from(size / 2);
    let mut sum = 0;
    for _ in 0..times {
        sum = mixed(sum, consumer.quiet(middle)?);
    }
    Ok(sum)
}

/// The ticket of all purchases, and the key that it brings.
pub fn pass() -> SessionTicket
    ensures { PassKeepsRules result }
{
    let ticket = Ticket {
        consumer: CONSUMER,
        merchant: MERCHANT,
        until: MOMENT,
        session: KEY,
    };
    SessionTicket {
        session: KEY,
        ticket: write_ticket(&ticket, &KEY),
    }
}

// How a consumer asks for the price of the purchase of this number.
fn price_asked(alloc: Global, number: u32) -> Result<Message, nb_units::NoMemory>
    ensures { IfOk result MessageKeepsRules }
{
    price_request(alloc, &pass(), &start_of(number))
}

/// The merchant.
pub const STALL: Stall = Stall {
    id: MERCHANT,
    acct: AcctId(2),
    key: KEY,
    master: KEY,
};

// What is made is a sum over all steps, in their order.
fn told_again(alloc: Global, size: u32, times: u32) -> Result<Made, NoMemory> {
    let Ok(catalogue) = Catalogue::read(alloc, SHELF) else {
        return Ok(Made::Unknown);
    };
    let mut merchant = Merchant::new(alloc, STALL, catalogue);
    match sum_told(alloc, &mut merchant, size, times) {
        Ok(sum) => Made::number(alloc, sum),
        Err(_) => Err(NoMemory),
    }
}

// The sum over all steps of a merchant that first quotes the price of so many purchases, numbered from 0 on.
fn sum_told(
    alloc: Global,
    merchant: &mut Merchant,
    size: u32,
    times: u32,
) -> Result<u64, nb_units::NoMemory> {
    for number in 0..size {
        quote(alloc, merchant, number)?;
    }
    let message = price_asked(alloc, size / 2)?;
    let sum = sum_of(merchant, &message, times);
    drop(message);
    sum
}

fn quote(alloc: Global, merchant: &mut Merchant, number: u32) -> Result<(), nb_units::NoMemory> {
    let message = price_asked(alloc, number)?;
    let step = merchant.on_consumer(&message, MOMENT);
    drop(message);
    drop(step?);
    Ok(())
}

fn sum_of(merchant: &mut Merchant, message: &Message, times: u32) -> Result<u64, nb_units::NoMemory>
    requires { MessageKeepsRules message.now }
{
    let mut sum = 0;
    for _ in 0..times {
        sum = mixed(sum, merchant.on_consumer(message, MOMENT)?);
    }
    Ok(sum)
}

// The next number, of the last byte of what is sent.
fn mixed(number: u64, step: Step) -> u64 {
    let last = match &step {
        Step::Move {
            message: Message::TicketAsk(ask),
            ..
        } => ask.tag.last().copied(),
        Step::Move {
            message: Message::Quote { sealed, .. },
            ..
        } => sealed.as_slice().last().copied(),
        _ => None,
    };
    drop(step);
    number
        .wrapping_mul(31)
        .wrapping_add(u64::from(last.unwrap_or(0)))
        .wrapping_add(1)
}
