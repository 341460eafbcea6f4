// A consumer, a merchant and the house, and what each does at a frame.

ghost use Rattle.std.specs.Prelude.{IfOk};
ghost use Rattle.nb_msgs.specs.Steps.{StepKeepsRules};
ghost use Rattle.nb_merchant.specs.Sending.{StepIs};
ghost use Rattle.nb_msgs.specs.Bodies.{MessageKeepsRules};
ghost use Rattle.nb_wallet.specs.Spelling.{StartKeepsRules};

use crate::trade::WALLET;
use crate::trade::selling::{STALL, new_merchant};
use crate::{bytes, shelves, telling};
use nb_book::Book;
use nb_consumer::{Consumer, Phase};
use nb_entry::Entry;
use nb_escrow::{Head, decide};
use nb_merchant::Merchant;
use nb_msgs::{Message, REPLY_ROOM, Step, To, write_reply};
use nb_stall::Stage;
use nb_units::{AcctId, FIRST_VERSION, NoMemory, PartyId, Small};
use nb_wallet::Start;
use std::alloc::Global;

const HOUSE: Head = Head {
    house: [0x11; 32],
    operator: [0x22; 32],
    index: [0x33; 16],
    version: FIRST_VERSION,
    rate: 0,
};

const CONSUMER: To = To::Consumer(PartyId(1));

const MERCHANT: To = To::Merchant(PartyId(2));

const MOMENT: u64 = 1000;

// The number of the purchase.
pub(crate) const PURCHASE: u64 = 5;

// A frame under way.
#[derive(Drop)]
pub(crate) struct Frame {
    from: To,
    to: To,
    pub(crate) bytes: Vec<u8>,
}

// A consumer, a merchant and the house, and how many frames came to the first two that spell no message.
#[derive(Drop)]
pub(crate) struct Parties {
    pub(crate) consumer: Consumer,
    pub(crate) merchant: Merchant,
    pub(crate) house: Book,
    pub(crate) bad: u32,
}

// ---- how they begin

// The entries of a house where the consumer and the merchant are enrolled, and the consumer has 500.
static ENTRIES: [Entry; 3] = [
    Entry::Enrol {
        id: PartyId(1),
        role: nb_entry::CONSUMER,
        acct: AcctId(1),
        nonce: 7,
        key: [0x44; 32],
    },
    Entry::Enrol {
        id: PartyId(2),
        role: nb_entry::MERCHANT,
        acct: AcctId(2),
        nonce: 0,
        key: [0x55; 32],
    },
    Entry::Fund {
        acct: AcctId(1),
        amount: 500,
        reference: [0; 16],
    },
];

fn opened(alloc: Global) -> Result<Book, NoMemory> {
    let mut house = Book::new(alloc, 8, &HOUSE.index)?;
    for entry in &ENTRIES {
        record(&mut house, entry);
    }
    Ok(house)
}

// An entry that may come next comes next.
fn record(house: &mut Book, entry: &Entry) {
    if house.legal(entry, FIRST_VERSION, 0) && house.len() < house.cap() {
        house.apply(entry);
    }
}

// A merchant that sells goods of so many bytes, which count up, for 300; nothing where they are too many.
fn shop(alloc: Global, len: u64) -> Result<Option<Merchant>, NoMemory> {
    let goods = bytes::counting(alloc, len)?;
    let mut shelf = format!(in alloc; "7;300;;{len}\n")?.into_bytes();
    shelf.extend_from_slice(&goods)?;
    match shelves::read(alloc, &shelf) {
        Ok(catalogue) => Ok(Some(new_merchant(alloc, catalogue))),
        Err(_) => Ok(None),
    }
}

// Those of a purchase of such goods.
pub(crate) fn of(alloc: Global, len: u64) -> Result<Option<Parties>, NoMemory> {
    let Some(merchant) = shop(alloc, len)? else {
        return Ok(None);
    };
    match opened(alloc) {
        Ok(house) => Ok(Some(Parties {
            consumer: Consumer::new(alloc, WALLET),
            merchant,
            house,
            bad: 0,
        })),
        Err(_) => {
            drop(merchant);
            Err(NoMemory)
        }
    }
}

fn wish() -> Start
    ensures { StartKeepsRules result }
{
    let mut wish = bytes::wish(PURCHASE, 400);
    wish.request = Small::of(b"please").unwrap();
    wish
}

// The consumer wishes to buy.
pub(crate) fn began(alloc: Global, consumer: &mut Consumer) -> Result<Option<Frame>, NoMemory> {
    consumer_sent(alloc, consumer.start(&wish()))
}

// ---- one frame

fn posted(alloc: Global, from: To, to: To, message: &Message) -> Result<Option<Frame>, NoMemory>
    requires { MessageKeepsRules message.now }
{
    let bytes = telling::frame(alloc, message)?;
    Ok(Some(Frame { from, to, bytes }))
}

// What a step of the consumer sends.
fn consumer_sent(alloc: Global, step: Result<Step, NoMemory>) -> Result<Option<Frame>, NoMemory>
    requires { IfOk step StepKeepsRules }
{
    let step = step?;
    let sent = match &step {
        Step::Move { to, message, .. } => posted(alloc, CONSUMER, *to, message),
        _ => Ok(None),
    };
    drop(step);
    sent
}

// What a step of this merchant sends.
fn merchant_sent(
    alloc: Global,
    _merchant: &Merchant,
    step: Result<Step, NoMemory>,
) -> Result<Option<Frame>, NoMemory>
    requires { IfOk step (StepIs _merchant.now) }
{
    let step = step?;
    let sent = match &step {
        Step::Move { to, message, .. } => posted(alloc, MERCHANT, *to, message),
        _ => Ok(None),
    };
    drop(step);
    sent
}

fn merchant_asked(
    alloc: Global,
    merchant: &mut Merchant,
    message: &Message,
) -> Result<Option<Frame>, NoMemory>
    requires { MessageKeepsRules message.now }
{
    let step = merchant.on_consumer(message, MOMENT);
    merchant_sent(alloc, merchant, step)
}

fn merchant_paid(
    alloc: Global,
    merchant: &mut Merchant,
    message: &Message,
) -> Result<Option<Frame>, NoMemory>
    requires { MessageKeepsRules message.now }
{
    let step = merchant.on_server(message);
    merchant_sent(alloc, merchant, step)
}

fn merchant_waited(alloc: Global, merchant: &mut Merchant) -> Result<Option<Frame>, NoMemory> {
    let step = merchant.quiet(WALLET.id, PURCHASE);
    merchant_sent(alloc, merchant, step)
}

fn consumer_waited(alloc: Global, consumer: &mut Consumer) -> Result<Option<Frame>, NoMemory> {
    consumer_sent(alloc, consumer.quiet(PURCHASE))
}

fn consumer_told(
    alloc: Global,
    consumer: &mut Consumer,
    message: &Message,
) -> Result<Option<Frame>, NoMemory>
    requires { MessageKeepsRules message.now }
{
    consumer_sent(alloc, consumer.on(message))
}

// The house's reply to a request; what it records is recorded.
fn reply(alloc: Global, house: &mut Book, kind: u8, body: &[u8]) -> Result<Vec<u8>, NoMemory> {
    let decided = decide(house, &HOUSE, kind, body, MOMENT);
    let mut bytes = Vec::with_capacity(alloc, REPLY_ROOM)?;
    write_reply(&decided.reply, &decided.keys, &mut bytes);
    if let Some(entry) = decided.entry {
        house.apply(&entry);
    }
    Ok(bytes)
}

fn kind_of(frame: &Frame) -> u8 {
    frame.bytes.get(3).copied().unwrap_or(0)
}

fn body_of(frame: &Frame) -> &[u8] {
    frame.bytes.get(8..).unwrap_or(&[])
}

fn house_hears(alloc: Global, house: &mut Book, given: &Frame) -> Result<Option<Frame>, NoMemory> {
    let bytes = reply(alloc, house, kind_of(given), body_of(given))?;
    Ok(Some(Frame {
        from: To::Server,
        to: given.from,
        bytes,
    }))
}

fn merchant_hears(
    alloc: Global,
    merchant: &mut Merchant,
    from: To,
    message: &Message,
) -> Result<Option<Frame>, NoMemory>
    requires { MessageKeepsRules message.now }
{
    match from {
        To::Server => merchant_paid(alloc, merchant, message),
        _ => merchant_asked(alloc, merchant, message),
    }
}

// Gives a message to the consumer or the merchant.
fn told(
    alloc: Global,
    parties: &mut Parties,
    given: &Frame,
    message: &Message,
) -> Result<Option<Frame>, NoMemory>
    requires { MessageKeepsRules message.now }
{
    match given.to {
        To::Consumer(_) => consumer_told(alloc, &mut parties.consumer, message),
        _ => merchant_hears(alloc, &mut parties.merchant, given.from, message),
    }
}

fn node_hears(
    alloc: Global,
    parties: &mut Parties,
    given: &Frame,
) -> Result<Option<Frame>, NoMemory> {
    match bytes::message(alloc, kind_of(given), body_of(given)) {
        Some(message) => {
            let sent = told(alloc, parties, given, &message);
            drop(message);
            sent
        }
        None => {
            parties.bad = parties.bad.saturating_add(1);
            Ok(None)
        }
    }
}

// Gives a frame to whom it is for: what that one sends then.
pub(crate) fn deliver(
    alloc: Global,
    parties: &mut Parties,
    given: &Frame,
) -> Result<Option<Frame>, NoMemory> {
    match given.to {
        To::Server => house_hears(alloc, &mut parties.house, given),
        _ => node_hears(alloc, parties, given),
    }
}

// Nothing is under way: the consumer has waited, or where it is paid the merchant.
pub(crate) fn waited(alloc: Global, parties: &mut Parties) -> Result<Option<Frame>, NoMemory> {
    match parties.consumer.state(PURCHASE) {
        Some(Phase::Paid { .. }) => merchant_waited(alloc, &mut parties.merchant),
        _ => consumer_waited(alloc, &mut parties.consumer),
    }
}

// Whether the consumer and the merchant both know that it is paid.
pub(crate) fn is_done(parties: &Parties) -> bool {
    matches!(parties.consumer.state(PURCHASE), Some(Phase::Paid { .. }))
        && parties.merchant.state(WALLET.id, PURCHASE) == Some(Stage::Settled)
}
