//! What a line says: a function of its words.

ghost use Rattle.std.specs.Prelude.{◌≡◌, ◌≤◌, IfOk, IfSome};
ghost use Rattle.nb_script.specs.declared.limits.TheConstants.{MAX_SCRIPT_CAP};
ghost use Rattle.nb_script.specs.Lines as lines;

use crate::act::{Act, Addressee};
use crate::limits::{MAX_BODY_DIGITS, MAX_SCRIPT_CAP};
use crate::words::Words;
use hex::FromHexError;
use nb_units::frames::LAST_KIND;
use nb_units::{AcctId, Blob, HEAD, NoMemory, PartyId, Price, Secret};
use std::alloc::Global;

/// Who buys.
#[derive(Clone, Copy)]
pub struct Consumer {
    /// Its number, 4 bytes wide.
    pub id: PartyId,
    /// The account that it pays from, 4 bytes wide.
    pub acct: AcctId,
    /// The number that its orders must show, 8 bytes wide.
    pub nonce: u64,
    /// The key that it shares with the house, 32 bytes.
    pub key: Secret,
}

/// Who sells.
#[derive(Clone, Copy)]
pub struct Merchant {
    /// Its number, 4 bytes wide.
    pub id: PartyId,
    /// The account that it is paid into, 4 bytes wide.
    pub acct: AcctId,
    /// The key that it shares with the house, 32 bytes.
    pub key: Secret,
    /// What the keys of its goods are made from, 32 bytes.
    pub master: Secret,
}

/// A product that a merchant sells.
#[derive(Clone, Copy)]
pub struct Shelf {
    /// Who sells it, 4 bytes wide.
    pub merchant: PartyId,
    /// The merchant's number for it, 4 bytes wide.
    pub product: u32,
    /// What it costs, in the house's smallest unit of money: from 1 to 10^9.
    pub price: Price,
    /// How many bytes its goods have, at most [`MAX_LENGTH`](crate::MAX_LENGTH). The byte at place i is i modulo 251.
    pub length: u32,
}

// What a line behind the first two says.
#[derive(Drop)]
pub(crate) enum Line {
    Consumer(Consumer),
    Merchant(Merchant),
    Fund { acct: AcctId, amount: u64 },
    Shelf(Shelf),
    Does(Act),
}

// ---- the first two lines

// `house HEX`: the bytes of the house's head.
#[tactic(auto, unfolding(crate::specs::Lines::head_in))]
pub(crate) fn head_in(words: &Words<'_>) -> Option<[u8; HEAD]>
    ensures { result ≡ lines.head_in words.now }
{
    words.are(2)?;
    if !words.says(0, b"house") {
        return None;
    }
    words.head(1)
}

// `cap N`: how many entries the house can have.
#[tactic(auto, unfolding(crate::specs::Lines::cap_in))]
pub(crate) fn cap_in(words: &Words<'_>) -> Option<u32>
    ensures value { result ≡ lines.cap_in words.now }
    ensures within { IfSome result (λ cap. (1 ≤ cap) × (cap ≤ MAX_SCRIPT_CAP)) }
{
    words.are(2)?;
    if !words.says(0, b"cap") {
        return None;
    }
    words.small(1, 1, MAX_SCRIPT_CAP)
}

// ---- what is set up

// `consumer ID ACCT NONCE KEY`.
#[tactic(auto, unfolding(crate::specs::Lines::consumer_in))]
fn consumer_in(words: &Words<'_>) -> Option<Line>
    ensures { result ≡ lines.consumer_in words.now }
{
    words.are(5)?;
    let id = words.party(1)?;
    let acct = words.account(2)?;
    let nonce = words.word8(3)?;
    let key = words.secret(4)?;
    Some(Line::Consumer(Consumer {
        id,
        acct,
        nonce,
        key,
    }))
}

// `merchant ID ACCT KEY MASTER`.
#[tactic(auto, unfolding(crate::specs::Lines::merchant_in))]
fn merchant_in(words: &Words<'_>) -> Option<Line>
    ensures { result ≡ lines.merchant_in words.now }
{
    words.are(5)?;
    let id = words.party(1)?;
    let acct = words.account(2)?;
    let key = words.secret(3)?;
    let master = words.secret(4)?;
    Some(Line::Merchant(Merchant {
        id,
        acct,
        key,
        master,
    }))
}

// `fund ACCT AMOUNT`.
#[tactic(auto, unfolding(crate::specs::Lines::fund_in))]
fn fund_in(words: &Words<'_>) -> Option<Line>
    ensures { result ≡ lines.fund_in words.now }
{
    words.are(3)?;
    let acct = words.account(1)?;
    let amount = words.word8(2)?;
    Some(Line::Fund { acct, amount })
}

// `shelf MERCHANT PRODUCT PRICE LENGTH`.
#[tactic(auto, unfolding(crate::specs::Lines::shelf_in))]
fn shelf_in(words: &Words<'_>) -> Option<Line>
    ensures { result ≡ lines.shelf_in words.now }
{
    words.are(5)?;
    let merchant = words.party(1)?;
    let product = words.word4(2)?;
    let price = words.word8(3)?;
    let length = words.word4(4)?;
    Some(Line::Shelf(Shelf {
        merchant,
        product,
        price: Price(price),
        length,
    }))
}

// ---- what happens

// The number of 32 bits that is all behind the first word.
#[tactic(auto, unfolding(crate::specs::Lines::one_in))]
fn one_in(words: &Words<'_>) -> Option<u32>
    ensures { result ≡ lines.one_in words.now }
{
    words.are(2)?;
    words.word4(1)
}

// `deliver K`, `serve K`, and the steps of a call: `turn C`, `write C`, `open C`, `answer C`.
#[tactic(auto, unfolding(crate::specs::Lines::step_in))]
fn step_in(words: &Words<'_>) -> Option<Act>
    ensures { result ≡ lines.step_in words.now }
{
    if words.says(0, b"deliver") {
        let packet = one_in(words)?;
        return Some(Act::Deliver { packet });
    }
    if words.says(0, b"serve") {
        let packet = one_in(words)?;
        return Some(Act::Serve { packet });
    }
    if words.says(0, b"turn") {
        let call = one_in(words)?;
        return Some(Act::Turn { call });
    }
    if words.says(0, b"write") {
        let call = one_in(words)?;
        return Some(Act::Write { call });
    }
    if words.says(0, b"open") {
        let call = one_in(words)?;
        return Some(Act::Open { call });
    }
    if words.says(0, b"answer") {
        let call = one_in(words)?;
        return Some(Act::Answer { call });
    }
    None
}

// `clock T`.
#[tactic(auto, unfolding(crate::specs::Lines::clock_in))]
fn clock_in(words: &Words<'_>) -> Option<Act>
    ensures { result ≡ lines.clock_in words.now }
{
    words.are(2)?;
    let moment = words.word8(1)?;
    Some(Act::Clock { moment })
}

// `buy CONSUMER TID MERCHANT PRODUCT LIMIT`: with an empty request and an empty memo.
#[tactic(auto, unfolding(crate::specs::Lines::buy_in))]
fn buy_in(words: &Words<'_>) -> Option<Act>
    ensures { result ≡ lines.buy_in words.now }
{
    words.are(6)?;
    let consumer = words.party(1)?;
    let tid = words.word8(2)?;
    let merchant = words.party(3)?;
    let product = words.word4(4)?;
    let limit = words.word8(5)?;
    Some(Act::Buy {
        consumer,
        tid,
        merchant,
        product,
        limit: Price(limit),
    })
}

// `quiet consumer ID TID`.
#[tactic(auto, unfolding(crate::specs::Lines::quiet_consumer_in))]
fn quiet_consumer_in(words: &Words<'_>) -> Option<Act>
    ensures { result ≡ lines.quiet_consumer_in words.now }
{
    words.are(4)?;
    let consumer = words.party(2)?;
    let tid = words.word8(3)?;
    Some(Act::QuietConsumer { consumer, tid })
}

// `quiet merchant ID CONSUMER TID`.
#[tactic(auto, unfolding(crate::specs::Lines::quiet_merchant_in))]
fn quiet_merchant_in(words: &Words<'_>) -> Option<Act>
    ensures { result ≡ lines.quiet_merchant_in words.now }
{
    words.are(5)?;
    let merchant = words.party(2)?;
    let consumer = words.party(3)?;
    let tid = words.word8(4)?;
    Some(Act::QuietMerchant {
        merchant,
        consumer,
        tid,
    })
}

// `quiet` of a consumer or of a merchant.
#[tactic(auto, unfolding(crate::specs::Lines::quiet_in))]
fn quiet_in(words: &Words<'_>) -> Option<Act>
    ensures { result ≡ lines.quiet_in words.now }
{
    if words.says(1, b"consumer") {
        return quiet_consumer_in(words);
    }
    if words.says(1, b"merchant") {
        return quiet_merchant_in(words);
    }
    None
}

// `restart consumer ID`, `restart merchant ID`.
#[tactic(auto, unfolding(crate::specs::Lines::restart_in))]
fn restart_in(words: &Words<'_>) -> Option<Act>
    ensures { result ≡ lines.restart_in words.now }
{
    words.are(3)?;
    let id = words.party(2)?;
    if words.says(1, b"consumer") {
        return Some(Act::RestartConsumer { consumer: id });
    }
    if words.says(1, b"merchant") {
        return Some(Act::RestartMerchant { merchant: id });
    }
    None
}

// `stop with`, `stop without`.
#[tactic(auto, unfolding(crate::specs::Lines::stop_in))]
fn stop_in(words: &Words<'_>) -> Option<Act>
    ensures { result ≡ lines.stop_in words.now }
{
    words.are(2)?;
    if words.says(1, b"with") {
        return Some(Act::Stop { with: true });
    }
    if words.says(1, b"without") {
        return Some(Act::Stop { with: false });
    }
    None
}

// What parties and the house are told: each by its first word.
#[tactic(auto, unfolding(crate::specs::Lines::told_in))]
fn told_in(words: &Words<'_>) -> Option<Act>
    ensures { result ≡ lines.told_in words.now }
{
    if words.says(0, b"clock") {
        return clock_in(words);
    }
    if words.says(0, b"buy") {
        return buy_in(words);
    }
    if words.says(0, b"quiet") {
        return quiet_in(words);
    }
    if words.says(0, b"restart") {
        return restart_in(words);
    }
    if words.says(0, b"stop") {
        return stop_in(words);
    }
    step_in(words)
}

// ---- what is injected

// Whom a packet is for, by the words behind the first: `server`, `consumer ID` or `merchant ID`; and how many words these are.
#[tactic(auto, unfolding(crate::specs::Lines::addressee_in))]
fn addressee_in(words: &Words<'_>) -> Option<(Addressee, usize)>
    ensures value { result ≡ lines.addressee_in words.now }
    ensures few { IfSome result (λ whom. whom.1 ≤ 2) }
{
    if words.says(1, b"server") {
        return Some((Addressee::Server, 1));
    }
    if words.says(1, b"consumer") {
        let id = words.party(2)?;
        return Some((Addressee::Consumer(id), 2));
    }
    if words.says(1, b"merchant") {
        let id = words.party(2)?;
        return Some((Addressee::Merchant(id), 2));
    }
    None
}

// The bytes of a body: none where the word is `-`, else an even number of hexadecimal digits, from 2 to MAX_BODY_DIGITS.
#[tactic(auto, unfolding(crate::specs::Lines::body_in))]
fn body_in(alloc: Global, word: &[u8]) -> Result<Option<Blob>, NoMemory>
    ensures { IfOk result (λ body. body ≡ lines.body_in word.now) }
{
    if word == b"-".as_slice() {
        return Ok(Some(Blob::from_vec(Vec::new(alloc))));
    }
    if word.is_empty() || word.len() > MAX_BODY_DIGITS {
        return Ok(None);
    }
    match hex::decode(alloc, word) {
        Ok(bytes) => Ok(Some(Blob::from_vec(bytes))),
        Err(FromHexError::OutOfMemory) => Err(NoMemory),
        Err(FromHexError::OddLength) => Ok(None),
        Err(FromHexError::InvalidStringLength) => Ok(None),
        Err(FromHexError::InvalidHexCharacter { .. }) => Ok(None),
    }
}

// The kind and the addressee of what is injected, and at which place its body stands.
#[tactic(auto, unfolding(crate::specs::Lines::injected_in))]
fn injected_in(words: &Words<'_>) -> Option<(Addressee, u8, usize)>
    ensures { result ≡ lines.injected_in words.now }
{
    let (to, count) = addressee_in(words)?;
    words.are(count + 3)?;
    let kind = words.small(count + 1, 1, u32::from(LAST_KIND))?;
    Some((to, kind as u8, count + 2))
}

// `inject server KIND HEX`, `inject consumer ID KIND HEX`, `inject merchant ID KIND HEX`.
#[tactic(auto, unfolding(crate::specs::Lines::inject_in))]
fn inject_in(alloc: Global, words: &Words<'_>) -> Result<Option<Act>, NoMemory>
    ensures { IfOk result (λ e. e ≡ lines.inject_in words.now) }
{
    let Some((to, kind, place)) = injected_in(words) else {
        return Ok(None);
    };
    let Some(body) = body_in(alloc, words.word(place))? else {
        return Ok(None);
    };
    Ok(Some(Act::Inject { to, kind, body }))
}

// ---- a line

// What a line lets happen.
#[tactic(auto, unfolding(crate::specs::Lines::act_in))]
fn act_in(alloc: Global, words: &Words<'_>) -> Result<Option<Act>, NoMemory>
    ensures { IfOk result (λ a. a ≡ lines.act_in words.now) }
{
    if words.says(0, b"inject") {
        return inject_in(alloc, words);
    }
    Ok(told_in(words))
}

// What a line sets up.
#[tactic(auto, unfolding(crate::specs::Lines::set_in))]
fn set_in(words: &Words<'_>) -> Option<Line>
    ensures { result ≡ lines.set_in words.now }
{
    if words.says(0, b"consumer") {
        return consumer_in(words);
    }
    if words.says(0, b"merchant") {
        return merchant_in(words);
    }
    if words.says(0, b"fund") {
        return fund_in(words);
    }
    if words.says(0, b"shelf") {
        return shelf_in(words);
    }
    None
}

// What a line says that is none of the first two.
#[tactic(auto, unfolding(crate::specs::Lines::line_in))]
pub(crate) fn line_in(alloc: Global, words: &Words<'_>) -> Result<Option<Line>, NoMemory>
    ensures { IfOk result (λ l. l ≡ lines.line_in words.now) }
{
    if let Some(line) = set_in(words) {
        return Ok(Some(line));
    }
    Ok(match act_in(alloc, words)? {
        Some(act) => Some(Line::Does(act)),
        None => None,
    })
}
