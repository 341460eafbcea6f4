// Callers of one desk, each of which asks often: it funds an account under a reference of its own, and then asks for the same again.

ghost use Rattle.std.specs.Prelude.{◌<◌, IfSome};
ghost use Rattle.nb_desk.specs.Desks.{IsAt, IsSameDesk};

use nb_desk::{Asked, Desk, Pass};
use nb_msgs::REPLY_ROOM;
use nb_port::Disk;
use nb_seal::KeyState;
use nb_units::frames::FUND_REQUEST;
use std::alloc::Global;
use std::sync::Wait;
use std::thread::{Threads, join};

// The operator's key in the head of the journals.
const OPERATOR: [u8; 32] = [0x22; 32];

// The moment of these requests.
const MOMENT: u64 = 1000;

// The account that the first party has.
const ACCOUNT: u32 = 1;

// What one caller's fund is named by outside.
fn reference(by: u64, number: u32) -> [u8; 16] {
    let mut reference = [0xfe; 16];
    reference[..8].copy_from_slice(&by.to_be_bytes());
    reference[8..12].copy_from_slice(&number.to_be_bytes());
    reference
}

// The body of a request that puts 1 into the account.
fn fund(operator: &KeyState, by: u64, number: u32) -> [u8; 60] {
    let mut front = [0u8; 28];
    front[..4].copy_from_slice(&ACCOUNT.to_be_bytes());
    front[4..12].copy_from_slice(&1u64.to_be_bytes());
    front[12..].copy_from_slice(&reference(by, number));
    let mut body = [0u8; 60];
    body[..28].copy_from_slice(&front);
    body[28..].copy_from_slice(&operator.code(b"fund", &front));
    body
}

// The place that a reply to a fund of the first party's account tells.
fn told(reply: &[u8]) -> Option<u64> {
    let (front, rest) = reply.split_at(reply.len().min(12));
    let (place, balance) = rest.split_at(rest.len().min(8));
    if front != [0x4e, 0x42, 1, 0x0f, 0, 0, 0, 20, 0, 0, 0, 1].as_slice() || balance.len() != 8 {
        return None;
    }
    let mut word = [0u8; 8];
    word[..place.len()].copy_from_slice(place);
    Some(u64::from_be_bytes(word))
}

// Asks once, and gives the place that the reply tells.
fn ask_once<R: Wait, D: Disk + Drop>(
    rt: &R,
    alloc: Global,
    desk: &Desk<D>,
    pass: Pass<D>,
    body: &[u8],
) -> Option<(Pass<D>, u64)>
    requires { IsAt pass desk.now }
    ensures { IfSome result (λ r. IsAt r.0 desk.now) }
{
    let mut out = Vec::with_capacity(alloc, REPLY_ROOM).ok()?;
    let (pass, asked) = desk.ask(rt, pass, FUND_REQUEST, body, MOMENT, &mut out);
    match asked {
        Asked::Served { at: _ } => {
            let place = told(out.as_slice())?;
            Some((pass, place))
        }
        _ => None,
    }
}

// Asks twice, and gives the place that both replies tell.
fn ask_twice<R: Wait, D: Disk + Drop>(
    rt: &R,
    alloc: Global,
    desk: &Desk<D>,
    pass: Pass<D>,
    body: &[u8],
) -> Option<(Pass<D>, u64)>
    requires { IsAt pass desk.now }
    ensures { IfSome result (λ r. IsAt r.0 desk.now) }
{
    let (pass, place) = ask_once(rt, alloc, desk, pass, body)?;
    let (pass, again) = ask_once(rt, alloc, desk, pass, body)?;
    if again != place {
        return None;
    }
    Some((pass, place))
}

// Asks for so many funds twice, and gives the places at which the replies say that they stand.
fn ask_often<R: Wait, D: Disk + Drop>(
    rt: &R,
    alloc: Global,
    desk: &Desk<D>,
    pass: Pass<D>,
    by: u64,
    times: u32,
) -> Option<Vec<u64>>
    requires { IsAt pass desk.now }
{
    let operator = KeyState::new(&OPERATOR);
    let mut places = Vec::new(alloc);
    let mut pass = pass;
    for number in 0..times {
        let body = fund(&operator, by, number);
        let (next, place) = ask_twice(rt, alloc, desk, pass, &body)?;
        pass = next;
        places.push(place).ok()?;
    }
    Some(places)
}

/// Two threads ask so, under this number and the next one, each so many times.
pub(crate) fn ask_by_two<R: Threads + Wait + Sync, D: Disk + Drop + Send>(
    rt: &R,
    alloc: Global,
    desk: &Desk<D>,
    passes: (Pass<D>, Pass<D>),
    by: u64,
    times: u32,
) -> (Option<Vec<u64>>, Option<Vec<u64>>)
    requires first { IsAt passes.0 desk.now }
    requires second { IsAt passes.1 desk.now }
    requires by { by < 8 }
{
    let (first, second) = passes;
    let next = by + 1;
    join(
        rt,
        || -> Option<Vec<u64>>
            requires { IsAt first desk.now }
        { ask_often(rt, alloc, desk, first, by, times) },
        || -> Option<Vec<u64>>
            requires { IsAt second desk.now }
        { ask_often(rt, alloc, desk, second, next, times) },
    )
}

/// Splits two passes off, of this number and the next one.
pub(crate) fn two_more<D: Disk + Drop>(
    desk: &mut Desk<D>,
    pass: Pass<D>,
    by: u64,
) -> Option<(Pass<D>, (Pass<D>, Pass<D>))>
    requires desk { IsAt pass desk.old }
    requires by { by < 8 }
    ensures same { IsSameDesk desk.new desk.old }
    ensures at { IfSome result (λ r. IsAt r.0 desk.new × IsAt r.1.0 desk.new × IsAt r.1.1 desk.new) }
{
    let (pass, first) = half(desk, pass, by)?;
    let (pass, second) = half(desk, pass, by + 1)?;
    Some((pass, (first, second)))
}

// Splits a pass of this number off.
fn half<D: Disk + Drop>(
    desk: &mut Desk<D>,
    pass: Pass<D>,
    number: u64,
) -> Option<(Pass<D>, Pass<D>)>
    requires desk { IsAt pass desk.old }
    requires number { number < 9 }
    ensures same { IsSameDesk desk.new desk.old }
    ensures at { IfSome result (λ r. IsAt r.0 desk.new × IsAt r.1 desk.new) }
{
    match desk.split(pass, number) {
        Ok(passes) => Some(passes),
        Err(_) => None,
    }
}
