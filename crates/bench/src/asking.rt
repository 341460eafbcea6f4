// Requests asked of a desk over a journal in a file, by one thread or by several at once, up to 32 of them in a turn.

ghost use Rattle.std.specs.Prelude.{◌<◌, IfSome};
ghost use Rattle.nb_desk.specs.Desks.{IsAt};

use crate::answering::{are_within, asks_now, given, opened};
use anyhow::anyhow;
use nb_desk::{AskedAll, Desk, Pass};
use nb_msgs::REPLY_ROOM;
use nb_port::Disk;
use nb_system::{FileDisk, StdFile};
use nb_turns::MAX_REQUESTS;
use nb_vault::AskAt;
use std::alloc::Global;
use std::sync::Wait;
use std::thread::{Threads, join};

// So many frames stand before the orders of bench/frames: who takes part, and the money.
const BEFORE: usize = 21;

// What a thread asks, and how many of the requests it asks in a turn.
#[derive(Clone, Copy)]
struct Part<'a> {
    bytes: &'a [u8],
    asks: &'a [AskAt],
    turn: usize,
}

/// Asks for what the frames on standard input ask, over the journal of this name, so many in a turn: those before the orders by one thread,
/// and the others by 1, 2 or 4 threads at once, which `many` starts. What is made is the number of bytes of all replies.
pub fn run<R: Threads + Wait + Sync>(
    rt: &HostRuntime,
    many: &R,
    name: &str,
    turn: usize,
    threads: u32,
) -> anyhow::Result<usize> {
    if turn == 0 {
        return Err(anyhow!("a turn has from 1 to 32 requests"));
    }
    match Desk::open(rt.alloc(), opened(rt, name)?).ok() {
        Some((mut desk, pass)) => {
            let told = ask_given(rt, many, &mut desk, pass, turn, threads);
            drop(desk);
            told
        }
        None => Err(anyhow!("the memory is used up")),
    }
}

// Asks a desk for what the frames on standard input ask.
fn ask_given<R: Threads + Wait + Sync>(
    rt: &HostRuntime,
    many: &R,
    desk: &mut Desk<FileDisk<StdFile>>,
    pass: Pass<FileDisk<StdFile>>,
    turn: usize,
    threads: u32,
) -> anyhow::Result<usize>
    requires at { IsAt pass desk.old }
    requires turn { 0 < turn }
{
    let bytes = given(rt)?;
    let asks = asks_now(rt, &bytes)?;
    let part = Part {
        bytes: &bytes,
        asks: asks.as_slice(),
        turn,
    };
    match ask_in_order(many, rt.alloc(), desk, pass, part, threads) {
        Some(told) => Ok(told),
        None => Err(anyhow!("the disk failed, or the memory is used up")),
    }
}

// Asks for what stands before the orders, and then for the orders by so many threads.
fn ask_in_order<R: Threads + Wait + Sync, D: Disk + Drop + Send>(
    rt: &R,
    alloc: Global,
    desk: &mut Desk<D>,
    pass: Pass<D>,
    part: Part<'_>,
    threads: u32,
) -> Option<usize>
    requires at { IsAt pass desk.old }
    requires turn { 0 < part.turn }
{
    let (bytes, turn) = (part.bytes, part.turn);
    let (front, orders) = part.asks.split_at(part.asks.len().min(BEFORE));
    let front = Part {
        bytes,
        asks: front,
        turn,
    };
    let orders = Part {
        bytes,
        asks: orders,
        turn,
    };
    let (pass, before) = ask_part(rt, alloc, desk, pass, front)?;
    let told = ask_by(rt, alloc, desk, pass, orders, threads)?;
    Some(before.saturating_add(told))
}

// Asks for a part by so many threads: 1, 2 or 4.
fn ask_by<R: Threads + Wait + Sync, D: Disk + Drop + Send>(
    rt: &R,
    alloc: Global,
    desk: &mut Desk<D>,
    pass: Pass<D>,
    part: Part<'_>,
    threads: u32,
) -> Option<usize>
    requires at { IsAt pass desk.old }
    requires turn { 0 < part.turn }
{
    if threads == 1 {
        return ask_whole(rt, alloc, desk, pass, part);
    }
    let (first, second) = desk.split(pass, 1).ok()?;
    if threads == 2 {
        return ask_by_two(rt, alloc, desk, first, second, part);
    }
    let near = desk.split(first, 2).ok()?;
    let far = desk.split(second, 3).ok()?;
    ask_by_four(rt, alloc, desk, near, far, part)
}

// Four threads ask for a quarter of a part each.
fn ask_by_four<R: Threads + Wait + Sync, D: Disk + Drop + Send>(
    rt: &R,
    alloc: Global,
    desk: &Desk<D>,
    near: (Pass<D>, Pass<D>),
    far: (Pass<D>, Pass<D>),
    part: Part<'_>,
) -> Option<usize>
    requires near { IsAt near.0 desk.now × IsAt near.1 desk.now }
    requires far { IsAt far.0 desk.now × IsAt far.1 desk.now }
    requires turn { 0 < part.turn }
{
    let (first, third) = near;
    let (second, fourth) = far;
    let (near, far) = halves(part);
    let (left, right) = join(
        rt,
        || -> Option<usize>
            requires { IsAt first desk.now × IsAt third desk.now × (0 < near.turn) }
        { ask_by_two(rt, alloc, desk, first, third, near) },
        || -> Option<usize>
            requires { IsAt second desk.now × IsAt fourth desk.now × (0 < far.turn) }
        { ask_by_two(rt, alloc, desk, second, fourth, far) },
    );
    both(left, right)
}

// The sum of two counts, where both are there.
fn both(one: Option<usize>, two: Option<usize>) -> Option<usize> {
    Some(one?.saturating_add(two?))
}

// The first half of a part, and the second.
fn halves(part: Part<'_>) -> (Part<'_>, Part<'_>)
    requires { 0 < part.turn }
    ensures { (0 < result.0.turn) × (0 < result.1.turn) }
{
    let (near, far) = part.asks.split_at(part.asks.len() / 2);
    (
        Part {
            bytes: part.bytes,
            asks: near,
            turn: part.turn,
        },
        Part {
            bytes: part.bytes,
            asks: far,
            turn: part.turn,
        },
    )
}

// Two threads ask for a half of a part each.
fn ask_by_two<R: Threads + Wait + Sync, D: Disk + Drop + Send>(
    rt: &R,
    alloc: Global,
    desk: &Desk<D>,
    first: Pass<D>,
    second: Pass<D>,
    part: Part<'_>,
) -> Option<usize>
    requires first { IsAt first desk.now }
    requires second { IsAt second desk.now }
    requires turn { 0 < part.turn }
{
    let (near, far) = halves(part);
    let (one, two) = join(
        rt,
        || -> Option<usize>
            requires { IsAt first desk.now × (0 < near.turn) }
        { ask_whole(rt, alloc, desk, first, near) },
        || -> Option<usize>
            requires { IsAt second desk.now × (0 < far.turn) }
        { ask_whole(rt, alloc, desk, second, far) },
    );
    both(one, two)
}

// Asks for a part by one thread, whose last part it is.
fn ask_whole<R: Wait, D: Disk + Drop>(
    rt: &R,
    alloc: Global,
    desk: &Desk<D>,
    pass: Pass<D>,
    part: Part<'_>,
) -> Option<usize>
    requires at { IsAt pass desk.now }
    requires turn { 0 < part.turn }
{
    let (_, told) = ask_part(rt, alloc, desk, pass, part)?;
    Some(told)
}

// Asks for a part, turn by turn, and gives how many bytes the replies have.
fn ask_part<R: Wait, D: Disk + Drop>(
    rt: &R,
    alloc: Global,
    desk: &Desk<D>,
    pass: Pass<D>,
    part: Part<'_>,
) -> Option<(Pass<D>, usize)>
    requires at { IsAt pass desk.now }
    requires turn { 0 < part.turn }
    ensures { IfSome result (λ r. IsAt r.0 desk.now) }
{
    let mut ats = Vec::new(alloc);
    let mut out = Vec::new(alloc);
    let mut pass = pass;
    let mut told = 0usize;
    for group in part.asks.chunks(part.turn) {
        pass = ask_group(rt, desk, pass, part.bytes, group, &mut ats, &mut out)?;
        told = told.saturating_add(out.len());
    }
    Some((pass, told))
}

// Asks for the requests of one turn.
fn ask_group<R: Wait, D: Disk + Drop>(
    rt: &R,
    desk: &Desk<D>,
    pass: Pass<D>,
    bytes: &[u8],
    asks: &[AskAt],
    ats: &mut Vec<u64>,
    out: &mut Vec<u8>,
) -> Option<Pass<D>>
    requires { IsAt pass desk.now }
    ensures { IfSome result (λ p. IsAt p desk.now) }
{
    ats.clear();
    ats.reserve(MAX_REQUESTS).ok()?;
    out.clear();
    out.reserve(REPLY_ROOM * MAX_REQUESTS).ok()?;
    if asks.is_empty() || asks.len() > MAX_REQUESTS || !are_within(bytes, asks) {
        return None;
    }
    match desk.ask_all(rt, pass, bytes, asks, ats, out) {
        (pass, AskedAll::Served) => Some(pass),
        _ => None,
    }
}
