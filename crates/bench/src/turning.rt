// Turns: each of so many threads takes and gives back a number so many times, and adds one to it each time. Beside it the same
// under a mutex of std.

ghost use Rattle.std.specs.Prelude.{◌≡◌, [], Some, IfSome};
ghost use Rattle.nb_turn.specs.Passes.{Belongs, held_sees, IsOf};

use crate::Made;
use nb_seal::NoMemory;
use nb_turn::{Chronicle, Held, Pass, Turn};
use std::alloc::Global;
use std::sync::{Mutex, Wait};
use std::thread::{Threads, join};

/// The rows `turn` and `lock`: SIZE threads, which are 1, 2 or 4, of TIMES rounds each.
pub fn run<R: Threads + Wait + Sync>(
    rt: &R,
    alloc: Global,
    row: &str,
    size: u32,
    times: u32,
) -> Result<Made, NoMemory> {
    match (row, size) {
        ("turn", 1 | 2 | 4) => turns(rt, alloc, size, times),
        ("lock", 1 | 2 | 4) => locks(rt, alloc, size, times),
        _ => Ok(Made::Unknown),
    }
}

/// A number without a history.
#[derive(Drop)]
struct Counter {
    count: u64,
}

impl Chronicle for Counter {
    type Origin = ();

    type Line = u8;

    ghost use Rattle.std.specs.Prelude.{ℕ, []};

    ghost origin = { λ counter. tt };

    ghost history = { λ counter. [] };

    ghost maker = { λ line. line };

    fn lines(&self) -> u64 {
        0
    }
}

// Adds one and gives the turn back.
fn count_once(turn: &Turn<Counter>, mut held: Held<Counter>) -> Pass<Counter>
    requires turn { IsOf held turn.now }
    requires origin { (held_sees held).origin ≡ Some tt }
    requires lines { (held_sees held).seen ≡ [] }
    ensures { Belongs result turn.now }
{
    let counter = held.value();
    counter.count = counter.count.wrapping_add(1);
    turn.give(held)
}

fn take_turns<R: Wait>(
    rt: &R,
    turn: &Turn<Counter>,
    pass: Pass<Counter>,
    times: u32,
) -> Pass<Counter>
    requires { Belongs pass turn.now }
    ensures { Belongs result turn.now }
{
    let mut pass = pass;
    for _ in 0..times {
        pass = count_once(turn, turn.take(rt, pass));
    }
    pass
}

// Two threads take turns.
fn take_by_two<R: Threads + Wait + Sync>(
    rt: &R,
    turn: &Turn<Counter>,
    first: Pass<Counter>,
    second: Pass<Counter>,
    times: u32,
) -> (Pass<Counter>, Pass<Counter>)
    requires first { Belongs first turn.now }
    requires second { Belongs second turn.now }
    ensures { Belongs result.0 turn.now × Belongs result.1 turn.now }
{
    join(
        rt,
        || -> Pass<Counter>
            requires { Belongs first turn.now }
            ensures { Belongs result turn.entry.now }
        { take_turns(rt, turn, first, times) },
        || -> Pass<Counter>
            requires { Belongs second turn.now }
            ensures { Belongs result turn.entry.now }
        { take_turns(rt, turn, second, times) },
    )
}

// Four threads take turns.
fn take_by_four<R: Threads + Wait + Sync>(
    rt: &R,
    turn: &Turn<Counter>,
    near: (Pass<Counter>, Pass<Counter>),
    far: (Pass<Counter>, Pass<Counter>),
    times: u32,
) -> (
    (Pass<Counter>, Pass<Counter>),
    (Pass<Counter>, Pass<Counter>),
)
    requires near { Belongs near.0 turn.now × Belongs near.1 turn.now }
    requires far { Belongs far.0 turn.now × Belongs far.1 turn.now }
    ensures near { Belongs result.0.0 turn.now × Belongs result.0.1 turn.now }
    ensures far { Belongs result.1.0 turn.now × Belongs result.1.1 turn.now }
{
    let (first, third) = near;
    let (second, fourth) = far;
    join(
        rt,
        || -> (Pass<Counter>, Pass<Counter>)
            requires { Belongs first turn.now × Belongs third turn.now }
            ensures { Belongs result.0 turn.entry.now × Belongs result.1 turn.entry.now }
        { take_by_two(rt, turn, first, third, times) },
        || -> (Pass<Counter>, Pass<Counter>)
            requires { Belongs second turn.now × Belongs fourth turn.now }
            ensures { Belongs result.0 turn.entry.now × Belongs result.1 turn.entry.now }
        { take_by_two(rt, turn, second, fourth, times) },
    )
}

// So many threads take turns: 1, 2 or 4.
fn turns<R: Threads + Wait + Sync>(
    rt: &R,
    alloc: Global,
    threads: u32,
    times: u32,
) -> Result<Made, NoMemory> {
    let Ok((mut turn, pass)) = Turn::open(alloc, Counter { count: 0 }) else {
        return Err(NoMemory);
    };
    match take_by(rt, &mut turn, pass, threads, times) {
        Some(pass) => Made::number(alloc, turn.close(rt, pass).count),
        None => Ok(Made::Unknown),
    }
}

// So many threads take turns, and their passes are joined.
fn take_by<R: Threads + Wait + Sync>(
    rt: &R,
    turn: &mut Turn<Counter>,
    pass: Pass<Counter>,
    threads: u32,
    times: u32,
) -> Option<Pass<Counter>>
    requires { Belongs pass turn.old }
    ensures { IfSome result (λ p. Belongs p turn.new) }
{
    if threads == 1 {
        return Some(take_turns(rt, turn, pass, times));
    }
    let (first, second) = turn.split(pass, 1).ok()?;
    let (first, second) = if threads == 2 {
        take_by_two(rt, turn, first, second, times)
    } else {
        take_by_pairs(rt, turn, first, second, times)?
    };
    Some(turn.join(first, second))
}

// Four threads take turns, each of two with another one.
fn take_by_pairs<R: Threads + Wait + Sync>(
    rt: &R,
    turn: &mut Turn<Counter>,
    first: Pass<Counter>,
    second: Pass<Counter>,
    times: u32,
) -> Option<(Pass<Counter>, Pass<Counter>)>
    requires first { Belongs first turn.old }
    requires second { Belongs second turn.old }
    ensures { IfSome result (λ r. Belongs r.0 turn.new × Belongs r.1 turn.new) }
{
    let near = turn.split(first, 2).ok()?;
    let far = turn.split(second, 3).ok()?;
    let (near, far) = take_by_four(rt, turn, near, far, times);
    let first = turn.join(near.0, near.1);
    let second = turn.join(far.0, far.1);
    Some((first, second))
}

fn lock_often<R: Wait>(rt: &R, count: &Mutex<u64>, times: u32) {
    for _ in 0..times {
        let mut count = count.lock(rt);
        *count = count.wrapping_add(1);
    }
}

fn lock_by_two<R: Threads + Wait + Sync>(rt: &R, count: &Mutex<u64>, times: u32) {
    join(
        rt,
        || lock_often(rt, count, times),
        || lock_often(rt, count, times),
    );
}

// So many threads lock a mutex: 1, 2 or 4.
fn locks<R: Threads + Wait + Sync>(
    rt: &R,
    alloc: Global,
    threads: u32,
    times: u32,
) -> Result<Made, NoMemory> {
    let count = Mutex::new(0);
    match threads {
        1 => lock_often(rt, &count, times),
        2 => lock_by_two(rt, &count, times),
        _ => {
            join(
                rt,
                || lock_by_two(rt, &count, times),
                || lock_by_two(rt, &count, times),
            );
        }
    }
    Made::number(alloc, count.into_inner())
}
