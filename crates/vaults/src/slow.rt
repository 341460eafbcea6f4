// A disk that waits within a write, while another caller tries to ask.

ghost use Rattle.std.specs.Prelude.{◌≡◌, ◌<◌, ◌≤◌, ◌+◌, ◌^◌, length, IfSome};
ghost use Rattle.nb_desk.specs.Desks.{IsAt};

use crate::callers::two_more;
use crate::desks::{ask_one, desk_over};
use crate::house::House;
use crate::names::Request;
use nb_desk::{Desk, Pass};
use nb_lines::Told;
use nb_port::{Disk, DiskOut, DiskRead, MemDisk};
use nb_units::NoMemory;
use std::alloc::Global;
use std::sync::Wait;
use std::sync::atomic::{AtomicU64, Ordering};
use std::thread::{self, Threads, join};
use std::time::{Clock, Duration};

// How often one looks for what another thread does, and sleeps for 100 microseconds where it is not done.
const MOST_LOOKS: u32 = 100_000;

// Words that one thread sets and another looks for.
#[derive(Drop)]
struct Signs {
    entered: AtomicU64,
    released: AtomicU64,
    spent: AtomicU64,
}

impl Signs {
    fn new() -> Signs {
        Signs {
            entered: AtomicU64::new(0),
            released: AtomicU64::new(0),
            spent: AtomicU64::new(0),
        }
    }
}

// Looks until the word is set; where it is not set in time, that is kept.
fn wait_for<R: Clock>(rt: &R, signs: &Signs, word: &AtomicU64) {
    for _ in 0..MOST_LOOKS {
        if word.load(Ordering::SeqCst) != 0 {
            return;
        }
        thread::sleep(rt, Duration::from_micros(100));
    }
    signs.spent.store(1, Ordering::SeqCst);
}

// A disk whose writes wait until it is released.
#[derive(Drop)]
struct SlowDisk<'a, R: Clock, D: Disk> {
    rt: &'a R,
    over: D,
    signs: &'a Signs,
}

impl<'a, R: Clock, D: Disk> Disk for SlowDisk<'a, R, D> {
    ghost tells = { record {
      faults = λ d. D.tells.faults d.over;
      content = λ d. D.tells.content d.over;
      allowed = λ d. D.tells.allowed d.over;
      moment = λ d. D.tells.moment d.over;
      left = λ d. D.tells.left d.over;
    } };

    ghost content_counts = { λ d c is. D.content_counts d.over c is };

    ghost counts_now = { λ d t c le is. D.counts_now d.over t c le is };

    ghost only_now = { λ d c is. D.only_now d.over c is };

    fn fault_count(&self) -> u64 {
        self.over.fault_count()
    }

    fn read(&mut self, place: u64, buf: &mut [u8]) -> DiskRead {
        self.over.read(place, buf)
    }

    fn write(&mut self, place: u64, piece: &[u8]) -> DiskOut {
        self.signs.entered.store(1, Ordering::SeqCst);
        wait_for(self.rt, self.signs, &self.signs.released);
        self.over.write(place, piece)
    }

    fn sync(&mut self) -> DiskOut {
        self.over.sync()
    }
}

impl House {
    /// `busy FIRST SECOND`: while the disk waits within the write of the first request, another caller tries to ask for the second one. When the
    /// first is answered a third caller tries it, and then the one that was turned away, which tells how many lines it has seen.
    pub fn busy<R: Threads + Wait + Clock + Sync>(
        &self,
        rt: &R,
        told: &mut Told,
        words: &[&str],
    ) -> Result<(), NoMemory> {
        let [first, second] = words else {
            return told.unclear();
        };
        match (self.names.request(*first), self.names.request(*second)) {
            (Some(first), Some(second)) => meet(rt, told, self.next_disk()?, first, second),
            _ => told.unclear(),
        }
    }
}

fn meet<R: Threads + Wait + Clock + Sync>(
    rt: &R,
    told: &mut Told,
    disk: MemDisk,
    first: &Request,
    second: &Request,
) -> Result<(), NoMemory> {
    let signs = Signs::new();
    let disk = SlowDisk {
        rt,
        over: disk,
        signs: &signs,
    };
    match desk_over(told.alloc(), disk) {
        Some((mut desk, pass)) => meet_at(rt, told, &mut desk, pass, (first, second), &signs),
        None => told.unclear(),
    }
}

fn meet_at<R: Threads + Wait + Clock + Sync, D: Disk + Drop + Send>(
    rt: &R,
    told: &mut Told,
    desk: &mut Desk<D>,
    pass: Pass<D>,
    requests: (&Request, &Request),
    signs: &Signs,
) -> Result<(), NoMemory>
    requires { IsAt pass desk.old }
{
    let Some((pass, (one, two))) = two_more(desk, pass, 1) else {
        return told.unclear();
    };
    let Some(two) = tell_both(rt, told, desk, (one, two), requests, signs) else {
        return told.unclear();
    };
    told.text("\n");
    ask_one(rt, told, desk, pass, requests.1, true)?;
    told.show("\nwaited in vain ", &signs.spent.load(Ordering::SeqCst))
        .text("\n");
    let two = ask_one(rt, told, desk, two, requests.1, true)?;
    told.show("; pass ", &two.number())
        .show(" has seen ", &two.seen())
        .done()
}

// Tells what both were told, and gives the pass of the other one.
fn tell_both<R: Threads + Wait + Clock + Sync, D: Disk + Drop + Send>(
    rt: &R,
    told: &mut Told,
    desk: &Desk<D>,
    passes: (Pass<D>, Pass<D>),
    requests: (&Request, &Request),
    signs: &Signs,
) -> Option<Pass<D>>
    requires first { IsAt passes.0 desk.now }
    requires second { IsAt passes.1 desk.now }
    ensures { IfSome result (λ p. IsAt p desk.now) }
{
    let (asked, tried) = ask_beside(rt, told.alloc(), desk, passes, requests, signs);
    let (two, tried) = tried?;
    match asked {
        Some(asked) => told.text(asked.as_str()),
        None => told.text("no such line"),
    };
    told.text("\n").text(tried.as_str());
    Some(two)
}

// One asks, and the other one tries to ask while the disk waits.
fn ask_beside<R: Threads + Wait + Clock + Sync, D: Disk + Drop + Send>(
    rt: &R,
    alloc: Global,
    desk: &Desk<D>,
    passes: (Pass<D>, Pass<D>),
    requests: (&Request, &Request),
    signs: &Signs,
) -> (Option<Told>, Option<(Pass<D>, Told)>)
    requires first { IsAt passes.0 desk.now }
    requires second { IsAt passes.1 desk.now }
    ensures { IfSome result.1 (λ r. IsAt r.0 desk.now) }
{
    let (one, two) = passes;
    let (first, second) = requests;
    join(
        rt,
        || -> Option<Told>
            requires { IsAt one desk.now }
        { ask_within(rt, alloc, desk, one, first) },
        || -> Option<(Pass<D>, Told)>
            requires { IsAt two desk.now }
            ensures { IfSome result (λ r. IsAt r.0 desk.entry.now) }
        { try_within(rt, alloc, desk, two, second, signs) },
    )
}

fn ask_within<R: Wait, D: Disk + Drop>(
    rt: &R,
    alloc: Global,
    desk: &Desk<D>,
    pass: Pass<D>,
    request: &Request,
) -> Option<Told>
    requires { IsAt pass desk.now }
{
    let mut told = Told::new(alloc);
    ask_one(rt, &mut told, desk, pass, request, false).ok()?;
    Some(told)
}

// Tries to ask once the disk is within a write, and then releases it.
fn try_within<R: Wait + Clock, D: Disk + Drop>(
    rt: &R,
    alloc: Global,
    desk: &Desk<D>,
    pass: Pass<D>,
    request: &Request,
    signs: &Signs,
) -> Option<(Pass<D>, Told)>
    requires { IsAt pass desk.now }
    ensures { IfSome result (λ r. IsAt r.0 desk.now) }
{
    wait_for(rt, signs, &signs.entered);
    let mut told = Told::new(alloc);
    let tried = ask_one(rt, &mut told, desk, pass, request, true);
    signs.released.store(1, Ordering::SeqCst);
    Some((tried.ok()?, told))
}
