ghost use Rattle.std.specs.Prelude.{◌≡◌, ◌≢◌, ◌≤◌, ◌<◌, ◌∷◌, [], map, length, reverse, vec_len, vec_capacity, IfOk, IfErr};
ghost use Rattle.nb_turn.specs.Passes.{sees};
ghost use Rattle.nb_desk.specs.Desks.{IsAt, IsSameDesk};
ghost use Rattle.nb_server.specs.declared.job.Stage.TheVariants.{Ran};
ghost use Rattle.nb_server.specs.Served.{AllSessions, worker_seen};
ghost use Rattle.nb_server.specs.Steps.{AreAt, AreReady, Gathers, HasRun, IsFresh, IsStill, JoinsAll, ReadyAt, StageSettles, desk_id, pass_seen};

use crate::job::{Job, Stage};
use crate::running::run_all;
use crate::worker::{Worker, WorkerEnd, serve_worker};
use nb_desk::{Desk, Pass};
use nb_link::{Gate, Port};
use nb_port::{Clock, Disk};
use nb_turn::MAX_PASSES;
use nb_units::NoMemory;
use nb_vault::Vault;
use std::alloc::Global;
use std::sync::Wait;
use std::thread::Threads;

/// The most workers of one server: a pass has a number for each.
pub const MAX_WORKERS: usize = MAX_PASSES as usize;

/// What came of a server.
#[derive(Drop)]
pub struct Served<D: Disk, P, C> {
    /// The vault, with the lines of all sessions.
    pub vault: Vault<D>,
    /// The workers, in their order.
    pub workers: Vec<Worker<P, C>>,
    /// What came of each of them.
    pub ends: Vec<WorkerEnd>,
}

/// Serves the links of all workers against one vault, each worker in a thread of its own, and gives back the vault and the workers.
///
/// There are from 1 to [`MAX_WORKERS`] workers, and the vault has done nothing since it was opened. Worker number `n` asks with the pass
/// of number `n`. Where that number was given before it has no pass of its own, and is served with that of number 0, behind all threads.
/// Where there is no memory to begin, the vault and the workers come back as they were.
///
/// [`WorkerEnd::how`] says only what it says: that a worker goes on where its port failed once, or gives up early, no clause excludes. Nor
/// does one speak of why a worker has the pass of number 0, of the gate or of threads: tests show that each session passes the gate under its
/// worker's number and its own, and that two workers run side by side.
pub fn serve_all<
    R: Threads + Wait + Sync,
    D: Disk + Drop + Send,
    P: Port,
    C: Clock + Send + Drop,
    G: Gate,
>(
    rt: &R,
    alloc: Global,
    vault: Vault<D>,
    workers: Vec<Worker<P, C>>,
    gate: &G,
) -> Result<Served<D, P, C>, (NoMemory, Vault<D>, Vec<Worker<P, C>>)>
    requires none { vault.lines ≡ [] }
    requires some { 1 ≤ vec_len workers }
    requires few { vec_len workers ≤ MAX_WORKERS }
    // From the vault and the workers that were given to those that come back, with their ends.
    ensures ok { IfOk result (λ served. AllSessions D.tells vault served.vault (map (worker_seen P.seen C.moments) workers.items) (map (worker_seen P.seen C.moments) served.workers.items) served.ends.items) }
    ensures err { IfErr result (λ e. (e.1 ≡ vault) × (e.2 ≡ workers)) }
{
    let count = workers.len();
    let Ok(mut jobs) = Vec::with_capacity(alloc, count) else {
        return Err((NoMemory, vault, workers));
    };
    let Ok(mut ends) = Vec::with_capacity(alloc, count) else {
        return Err((NoMemory, vault, workers));
    };
    let Ok(mut passes) = Vec::with_capacity(alloc, count) else {
        return Err((NoMemory, vault, workers));
    };
    match Desk::open(alloc, vault) {
        Ok((desk, pass)) => {
            let mut desk = desk;
            let mut workers = workers;
            let first = serve_each(
                rt,
                alloc,
                &mut desk,
                pass,
                &mut workers,
                &mut jobs,
                &mut ends,
                &mut passes,
                gate,
            );
            let last = join_all(&mut desk, first, &mut passes);
            let vault = desk.close(rt, last);
            Ok(Served {
                vault,
                workers,
                ends,
            })
        }
        Err((_, vault)) => Err((NoMemory, vault, workers)),
    }
}

// Splits a pass off for each worker, runs them all, and gathers them: the workers in their order, their ends, and the passes of those that
// had their own. The first pass comes back.
fn serve_each<
    R: Threads + Wait + Sync,
    D: Disk + Drop + Send,
    P: Port,
    C: Clock + Send + Drop,
    G: Gate,
>(
    rt: &R,
    alloc: Global,
    desk: &mut Desk<D>,
    pass: Pass<D>,
    workers: &mut Vec<Worker<P, C>>,
    jobs: &mut Vec<Job<Pass<D>, P, C>>,
    ends: &mut Vec<WorkerEnd>,
    passes: &mut Vec<Option<Pass<D>>>,
    gate: &G,
) -> Pass<D>
    requires desk { IsAt pass desk.old }
    requires number { pass.number ≡ 0 }
    requires fresh { IsFresh (sees pass).origin 0 (sees pass) }
    requires some { 1 ≤ vec_len workers.old }
    requires few { vec_len workers.old ≤ MAX_WORKERS }
    requires none { (jobs.old.items ≡ []) × (ends.old.items ≡ []) × (passes.old.items ≡ []) }
    requires room { (vec_len workers.old ≤ vec_capacity jobs.old) × (vec_len workers.old ≤ vec_capacity ends.old) × (vec_len workers.old ≤ vec_capacity passes.old) }
    ensures same { IsSameDesk desk.new desk.old }
    ensures desk { IsAt result desk.new }
    ensures gathers { Gathers D.tells pass_seen (desk_id desk.new) (sees pass).origin (sees result)
        (map (worker_seen P.seen C.moments) workers.old.items) (map (worker_seen P.seen C.moments) workers.new.items) ends.new.items passes.new.items }
{
    let count = workers.len();
    split_all(desk, pass, workers, jobs);
    run_all(rt, alloc, desk, jobs, gate);
    let Some(job) = jobs.pop() else {
        unreachable!()
    };
    let (first, worker, end) = take_first(job);
    let mut pass = first;
    workers.push_reserved(worker);
    ends.push_reserved(end);
    passes.push_reserved(None);
    'gathering: for _ in 1..count {
        let Some(job) = jobs.pop() else {
            unreachable!()
        };
        let (next, worker, end, own) = settle(rt, alloc, desk, pass, job, gate);
        pass = next;
        workers.push_reserved(worker);
        ends.push_reserved(end);
        passes.push_reserved(own);
    }
    pass
}

// Makes a job for each worker, the last worker first: with a pass of its number, or, where that was given before, with none. The first
// worker gets the first pass.
fn split_all<D: Disk + Drop, P: Port, C: Drop>(
    desk: &mut Desk<D>,
    pass: Pass<D>,
    workers: &mut Vec<Worker<P, C>>,
    jobs: &mut Vec<Job<Pass<D>, P, C>>,
)
    requires desk { IsAt pass desk.old }
    requires number { pass.number ≡ 0 }
    requires fresh { IsFresh (sees pass).origin 0 (sees pass) }
    requires some { 1 ≤ vec_len workers.old }
    requires few { vec_len workers.old ≤ MAX_WORKERS }
    requires none { jobs.old.items ≡ [] }
    requires room { vec_len workers.old ≤ vec_capacity jobs.old }
    ensures same { IsSameDesk desk.new desk.old }
    ensures none { workers.new.items ≡ [] }
    ensures room { vec_capacity workers.new ≡ vec_capacity workers.old }
    ensures ready { AreReady pass_seen (desk_id desk.old) (sees pass).origin 0 workers.old.items (reverse jobs.new.items) }
    ensures len { vec_len jobs.new ≡ vec_len workers.old }
{
    let mut pass = pass;
    'splitting: for _ in 1..workers.len() {
        let Some(worker) = workers.pop() else {
            unreachable!()
        };
        let number = workers.len() as u32;
        let (rest, stage) = split_one(desk, pass, number);
        pass = rest;
        jobs.push_reserved(Job {
            worker,
            number,
            stage,
        });
    }
    let Some(worker) = workers.pop() else {
        unreachable!()
    };
    jobs.push_reserved(Job {
        worker,
        number: 0,
        stage: Stage::Asks(pass),
    });
}

// Splits a pass of this number off, where it was not given before.
fn split_one<D: Disk + Drop>(
    desk: &mut Desk<D>,
    pass: Pass<D>,
    number: u32,
) -> (Pass<D>, Stage<Pass<D>>)
    requires desk { IsAt pass desk.old }
    requires first { pass.number ≡ 0 }
    requires fresh { IsFresh (sees pass).origin 0 (sees pass) }
    requires few { (number ≢ 0) × (number < MAX_WORKERS) }
    ensures same { IsSameDesk desk.new desk.old }
    ensures desk { IsAt result.0 desk.new }
    ensures first { result.0.number ≡ 0 }
    ensures fresh { IsFresh (sees pass).origin 0 (sees result.0) }
    ensures ready { ReadyAt pass_seen (desk_id desk.new) (sees pass).origin number result.1 }
{
    match desk.split(pass, u64::from(number)) {
        Ok((rest, own)) => (rest, Stage::Asks(own)),
        Err((_, rest)) => (rest, Stage::Waits),
    }
}

// What came of the first job, which ran.
fn take_first<S: Drop, P: Drop, C: Drop>(job: Job<S, P, C>) -> (S, Worker<P, C>, WorkerEnd)
    requires { HasRun job.stage }
    ensures worker { result.1 ≡ job.worker }
    ensures ran { job.stage ≡ Ran result.0 result.2 }
{
    let Job {
        worker,
        number: _,
        stage,
    } = job;
    match stage {
        Stage::Waits => unreachable!(),
        Stage::Asks(_) => unreachable!(),
        Stage::Ran(pass, end) => (pass, worker, end),
    }
}

// What comes of another job: one that waited is served with the first pass.
fn settle<R: Wait, D: Disk + Drop, P: Port, C: Clock + Drop, G: Gate>(
    rt: &R,
    alloc: Global,
    desk: &Desk<D>,
    pass: Pass<D>,
    job: Job<Pass<D>, P, C>,
    gate: &G,
) -> (Pass<D>, Worker<P, C>, WorkerEnd, Option<Pass<D>>)
    requires desk { IsAt pass desk.now }
    requires still { IsStill job.stage }
    ensures desk { IsAt result.0 desk.now }
    ensures settles { StageSettles D.tells pass_seen (worker_seen P.seen C.moments) (desk_id desk.now) pass result.0 job.number job.worker result.1 result.2 job.stage result.3 }
{
    let Job {
        worker,
        number,
        stage,
    } = job;
    match stage {
        Stage::Waits => {
            let mut worker = worker;
            let (pass, end) = serve_worker(rt, alloc, desk, pass, &mut worker, gate, number);
            (pass, worker, end, None)
        }
        Stage::Asks(_) => unreachable!(),
        Stage::Ran(own, end) => (pass, worker, end, Some(own)),
    }
}

// Joins the passes into the first one.
fn join_all<D: Disk + Drop>(
    desk: &mut Desk<D>,
    first: Pass<D>,
    passes: &mut Vec<Option<Pass<D>>>,
) -> Pass<D>
    requires first { IsAt first desk.old }
    requires others { AreAt pass_seen (desk_id desk.old) passes.old.items }
    ensures same { IsSameDesk desk.new desk.old }
    ensures desk { IsAt result desk.new }
    ensures joins { JoinsAll pass_seen (sees first) passes.old.items (sees result) }
{
    let mut pass = first;
    'joining: for _ in 0..passes.len() {
        let Some(own) = passes.pop() else {
            unreachable!()
        };
        pass = join_one(desk, pass, own);
    }
    pass
}

// Joins a pass, where there is one, into the first one.
fn join_one<D: Disk + Drop>(desk: &mut Desk<D>, first: Pass<D>, own: Option<Pass<D>>) -> Pass<D>
    requires first { IsAt first desk.old }
    requires other { AreAt pass_seen (desk_id desk.old) (own ∷ []) }
    ensures same { IsSameDesk desk.new desk.old }
    ensures desk { IsAt result desk.new }
    ensures joins { JoinsAll pass_seen (sees first) (own ∷ []) (sees result) }
{
    match own {
        Some(own) => desk.join(first, own),
        None => first,
    }
}
