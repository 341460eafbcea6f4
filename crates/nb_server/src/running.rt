ghost use Rattle.std.specs.Prelude.{◌≡◌, ◌<◌, ℕ, List, Option, length, reverse, slice_index_or, vec_len};
ghost use Rattle.std.specs.List.{All};
ghost use Rattle.nb_vault.specs.declared.origin.Origin.{Origin};
ghost use Rattle.nb_server.specs.declared.worker.Worker.{Worker as WorkerOf};
ghost use Rattle.nb_server.specs.Served.{worker_seen};
ghost use Rattle.nb_server.specs.Steps.{AreDone, AreReady, CanRun, Runs, desk_id, pass_seen};

use crate::job::{Job, Stage};
use crate::server::MAX_WORKERS;
use crate::worker::serve_worker;
use nb_desk::{Desk, Pass};
use nb_link::{Gate, Port};
use nb_port::{Clock, Disk};
use std::alloc::Global;
use std::mem;
use std::sync::Wait;
use std::thread::{self, Threads};

/// Runs each job that has a pass, each in a thread of its own.
pub fn run_all<
    R: Threads + Wait + Sync,
    D: Disk + Drop + Send,
    P: Port,
    C: Clock + Send + Drop,
    G: Gate,
>(rt: &R, alloc: Global, desk: &Desk<D>, jobs: &mut Vec<Job<Pass<D>, P, C>>, gate: &G)
    requires can { All (CanRun pass_seen (desk_id desk.now)) jobs.old.items }
    ensures done { (origin : Option Origin) (ws : List (WorkerOf P C)) → AreReady pass_seen (desk_id desk.now) origin 0 ws (reverse jobs.old.items)
        → AreDone D.tells pass_seen (worker_seen P.seen C.moments) (desk_id desk.now) origin 0 ws (reverse jobs.new.items) }
    ensures len { vec_len jobs.new ≡ vec_len jobs.old }
{
    run_each(rt, alloc, desk, jobs.as_mut_slice(), gate);
}

fn run_each<
    R: Threads + Wait + Sync,
    D: Disk + Drop + Send,
    P: Port,
    C: Clock + Send + Drop,
    G: Gate,
>(rt: &R, alloc: Global, desk: &Desk<D>, jobs: &mut [Job<Pass<D>, P, C>], gate: &G)
    requires { All (CanRun pass_seen (desk_id desk.now)) jobs.old }
    ensures ran { (i : ℕ) (d : _) → i < length jobs.old → Runs D.tells pass_seen (worker_seen P.seen C.moments) (desk_id desk.now) (slice_index_or jobs.old i d) (slice_index_or jobs.new i d) }
    ensures len { length jobs.new ≡ length jobs.old }
{
    thread::for_each_mut(
        rt,
        jobs,
        MAX_WORKERS,
        &|_i: usize, job: &mut Job<Pass<D>, P, C>|
            requires { CanRun pass_seen (desk_id desk.now) job.old }
            ensures { Runs D.tells pass_seen (worker_seen P.seen C.moments) (desk_id desk.entry.now) job.old job.new }
        { run_job(rt, alloc, desk, job, gate) },
    );
}

// Runs a job: where it has a pass, its worker serves with it.
fn run_job<R: Wait, D: Disk + Drop, P: Port, C: Clock, G: Gate>(
    rt: &R,
    alloc: Global,
    desk: &Desk<D>,
    job: &mut Job<Pass<D>, P, C>,
    gate: &G,
)
    requires { CanRun pass_seen (desk_id desk.now) job.old }
    ensures { Runs D.tells pass_seen (worker_seen P.seen C.moments) (desk_id desk.now) job.old job.new }
{
    match mem::replace(&mut job.stage, Stage::Waits) {
        Stage::Waits => {}
        Stage::Asks(pass) => {
            let (pass, end) = serve_worker(
                rt,
                alloc,
                desk,
                pass,
                &mut job.worker,
                gate,
                job.number,
            );
            job.stage = Stage::Ran(pass, end);
        }
        Stage::Ran(pass, end) => job.stage = Stage::Ran(pass, end),
    }
}
