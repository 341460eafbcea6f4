// A server, each of whose workers runs in a thread of its own.

use crate::house::House;
use crate::telling;
use nb_lines::Told;
use nb_link::{Gate, MemPort, Point, Port};
use nb_port::{MemClock, MemDisk};
use nb_server::{MAX_WORKERS, Worker, WorkerEnd, serve_all};
use nb_turns::Line;
use nb_units::NoMemory;
use nb_vault::Vault;
use std::alloc::Global;
use std::mem;
use std::sync::Wait;
use std::sync::atomic::{AtomicU64, Ordering};
use std::thread::{self, Threads};
use std::time::{Clock, Duration};

// How often a gate looks for what another session does, and sleeps for 100 microseconds where it is not done.
const MOST_LOOKS: u32 = 100_000;

// Whom a gate holds before a turn: the session that is the first to come, or one worker in this turn of it, counted from 0.
#[derive(Clone, Copy)]
enum Hold {
    Nobody,
    First,
    Turn { worker: u32, turn: u64 },
}

impl Hold {
    // By the words `free`, `hold`, or `hold WORKER TURN`.
    fn of(words: &[&str]) -> Option<Hold> {
        match words {
            ["free"] => Some(Hold::Nobody),
            ["hold"] => Some(Hold::First),
            ["hold", worker, turn] => Some(Hold::Turn {
                worker: nb_lines::number(*worker).min(63) as u32,
                turn: nb_lines::number(*turn),
            }),
            _ => None,
        }
    }

    // Whether this worker's turns are counted.
    fn counts(self, by: u32) -> bool {
        match self {
            Hold::Nobody => false,
            Hold::First => true,
            Hold::Turn { worker, .. } => worker == by,
        }
    }

    // Which of the turns that are counted is held.
    fn turn(self) -> u64 {
        match self {
            Hold::Turn { turn, .. } => turn,
            _ => 0,
        }
    }

    // Whether a reply of this worker ends the waiting.
    fn ends(self, by: u32) -> bool {
        match self {
            Hold::Turn { worker, .. } => worker != by,
            _ => true,
        }
    }
}

// A gate that keeps which workers and which sessions passed it, a bit for each. Who is held before a turn waits until another one has sent a
// reply, for so many looks at most.
#[derive(Drop)]
struct Hall<'a, R: Clock> {
    rt: &'a R,
    hold: Hold,
    workers: AtomicU64,
    sessions: AtomicU64,
    came: AtomicU64,
    answered: AtomicU64,
    spent: AtomicU64,
}

impl<'a, R: Clock> Hall<'a, R> {
    fn new(rt: &'a R, hold: Hold) -> Hall<'a, R> {
        Hall {
            rt,
            hold,
            workers: AtomicU64::new(0),
            sessions: AtomicU64::new(0),
            came: AtomicU64::new(0),
            answered: AtomicU64::new(0),
            spent: AtomicU64::new(0),
        }
    }

    fn wait(&self) {
        for _ in 0..MOST_LOOKS {
            if self.answered.load(Ordering::SeqCst) != 0 {
                return;
            }
            thread::sleep(self.rt, Duration::from_micros(100));
        }
        self.spent.store(1, Ordering::SeqCst);
    }

    fn passed(&self, told: &mut Told) {
        told.show("passed by workers ", &self.workers.load(Ordering::SeqCst))
            .show(" and sessions ", &self.sessions.load(Ordering::SeqCst))
            .show(", waited in vain ", &self.spent.load(Ordering::SeqCst));
    }
}

impl<'a, R: Clock + Sync> Gate for Hall<'a, R> {
    fn at(&self, worker: u32, session: u32, point: Point) {
        self.workers.fetch_or(1 << worker.min(63), Ordering::SeqCst);
        self.sessions
            .fetch_or(1 << session.min(63), Ordering::SeqCst);
        match point {
            Point::BeforeTurn => {
                if self.hold.counts(worker) {
                    let came = self.came.fetch_add(1, Ordering::SeqCst);
                    if came == self.hold.turn() {
                        self.wait();
                    }
                }
            }
            Point::AfterReply => {
                if self.hold.ends(worker) {
                    self.answered.store(1, Ordering::SeqCst);
                }
            }
        }
    }
}

/// What came of a server: the lines of its vault, its workers and their ends.
#[derive(Drop)]
pub struct Came {
    pub lines: Vec<Line>,
    pub workers: Vec<Worker<MemPort, MemClock>>,
    pub ends: Vec<WorkerEnd>,
}

impl House {
    /// `serve free`, `serve hold` or `serve hold WORKER TURN`: a server of these workers. Where it is held, the first session to come, or this worker
    /// in this turn, waits until another one has its reply: workers that served one after another would never get there.
    pub fn serve<R: Threads + Wait + Clock + Sync>(
        &mut self,
        rt: &R,
        told: &mut Told,
        words: &[&str],
    ) -> Result<(), NoMemory> {
        let Some(hold) = Hold::of(words) else {
            return told.unclear();
        };
        let disk = self.disk()?;
        let workers = mem::replace(&mut self.workers, Vec::new(self.alloc));
        let came = served(rt, told, disk, workers, hold);
        drop(mem::replace(&mut self.came, came));
        told.done()
    }

    /// `made`: how many lines each worker made, and how many there are.
    pub fn made(&self, told: &mut Told) -> Result<(), NoMemory> {
        if let Some(came) = &self.came {
            told.show("", &came.lines.len()).text(" lines:");
            for end in &came.ends {
                told.show(" ", &made_by(&came.lines, end.pass));
            }
        }
        told.done()
    }

    /// `sent`: how many links of each worker of the last server are left, and what each of the others was sent.
    pub fn sent(&self, told: &mut Told) -> Result<(), NoMemory> {
        if let Some(came) = &self.came {
            let mut between = "";
            for worker in &came.workers {
                sent_by(told.text(between), &worker.port);
                between = "\n";
            }
        }
        told.done()
    }
}

// How many of the lines this pass made.
fn made_by(lines: &[Line], pass: u64) -> usize {
    lines.iter().filter(|line| line.by() == pass).count()
}

// Serves the links of these workers, and tells who passed the gate and how the sessions ended.
fn served<R: Threads + Wait + Clock + Sync>(
    rt: &R,
    told: &mut Told,
    disk: MemDisk,
    workers: Vec<Worker<MemPort, MemClock>>,
    hold: Hold,
) -> Option<Came> {
    let gate = Hall::new(rt, hold);
    let came = serve_links(rt, told.alloc(), disk, workers, &gate);
    gate.passed(told);
    if let Some(came) = &came {
        ended(told, &came.ends);
    }
    came
}

// Serves the links of these workers against a vault that is opened over the disk.
fn serve_links<R: Threads + Wait + Sync, G: Gate>(
    rt: &R,
    alloc: Global,
    disk: MemDisk,
    workers: Vec<Worker<MemPort, MemClock>>,
    gate: &G,
) -> Option<Came> {
    let count = workers.len();
    if count == 0 || count > MAX_WORKERS {
        return None;
    }
    let vault = Vault::open(alloc, disk).ok()?;
    let served = serve_all(rt, alloc, vault, workers, gate).ok()?;
    Some(Came {
        lines: served.vault.into_parts().1,
        workers: served.workers,
        ends: served.ends,
    })
}

// Why each worker stopped, and how each of its sessions ended.
pub(crate) fn ended(told: &mut Told, ends: &[WorkerEnd]) {
    for end in ends {
        told.show("\nworker ", &end.worker)
            .show(" by pass ", &end.pass)
            .text(": ")
            .text(telling::how(end.how));
        for record in &end.records {
            telling::end(told.show("; ", &record.number).text(" "), record.end).show(
                " of ",
                &record.marks.len(),
            );
        }
    }
}

fn sent_by(told: &mut Told, port: &MemPort) {
    told.show("", &port.left()).text(" left:");
    for link in port.done() {
        told.bytes(" ", link.sent());
    }
}
