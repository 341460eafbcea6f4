// A server's job, from its disk to its status.

ghost use Rattle.std.specs.Prelude.{◌≤◌, vec_len};
ghost use Rattle.nb_server.specs.declared.server.TheConstants.{MAX_WORKERS};

use crate::house::House;
use crate::servers::{Came, ended};
use nb_commands::Job;
use nb_lines::Told;
use nb_link::{MemLink, MemPort, OpenGate};
use nb_port::{MemClock, MemDisk, MemSink};
use nb_server::{MAX_WORKERS, Worker};
use nb_units::NoMemory;
use nb_work::{Dials, work};
use std::mem;
use std::sync::Wait;
use std::thread::Threads;

impl House {
    /// `work SESSIONS`: the job of a server of these workers, of so many links each, over the disk: its status and its place, how many lines
    /// its vault has, why each worker stopped, and how its sessions ended. `sent` tells then what their links were sent.
    pub fn work<R: Threads + Wait + Sync>(
        &mut self,
        rt: &R,
        told: &mut Told,
        words: &[&str],
    ) -> Result<(), NoMemory> {
        let count = self.workers.len();
        let [sessions] = words else {
            return told.unclear();
        };
        if count < 1 || count > MAX_WORKERS {
            return told.unclear();
        }
        let sessions = nb_lines::number(*sessions).min(u64::from(u32::MAX)) as u32;
        let disk = self.disk()?;
        let workers = mem::replace(&mut self.workers, Vec::new(self.alloc));
        let came = came_of(rt, told, disk, workers, sessions)?;
        drop(mem::replace(&mut self.came, Some(came)));
        Ok(())
    }
}

// Does the job, and tells how it ended.
fn came_of<R: Threads + Wait + Sync>(
    rt: &R,
    told: &mut Told,
    disk: MemDisk,
    workers: Vec<Worker<MemPort, MemClock>>,
    sessions: u32,
) -> Result<Came, NoMemory>
    requires some { 1 ≤ vec_len workers }
    requires most { vec_len workers ≤ MAX_WORKERS }
{
    let job = Job::Serve {
        workers: workers.len() as u32,
        sessions,
    };
    let mut sink = MemSink::new(told.alloc(), &[])?;
    let dials = Dials::<MemLink>::none();
    let worked = work(
        rt,
        told.alloc(),
        job,
        disk,
        workers,
        dials,
        &OpenGate,
        &mut sink,
    );
    told.show("status ", &worked.ending.status)
        .show(" at ", &worked.ending.place)
        .show(", ", &worked.lines.len())
        .text(" lines");
    ended(told, &worked.ends);
    Ok(Came {
        lines: worked.lines,
        workers: worked.workers,
        ends: worked.ends,
    })
}
