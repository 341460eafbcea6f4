ghost use Rattle.std.specs.Prelude.{◌≡◌};
ghost use Rattle.nb_turn.specs.Passes.{sees};
ghost use Rattle.nb_desk.specs.Desks.{IsAt};
ghost use Rattle.nb_server.specs.Served.{HowIs, worker_seen};
ghost use Rattle.nb_server.specs.Steps.{HasServed, Serves};

use nb_desk::{Desk, Pass};
use nb_link::{Gate, Port, PortOut};
use nb_port::{Clock, Disk};
use nb_session::{Record, session};
use std::alloc::Global;
use std::sync::Wait;

/// Who serves the links of a port, one after another.
#[derive(Drop)]
pub struct Worker<P, C> {
    /// Where its links come from.
    pub port: P,
    /// What it asks for the moment of each frame.
    pub clock: C,
}

/// Why a worker stopped.
#[derive(Clone, Copy)]
pub enum How {
    /// Its port had no link left.
    Closed,
    /// Links are left, and its port's count of failures rose.
    PortFault,
    /// Links are left: there was no memory for the record of one more session, which no clause bounds.
    NoMemory,
}

/// What came of a worker.
#[derive(Drop)]
pub struct WorkerEnd {
    /// Its number, 4 bytes wide: its place among the workers, from 0 on.
    pub worker: u32,
    /// The number of the pass that it asked with, 8 bytes wide: its own, or 0.
    pub pass: u64,
    /// The records of its sessions, which have the numbers from 0 on, in the order of its links.
    pub records: Vec<Record>,
    /// Why it stopped.
    pub how: How,
}

/// Serves the links of a worker in the name of a pass, to its end.
pub fn serve_worker<R: Wait, D: Disk + Drop, P: Port, C: Clock, G: Gate>(
    rt: &R,
    alloc: Global,
    desk: &Desk<D>,
    pass: Pass<D>,
    worker: &mut Worker<P, C>,
    gate: &G,
    number: u32,
) -> (Pass<D>, WorkerEnd)
    requires desk { IsAt pass desk.now }
    ensures desk { IsAt result.0 desk.now }
    ensures pass { result.0.number ≡ pass.number }
    ensures serves { Serves D.tells pass.number (sees pass) (sees result.0) (worker_seen P.seen C.moments worker.old) (worker_seen P.seen C.moments worker.new) number result.1 }
{
    let asks = pass.number();
    let (pass, records, how) = serve_links(rt, alloc, desk, pass, worker, gate, number);
    (
        pass,
        WorkerEnd {
            worker: number,
            pass: asks,
            records,
            how,
        },
    )
}

// Serves the links of a worker, each by a session, which goes back to the port then. There is room for a record before a link is taken.
fn serve_links<R: Wait, D: Disk + Drop, P: Port, C: Clock, G: Gate>(
    rt: &R,
    alloc: Global,
    desk: &Desk<D>,
    pass: Pass<D>,
    worker: &mut Worker<P, C>,
    gate: &G,
    number: u32,
) -> (Pass<D>, Vec<Record>, How)
    requires desk { IsAt pass desk.now }
    ensures desk { IsAt result.0 desk.now }
    ensures pass { result.0.number ≡ pass.number }
    ensures worked { HasServed D.tells pass.number (sees pass) (sees result.0) (worker_seen P.seen C.moments worker.old) (worker_seen P.seen C.moments worker.new) result.1.items }
    ensures how { HowIs (P.seen worker.old.port) (P.seen worker.new.port) result.2 }
{
    let mut pass = pass;
    let mut records = Vec::new(alloc);
    'serving: for serial in 0..worker.port.left() {
        if records.reserve(1).is_err() {
            return (pass, records, How::NoMemory);
        }
        match worker.port.next() {
            PortOut::Got(link) => {
                let mut link = link;
                let (next, record) = session(
                    rt,
                    alloc,
                    desk,
                    pass,
                    &mut link,
                    &mut worker.clock,
                    gate,
                    number,
                    serial,
                );
                pass = next;
                worker.port.back(link);
                records.push_reserved(record);
            }
            PortOut::Closed => return (pass, records, How::Closed),
            PortOut::Failed => return (pass, records, How::PortFault),
        }
    }
    (pass, records, How::Closed)
}
