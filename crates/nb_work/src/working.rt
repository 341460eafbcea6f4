ghost use Rattle.std.specs.Prelude.{◌≡◌, ◌≤◌, [], None, IsSome, vec_len};
ghost use Rattle.nb_words.specs.declared.words.TheConstants.{MAX_WORKERS};
ghost use Rattle.nb_wallet.specs.Spelling.{StartKeepsRules};
ghost use Rattle.nb_work.specs.Buying.{BuysOver};
ghost use Rattle.nb_work.specs.Selling.{SellsOver};
ghost use Rattle.nb_work.specs.Work.{IsStaffed, IsDialled, IsShort, WorksAs, ServesAs, StoppedAs, workers_seen};

use crate::buying::{buy_with, nothing};
use crate::selling::sell_with;
use nb_commands::{CLEAN, Ending, Job, OUT_OF_MEMORY, PORT_FAILED};
use nb_groups::Offers;
use nb_link::{Gate, Link, Port};
use nb_port::{Clock, Disk, Sink};
use nb_price::Catalogue;
use nb_server::{How, Served, Worker, WorkerEnd, serve_all};
use nb_turns::Line;
use nb_vault::Vault;
use nb_wallet::Start;
use std::alloc::Global;
use std::sync::Wait;
use std::thread::Threads;

/// The links that were dialled for a job, where it needs them.
#[derive(Drop)]
pub struct Dials<L> {
    /// To the house.
    pub server: Option<L>,
    /// To a merchant.
    pub seller: Option<L>,
}

impl<L: Drop> Dials<L> {
    /// No link was dialled.
    pub fn none() -> Dials<L>
        ensures { result ≡ record { server = None; seller = None } }
    {
        Dials {
            server: None,
            seller: None,
        }
    }
}

/// What a job came to. All that was handed in is handed back.
#[derive(Drop)]
pub struct Worked<D, P, L, C> {
    /// The disk.
    pub disk: D,
    /// The workers, in their order.
    pub workers: Vec<Worker<P, C>>,
    /// The dialled links.
    pub dials: Dials<L>,
    /// How it ended.
    pub ending: Ending,
    /// The lines of the vault, where it was served.
    pub lines: Vec<Line>,
    /// What came of each worker, where it was served.
    pub ends: Vec<WorkerEnd>,
}

/// Does a job over the disk, the workers, the dialled links and the output.
///
/// `Serve`: opens the house on the disk, and serves the links of all workers by [`serve_all`]. There are as many workers as the job says;
/// how many links each of their ports gives is the ports' own matter. The status is that of a journal that was not opened, 7, 8 or 6; or 6,
/// with nothing begun, which is for want of memory and which no clause bounds; else 13 where a port failed, 6 where links were left, and 0
/// where each port gave all its links. Where nothing was begun no byte was written, and the workers are those handed in. The dialled links
/// and the output are not touched. No clause speaks of the gate, nor of threads.
///
/// `Buy`: opens the wallet on the disk, starts its consumer again, and makes the purchase with its request by [`nb_buy::buy`] over the two dialled links. The status is that of a
/// journal that was not opened, 7, 8 or 6; 8 where an item of it is none of a wallet's, and 6 where there is no memory, both with nothing begun; else 0 where the
/// goods were written, 4 where the output failed, 10 where the purchase is over and no goods were had, 12 where it is not over and nothing more came of a
/// link or 10,000 frames were read, 14 where the wallet is full, 7 where its disk failed and 6 where there was no memory. The workers, each with its clock, are not touched.
///
/// `Sell`: opens the stall on the disk, starts its merchant again with the shelf and the offers, if there are some, and sells by [`nb_sell::sell_link`] on the links that the port of the one worker
/// gives, one after the other, each of which goes back to the port then; how many those are is the port's own matter. The status is that of a journal that was not
/// opened, 7, 8 or 6; 8 where an item of it is none of a stall's with this shelf, and 6 where there is no memory, both with nothing begun; else 0 where the port has no
/// link left, 13 where it or the link to the house failed, 14 where the stall is full, 7 where its disk failed and 6 where there was no memory. The link to a seller is not
/// touched, and nothing is written to the output. No clause speaks of the gate.
pub fn work<
    R: Threads + Wait + Sync,
    D: Disk + Drop + Send,
    P: Port,
    L: Link + Drop,
    C: Clock + Send + Drop,
    G: Gate,
    K: Sink,
>(
    rt: &R,
    alloc: Global,
    job: Job,
    disk: D,
    workers: Vec<Worker<P, C>>,
    dials: Dials<L>,
    gate: &G,
    sink: &mut K,
) -> Worked<D, P, L, C>
    // A server has as many workers as the job says, and who sells has one.
    requires staffed { IsStaffed job (vec_len workers) }
    // For a purchase both links were dialled, and for who sells that to the house.
    requires dialled { IsDialled job dials }
    // What a purchase says as it asks for the price has at most 64 bytes.
    requires short { IsShort job }
    // What it comes to, by the job: a server's end, a purchase's, or that of who sells.
    ensures works { WorksAs D.tells (workers_seen P.seen C.moments) L.seen job disk result.disk workers.items result.workers.items dials result.dials
        (K.sent sink.old) (K.sent sink.new) (K.faults sink.old) (K.faults sink.new) result.lines.items result.ends.items result.ending }
{
    match job {
        Job::Serve { .. } => serve(rt, alloc, disk, workers, dials, gate),
        Job::Buy {
            merchant,
            product,
            limit,
            transaction,
            request,
        } => {
            let start = Start {
                transaction,
                merchant,
                product,
                limit,
                request,
                memo: nothing(),
            };
            purchase(alloc, &start, disk, workers, dials, sink)
        }
        Job::Sell { shelf, offers, .. } => sell(alloc, shelf, offers, disk, workers, dials),
    }
}

// Sells to the links of the one worker.
fn sell<D: Disk, P: Port, L: Link, C: Clock>(
    alloc: Global,
    shelf: Catalogue,
    offers: Option<Offers>,
    disk: D,
    workers: Vec<Worker<P, C>>,
    dials: Dials<L>,
) -> Worked<D, P, L, C>
    requires one { vec_len workers ≡ 1 }
    requires server { IsSome dials.server }
    ensures sells { SellsOver D.tells L.seen shelf offers disk result.disk (workers_seen P.seen C.moments workers.items) (workers_seen P.seen C.moments result.workers.items) dials result.dials result.ending }
    ensures idle { (result.lines.items ≡ []) × (result.ends.items ≡ []) }
{
    let Dials { server, seller } = dials;
    let mut server = server.unwrap();
    let mut workers = workers;
    let (ending, disk) = sell_with(alloc, shelf, offers, disk, &mut workers[0], &mut server);
    let dials = Dials {
        server: Some(server),
        seller,
    };
    idle(alloc, disk, workers, dials, ending)
}

// Makes a purchase over both links.
fn purchase<D: Disk, P: Port, L: Link, C: Clock, K: Sink>(
    alloc: Global,
    start: &Start,
    disk: D,
    workers: Vec<Worker<P, C>>,
    dials: Dials<L>,
    sink: &mut K,
) -> Worked<D, P, L, C>
    requires start { StartKeepsRules start.now }
    requires server { IsSome dials.server }
    requires seller { IsSome dials.seller }
    ensures buys { BuysOver D.tells L.seen start.now disk result.disk dials result.dials (K.sent sink.old) (K.sent sink.new) (K.faults sink.old) (K.faults sink.new) result.ending }
    ensures idle { (result.workers ≡ workers) × (result.lines.items ≡ []) × (result.ends.items ≡ []) }
{
    let Dials { server, seller } = dials;
    let mut server = server.unwrap();
    let mut seller = seller.unwrap();
    let (ending, disk) = buy_with(alloc, start, disk, &mut server, &mut seller, sink);
    let dials = Dials {
        server: Some(server),
        seller: Some(seller),
    };
    idle(alloc, disk, workers, dials, ending)
}

// Serves the links of all workers over the house on the disk.
fn serve<
    R: Threads + Wait + Sync,
    D: Disk + Drop + Send,
    P: Port,
    L: Link + Drop,
    C: Clock + Send + Drop,
    G: Gate,
>(
    rt: &R,
    alloc: Global,
    disk: D,
    workers: Vec<Worker<P, C>>,
    dials: Dials<L>,
    gate: &G,
) -> Worked<D, P, L, C>
    requires some { 1 ≤ vec_len workers }
    requires few { vec_len workers ≤ MAX_WORKERS }
    ensures serves { ServesAs D.tells (workers_seen P.seen C.moments) disk result.disk workers.items result.workers.items result.lines.items result.ends.items result.ending }
    ensures dials { result.dials ≡ dials }
{
    let vault = match Vault::open(alloc, disk) {
        Ok(vault) => vault,
        Err((fault, disk)) => {
            return idle(alloc, disk, workers, dials, Ending::unopened(fault));
        }
    };
    match serve_all(rt, alloc, vault, workers, gate) {
        Ok(
            Served {
                vault,
                workers,
                ends,
            },
        ) => {
            let ending = stopped(ends.as_slice());
            let (disk, lines) = vault.into_parts();
            Worked {
                disk,
                workers,
                dials,
                ending,
                lines,
                ends,
            }
        }
        Err((_, vault, workers)) => {
            idle(
                alloc,
                vault.into_disk(),
                workers,
                dials,
                Ending::at_no_place(OUT_OF_MEMORY),
            )
        }
    }
}

// Nothing was served.
fn idle<D, P, L, C>(
    alloc: Global,
    disk: D,
    workers: Vec<Worker<P, C>>,
    dials: Dials<L>,
    ending: Ending,
) -> Worked<D, P, L, C>
    ensures same { (result.disk ≡ disk) × (result.workers ≡ workers) × (result.dials ≡ dials) × (result.ending ≡ ending) }
    ensures none { (result.lines.items ≡ []) × (result.ends.items ≡ []) }
{
    Worked {
        disk,
        workers,
        dials,
        ending,
        lines: Vec::new(alloc),
        ends: Vec::new(alloc),
    }
}

// How the run ends, by how its workers stopped.
fn stopped(ends: &[WorkerEnd]) -> Ending
    ensures { StoppedAs ends.now result }
{
    let mut starved = false;
    'looking: for end in ends {
        match end.how {
            How::PortFault => return Ending::at_no_place(PORT_FAILED),
            How::NoMemory => starved = true,
            How::Closed => {}
        }
    }
    if starved {
        Ending::at_no_place(OUT_OF_MEMORY)
    } else {
        Ending::at_no_place(CLEAN)
    }
}
