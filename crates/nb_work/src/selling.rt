ghost use Rattle.std.specs.Prelude.{◌≡◌, ◌<◌, ◌≤◌, ◌^◌, length, IfOk};
ghost use Rattle.nb_journal.specs.declared.limits.TheConstants.{MAX_ITEM};
ghost use Rattle.nb_merchant.specs.Keeping.{restarted};
ghost use Rattle.nb_merchant.specs.Laws.{kept_bytes};
ghost use Rattle.nb_merchant.specs.Shop.{new_shop};
ghost use Rattle.nb_merchant.specs.Telling.{Restarts};
ghost use Rattle.nb_sell.specs.Sold.{IsJournalOf};
ghost use Rattle.nb_server.specs.Served.{worker_seen};
ghost use Rattle.nb_work.specs.Buying.{not_opened};
ghost use Rattle.nb_work.specs.Selling.{Serves, SellsAs, outside, standing, status_of, stop_for};
ghost use Rattle.nb_commands.specs.Ending.{at_no_place};

use crate::buying::unopened;
use nb_commands::{
    CLEAN, DISK_FAILED, Ending, JOURNAL_FULL, NO_JOURNAL, OUT_OF_MEMORY, PORT_FAILED,
};
use nb_groups::Offers;
use nb_journal::{Journal, MAX_ITEM, Opened};
use nb_link::{Link, Port, PortOut};
use nb_merchant::Merchant;
use nb_msgs::RestartFault;
use nb_port::{Clock, Disk};
use nb_price::Catalogue;
use nb_sell::{SellEnd, sell_link};
use nb_server::Worker;
use nb_stall::Stall;
use nb_units::Blob;
use std::alloc::Global;

// Why nothing more is sold.
#[derive(Clone, Copy)]
pub enum Stop {
    // The port has no link left.
    Closed,
    // The port failed, with links left.
    PortFault,
    // The link to the house failed.
    ServerFault,
    // The disk failed.
    DiskFault,
    // The stall's journal is full.
    Full,
    // There was no memory.
    NoMemory,
}

// Opens the stall on the disk, and sells on the links that the worker's port gives, with this shelf and these offers.
pub fn sell_with<D: Disk, P: Port, L: Link, C: Clock>(
    alloc: Global,
    shelf: Catalogue,
    offers: Option<Offers>,
    disk: D,
    worker: &mut Worker<P, C>,
    server: &mut L,
) -> (Ending, D)
    ensures { SellsAs D.tells shelf offers (outside disk (worker_seen P.seen C.moments worker.old) (L.seen server.old)) (outside result.1 (worker_seen P.seen C.moments worker.new) (L.seen server.new)) result.0 }
{
    let Opened {
        journal,
        head,
        version: _,
        rate: _,
        cap: _,
        items,
    } = match Journal::open(alloc, disk, MAX_ITEM) {
        Ok(opened) => opened,
        Err((fault, disk)) => return (unopened(fault), disk),
    };
    let started = started_with(
        alloc,
        Stall::of_head(&head),
        shelf,
        offers,
        items.as_slice(),
    );
    drop(items);
    let mut merchant = match started {
        Ok(merchant) => merchant,
        Err(RestartFault::BadItem { .. }) => {
            return (Ending::at_no_place(NO_JOURNAL), journal.into_disk());
        }
        Err(RestartFault::NoMemory) => {
            return (Ending::at_no_place(OUT_OF_MEMORY), journal.into_disk());
        }
    };
    merchant.witness();
    let mut journal = journal;
    let stop = serve_links(alloc, &mut journal, &mut merchant, worker, server);
    drop(merchant);
    (ended(stop), journal.into_disk())
}

// The merchant of the stall that kept these items, with this shelf, and with offers or without.
fn started_with(
    alloc: Global,
    stall: Stall,
    shelf: Catalogue,
    offers: Option<Offers>,
    items: &[Blob],
) -> Result<Merchant, RestartFault>
    requires few { length items.now ≤ 2 ^ 32 }
    ensures restarts { Restarts (restarted (new_shop stall shelf offers) 0 items.now) result }
    ensures kept { IfOk result (λ merchant. kept_bytes merchant ≡ items.now) }
{
    match offers {
        Some(offers) => Merchant::restart_with(alloc, stall, shelf, offers, items),
        None => Merchant::restart(alloc, stall, shelf, items),
    }
}

// Sells on the links of a port, one after another, each of which goes back to the port then.
fn serve_links<D: Disk, P: Port, L: Link, C: Clock>(
    alloc: Global,
    journal: &mut Journal<D>,
    merchant: &mut Merchant,
    worker: &mut Worker<P, C>,
    server: &mut L,
) -> Stop
    // The journal holds what the merchant kept: so it does behind each link on which the next one is served.
    requires kept { IsJournalOf D.tells journal.old merchant.old }
    requires room { journal.old.room ≡ MAX_ITEM }
    ensures serves { Serves D.tells (standing journal.old merchant.old (L.seen server.old) (C.moments worker.old.clock)) (standing journal.new merchant.new (L.seen server.new) (C.moments worker.new.clock)) (P.seen worker.old.port) (P.seen worker.new.port) result }
{
    'selling: for _ in 0..worker.port.left() {
        match worker.port.next() {
            PortOut::Got(link) => {
                let mut link = link;
                let end = sell_link(
                    alloc,
                    journal,
                    merchant,
                    &mut link,
                    server,
                    &mut worker.clock,
                );
                worker.port.back(link);
                match stop_behind(end) {
                    Some(stop) => return stop,
                    None => {}
                }
            }
            PortOut::Closed => return Stop::Closed,
            PortOut::Failed => return Stop::PortFault,
        }
    }
    Stop::Closed
}

// Why nothing more is sold behind a link on which selling ended so, if it is for that.
fn stop_behind(end: SellEnd) -> Option<Stop>
    ensures { result ≡ stop_for end }
{
    match end {
        SellEnd::Ended => None,
        SellEnd::ServerFault => Some(Stop::ServerFault),
        SellEnd::DiskFault { .. } => Some(Stop::DiskFault),
        SellEnd::Full { .. } => Some(Stop::Full),
        SellEnd::NoMemory => Some(Stop::NoMemory),
    }
}

// How the job ends where nothing more is sold for this reason.
fn ended(stop: Stop) -> Ending
    ensures { result ≡ at_no_place (status_of stop) }
{
    match stop {
        Stop::Closed => Ending::at_no_place(CLEAN),
        Stop::PortFault => Ending::at_no_place(PORT_FAILED),
        Stop::ServerFault => Ending::at_no_place(PORT_FAILED),
        Stop::DiskFault => Ending::at_no_place(DISK_FAILED),
        Stop::Full => Ending::at_no_place(JOURNAL_FULL),
        Stop::NoMemory => Ending::at_no_place(OUT_OF_MEMORY),
    }
}
