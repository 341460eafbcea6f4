ghost use Rattle.std.specs.Prelude.{◌≡◌, []};
ghost use Rattle.nb_wallet.specs.Spelling.{StartKeepsRules};
ghost use Rattle.nb_work.specs.Buying.{BuysAs, not_opened, status_of};
ghost use Rattle.nb_commands.specs.Ending.{at_no_place};

use nb_buy::{BuyEnd, Lost, buy};
use nb_commands::{
    CLEAN, DISK_FAILED, Ending, JOURNAL_FULL, LINK_FAILED, NO_JOURNAL, OUT_OF_MEMORY, SINK_FAILED,
    UNPAID,
};
use nb_consumer::Consumer;
use nb_journal::{Journal, MAX_ITEM, OpenFault, Opened};
use nb_link::Link;
use nb_msgs::RestartFault;
use nb_port::{Disk, Sink};
use nb_units::Small;
use nb_wallet::{Start, Wallet};
use std::alloc::Global;

// Opens the wallet on the disk, and makes a purchase with it.
pub fn buy_with<D: Disk, L: Link, K: Sink>(
    alloc: Global,
    start: &Start,
    disk: D,
    server: &mut L,
    seller: &mut L,
    sink: &mut K,
) -> (Ending, D)
    requires { StartKeepsRules start.now }
    ensures { BuysAs D.tells start.now
        (record { disk = disk; house = L.seen server.old; seller = L.seen seller.old; sent = K.sent sink.old; faults = K.faults sink.old })
        (record { disk = result.1; house = L.seen server.new; seller = L.seen seller.new; sent = K.sent sink.new; faults = K.faults sink.new })
        result.0 }
{
    let Opened {
        journal,
        head,
        version: _,
        rate: _,
        cap: _,
        items,
    } = match Journal::open(alloc, disk, MAX_ITEM) {
        Ok(opened) => opened,
        Err((fault, disk)) => return (unopened(fault), disk),
    };
    let started = Consumer::restart(alloc, Wallet::of_head(&head), items.as_slice());
    drop(items);
    let mut consumer = match started {
        Ok(consumer) => consumer,
        Err(RestartFault::BadItem { .. }) => {
            return (Ending::at_no_place(NO_JOURNAL), journal.into_disk());
        }
        Err(RestartFault::NoMemory) => {
            return (Ending::at_no_place(OUT_OF_MEMORY), journal.into_disk());
        }
    };
    let mut journal = journal;
    let end = buy(
        alloc,
        &mut journal,
        &mut consumer,
        start,
        server,
        seller,
        sink,
    );
    drop(consumer);
    (ended(end), journal.into_disk())
}

// How the job ends where the journal of a wallet or of a stall was not opened.
pub fn unopened(fault: OpenFault) -> Ending
    ensures { result ≡ not_opened fault }
{
    match fault {
        OpenFault::Unborn { .. } => Ending::at_no_place(NO_JOURNAL),
        OpenFault::Damaged { place, .. } => Ending {
            status: NO_JOURNAL,
            place,
        },
        OpenFault::DiskFault { .. } => Ending::at_no_place(DISK_FAILED),
        OpenFault::NoMemory => Ending::at_no_place(OUT_OF_MEMORY),
    }
}

// How the job ends behind a purchase.
fn ended(end: BuyEnd) -> Ending
    ensures { result ≡ at_no_place (status_of end) }
{
    match end {
        BuyEnd::Paid => Ending::at_no_place(CLEAN),
        BuyEnd::Unpaid => Ending::at_no_place(UNPAID),
        BuyEnd::SinkFault => Ending::at_no_place(SINK_FAILED),
        BuyEnd::Stopped { .. } => Ending::at_no_place(LINK_FAILED),
        BuyEnd::Spent => Ending::at_no_place(LINK_FAILED),
        BuyEnd::Lost(Lost::NoMemory) => Ending::at_no_place(OUT_OF_MEMORY),
        BuyEnd::Lost(Lost::Full { .. }) => Ending::at_no_place(JOURNAL_FULL),
        BuyEnd::Lost(Lost::DiskFault { .. }) => Ending::at_no_place(DISK_FAILED),
    }
}

// No bytes.
pub fn nothing() -> Small
    ensures { result ≡ [] }
{
    match Small::of(&[]) {
        Some(small) => small,
        None => unreachable!(),
    }
}
