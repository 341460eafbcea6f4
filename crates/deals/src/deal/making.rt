// A purchase is made, and what came of it is told.

ghost use Rattle.std.specs.Prelude.{◌≡◌, ◌<◌};
ghost use Rattle.nb_journal.specs.Growing.{IsAtRest};
ghost use Rattle.nb_journal.specs.declared.limits.TheConstants.{MAX_ITEM};
ghost use Rattle.nb_journal.specs.Opening.{OpensJournal};
ghost use Rattle.nb_port.specs.Tells.{DiskTells};
ghost use Rattle.nb_wallet.specs.Spelling.{StartKeepsRules};

use crate::deal::{Deal, tell_fault};
use nb_buy::{BuyEnd, Lost, Over, Peer, buy};
use nb_consumer::Consumer;
use nb_journal::{Journal, Opened};
use nb_lines::Told;
use nb_link::MemLink;
use nb_port::{Disk, MemDisk, MemSink};
use nb_units::NoMemory;
use nb_wallet::{Start, Wallet};
use nb_wire::LinkEnd;

// The most items of a wallet that is opened.
const MOST: usize = 1_000;

impl Deal {
    // Makes the purchase with a wallet that was opened, and keeps what its disk has then.
    pub(crate) fn with(
        &mut self,
        told: &mut Told,
        opened: Opened<MemDisk>,
        wish: &Start,
        step: usize,
    ) -> Result<(), NoMemory>
        requires wish { StartKeepsRules wish.now }
        requires step { 0 < step }
        requires rest { IsAtRest ⟦<MemDisk as Disk>⟧.tells opened.journal }
        requires room { opened.journal.room ≡ MAX_ITEM }
    {
        let Opened {
            journal,
            head,
            items,
            ..
        } = opened;
        if items.len() > MOST {
            return told.unclear();
        }
        match Consumer::restart(self.alloc, Wallet::of_head(&head), items.as_slice()) {
            Ok(consumer) => self.made(told, journal, consumer, wish, step),
            Err(fault) => tell_fault(told, fault),
        }
    }

    fn made(
        &mut self,
        told: &mut Told,
        journal: Journal<MemDisk>,
        consumer: Consumer,
        wish: &Start,
        step: usize,
    ) -> Result<(), NoMemory>
        requires wish { StartKeepsRules wish.now }
        requires step { 0 < step }
        requires rest { IsAtRest ⟦<MemDisk as Disk>⟧.tells journal }
        requires room { journal.room ≡ MAX_ITEM }
    {
        let (mut journal, mut consumer) = (journal, consumer);
        let mut house = self.house.link(self.alloc, step)?;
        let mut seller = self.seller.link(self.alloc, step)?;
        let mut output = MemSink::new(self.alloc, self.output.as_slice())?;
        self.output.clear();
        let end = buy(
            self.alloc,
            &mut journal,
            &mut consumer,
            wish,
            &mut house,
            &mut seller,
            &mut output,
        );
        tell_end(told, end);
        let disk = journal.into_disk();
        self.wallet = Vec::from_slice(self.alloc, disk.content())?;
        told.bytes("\nwallet ", self.wallet.as_slice());
        tell_sent(told, &house, &seller, &output)
    }
}

// What was sent to both, and what was written.
fn tell_sent(
    told: &mut Told,
    house: &MemLink,
    seller: &MemLink,
    output: &MemSink,
) -> Result<(), NoMemory> {
    told.bytes("\nto the house ", house.sent())
        .bytes("\nto the seller ", seller.sent());
    told.bytes("\noutput ", output.sent()).done()
}

fn tell_end(told: &mut Told, end: BuyEnd) {
    match end {
        BuyEnd::Paid => told.text("paid"),
        BuyEnd::Unpaid => told.text("unpaid"),
        BuyEnd::SinkFault => told.text("a write of the goods failed"),
        BuyEnd::Spent => told.text("all frames were read"),
        BuyEnd::Stopped { peer, why } => tell_over(
            told.text("stopped at the ").text(name(peer)),
            why,
        ),
        BuyEnd::Lost(Lost::NoMemory) => told.text("no memory"),
        BuyEnd::Lost(Lost::Full { cap }) => told.show("full: ", &cap),
        BuyEnd::Lost(Lost::DiskFault { before, after }) => told
            .show("the disk failed: ", &before)
            .show(" to ", &after),
    };
}

fn name(peer: Peer) -> &'static str {
    match peer {
        Peer::House => "house",
        Peer::Seller => "seller",
    }
}

// Why nothing more comes.
fn tell_over(told: &mut Told, why: Over) -> &mut Told {
    match why {
        Over::WriteFault => told.text(": a write failed"),
        Over::Refused => told.text(": refused"),
        Over::Ended(LinkEnd::Ended { rest }) => told.show(": it ended, rest ", &rest),
        Over::Ended(LinkEnd::BadFrame(fault)) => told.show(": bad at ", &fault.place()),
        Over::Ended(LinkEnd::ReadFault) => told.text(": a read failed"),
    }
}
