ghost use Rattle.std.specs.Prelude.{◌≡◌, ◌≤◌};
ghost use Rattle.nb_journal.specs.Growing.{IsAtRest};
ghost use Rattle.nb_journal.specs.declared.limits.TheConstants.{MAX_ITEM};
ghost use Rattle.nb_sell.specs.Sold.{IsJournalOf, NothingLost, Sold, around, end_for};
ghost use Rattle.nb_sell.specs.Steps.{lost_end};

use crate::ended::SellEnd;
use crate::peer::{Over, Peer};
use crate::serving::serve;
use crate::sides::Sides;
use nb_journal::Journal;
use nb_link::Link;
use nb_merchant::Merchant;
use nb_port::{Clock, Disk};
use nb_trade::Lost;
use nb_wire::LinkEnd;
use std::alloc::Global;

/// Does what a merchant does on one consumer's link, over that and the house's: it tells prices, hands out goods, has the orders that come settled by the house and
/// passes the results on, up to where nothing more is sold on the link. The journal has no item in doubt, and was opened with room for the longest item. Where it held what
/// the merchant kept, it holds that behind each link on which no item was lost; behind another the merchant has to start again with what the journal holds.
pub fn sell_link<D: Disk, L: Link, M: Link, C: Clock>(
    alloc: Global,
    journal: &mut Journal<D>,
    merchant: &mut Merchant,
    link: &mut L,
    server: &mut M,
    clock: &mut C,
) -> SellEnd
    // No item is in doubt.
    requires rest { IsAtRest D.tells journal.old }
    // No item is longer than there is room for.
    requires room { journal.old.room ≡ MAX_ITEM }
    // What was done is a run of the merchant, and how it ended says why no more was.
    ensures sold { Sold D.tells (around journal.old merchant.old (M.seen server.old) (L.seen link.old) (C.moments clock.old)) (around journal.new merchant.new (M.seen server.new) (L.seen link.new) (C.moments clock.new)) result }
    // Where the journal held what the merchant kept, and no item was lost, it holds what the merchant kept.
    ensures again { IsJournalOf D.tells journal.old merchant.old → NothingLost result → IsJournalOf D.tells journal.new merchant.new }
    // The longest item has the room that it had.
    ensures room { NothingLost result → journal.new.room ≡ MAX_ITEM }
{
    merchant.witness();
    let Ok(mut sides) = Sides::new(alloc) else {
        return SellEnd::NoMemory;
    };
    let served = serve(alloc, journal, merchant, link, server, clock, &mut sides);
    drop(sides);
    match served {
        Ok(why) => end_of(why),
        Err(why) => lost_as(why),
    }
}

// How selling ends where nothing more is done for this reason.
fn end_of(why: Over) -> SellEnd
    ensures { result ≡ end_for why }
{
    match why {
        Over::NoFrame(Peer::House, LinkEnd::ReadFault) => SellEnd::ServerFault,
        Over::NoFrame(Peer::House, LinkEnd::Ended { .. }) => SellEnd::Ended,
        Over::NoFrame(Peer::House, LinkEnd::BadFrame(_)) => SellEnd::Ended,
        Over::NoFrame(Peer::Consumer, _) => SellEnd::Ended,
        Over::WriteFault(Peer::House) => SellEnd::ServerFault,
        Over::WriteFault(Peer::Consumer) => SellEnd::Ended,
        Over::Ignored => SellEnd::Ended,
        Over::Spent => SellEnd::Ended,
    }
}

// The same where a step was lost.
fn lost_as(why: Lost) -> SellEnd
    ensures { result ≡ lost_end why }
{
    match why {
        Lost::NoMemory => SellEnd::NoMemory,
        Lost::Full { cap } => SellEnd::Full { cap },
        Lost::DiskFault { before, after } => SellEnd::DiskFault { before, after },
    }
}
