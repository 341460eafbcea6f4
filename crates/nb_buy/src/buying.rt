ghost use Rattle.std.specs.Prelude.{◌≡◌, ◌≤◌, IsTrue, is_some};
ghost use Rattle.nb_journal.specs.Growing.{IsAtRest};
ghost use Rattle.nb_journal.specs.declared.limits.TheConstants.{MAX_ITEM};
ghost use Rattle.nb_wallet.specs.Spelling.{StartKeepsRules};
ghost use Rattle.nb_consumer.specs.Goods.{HasEnded};
ghost use Rattle.nb_buy.specs.Run.{phase_for};
ghost use Rattle.nb_buy.specs.Bought.{Bought, IsUnwritten, WritesGoods, around};
ghost use Rattle.nb_buy.specs.Laws.{IsCarriedOut};
ghost use Rattle.nb_buy.specs.Steps.{AreItsGoods, Finishes};

use crate::ended::{BuyEnd, Lost};
use crate::sides::Sides;
use crate::trading::{TradeEnd, trade};
use crate::writing::write_out;
use nb_consumer::Consumer;
use nb_journal::Journal;
use nb_link::Link;
use nb_port::{Disk, Sink};
use nb_units::Blob;
use nb_wallet::Start;
use nb_wire::Sent;
use std::alloc::Global;

/// Makes the purchase that `start` tells, over the links of the house and of the seller, and writes its goods where it was paid. A purchase whose number the wallet
/// knows goes on from where it is, and of `start` only the number is used. The request and the memo have at most 64 bytes each. The journal is that of the
/// consumer, has no item in doubt, and was opened with room for the longest item. Behind [`BuyEnd::Lost`] the two are not used again: the consumer may know a step that its journal has
/// not.
pub fn buy<D: Disk, L: Link, K: Sink>(
    alloc: Global,
    journal: &mut Journal<D>,
    consumer: &mut Consumer,
    start: &Start,
    server: &mut L,
    seller: &mut L,
    sink: &mut K,
) -> BuyEnd
    // No item is in doubt.
    requires rest { IsAtRest D.tells journal.old }
    // No item is longer than there is room for.
    requires room { journal.old.room ≡ MAX_ITEM }
    requires start { StartKeepsRules start.now }
    // What was done is a run of the consumer, and how it ended says why no more was.
    ensures bought { Bought D.tells start.now (around journal.old consumer.old (L.seen server.old) (L.seen seller.old)) (around journal.new consumer.new (L.seen server.new) (L.seen seller.new)) result }
    // The goods of a purchase that was paid, all of them where it ends so.
    ensures goods { WritesGoods start.now consumer.new (K.faults sink.old) (K.faults sink.new) (K.sent sink.old) (K.sent sink.new) result }
    // At every other end nothing was written.
    ensures unwritten { IsUnwritten result → sink.new ≡ sink.old }
    ensures count { K.faults sink.old ≤ K.faults sink.new }
{
    let Ok(mut sides) = Sides::new(alloc) else {
        return BuyEnd::Lost(Lost::NoMemory);
    };
    let traded = trade(alloc, journal, consumer, start, server, seller, &mut sides);
    drop(sides);
    match traded {
        Ok(end) => match end {
            TradeEnd::Finished(opened) => finish(consumer, start, opened, sink),
            TradeEnd::Stopped(peer, why) => BuyEnd::Stopped { peer, why },
            TradeEnd::Spent => BuyEnd::Spent,
        },
        Err(why) => BuyEnd::Lost(why),
    }
}

// Writes the goods of a purchase that is over, where it was paid. They are opened where they are not yet.
fn finish<K: Sink>(consumer: &Consumer, start: &Start, opened: Option<Blob>, sink: &mut K) -> BuyEnd
    requires ended { HasEnded (phase_for start.now consumer.now) }
    requires opened { AreItsGoods start.now consumer.now opened }
    ensures finishes { Finishes start.now consumer.now (K.faults sink.old) (K.faults sink.new) (K.sent sink.old) (K.sent sink.new) result }
    // No memory is wanted for goods that are opened.
    ensures carried { IsTrue (is_some opened) → IsCarriedOut result }
    ensures unwritten { IsUnwritten result → sink.new ≡ sink.old }
    ensures count { K.faults sink.old ≤ K.faults sink.new }
{
    let goods = match opened {
        Some(goods) => goods,
        None => match consumer.goods(start.transaction) {
            Err(_) => return BuyEnd::Lost(Lost::NoMemory),
            Ok(None) => return BuyEnd::Unpaid,
            Ok(Some(goods)) => goods,
        },
    };
    match write_out(sink, goods.as_slice()) {
        Sent::All => BuyEnd::Paid,
        Sent::Failed => BuyEnd::SinkFault,
    }
}
