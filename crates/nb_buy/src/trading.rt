ghost use Rattle.std.specs.Prelude.{◌≡◌};
ghost use Rattle.nb_journal.specs.Growing.{IsAtRest};
ghost use Rattle.nb_journal.specs.declared.limits.TheConstants.{MAX_ITEM};
ghost use Rattle.nb_wallet.specs.Spelling.{StartKeepsRules};
ghost use Rattle.nb_buy.specs.Bought.{point};
ghost use Rattle.nb_buy.specs.Steps.{AreBegun, StartsOrResumes, SameReaders, Trades, lines_of};

use crate::ended::{Lost, MOST_FRAMES};
use crate::hearing::{Listened, begin, go_on, listen};
use crate::peer::{Next, Over, Peer};
use crate::sides::Sides;
use crate::standing::{Standing, is_over, may_ask, standing_of};
use nb_consumer::Consumer;
use nb_frame::MAX_PIECE;
use nb_journal::Journal;
use nb_link::Link;
use nb_port::Disk;
use nb_units::Blob;
use nb_wallet::Start;
use std::alloc::Global;

// How a trade ended.
#[derive(Drop)]
pub enum TradeEnd {
    // The purchase is over, with its goods where its last frame opened them.
    Finished(Option<Blob>),
    // It is not, and nothing more comes of the peer whose answer was waited for.
    Stopped(Peer, Over),
    // It is not, and as many frames were read as are read for one purchase.
    Spent,
}

// Makes the purchase up to its end, or as far as the two links and the journal let it come.
pub fn trade<D: Disk, L: Link>(
    alloc: Global,
    journal: &mut Journal<D>,
    consumer: &mut Consumer,
    start: &Start,
    server: &mut L,
    seller: &mut L,
    sides: &mut Sides,
) -> Result<TradeEnd, Lost>
    requires rest { IsAtRest D.tells journal.old }
    requires room { journal.old.room ≡ MAX_ITEM }
    requires start { StartKeepsRules start.now }
    requires begun { AreBegun sides.old }
    ensures { Trades D.tells start.now (point journal.old consumer.old (lines_of (L.seen server.old) (L.seen seller.old) sides.old)) (point journal.new consumer.new (lines_of (L.seen server.new) (L.seen seller.new) sides.new)) result }
{
    let mut next = match start_or_resume(alloc, journal, consumer, start, server, seller, sides) {
        Ok(Some(next)) => next,
        Ok(None) => return Ok(TradeEnd::Finished(None)),
        Err(why) => return Err(why),
    };
    let mut asked = false;
    let mut piece = [0u8; MAX_PIECE];
    'trading: loop {
        let peer = match next {
            Next::Over(peer, why) => {
                let stands = standing_of(consumer, start);
                if !may_ask(asked, peer, stands) {
                    return Ok(TradeEnd::Stopped(peer, why));
                }
                asked = true;
                match go_on(alloc, journal, consumer, start, server, seller, sides, peer) {
                    Ok(behind) => next = behind,
                    Err(why) => return Err(why),
                }
                continue 'trading;
            }
            Next::Awaits(peer) => peer,
        };
        if sides.read >= MOST_FRAMES {
            return Ok(TradeEnd::Spent);
        }
        match listen(
            alloc, journal, consumer, server, seller, sides, &mut piece, peer,
        ) {
            Ok(listened) => {
                let Listened { next: then, opened } = listened;
                let behind = standing_of(consumer, start);
                if is_over(behind) {
                    return Ok(TradeEnd::Finished(opened));
                }
                drop(opened);
                next = then;
            }
            Err(why) => return Err(why),
        }
    }
}

// Starts a purchase that is not known, and resumes one that is going on: its last message is sent again, or its order asked for. Where it is over nothing is done.
fn start_or_resume<D: Disk, L: Link>(
    alloc: Global,
    journal: &mut Journal<D>,
    consumer: &mut Consumer,
    start: &Start,
    server: &mut L,
    seller: &mut L,
    sides: &mut Sides,
) -> Result<Option<Next>, Lost>
    requires rest { IsAtRest D.tells journal.old }
    requires room { journal.old.room ≡ MAX_ITEM }
    requires start { StartKeepsRules start.now }
    requires begun { AreBegun sides.old }
    ensures resumes { StartsOrResumes D.tells start.now (point journal.old consumer.old (lines_of (L.seen server.old) (L.seen seller.old) sides.old)) (point journal.new consumer.new (lines_of (L.seen server.new) (L.seen seller.new) sides.new)) result }
    ensures readers { SameReaders sides.old sides.new }
{
    match standing_of(consumer, start) {
        Standing::Unknown => {
            match begin(alloc, journal, consumer, start, server, seller, sides) {
                Ok(next) => Ok(Some(next)),
                Err(why) => Err(why),
            }
        }
        Standing::Going { .. } => {
            match go_on(
                alloc,
                journal,
                consumer,
                start,
                server,
                seller,
                sides,
                Peer::House,
            ) {
                Ok(next) => Ok(Some(next)),
                Err(why) => Err(why),
            }
        }
        Standing::Ended => Ok(None),
    }
}
