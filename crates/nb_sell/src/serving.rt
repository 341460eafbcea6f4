ghost use Rattle.std.specs.Prelude.{◌≡◌, ◌≤◌, true, false, Some, length, IfOk};
ghost use Rattle.nb_journal.specs.Growing.{IsAtRest};
ghost use Rattle.nb_journal.specs.declared.limits.TheConstants.{MAX_ITEM};
ghost use Rattle.nb_sell.specs.declared.peer.Peer.TheVariants.{Consumer};
ghost use Rattle.nb_frame.specs.declared.stream.TheConstants.{MAX_PIECE};
ghost use Rattle.nb_sell.specs.declared.ended.TheConstants.{MOST_FRAMES};
ghost use Rattle.nb_sell.specs.Steps.{AreBegun, FewMore, IsNear, IsNearAt, IsNext, Listens, Serves, at, done_awaits, end_awaits, lines_of};

use crate::ended::MOST_FRAMES;
use crate::hearing::{be_told, hear};
use crate::peer::{Next, Over, Peer};
use crate::sides::Sides;
use nb_frame::MAX_PIECE;
use nb_journal::Journal;
use nb_link::Link;
use nb_merchant::Merchant;
use nb_port::{Clock, Disk};
use nb_trade::Lost;
use std::alloc::Global;

// Hears frame by frame of the consumer's link, and of the house's where a message was sent to it, and does what the merchant does at each, up to where nothing
// more is done.
pub fn serve<D: Disk, L: Link, M: Link, C: Clock>(
    alloc: Global,
    journal: &mut Journal<D>,
    merchant: &mut Merchant,
    link: &mut L,
    server: &mut M,
    clock: &mut C,
    sides: &mut Sides,
) -> Result<Over, Lost>
    requires rest { IsAtRest D.tells journal.old }
    requires room { journal.old.room ≡ MAX_ITEM }
    requires begun { AreBegun sides.old }
    ensures { Serves D.tells (at journal.old merchant.old (lines_of (M.seen server.old) (L.seen link.old) sides.old) (C.moments clock.old) sides.old.last (Some Consumer)) (at journal.new merchant.new (lines_of (M.seen server.new) (L.seen link.new) sides.new) (C.moments clock.new) sides.new.last (end_awaits result)) result }
{
    let mut next = Next::Awaits(Peer::Consumer);
    let mut piece = [0u8; MAX_PIECE];
    'serving: loop {
        let from = match next {
            Next::Over(why) => return Ok(why),
            Next::Awaits(from) => from,
        };
        if is_spent(from, sides.read) {
            return Ok(Over::Spent);
        }
        match listen(
            alloc, journal, merchant, link, server, clock, sides, &mut piece, from,
        ) {
            Ok(behind) => next = behind,
            Err(why) => return Err(why),
        }
    }
}

// Whether as many frames were read of the consumer's link as are read, and the next would be one.
fn is_spent(from: Peer, read: u32) -> bool
    ensures spent { result ≡ true → (from ≡ Consumer) × (MOST_FRAMES ≤ read) }
    ensures few { result ≡ false → read ≤ MOST_FRAMES → FewMore from read }
{
    match from {
        Peer::House => false,
        Peer::Consumer => read >= MOST_FRAMES,
    }
}

// Hears the next frame of a peer, and does what the merchant does at it.
fn listen<D: Disk, L: Link, M: Link, C: Clock>(
    alloc: Global,
    journal: &mut Journal<D>,
    merchant: &mut Merchant,
    link: &mut L,
    server: &mut M,
    clock: &mut C,
    sides: &mut Sides,
    piece: &mut [u8],
    from: Peer,
) -> Result<Next, Lost>
    requires rest { IsAtRest D.tells journal.old }
    requires room { journal.old.room ≡ MAX_ITEM }
    requires piece { length piece.old ≡ MAX_PIECE }
    requires near { IsNear from sides.old }
    requires few { FewMore from sides.old.read }
    ensures listens { Listens D.tells (at journal.old merchant.old (lines_of (M.seen server.old) (L.seen link.old) sides.old) (C.moments clock.old) sides.old.last (Some from)) (at journal.new merchant.new (lines_of (M.seen server.new) (L.seen link.new) sides.new) (C.moments clock.new) sides.new.last (done_awaits result)) from sides.old.read sides.new.read result }
    ensures near { IfOk result (λ next. IsNearAt next sides.new) }
    ensures turn { IfOk result (IsNext from) }
{
    match from {
        Peer::House => be_told(
            alloc, journal, merchant, link, server, &*clock, sides, piece,
        ),
        Peer::Consumer => hear(alloc, journal, merchant, link, server, clock, sides, piece),
    }
}
