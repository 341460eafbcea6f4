//! The law of the house and its parties. Each function here does nothing but to cite laws of the crates below: its contract is the law.

ghost use Rattle.nb_headline.specs.Headline as law;
ghost use Rattle.nb_headline.specs.Served as served;
ghost use Rattle.nb_headline.specs.Standby as standby;

use nb_port::Disk;

/// Each turn that a pass takes at a desk is a turn of such a form as a run of a real house is made of, whoever took the ones before it. No law joins all turns of
/// one server into one run.
pub fn desk_turns_are_of_house<D: Disk>()
    ensures { served.DeskTurnsAreOfHouse D.tells }
{}

/// The six sentences, of every run of a real house and every world of real parties that is tied to it, behind every list of events. Premised are
/// the contracts of the disk and the tie: a first vault that keeps what every vault keeps, with nothing in doubt, which made the turns; a set-up of Legal entries, with no packet, call or turn; and
/// events from it that lead the world to that vault's entries and have a packet made for each request. Nothing is premised of the network, of injectors and of keys.
pub fn headline<D: Disk>()
    ensures { law.HeadlineLaw D.tells }
{
    nb_book::laws::stays_legal();
    nb_escrow::laws::records_legal();
    nb_escrow::laws::status_tells_key();
    nb_escrow::laws::status_tells_the_order();
}

/// What `ship` writes of a primary's list from a place on are the frames of a world that has shipped those entries, in which laws of `nb_standby` speak of their standby.
pub fn ships_are_shipped()
    ensures { standby.ShipsAreShipped }
{}

/// A standby whose list began as a front of its primary's within the cap, which has 64 bits, with nothing in doubt and what was shipped the primary's, tells code 2 of
/// none of the records that were shipped when its run began.
pub fn other_is_never_told()
    ensures { standby.OtherIsNeverTold }
{}

/// Where a standby stopped at some moment since an acknowledgement, and what was left is promoted with status 0, that tells of at least as many entries as were acknowledged, and a
/// record that was told as taken in, or to stand, is one of them.
pub fn promoted_has_told<D: Disk>()
    ensures { standby.PromotedHasTold D.tells }
{}
