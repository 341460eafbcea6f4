//! What holds of every world that is made of a lawful set-up. Each function here does nothing but to cite laws of the crates below: its contract is the
//! law. Each speaks of the world `behind` a set-up and a list of events; that a [`World`](crate::World) is that one, for its set-up and the events that it was taken on
//! by, is what [`World::new`](crate::World::new) and [`World::step`](crate::World::step) say by their clauses `behind` and `run`.

ghost use Rattle.nb_simulator.specs.Laws as law;

/// The world of a lawful set-up is as the laws of `nb_parties` premise. That merchants' numbers have their widths, which
/// [`World::try_new`](crate::World::try_new) tells of each set-up that it makes a world of, is a premise here.
pub fn set_ups_meet()
    ensures { law.SetUpsMeet }
{}

/// Behind every list of events the entries are Legal, and each behind the set-up's is what the verdict over those before it records for the call that it
/// came by; each acknowledged entry stands at its place; and each packet of the house is the verdict's reply over the first entries.
pub fn worlds_are_lawful()
    ensures { law.WorldsAreLawful }
{
    nb_book::laws::stays_legal();
    nb_escrow::laws::records_legal();
}

/// The version, the rate and the cap of a set-up hold behind every list of events: the durable entries are Legal under that version and that rate, and at most
/// as many as the cap; also with an entry that is written and not opened.
pub fn terms_are_kept()
    ensures { law.TermsAreKept }
{
    nb_book::laws::stays_legal();
    nb_escrow::laws::records_legal();
}

/// Nothing is lost from a world to a later one: the durable entries, the packets and what was acknowledged are the first of the later ones, and the calls are
/// there, with their packets and moments. Of the set-up nothing is premised.
pub fn worlds_only_grow()
    ensures { law.WorldsOnlyGrow }
{}

/// What a stop leaves of the entries is a prefix of the commit list before it.
pub fn stops_keep_prefix()
    ensures { law.StopsKeepPrefix }
{}

/// The key of each payment behind the set-up's entries, where a merchant's step made the request, opens what any consumer held of that order to the goods of
/// the product; or that is a collision. Premise: the numbers of the merchants have their widths.
pub fn payments_open_goods()
    ensures { law.PaymentsOpenGoods }
{
    nb_book::laws::stays_legal();
    nb_escrow::laws::records_legal();
}

/// A purchase that ended by a receipt which the house made for its consumer is, then and behind every later event, what the durable entry of its order
/// says.
pub fn purchases_end_as_entries_say()
    ensures { law.PurchasesEndAsEntriesSay }
{
    nb_book::laws::stays_legal();
    nb_escrow::laws::records_legal();
}

/// A purchase that ended as a payment among the durable entries says, whose order a merchant endorsed with the key of that payment, is paid with the goods of
/// the product, or what its consumer holds is a collision with them as they were sealed: it is not foul. Of the set-up nothing is premised.
pub fn paid_holds_goods()
    ensures { law.PaidHoldsGoods }
{}
