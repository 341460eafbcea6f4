//! What a buyer and a seller can rely on, whatever the network does. Each function here does nothing but to cite laws of the crates below: its
//! contract is the law.

ghost use Rattle.nb_parties.specs.Ends as ends;
ghost use Rattle.nb_parties.specs.Goods as goods;
ghost use Rattle.nb_parties.specs.Held as held;
ghost use Rattle.nb_parties.specs.Judged as judged;
ghost use Rattle.nb_parties.specs.Worked as worked;

/// A purchase that ended by a receipt which the house made for its consumer is, then and behind every later event, what the durable entry of its
/// order says: paid with the goods that the entry's key opens, foul where that key opens nothing, or refused with the entry's code; and the receipt
/// is what is read of the bytes that the entry gives. Premised of merchants, of the network and of keys is nothing. `M` is what merchants are.
pub fn purchases_end_as_entries_say<M>()
    ensures ends { ends.EndsLaw M }
    ensures real { ends.RealIsOne }
{
    nb_book::laws::stays_legal();
    nb_escrow::laws::records_legal();
}

/// Where a merchant endorses an order, bytes with the order's checksum open under the endorsement's key to the goods of the product, or are a
/// collision. Premise: what the merchant kept may stand as it does.
pub fn endorsed_goods_open()
    ensures { goods.EndorsedGoodsOpen }
{}

/// Each payment in the house's list has the call that it came by. Where a merchant made the packet of that call, it is an endorsement of that
/// merchant's, the key of the payment is the endorsement's, and what any consumer held when it kept the order with those bytes opens under it to the
/// goods of the product, or is a collision. So it is of each payment behind the entries of a set-up, and of each one where the set-up has enrolments
/// and funds alone. Premise: the set-up's merchants are enrolled, their numbers have their widths, and what they kept may stand as it does.
pub fn payments_open_goods()
    ensures behind { goods.GoodsLaw }
    ensures each { goods.GoodsOfEachPayment }
{
    nb_book::laws::stays_legal();
    nb_escrow::laws::records_legal();
}

/// A purchase that ended as a payment in the house's list says, whose order a merchant endorsed with the key of that payment, is paid with the goods
/// of the product, or what its consumer holds is a collision with them as they were sealed: it is not foul. Premise: each consumer of the set-up knew nothing, or started
/// again with what it kept.
pub fn paid_holds_goods()
    ensures { held.BuyersHoldGoods }
{}

/// A purchase in numbers, from its start to its end, meets what these laws premise, and is paid. Keys are what they are: nothing that is sealed is
/// opened here but by whom it is for.
pub fn premises_are_met()
    ensures { worked.PremisesAreMet }
{
    nb_book::laws::stays_legal();
}

/// The evidence of an order for which an entry is recorded now, with the receipt that its consumer is given, under the keys of the reply, is ruled on as that
/// entry says: never by one of the first three rulings, and as not paid, with the entry's code, exactly where the order was refused. The keys are those of the
/// house and of the order's consumer. Premise: the receipt's fields have their widths.
pub fn orders_are_judged()
    ensures { judged.OrdersAreJudged }
{}

/// Evidence with the checksum of an order that a merchant endorsed, and goods that have it, is ruled on by the endorsement's key as goods that it opens, with the length of
/// the product's goods; or the goods are a collision with those as they were sealed. Premise: what the merchant kept may stand as it does.
pub fn endorsed_goods_are_judged()
    ensures { judged.EndorsedGoodsAreJudged }
{}
