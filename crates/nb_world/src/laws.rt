//! What holds of every list of events, whatever nodes do; some laws ask of the verdict that it records only what may come next. Each function here does nothing but to cite
//! laws of the book and of the verdict: its contract is the law. `C` and `M` are what consumers and merchants are.

ghost use Rattle.nb_world.specs.Headline as headline;
ghost use Rattle.nb_world.specs.Laws as law;
ghost use Rattle.nb_world.specs.Nodes as nodes;
ghost use Rattle.nb_world.specs.Ties as ties;
ghost use Rattle.nb_world.specs.Worked as worked;

/// An event leads to a world exactly where it fits: in words of what stands in the world, a row for each event.
pub fn fits_exactly_where<C, M>()
    ensures { law.FitsExactlyWhere C M }
{}

/// An event that does not fit changes nothing.
pub fn unfit_changes_nothing<C, M>()
    ensures { law.UnfitChangesNothing C M }
{}

/// Over every list of events from a set-up, injections among them: the durable entries are Legal and those that the house works
/// on; each entry behind the set-up's is what the verdict over those before it records for the call that it came by; each acknowledged
/// entry stands at its place; and each packet that the house made is the verdict's reply over the first durable entries, as many as its place
/// says, for the node that asked. Premise: the verdict records only what may come next.
pub fn world_law<C, M>()
    ensures { law.WorldLaw C M }
{
    nb_book::laws::stays_legal();
}

/// Nothing is lost along a run, from whatever world: the durable entries, the packets and what was acknowledged are the first of the later ones.
pub fn only_grows<C, M>()
    ensures { law.OnlyGrows C M }
{}

/// Events and then more of them are the events of one list.
pub fn run_then<C, M>()
    ensures { law.RunThen C M }
{}

/// Each entry behind those of the set-up has one call that it came by, in their order.
pub fn entries_have_origins<C, M>()
    ensures { law.EntriesHaveOrigins C M }
{}

/// In each world of a run from one without a call and a turn, a call has the phase of the turn exactly where the turn is its: at most one call has the turn.
pub fn turn_is_of_one_call<C, M>()
    ensures { law.TurnIsOfOneCall C M }
{}

/// A turn is of a call that has its phase, and its verdict is that on what the call asks over the first durable entries, as many as its
/// place says; before it is opened these are all of them, and one that is written has an entry. Premise: the verdict records only what may come next.
pub fn turn_is_of_its_call<C, M>()
    ensures { law.TurnIsOfItsCall C M }
{
    nb_book::laws::stays_legal();
}

/// In each run from a world without packets and without a turn, whose house works on the durable entries, the reply to a call that was delivered behind some
/// events was read over at least the entries that were durable by then.
pub fn replies_read_all<C, M>()
    ensures { law.RepliesReadAll C M }
{}

/// What the events of a consumer do: it becomes what its step says and sends that in its own name, and all else is as before.
pub fn consumer_steps<C, M>()
    ensures { nodes.ConsumerSteps C M }
{}

/// What the events of a merchant do: it becomes what its step says and sends that in its own name, and all else is as before.
pub fn merchant_steps<C, M>()
    ensures { nodes.MerchantSteps C M }
{}

/// A packet for a node whose body is not spelled as those of its kind are changes nothing.
pub fn unread_changes_nothing<C, M>()
    ensures { law.UnreadChangesNothing C M }
{}

/// A packet that a node ignores changes nothing, and neither does a node that ignores that it heard nothing for long.
pub fn ignored_changes_nothing<C, M>()
    ensures { law.IgnoredChangesNothing C M }
{}

/// A stop leaves the commit list, or the durable entries alone; the house is free and works on these; each call that was not answered is gone.
pub fn stop_leaves<C, M>()
    ensures { law.StopLeaves C M }
{}

/// What a stop leaves is a prefix of the commit list before it.
pub fn stop_keeps_prefix<C, M>()
    ensures { law.StopKeepsPrefix C M }
{}

/// No event but an opening and a stop changes the durable entries.
pub fn others_add_nothing<C, M>()
    ensures { law.OthersAddNothing C M }
{}

/// An answer acknowledges the entry of its turn, if there is one, at the place of its verdict, and nothing else.
pub fn answer_acknowledges<C, M>()
    ensures { law.AnswerAcknowledges C M }
{}

/// An answer puts one packet more on the network, the reply of its turn, where a node made the packet of the call; where the house or the
/// network made it, none.
pub fn answer_replies<C, M>()
    ensures { law.AnswerReplies C M }
{}

/// No event but an answer acknowledges anything.
pub fn others_acknowledge_nothing<C, M>()
    ensures { law.OthersAcknowledgeNothing C M }
{}

/// An order moves its price at most once along every run from a set-up: at most one durable entry settles it, and stays the one that does. Premise: the verdict
/// records only what may come next.
pub fn order_moves_once<C, M>()
    ensures { headline.OrderMovesOnce C M }
{
    nb_book::laws::stays_legal();
}

/// No money is made or lost along any run from a set-up, where the verdict records only what may come next: the balances and the fees sum to the total of the funds, and no account is overdrawn; also with an
/// entry that is written and not opened.
pub fn money_is_conserved<C, M>()
    ensures { headline.MoneyIsConserved C M }
{
    nb_book::laws::stays_legal();
}

/// Where a verdict records only what may come next and what a journal of some version and rate may have, and the set-up has such entries alone, the
/// durable entries are Legal under that version and that rate behind every list of events; also with an entry that is written and not opened.
pub fn rate_is_kept<C, M>()
    ensures { headline.RateIsKept C M }
{
    nb_book::laws::stays_legal();
}

/// The house records only what may come next: where the verdict is the house's, under a head under which a house may decide, and in whatever form its
/// replies are shown.
pub fn house_records_legal<C, M>()
    ensures { headline.HouseRecordsLegal C M }
{
    nb_escrow::laws::records_legal();
}

/// And it records only what a journal of the head's version and rate may have.
pub fn house_records_of_rate<C, M>()
    ensures { headline.HouseRecordsOfRate C M }
{
    nb_escrow::laws::records_legal();
}

/// Each packet that the house made of a status query shows the decision over the durable entries that it tells the number of: to an authentic query
/// that asks for no more entries than these, the decision's reply gives the key exactly where one of them pays the order and names who asks. So it
/// is where the verdict is the house's, under a head under which a house may decide, and in whatever form its decisions are shown.
pub fn key_where_it_stands<C, M>()
    ensures { headline.KeyWhereItStands C M }
{
    nb_book::laws::stays_legal();
    nb_escrow::laws::records_legal();
    nb_escrow::laws::status_tells_key();
    nb_escrow::laws::status_tells_the_order();
}

/// Where an order is found, the receipt that its entry tells the consumer, or the merchant, is that of the order's settlement.
pub fn receipts_of_settlements()
    ensures { headline.ReceiptsOfSettlements }
{}

/// Each run of turns, from entries with nothing in doubt, of a house on a disk, whose verdicts are those of a world, is a list of events of each world that has its
/// entries, a free house and packets of its requests: request by request, and before the requests of a turn those that gave what was
/// in doubt, with a stop that keeps each, or with one that drops the first. Both lists are then the entries of the run's last state, and
/// the answers hand out the replies of the requests that have a place, in order.
pub fn run_is_events<C, M>()
    ensures { ties.RunIsEvents C M }
{}

/// In numbers, of a small world: a consumer sends a request, the house answers, and the consumer hears the reply.
pub fn heard_once()
    ensures { worked.HeardOnce }
{}

/// The house stops behind the writing, and the entry is left; the request comes again and is told what is held.
pub fn left_and_told()
    ensures { worked.LeftAndTold }
{}

/// An injected request is recorded, and no packet is made of its reply.
pub fn injected_is_recorded()
    ensures { worked.InjectedIsRecorded }
{}

/// Nodes hear what is for them and spelled as it should be, at the clock's moment; one that waited sends again where it knows the purchase;
/// behind its restart a merchant is what `merchant_again` says.
pub fn nodes_hear()
    ensures { worked.NodesHear }
{}

/// Of two consumers the second hears a packet and starts again; a merchant sends, is answered, and hears the reply.
pub fn each_node_its_own()
    ensures { worked.EachNodeItsOwn }
{}

/// Two entries in doubt are kept by two stops that leave each, and dropped by one that does not leave the first.
pub fn doubt_of_two()
    ensures { worked.DoubtOfTwo }
{}
