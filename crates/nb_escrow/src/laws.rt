//! What holds of every verdict. Each function here does nothing: its contract is the law.

ghost use Rattle.nb_escrow.specs.Laws as law;
ghost use Rattle.nb_escrow.specs.Replies as replies;

/// A request whose entry was recorded is given the same reply under the same keys when it comes
/// again, at any moment and whatever was recorded since, and no second entry is made of it. What it is told of a balance is
/// the balance by then.
pub fn told_again()
    ensures { law.ToldAgain }
{}

/// The result of an order stays: whenever its request comes again, and whatever was recorded behind, the reply is the same under
/// the same keys, and nothing is recorded. So are its bytes, which are a function of the two.
pub fn result_stays()
    ensures { law.ResultStays }
{}

/// The result of an order that was settled before is told alike under each head of a house, whatever their versions and rates.
pub fn repeat_is_same()
    ensures { law.RepeatIsSame }
{}

/// To an authentic status query, over a Legal list of at least as many entries as it asks for, the reply gives a key exactly
/// where an entry pays the order with that key and names who asks.
pub fn status_tells_key()
    ensures { law.StatusTellsKey }
{}

/// What a verdict records may come after the entries that it was taken over in a journal of the head's version and rate, and there is room for it,
/// where a house may decide under the head: version 1 or 2, a rate of at most 1,000. The entries may be any list.
pub fn records_legal()
    ensures { law.RecordsLegal }
{}

/// A payment is recorded exactly where the request is an endorsed order whose parties are enrolled in their roles, whose seals
/// open to what is spelled as it should be, whose merchant endorses it, whose tag is right, whose identifier is new, for which
/// there is room, which shows the accounts and the nonce that are enrolled, and whose price, moments and balance are in range.
pub fn paid_exactly_where()
    ensures { law.PaidExactlyWhere }
{}

/// Both parties of a payable order are told that it is paid, with the key of the endorsement.
pub fn payable_is_told()
    ensures { law.PayableIsTold }
{}

/// An order is recorded, as paid or as refused, exactly where it is authentic, its identifier is new, and there is room.
pub fn settled_exactly_where()
    ensures { law.SettledExactlyWhere }
{}

/// What an order is refused for is true of the entries and of the order, and is what its receipts tell.
pub fn refused_for_true_reason()
    ensures { law.RefusedForTrueReason }
{}

/// An order is told its result, and nothing recorded, exactly where it is authentic and was settled with its digest before.
pub fn told_exactly_where()
    ensures { law.ToldExactlyWhere }
{}

/// Over every Legal list an enrolment is recorded exactly where it has the operator's tag, may come next, and there is room for it.
pub fn enrolled_exactly_where()
    ensures { law.EnrolledExactlyWhere }
{}

/// Over every Legal list a fund is recorded exactly where it has the operator's tag, may come next, and there is room for it.
pub fn funded_exactly_where()
    ensures { law.FundedExactlyWhere }
{}

/// A status is told exactly where the query is authentic and as many entries are held as it asks for.
pub fn answered_exactly_where()
    ensures { law.AnsweredExactlyWhere }
{}

/// A ticket is granted exactly where the request is authentic and the party that it is for is enrolled as a merchant.
pub fn granted_exactly_where()
    ensures { law.GrantedExactlyWhere }
{}

/// Over every Legal list what each refusal claims is true of the entries and of the request, and so are the numbers and the bytes that it shows.
pub fn refusals_are_true()
    ensures { law.RefusalsAreTrue }
{}

/// The keys of a reply are those of its parties. The receipts of an order have the house's own key, and then the merchant's and
/// the consumer's, as enrolled; a status has the house's, and then that of who asks; a grant has the house's, which made the session key,
/// and then the consumer's and the merchant's; any other reply has none.
pub fn keys_are_the_parties()
    ensures { replies.KeysAreTheParties }
{}

/// The receipts of an order are those of the entry that settles its identifier and has its digest, among the entries held and the
/// one recorded now. Where one is recorded now, both name the order: its consumer, merchant, product, price and identifier, with the
/// number of the entries held as its place, and the moment.
pub fn receipts_name_the_order()
    ensures { replies.ReceiptsNameTheOrder }
{}

/// A done reply is given only to an enrolment or a fund that has the operator's tag, for its account. The place told is one at which
/// the entry asked for stands, among the entries held and the one recorded now, and the balance that of the account over these. An
/// entry that is recorded now is the one asked for, and the place told is its own.
pub fn done_tells_the_entry()
    ensures { replies.DoneTellsTheEntry }
{}

/// A status tells the number of entries and the identifier asked for, and has a receipt exactly where an entry settles that identifier
/// and names who asks: the receipt of that party.
pub fn status_tells_the_order()
    ensures { replies.StatusTellsTheOrder }
{}

/// A grant names the two parties and the number of the request. Its last second is 3600 behind the moment, or the last that there is, and its
/// session key is made of the house's key, the two parties, that number and the moment. Nothing is recorded.
pub fn grant_tells_the_request()
    ensures { replies.GrantTellsTheRequest }
{}

/// What a grant is sealed as is opened under the key of the consumer that it names, and the ticket in it under that of the merchant, to the
/// same parties, last second and session key. The ticket is opened for its merchant at every moment up to its last second, and for nobody
/// else and at no later one.
pub fn grant_opens_for_both()
    ensures { replies.GrantOpensForBoth }
{}

/// A kind that is none of the five that are served is refused, shown, and records nothing.
pub fn other_kinds_are_refused()
    ensures { replies.OtherKindsAreRefused }
{}

/// A law: the roles and the greatest amount of a request are those of the book, and the most bytes of a sealed endorsement in one those of
/// an endorsement.
pub fn request_limits()
    ensures { law.RequestLimitsAre }
{}
