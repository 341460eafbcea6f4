//! What holds of every merchant. Each function here does nothing: its contract is the law.

ghost use Rattle.nb_merchant.specs.Laws as law;

/// A law: a restart over what a merchant kept gives that merchant.
pub fn restart_gives_back()
    ensures { law.RestartGivesBack }
{}

/// A law: from a merchant whose items may stand as they do, each within its limits, behind every list of messages and quiet times, in whatever order they
/// came, with restarts between them, what was kept may stand as it does, so that a restart over it gives the merchant, and the stall is the same.
pub fn runs_are_kept()
    ensures { law.RunsAreKept }
{}

/// A law: where each kept item may stand where it does, whatever the widths of its fields and of what is heard, so may the item that is kept at a message
/// or a quiet time, and what is sent then is as it was kept, as the calls of a [`Merchant`](crate::Merchant) say of it.
pub fn sent_follows()
    ensures { law.SentFollows }
{}

/// A law: the goods that a merchant sealed have the serial numbers 1, 2 and so on, each once, and identifiers of that merchant.
pub fn serials_follow()
    ensures { law.SerialsFollow }
{}

/// A law: behind every such list all that was kept before it is still kept, and goods that were sealed in it have higher serial numbers than all before:
/// none comes again, also where the merchant started again.
pub fn no_serial_again()
    ensures { law.NoSerialAgain }
{}

/// A law: a result that is passed on, behind every such list, is, unchanged, the consumer's part of a message of the house in it or just then, or was kept for
/// the same purchase before it: of a merchant that began with nothing, always the first.
pub fn passed_is_heard()
    ensures { law.PassedIsHeard }
{}

/// A law: no two sales of which a merchant sealed the goods have one identifier.
pub fn identifiers_differ()
    ensures { law.IdentifiersDiffer }
{}

/// A law: a restart that gives a merchant gives the one that kept exactly the items that the bytes spell, in their order.
pub fn restart_keeps_items()
    ensures { law.RestartKeepsItems }
{}

/// A law: [`state`](crate::Merchant::state) tells of a purchase what its last kept item says, and nothing of one without an item.
pub fn last_item_tells()
    ensures { law.LastItemTells }
{}

/// A law: a restart takes up the same items with another catalogue that has each product that was quoted, with the same goods where they were sealed,
/// at whatever prices, and with whatever further products.
pub fn shelves_may_change()
    ensures { law.ShelvesMayChange }
{}

/// A law: with a catalogue that lost a product, and serves each purchase of the items before, a restart tells the first item in which it was quoted.
pub fn lost_product_is_bad()
    ensures { law.LostProductIsBad }
{}

/// A law: with a catalogue that has other goods of a product, and served each purchase before, a restart tells the first item for which they were
/// sealed; or the goods, as they are sealed, are a collision.
pub fn other_goods_are_bad()
    ensures { law.OtherGoodsAreBad }
{}

/// A law: the price that is told first is that of the catalogue; with offers it is what is quoted for them, for the ticket's consumer, what it asks and the
/// moment.
pub fn first_price_is_told()
    ensures { law.FirstPriceIsTold }
{}

/// A law: the price that is told first depends on nothing else: two merchants, whoever they are and whatever they kept, that do not know the purchase, quote a
/// product alike where what they sell, what they offer, the moment, the consumer and its request agree.
pub fn quoted_alike()
    ensures { law.QuotedAlike }
{}

/// A law: who is told less than the catalogue's price sent a credential of its own, sealed under the keeper's key, which holds at the moment.
pub fn cheaper_is_carried()
    ensures { law.CheaperIsCarried }
{}

/// A law: what is done at a consumer's message is done for the one that [`asker`](crate::Merchant::asker) names: what is kept is of that consumer, and
/// what is sent is for it, or for the house. Where it names nobody the message is ignored.
pub fn asker_is_served()
    ensures { law.AskerIsServed }
{}
