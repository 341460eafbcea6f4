//! What holds of every credential, of every list of offers and of every quote. Each function here does nothing: its contract is the law.

ghost use Rattle.nb_groups.specs.Laws as law;
ghost use Rattle.nb_groups.specs.Offers.{AreApart};

use crate::offers::Offers;

/// A law: what was spelled of a credential's text is read as what it says.
pub fn membership_reads_back()
    ensures { law.MembershipReadsBack }
{}

/// A law: what was read of a credential's text is spelled as those bytes, and is within its limits.
pub fn membership_spells_back()
    ensures { law.MembershipSpellsBack }
{}

/// A law: two memberships with one spelling are one.
pub fn one_membership()
    ensures { law.OneMembership }
{}

/// A law: a credential is opened under its keeper's key as what it says.
pub fn credential_opens()
    ensures { law.CredentialOpens }
{}

/// A law: bytes are opened under a key exactly where they are a credential that is sealed under it.
pub fn opened_exactly()
    ensures { law.OpenedExactly }
{}

/// A law: what a credential says is admitted for its consumer up to its last second, and for nobody else and no later.
pub fn holds_until()
    ensures { law.HoldsUntil }
{}

/// A law: two lists of groups with one word are one.
pub fn one_naming()
    ensures { law.OneNaming }
{}

/// A law: what stands at the front of bytes is one offer's line and one rest.
pub fn one_offer()
    ensures { law.OneOffer }
{}

/// A law: bytes are read as one list of offers, or to one first fault, wherever there is memory.
pub fn one_reading()
    ensures { law.OneReading }
{}

/// A law: bytes are read up to an empty line as one list of offers and one rest, or to one first fault, wherever there is memory.
pub fn one_front()
    ensures { law.OneFront }
{}

/// A law: no two of a merchant's offers are for one product and one group.
pub fn offers_apart(offers: &Offers)
    ensures { AreApart offers.now.offers }
{
    offers.apart()
}

/// A law: what is quoted without a denial, from offers of which no two are for one product and group, is the least of the shelf's price and of those
/// that are offered for the groups of the credential that the request is, and the group that is told is the smallest that has it.
pub fn quote_is_least()
    ensures { law.QuoteIsLeast }
{}

/// A law: what is quoted with a denial is the shelf's price, of no group.
pub fn denied_is_shelf()
    ensures { law.DeniedIsShelf }
{}

/// A law: of a credential that holds it is told that there is no offer exactly where none is for the product and one of its groups.
pub fn no_offer_exactly()
    ensures { law.NoOfferExactly }
{}

/// A law: the limits in numbers, and the words in texts.
pub fn limits()
    ensures limits { law.GroupLimitsAre }
    ensures words { law.WordsAre }
{}
