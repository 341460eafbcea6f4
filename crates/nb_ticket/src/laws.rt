//! What holds of every request, ticket and grant. Each function here does nothing: its contract is the law.

ghost use Rattle.nb_ticket.specs.Laws as law;

/// A law: what was spelled of a request is read as that request.
pub fn ask_reads_back()
    ensures { law.AskReadsBack }
{}

/// A law: what was read as a request is spelled as those bytes, and is within its limits.
pub fn ask_spells_back()
    ensures { law.AskSpellsBack }
{}

/// A law: what was spelled of a ticket is read as that ticket.
pub fn ticket_reads_back()
    ensures { law.TicketReadsBack }
{}

/// A law: what was read as a ticket is spelled as those bytes, and is within its limits.
pub fn ticket_spells_back()
    ensures { law.TicketSpellsBack }
{}

/// A law: what was spelled of a grant is read as that grant.
pub fn granted_reads_back()
    ensures { law.GrantedReadsBack }
{}

/// A law: what was read as a grant is spelled as those bytes, and is within its limits.
pub fn granted_spells_back()
    ensures { law.GrantedSpellsBack }
{}

/// A law: two requests, two tickets, two grants with one spelling are one.
pub fn one_spelling()
    ensures asks { law.OneAsk }
    ensures tickets { law.OneTicket }
    ensures grants { law.OneGranted }
{}

/// A law: a ticket holds for its merchant up to its last second, and for nobody else and no later.
pub fn holds_until()
    ensures { law.HoldsUntil }
{}

/// A law: what the house grants is opened under the consumer's key, and the ticket in it under the merchant's, to the same merchant, last
/// second and session key; and the ticket holds up to its last second, for its merchant alone.
pub fn grant_carries_ticket()
    ensures { law.GrantCarriesTicket }
{}

/// A law: the limits in numbers, and the labels in texts.
pub fn limits()
    ensures limits { law.TicketLimitsAre }
    ensures labels { law.LabelsAre }
{}
