//! What holds of every endorsement and every receipt. Each function here does nothing: its contract is the law.

ghost use Rattle.nb_endorse.specs.Laws as law;

/// A law: what was spelled of an endorsement is read as that endorsement.
pub fn endorsement_reads_back()
    ensures { law.EndorsementReadsBack }
{}

/// A law: what was read as an endorsement is spelled as those bytes, and is within its limits.
pub fn endorsement_spells_back()
    ensures { law.EndorsementSpellsBack }
{}

/// A law: two endorsements with one spelling are one.
pub fn one_endorsement()
    ensures { law.OneEndorsement }
{}

/// A law: what was spelled of a receipt and its tag is read as these.
pub fn receipt_reads_back()
    ensures { law.ReceiptReadsBack }
{}

/// A law: what was read as a receipt and its tag is spelled as those bytes, and is within its limits.
pub fn receipt_spells_back()
    ensures { law.ReceiptSpellsBack }
{}

/// A law: two receipts with one spelling are one.
pub fn one_receipt()
    ensures { law.OneReceipt }
{}

/// A law: a receipt and its tag have 32 bytes less than their seal.
pub fn receipt_is_as_long()
    ensures { law.ReceiptIsAsLong }
{}

/// A law: the limits and the labels in numbers and texts, and the codes of receipts.
pub fn limits()
    ensures limits { law.EndorsementLimitsAre }
    ensures codes { law.CodesOfReceiptsAre }
{}
