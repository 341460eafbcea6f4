//! What holds of every case. Each function here does nothing: its contract is the law.

ghost use Rattle.nb_judge.specs.Laws as law;

/// A law: each case has one ruling at most. That it has one, [`judge`](crate::judge) shows, which gives it.
pub fn one_ruling()
    ensures { law.OneRuling }
{}

/// A law: where the order has its tag under the consumer's key, and the evidence shows a receipt of it, that receipt rules. The ruling is then none of
/// the first three.
pub fn shown_receipt_rules()
    ensures { law.ShownReceiptRules }
{}

/// A law: what was spelled of a case is read as that case.
pub fn case_reads_back()
    ensures { law.CaseReadsBack }
{}

/// A law: what was read as a case is spelled as those bytes, and is within its limits.
pub fn case_spells_back()
    ensures { law.CaseSpellsBack }
{}

/// A law: the longest case in numbers.
pub fn limits()
    ensures { law.CaseLimitIs }
{}
