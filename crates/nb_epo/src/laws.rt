//! What holds of every order and every hidden part. Each function here does nothing: its contract is the law.

ghost use Rattle.nb_epo.specs.Laws as law;

/// A law: what was spelled of an order is read as that order.
pub fn order_reads_back()
    ensures { law.OrderReadsBack }
{}

/// A law: what was read as an order is spelled as those bytes, and is within its limits.
pub fn order_spells_back()
    ensures { law.OrderSpellsBack }
{}

/// A law: two orders with one spelling are one order.
pub fn one_order()
    ensures { law.OneOrder }
{}

/// A law: what was spelled of a hidden part is read as that hidden part.
pub fn hidden_reads_back()
    ensures { law.HiddenReadsBack }
{}

/// A law: what was read as a hidden part is spelled as those bytes, and is within its limits.
pub fn hidden_spells_back()
    ensures { law.HiddenSpellsBack }
{}

/// A law: two hidden parts with one spelling are one.
pub fn one_hidden()
    ensures { law.OneHidden }
{}

/// A law: an order has 168 bytes more than its sealed hidden part, and a hidden part, before it is sealed, 16 more than its memo.
pub fn lengths()
    ensures { law.LengthsAre }
{}

/// A law: an order that was signed has the tag that it is tested against.
#[tactic(auto, unfolding(crate::specs::Spelling::untagged_bytes))]
pub fn signed_is_right()
    ensures { law.SignedIsRight }
{}

/// A law: the labels in texts.
pub fn labels()
    ensures { law.LabelsAre }
{}
