//! What holds of every item and of every head. Each function here does nothing: its contract is the law.

ghost use Rattle.nb_wallet.specs.Head as head;
ghost use Rattle.nb_wallet.specs.Laws as law;

/// A law: what was spelled of an item is read as that item.
pub fn item_reads_back()
    ensures { law.ItemReadsBack }
{}

/// A law: what was read as an item is spelled as those bytes, and is within its limits.
pub fn item_spells_back()
    ensures { law.ItemSpellsBack }
{}

/// A law: two items with one spelling are one.
pub fn one_item()
    ensures { law.OneItem }
{}

/// A law: the kinds of items, in numbers.
pub fn item_kinds()
    ensures { law.ItemKindsAre }
{}

/// A law: no item whose fields are within their limits has more than 1,000,297 bytes.
pub fn item_is_short()
    ensures { law.ItemIsShort }
{}

/// A law: what was spelled of a wallet as the head of its journal is read as that wallet.
pub fn head_reads_back()
    ensures { head.HeadReadsBack }
{}

/// A law: any head is that of a wallet, which is spelled as that head, but for the 32 zeros at its end.
pub fn head_spells_back()
    ensures { head.HeadSpellsBack }
{}
