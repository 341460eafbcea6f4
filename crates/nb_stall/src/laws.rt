//! What holds of every kept item and of every head. Each function here does nothing: its contract is the law.

ghost use Rattle.nb_stall.specs.Head as head;
ghost use Rattle.nb_stall.specs.Laws as law;

/// A law: what was spelled of an item is read as that.
pub fn item_reads_back()
    ensures { law.ItemReadsBack }
{}

/// A law: what was read as an item is spelled as those bytes, and is within its limits.
pub fn item_spells_back()
    ensures { law.ItemSpellsBack }
{}

/// A law: two items with one spelling are one.
pub fn one_item()
    ensures { law.OneItem }
{}

/// A law: no item whose fields are within their limits has more than [`MAX_ITEM`](crate::MAX_ITEM) bytes, 297. So each has room where a journal takes items of that length.
pub fn item_is_short()
    ensures { law.ItemIsShort }
{}

/// The kinds of items, the longest item and the last serial number, in numbers.
pub fn limits()
    ensures { law.LimitsAre }
{}

/// A law: what was spelled of a stall as the head of its journal is read as that stall.
pub fn head_reads_back()
    ensures { head.HeadReadsBack }
{}

/// A law: any head is that of a stall, which is spelled as that head, but for the 8 zeros in it.
pub fn head_spells_back()
    ensures { head.HeadSpellsBack }
{}
