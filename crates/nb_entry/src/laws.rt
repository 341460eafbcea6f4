//! What holds of the bytes of every entry. Each function here does nothing: its contract is the law.

ghost use Rattle.nb_entry.specs.Laws as law;

/// An entry that stands at a place of bytes is read there as that entry.
pub fn entry_reads_back()
    ensures { law.EntryReadsBack }
{}

/// What is read as an entry at a place of bytes is within its limits, and its spelling stands there.
pub fn entry_spells_back()
    ensures { law.EntrySpellsBack }
{}

/// Bytes begin with the spelling of at most one entry, and an item of a journal spells one list of entries.
pub fn one_spelling()
    ensures { law.OneSpelling }
{}

/// An entry has as many bytes as its kind says; the kinds and limits in numbers.
pub fn entry_layout()
    ensures { law.EntryLayout }
{}
