//! What holds of every field and of every identifier. Each function here does nothing: its contract is the law.

ghost use Rattle.nb_units.specs.Laws as law;

/// A law: bytes of a fixed number are read exactly where they stand.
pub fn raw_stands()
    ensures { law.RawStands }
{}

/// A law: a byte is read exactly where it stands.
pub fn byte_stands()
    ensures { law.ByteStands }
{}

/// A law: a number of 4 bytes is read exactly where its big-endian bytes stand.
pub fn u32_stands()
    ensures { law.U32Stands }
{}

/// A law: a number of 8 bytes is read exactly where its big-endian bytes stand.
pub fn u64_stands()
    ensures { law.U64Stands }
{}

/// A law: a text is read exactly where it is not longer than its limit and stands behind its length.
pub fn text_stands()
    ensures { law.TextStands }
{}

/// A law: a number, or bytes of a fixed number, are short exactly where fewer bytes are left than the field has, and have no
/// other fault.
pub fn field_short()
    ensures { law.FieldShort }
{}

/// A law: a text is long exactly where a length that is more than its limit stands, however many bytes are left behind it.
pub fn text_long()
    ensures { law.TextLong }
{}

/// A law: a text is short exactly where fewer bytes are left than its length has, or than its length says within its limit.
pub fn text_short()
    ensures { law.TextShort }
{}

/// A law: bytes are left over exactly where the place is before their end.
pub fn done_extra()
    ensures { law.DoneExtra }
{}

/// A law: what was written of an identifier is read as that identifier.
pub fn epoid_reads_back()
    ensures { law.EpoidReadsBack }
{}

/// A law: what was read of 16 bytes is written as those bytes.
pub fn epoid_spells_back()
    ensures { law.EpoidSpellsBack }
{}

/// A law: the most bytes of a memo, a hidden part, an order, a small and a buffer, the least and the greatest code of a reason, and the versions with
/// the highest rate.
pub fn limits()
    ensures limits { law.FieldLimitsAre }
    ensures reasons { law.ReasonsAre }
    ensures versions { law.VersionsAre }
{}
