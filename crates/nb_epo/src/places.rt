//! Where the checksum of the sealed goods stands in an order's bytes. Who reads an order and who spells one then speak of the same
//! bytes, with no condition on the other fields. Each function here does nothing: its contract is the law.

ghost use Rattle.nb_epo.specs.Places as law;

/// A law: what is read as an order has the checksum that stands at place 36 of the bytes.
pub fn checksum_is_read()
    ensures { law.ChecksumIsRead }
{}

/// A law: in the spelling of an order its checksum stands at place 36.
pub fn checksum_is_spelled()
    ensures { law.ChecksumIsSpelled }
{}
