//! Where the code, the identifier and the key of a receipt stand in its bytes. Who reads a receipt and who spells one then speak of the
//! same bytes, with no condition on the other fields. Each function here does nothing: its contract is the law.

ghost use Rattle.nb_endorse.specs.Places as law;

/// A law: what is read as a receipt has the code that stands at place 0 of the bytes, the identifier at place 21, and the key at place 54 where
/// the byte at place 53 says that there is one.
pub fn receipt_is_read()
    ensures { law.ReceiptIsRead }
{}

/// A law: in the spelling of a receipt its code stands at place 0, the identifier that its identifier's bytes spell at place 21, and its
/// key, of 32 bytes, at place 54.
pub fn receipt_is_spelled()
    ensures code { law.CodeIsSpelled }
    ensures epoid { law.EpoidIsSpelled }
    ensures key { law.KeyIsSpelled }
{}

/// A law: what is read of the spelling of a receipt, and what is read of the seal of that, has its code, the identifier that its
/// identifier's bytes spell, and its key, where that has 32 bytes.
pub fn receipt_is_told()
    ensures spelled { law.SpelledIsRead }
    ensures sealed { law.SealedIsRead }
{}
