//! What holds of every seal and of every keystream. Each function here does nothing: its contract is the law.

ghost use Rattle.nb_seal.specs.Laws as law;

/// Bytes open to at most one text under a key and a label.
pub fn opens_to_one_text()
    ensures { law.OpensToOneText }
{}

/// What was sealed opens to the text that was sealed, and to no other.
pub fn opens_to_what_was_sealed()
    ensures { law.OpensToWhatWasSealed }
{}

/// The text in bytes, as a function of them, is the one that they open to; there is none exactly where they are the seal
/// of no text.
pub fn text_in_bytes()
    ensures opened { law.TextInIsOpened }
    ensures none { law.NoTextInNoSeal }
{}

/// A seal has 32 bytes more than its text.
pub fn seal_is_32_bytes_longer()
    ensures { law.SealIs32BytesLonger }
{}

/// A list is xored with the keystream byte by byte, and keeps its length.
pub fn xored_byte_by_byte()
    ensures bytes { law.XoredByteByByte }
    ensures len { law.XoredIsAsLong }
{}

/// A list is xored with the keystream piece by piece.
pub fn xored_in_pieces()
    ensures { law.XoredInPieces }
{}

/// The limits in numbers.
pub fn limits()
    ensures { law.SealLimitsAre }
{}
