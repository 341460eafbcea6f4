//! What holds of all sealed goods and their parts. Each function here does nothing: its contract is the law.

ghost use Rattle.nb_goods.specs.Laws as law;

/// A law: sealed goods are the iv of the goods, 32 bytes, and the goods xored with the keystream behind it.
pub fn layout()
    ensures layout { law.LayoutIs }
    ensures len { law.SealedIs32BytesLonger }
{}

/// A law: bytes open to at most one text under a key.
pub fn opens_to_one_text()
    ensures { law.OpensToOneText }
{}

/// A law: what was sealed opens to the goods that were sealed, and to nothing else.
pub fn opens_to_what_was_sealed()
    ensures { law.OpensToWhatWasSealed }
{}

/// A law: what is answered of bytes, but for want of memory, depends on the key and the bytes alone: so of the joined parts and of the
/// bytes in one list.
pub fn one_opening()
    ensures { law.OneOpening }
{}

/// A law: the parts of a list of bytes, joined, are the list; a part has [`PART_BYTES`](crate::PART_BYTES) bytes, or those that are left.
pub fn parts_join()
    ensures joined { law.PartsJoin }
    ensures len { law.PartIsAsLong }
{}

/// A law: bytes with the checksum of sealed goods open to those goods under the key, or are a collision with them: two different lists
/// of bytes with one SHA-256 digest.
pub fn right_checksum_opens()
    ensures { law.RightChecksumOpens }
{}

/// A law: the parts that were made of goods give back the goods, whatever their number.
pub fn parts_open_to_the_goods()
    ensures { law.PartsOpenToTheGoods }
{}

/// The limits in numbers, and the label in a text.
pub fn limits()
    ensures limits { law.GoodsLimitsAre }
    ensures label { law.LabelIs }
    ensures longest { law.LongestGoodsAre }
{}
