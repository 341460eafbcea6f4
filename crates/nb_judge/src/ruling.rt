use nb_units::{Digest, Tag};

/// What is ruled of a case: the first test that fails, or that none does.
#[derive(Clone, Copy)]
pub enum Ruling {
    /// The order's tag, which is shown, is not the one that it has under the consumer's key.
    NoOrder { tag: Tag },
    /// The receipt does not open under the consumer's key to one with the house's tag. Its first 32 bytes are shown, with zeros where there are
    /// fewer.
    NoReceipt { iv: [u8; 32] },
    /// The receipt is of another order: the first of five fields in which it differs from this one is 1 the identifier, 2 the consumer, 3 the merchant,
    /// 4 the product, 5 the price.
    OtherOrder { field: u8 },
    /// The receipt says that the order was refused, with this code.
    NotPaid { code: u8 },
    /// The goods are not those that were ordered: the order names one SHA-256 digest (FIPS 180-4) of the sealed goods, and these have another.
    WrongGoods { named: Digest, given: Digest },
    /// The key that was paid for opens the goods to nothing: the merchant is at fault. The first 32 bytes of the sealed goods are shown, with zeros
    /// where there are fewer.
    WrongKey { iv: [u8; 32] },
    /// The key that was paid for opens the goods, which have so many bytes: the consumer has what was ordered.
    KeyOpens { len: u64 },
}
