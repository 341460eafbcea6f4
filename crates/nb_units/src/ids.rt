/// A party's number, 4 bytes wide. Party 0 is the house.
#[derive(Clone, Copy, PartialEq, Eq, PartialOrd, Ord, Debug)]
pub struct PartyId(pub u32);

/// An account's number, 4 bytes wide. Account 0 is the house's.
#[derive(Clone, Copy, PartialEq, Eq, Debug)]
pub struct AcctId(pub u32);

/// A price in the house's smallest unit of money, 8 bytes wide.
#[derive(Clone, Copy, PartialEq, Eq, Debug)]
pub struct Price(pub u64);

/// A SHA-256 digest (FIPS 180-4), 32 bytes wide.
pub type Digest = [u8; 32];

/// A key that two parties share, 32 bytes wide.
pub type Secret = [u8; 32];

/// An HMAC-SHA-256 tag (RFC 2104), 32 bytes wide.
pub type Tag = [u8; 32];
