//! How many groups a credential names, how long it and a list of offers are, and the parts of a keeper's line.

use nb_units::width::{LENGTH, MOMENT, PARTY, SEAL, SECRET};

/// The most groups of a credential. The least is 1.
pub const MAX_GROUPS: usize = 4;

// The bytes of a group's number.
pub(crate) const GROUP: usize = 4;

// The most bytes of the groups of a credential.
pub(crate) const GROUPS_BYTES: usize = MAX_GROUPS * GROUP;

/// The most bytes of a credential, sealed.
pub const CREDENTIAL_BYTES: usize = SEAL + PARTY + MOMENT + LENGTH + GROUPS_BYTES;

/// A credential is sealed under this label.
pub const CREDENTIAL_LABEL: [u8; 4] = *b"cred";

/// The most bytes of a list of offers that is read: 256 MiB.
pub const OFFERS_BYTES: usize = 1 << 28;

// What stands between the groups in a word.
pub(crate) const COMMA: u8 = b',';

// The word of the keeper's line, with the space behind it.
pub(crate) const KEEPER: [u8; 7] = *b"keeper ";

// The digits of the keeper's key.
pub(crate) const KEY_DIGITS: usize = 2 * SECRET;
