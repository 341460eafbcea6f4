// The versions of a journal, and what tells them.

ghost use Rattle.std.specs.Prelude.{◌≡◌, ◌≤◌, ◌↔◌, IsTrue, IfSome, IfNone};
ghost use Rattle.nb_units.specs.Charter.{AreVersionAndRate};
ghost use Rattle.nb_units.specs.declared.limits.TheConstants.{FEE_VERSION};
ghost use Rattle.nb_journal.specs.Layout.{IsMagic, magic};

use crate::limits::MAGIC_BYTES;
use crate::reading::same_bytes;
use nb_units::{FEE_VERSION, FIRST_VERSION, MAX_RATE};

// What a journal of the version begins with.
pub(crate) fn magic(version: u8) -> [u8; MAGIC_BYTES]
    requires { version ≤ FEE_VERSION }
    ensures { result ≡ magic version }
{
    [b'N', b'B', b'J', b'R', b'N', b'L', b'0', b'0' + version]
}

// The version of the journals that begin with these bytes.
pub(crate) fn version_of(found: &[u8; MAGIC_BYTES]) -> Option<u8>
    ensures some { IfSome result (λ version. found.now ≡ magic version) }
    ensures known { IfSome result (λ version. IsMagic found.now) }
    ensures none { IfNone result (IsMagic found.now → ⊥) }
{
    if same_bytes(found, &magic(FIRST_VERSION)) {
        return Some(FIRST_VERSION);
    }
    if same_bytes(found, &magic(FEE_VERSION)) {
        return Some(FEE_VERSION);
    }
    None
}

// Whether journals of a version begin with these bytes.
pub(crate) fn is_magic(found: &[u8; MAGIC_BYTES]) -> bool
    ensures { IsTrue result ↔ IsMagic found.now }
{
    version_of(found).is_some()
}

// Whether a journal of the version may have the rate.
pub(crate) fn may_have(version: u8, rate: u16) -> bool
    ensures { IsTrue result ↔ AreVersionAndRate version rate }
{
    if version == FIRST_VERSION {
        return rate == 0;
    }
    version == FEE_VERSION && rate <= MAX_RATE
}
