ghost use Rattle.std.specs.Prelude.{◌≡◌, ◌≤◌, ◌↔◌, length, IsSome, IfSome};
ghost use Rattle.nb_units.specs.Padding.{padded};
ghost use Rattle.nb_units.specs.declared.small.TheConstants.{MAX_SMALL};

use crate::limits::MAX_ORDER;
use std::marker::Model;

/// The most bytes of a [`Small`], 280: as many as the longest list that is held in one, an order.
pub const MAX_SMALL: usize = MAX_ORDER;

/// A list of at most [`MAX_SMALL`] bytes that takes no memory.
#[derive(Clone, Copy, Debug)]
pub struct Small {
    buf: [u8; MAX_SMALL],
    len: usize,
}

impl Model for Small {
    ghost use Rattle.std.specs.Prelude.{ℕ, List, length, take, refl};
    ghost use Rattle.nb_units.specs.Padding.{padded, IsPadded, length-taken, padded-taken};

    ghost Value = { List ℕ };

    ghost view = { λ s. take s.len s.buf };

    ghost invariant = { λ s. IsPadded s.buf s.len };

    ghost inverse = { λ bytes. record { buf = padded bytes; len = length bytes } };

    ghost inverse_ok = { λ s is. Prim.rw (length-taken s.buf s.len is, padded-taken s.buf s.len is) refl };
}

impl Small {
    /// The bytes as a small list, or `None` where there are more than [`MAX_SMALL`].
    pub fn of(bytes: &[u8]) -> Option<Small>
        // Some exactly where there are at most [`MAX_SMALL`] bytes
        ensures fits { IsSome result ↔ (length bytes.now ≤ MAX_SMALL) }
        ensures value { IfSome result (λ small. small ≡ bytes.now) }
    {
        if bytes.len() > MAX_SMALL {
            return None;
        }
        Some(Small {
            buf: filled(bytes),
            len: bytes.len(),
        })
    }

    /// Its bytes.
    pub fn as_slice(&self) -> &[u8]
        ensures value { result.now ≡ self.now }
        ensures short { length result.now ≤ MAX_SMALL }
    {
        self.buf.split_at(self.len).0
    }
}

impl PartialEq for Small {
    ghost use Rattle.std.specs.Prelude.{◌≡◌, ◌↔◌, ◌==◌, IsTrue};
    ghost use Rattle.std.specs.Cmp.{partial_equiv_from_equiv};
    ghost use Rattle.std.specs.Cmp.Lexicographic.{pointwise, nat_list_eq_equiv};

    ghost eq = { λ a b. pointwise ◌==◌ a b };

    ghost laws = { partial_equiv_from_equiv nat_list_eq_equiv };

    /// Whether the two lists are equal.
    fn eq(&self, other: &Small) -> bool
        // true exactly where the two lists are equal
        ensures answer { result ≡ pointwise ◌==◌ self.now other.now }
        ensures decides { IsTrue result ↔ (self.now ≡ other.now) }
    {
        self.as_slice() == other.as_slice()
    }
}

impl Eq for Small {
    ghost use Rattle.std.specs.Cmp.Lexicographic.{nat_list_eq_equiv};

    ghost laws = { nat_list_eq_equiv };
}

// The bytes, with zeros behind them.
fn filled(bytes: &[u8]) -> [u8; MAX_SMALL]
    requires { length bytes.now ≤ MAX_SMALL }
    ensures { result ≡ padded bytes.now }
{
    let mut buf = [0u8; MAX_SMALL];
    buf[..bytes.len()].copy_from_slice(bytes);
    buf
}
