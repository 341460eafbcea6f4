//! The groups of a credential, as numbers, as a word and as bytes.

ghost use Rattle.std.specs.Prelude.{◌≡◌, ◌≤◌, ◌<◌, ◌*◌, ◌++◌, ◌∷◌, [], ℕ, List, length, Some, IfSome};
ghost use Rattle.nb_groups.specs.declared.limits.TheConstants.{GROUPS_BYTES};
ghost use Rattle.nb_groups.specs.Groups as lists;

use crate::limits::{COMMA, GROUP, MAX_GROUPS};
use nb_price::numbered;
use nb_units::{Buffer, decimal_of, u32_of};
use std::marker::Model;

/// Numbers of groups, at most four. It is seen as their list.
#[derive(Drop)]
pub struct Groups {
    numbers: [u32; MAX_GROUPS],
    len: usize,
}

impl Model for Groups {
    ghost use Rattle.std.specs.Prelude.{ℕ, ◌≤◌, List, take};
    ghost use Rattle.nb_groups.specs.declared.limits.TheConstants.{MAX_GROUPS};

    ghost Value = { List ℕ };

    ghost view = { λ g. take g.len g.numbers };

    ghost invariant = { λ g. g.len ≤ MAX_GROUPS };
}

/// Whether a credential may name these groups: 1 to 4, each greater than the one before it.
pub fn are_groups(groups: &[u32]) -> bool
    ensures { result ≡ lists.are_groups groups.now }
{
    match groups {
        [_] => true,
        [a, b] => a < b,
        [a, b, c] => a < b && b < c,
        [a, b, c, d] => a < b && b < c && c < d,
        _ => false,
    }
}

impl Groups {
    /// The groups that a word names: numbers from 0 to 4,294,967,295 in decimal, without sign or leading zero, with commas between them. There are 1 to 4, each
    /// greater than the one before it ([`are_groups`]). It answers `None` exactly where the word names none so.
    pub fn named(word: &[u8]) -> Option<Groups>
        // only of such groups, which the word names
        ensures some { IfSome result (λ groups. (word.now ≡ lists.groups_text groups) × lists.AreGroups groups) }
        // of each such list of groups that it names
        ensures each { (groups : List ℕ) → lists.AreGroups groups → word.now ≡ lists.groups_text groups → result ≡ Some groups }
    {
        let mut numbers = Groups::new();
        let mut rest = word;
        'naming: while let Some((group, behind)) = numbered(rest, COMMA) {
            if numbers.len() + 1 == MAX_GROUPS {
                return None;
            }
            numbers.push(group);
            rest = behind;
        }
        let last = decimal_of(rest)?;
        if last > u64::from(u32::MAX) {
            return None;
        }
        numbers.push(last as u32);
        if !are_groups(numbers.as_slice()) {
            return None;
        }
        Some(numbers)
    }

    // The numbers that the bytes spell, four bytes each; fewer at the end spell none.
    pub(crate) fn read(text: &[u8]) -> Groups
        requires { length text.now ≤ GROUPS_BYTES }
        ensures { result ≡ lists.groups_in text.now }
    {
        let mut numbers = Groups::new();
        let mut rest = text;
        while rest.len() >= GROUP {
            let (number, behind) = rest.split_at(GROUP);
            numbers.push(u32_of(number));
            rest = behind;
        }
        numbers
    }

    /// The numbers.
    pub fn as_slice(&self) -> &[u32]
        ensures value { result.now ≡ self.now }
        ensures short { length result.now ≤ 4 }
    {
        self.numbers.split_at(self.len).0
    }

    // No number.
    fn new() -> Groups
        ensures { result ≡ [] }
    {
        Groups {
            numbers: [0; MAX_GROUPS],
            len: 0,
        }
    }

    // How many numbers there are.
    fn len(&self) -> usize
        ensures { result ≡ length self.now }
    {
        self.len
    }

    // One number more.
    fn push(&mut self, number: u32)
        requires { length self.old < 4 }
        ensures { self.new ≡ self.old ++ number ∷ [] }
    {
        self.numbers[self.len] = number;
        self.len += 1;
    }
}

// The bytes of the numbers.
pub(crate) fn spelled(groups: &[u32]) -> Buffer
    requires { length groups.now ≤ 4 }
    ensures bytes { result ≡ lists.groups_bytes groups.now }
    ensures long { length result ≡ 4 * length groups.now }
{
    let mut bytes = Buffer::new();
    for group in groups {
        bytes.u32(*group);
    }
    bytes
}
