//! The words of a line, and what a word says.

ghost use Rattle.std.specs.Prelude.{◌≡◌, ◌<◌, ◌≤◌, ◌∷◌, [], ℕ, List, length, IfOk, IfSome, IsNone};
ghost use Rattle.std.specs.Str.{bytes_eq};
ghost use Rattle.nb_script.specs.Words as words;

use crate::limits::SPACE;
use memchr::memchr;
use nb_units::{AcctId, HEAD, NoMemory, PartyId, Secret, decimal_of};
use std::alloc::Global;
use std::marker::Model;

// The bytes before the first mark, and those behind it.
pub(crate) fn cut(bytes: &[u8], mark: u8) -> Option<(&[u8], &[u8])>
    ensures some { IfSome result (λ p. words.parts mark bytes.now ≡ p.0.now ∷ words.parts mark p.1.now) }
    ensures shorter { IfSome result (λ p. length p.1.now < length bytes.now) }
    ensures none { IsNone result → words.parts mark bytes.now ≡ bytes.now ∷ [] }
{
    let i = memchr(mark, bytes)?;
    let (part, behind) = bytes.split_at(i);
    Some((part, behind.split_at(1).1))
}

// The words of a line. They are seen as their list.
#[derive(Drop)]
pub(crate) struct Words<'a> {
    each: Vec<&'a [u8]>,
}

impl<'a> Model for Words<'a> {
    ghost use Rattle.std.specs.Prelude.{ℕ, List, map};

    ghost Value = { List (List ℕ) };

    ghost view = { λ w. map (λ word. word.now) w.each.items };
}

impl<'a> Words<'a> {
    // The words of a line: a space stands between two of them.
    pub(crate) fn of(alloc: Global, line: &'a [u8]) -> Result<Words<'a>, NoMemory>
        ensures { IfOk result (λ w. w ≡ words.words_of line.now) }
    {
        let mut each = Vec::new(alloc);
        let mut rest = line;
        'words: while let Some((word, behind)) = cut(rest, SPACE) {
            each.push(word)?;
            rest = behind;
        }
        each.push(rest)?;
        Ok(Words { each })
    }

    // The word at a place, counted from 0; empty where there are not so many.
    pub(crate) fn word(&self, k: usize) -> &'a [u8]
        ensures { result.now ≡ words.word_at self.now k }
    {
        match self.each.get(k) {
            Some(word) => *word,
            None => &[],
        }
    }

    // Whether this is the word at a place.
    #[tactic(auto, unfolding(crate::specs::Words::says))]
    pub(crate) fn says(&self, k: usize, name: &[u8]) -> bool
        ensures { result ≡ words.says self.now k name.now }
    {
        self.word(k) == name
    }

    // There are so many words, no more and no fewer.
    #[tactic(auto, unfolding(crate::specs::Words::are))]
    pub(crate) fn are(&self, count: usize) -> Option<()>
        ensures { result ≡ words.are count self.now }
    {
        if self.each.len() != count {
            return None;
        }
        Some(())
    }

    // The number at a place, in decimal without sign or leading zero, where it is within these limits.
    pub(crate) fn number(&self, k: usize, least: u64, most: u64) -> Option<u64>
        ensures value { result ≡ words.number_at least most self.now k }
        ensures within { IfSome result (λ n. (least ≤ n) × (n ≤ most)) }
    {
        let n = decimal_of(self.word(k))?;
        if n < least || n > most {
            return None;
        }
        Some(n)
    }

    // A number of 32 bits.
    pub(crate) fn small(&self, k: usize, least: u32, most: u32) -> Option<u32>
        ensures value { result ≡ words.number_at least most self.now k }
        ensures within { IfSome result (λ n. (least ≤ n) × (n ≤ most)) }
    {
        let n = self.number(k, u64::from(least), u64::from(most))?;
        Some(n as u32)
    }

    // A number of 32 bits, whichever.
    #[tactic(auto, unfolding(crate::specs::Words::word4_at))]
    pub(crate) fn word4(&self, k: usize) -> Option<u32>
        ensures { result ≡ words.word4_at self.now k }
    {
        self.small(k, 0, u32::MAX)
    }

    // A number of 64 bits, whichever.
    #[tactic(auto, unfolding(crate::specs::Words::word8_at))]
    pub(crate) fn word8(&self, k: usize) -> Option<u64>
        ensures { result ≡ words.word8_at self.now k }
    {
        self.number(k, 0, u64::MAX)
    }

    // The number of a party.
    #[tactic(auto, unfolding(crate::specs::Words::party_at))]
    pub(crate) fn party(&self, k: usize) -> Option<PartyId>
        ensures { result ≡ words.party_at self.now k }
    {
        let id = self.word4(k)?;
        Some(PartyId(id))
    }

    // The number of an account.
    #[tactic(auto, unfolding(crate::specs::Words::account_at))]
    pub(crate) fn account(&self, k: usize) -> Option<AcctId>
        ensures { result ≡ words.account_at self.now k }
    {
        let id = self.word4(k)?;
        Some(AcctId(id))
    }

    // The key at a place, in hexadecimal digits of either case.
    pub(crate) fn secret(&self, k: usize) -> Option<Secret>
        ensures { result ≡ words.bytes_at 32 self.now k }
    {
        let mut secret = [0u8; 32];
        match hex::decode_to_slice(self.word(k), &mut secret) {
            Ok(()) => Some(secret),
            Err(_) => None,
        }
    }

    // The head of a house at a place, in hexadecimal digits of either case.
    pub(crate) fn head(&self, k: usize) -> Option<[u8; HEAD]>
        ensures { result ≡ words.bytes_at 80 self.now k }
    {
        let mut head = [0u8; HEAD];
        match hex::decode_to_slice(self.word(k), &mut head) {
            Ok(()) => Some(head),
            Err(_) => None,
        }
    }
}
