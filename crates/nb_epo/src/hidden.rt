ghost use Rattle.std.specs.Prelude.{◌≡◌, ◌≤◌, ◌+◌, length, codes, IfOk, Ok};
ghost use Rattle.nb_seal.specs.Seal.{Opens, seal_of};
ghost use Rattle.nb_units.specs.Reads.{Reads};
ghost use Rattle.nb_units.specs.declared.limits.TheConstants.{MAX_HIDDEN, MAX_MEMO};
ghost use Rattle.nb_epo.specs.Spelling.{IsHidden, hidden_bytes};
ghost use Rattle.nb_epo.specs.Reading.{hidden_of};
ghost use Rattle.nb_epo.specs.Revealing.{Reveals};
ghost use Rattle.nb_epo.specs.Tags.{account_digest_of};

use nb_seal::{BadSeal, KeyState, seal_to, sha};
use nb_units::{AcctId, Buffer, Cut, Digest, MAX_HIDDEN, MAX_MEMO, Malformed, Secret, Small};
use std::fmt;
use std::marker::Model;

// A hidden part is sealed under this label.
const HIDE_LABEL: [u8; 4] = *b"hide";

/// What an order says to the house alone.
#[derive(Clone, Copy, Debug)]
pub struct Hidden {
    /// The account that pays, 4 bytes wide.
    pub acct: AcctId,
    /// What should be the nonce that the account was enrolled with, 8 bytes wide. Revealing does not test it.
    pub nonce: u64,
    /// The consumer's own note: at most [`MAX_MEMO`] bytes.
    pub memo: Small,
}

/// Why a hidden part was not revealed.
#[derive(Clone, Copy, Debug)]
pub enum RevealFault {
    /// The bytes are the seal of no text under the key. The iv is the first 32 bytes given, with zeros where there are
    /// fewer.
    BadSeal { iv: [u8; 32] },
    /// The bytes are a seal, and its text is no hidden part. The place is that of the first field that fails, in bytes
    /// from the front of the text.
    Malformed { place: usize },
}

impl fmt::Display for RevealFault {
    fn fmt<W: fmt::Write>(&self, f: &mut fmt::Formatter<W>) -> fmt::Result {
        match self {
            RevealFault::BadSeal { .. } => write!(f, "no seal under this key"),
            RevealFault::Malformed { place } => write!(
                f,
                "in what is sealed, at byte {place}: not spelled as it should be"
            ),
        }
    }
}

impl From<BadSeal> for RevealFault {
    ghost use Rattle.std.specs.Prelude.{◌≡◌};
    ghost use Rattle.nb_epo.specs.declared.hidden.RevealFault.TheVariants as reveal;

    ghost from_gives = { λ bad fault. fault ≡ reveal.BadSeal bad.iv };

    fn from(bad: BadSeal) -> RevealFault {
        let BadSeal { iv } = bad;
        RevealFault::BadSeal { iv }
    }
}

impl From<Malformed> for RevealFault {
    ghost use Rattle.std.specs.Prelude.{◌≡◌};
    ghost use Rattle.nb_epo.specs.declared.hidden.RevealFault.TheVariants as reveal;

    ghost from_gives = { λ malformed fault. fault ≡ reveal.Malformed malformed.place };

    fn from(malformed: Malformed) -> RevealFault {
        let Malformed { place } = malformed;
        RevealFault::Malformed { place }
    }
}

/// The hidden part sealed under the consumer's key and the label "hide": 48 bytes more than its memo has, of which there
/// are at most [`MAX_MEMO`]. What is sealed is account 4, nonce 8, and the memo behind its length.
pub fn hide(h: &Hidden, key: &Secret) -> Small
    requires memo { length h.now.memo ≤ MAX_MEMO }
    ensures sealed { result ≡ seal_of key.now (codes "hide") (hidden_bytes h.now) }
    ensures fits { IsHidden h.now }
    ensures long { length result ≡ 48 + length h.now.memo }
{
    let plain = spelled(h);
    let mut sealed = [0u8; MAX_HIDDEN];
    let n = seal_to(key, &HIDE_LABEL, plain.as_slice(), &mut sealed);
    Small::of(sealed.split_at(n).0).unwrap()
}

/// The hidden part that at most [`MAX_HIDDEN`] bytes are the seal of under the consumer's key and the label "hide". It
/// answers [`RevealFault::BadSeal`] where they are the seal of no text, and [`RevealFault::Malformed`] where the text is
/// no hidden part.
pub fn reveal(bytes: &[u8], key: &Secret) -> Result<Hidden, RevealFault>
    requires short { length bytes.now ≤ MAX_HIDDEN }
    ensures reveals { Reveals key.now bytes.now result }
    // A hidden part that is revealed is within its limits, and the bytes are the seal of its spelling.
    ensures spelled { IfOk result (λ h. IsHidden h × Opens key.now (codes "hide") bytes.now (hidden_bytes h)) }
    // Where the bytes are the seal of the spelling of one within its limits, that one is revealed.
    ensures found { (h : Hidden) → IsHidden h → Opens key.now (codes "hide") bytes.now (hidden_bytes h) → result ≡ Ok h }
{
    reveal_with(bytes, &KeyState::new(key))
}

/// The hidden part that the bytes are the seal of, as [`reveal`] gives it, under the key of this state.
pub fn reveal_with(bytes: &[u8], key: &KeyState) -> Result<Hidden, RevealFault>
    requires short { length bytes.now ≤ MAX_HIDDEN }
    ensures reveals { Reveals key.now bytes.now result }
    // As of `reveal`, under the state's key.
    ensures spelled { IfOk result (λ h. IsHidden h × Opens key.now (codes "hide") bytes.now (hidden_bytes h)) }
    // As of `reveal`, under the state's key.
    ensures found { (h : Hidden) → IsHidden h → Opens key.now (codes "hide") bytes.now (hidden_bytes h) → result ≡ Ok h }
{
    opened(bytes, key)
}

// The hidden part that the bytes are the seal of.
fn opened(bytes: &[u8], key: &KeyState) -> Result<Hidden, RevealFault>
    requires { length bytes.now ≤ MAX_HIDDEN }
    ensures reveals { Reveals key.now bytes.now result }
    ensures spelled { IfOk result (λ h. IsHidden h × Opens key.now (codes "hide") bytes.now (hidden_bytes h)) }
{
    let mut plain = [0u8; MAX_HIDDEN];
    let n = key.unseal_to(&HIDE_LABEL, bytes, &mut plain)?;
    let hidden = read_hidden(plain.split_at(n).0)?;
    Ok(hidden)
}

/// The SHA-256 digest (FIPS 180-4) of an account, 4 bytes, and its nonce, 8 bytes, both big-endian. An order shows it to
/// the merchant.
pub fn account_digest(acct: AcctId, nonce: u64) -> Digest
    ensures { result ≡ account_digest_of acct nonce }
{
    let mut bytes = Buffer::new();
    bytes.u32(acct.0);
    bytes.u64(nonce);
    sha(bytes.as_slice())
}

// The hidden part's bytes before it is sealed.
#[tactic(auto, unfolding(crate::specs::Spelling::hidden_bytes))]
fn spelled(h: &Hidden) -> Buffer
    requires { length h.now.memo ≤ MAX_MEMO }
    ensures bytes { result ≡ hidden_bytes h.now }
    ensures fits { IsHidden h.now }
    ensures long { length result ≡ 16 + length h.now.memo }
{
    let mut bytes = Buffer::new();
    bytes.u32(h.acct.0);
    bytes.u64(h.nonce);
    bytes.bytes(h.memo.as_slice());
    bytes
}

// The hidden part that the bytes spell, or the place of the first field that fails.
fn read_hidden(bytes: &[u8]) -> Result<Hidden, Malformed>
    ensures reads { Reads result (hidden_of bytes.now) }
    ensures spelled { IfOk result (λ h. IsHidden h × (bytes.now ≡ hidden_bytes h)) }
{
    read_fields(bytes)
}

fn read_fields(bytes: &[u8]) -> Result<Hidden, Malformed>
    ensures { Reads result (hidden_of bytes.now) }
{
    let parts = HiddenBytes::read(bytes)?;
    Ok(Hidden {
        acct: parts.acct,
        nonce: parts.nonce,
        memo: Small::of(parts.memo).unwrap(),
    })
}

/// What an order says to the house alone, with a memo that stays where it was read. It is seen as the [`Hidden`] that it is.
#[derive(Drop)]
pub struct HiddenBytes<'a> {
    acct: AcctId,
    nonce: u64,
    memo: &'a [u8],
}

impl<'a> Model for HiddenBytes<'a> {
    ghost use Rattle.nb_epo.specs.declared.hidden.Hidden.{Hidden};

    ghost Value = { Hidden };

    ghost view = { λ h. record { acct = h.acct; nonce = h.nonce; memo = h.memo.now } };
}

impl<'a> HiddenBytes<'a> {
    /// What [`reveal_with`] gives. The hidden part's bytes are opened to the front of `plain`, and none is copied from there.
    pub fn reveal(
        bytes: &[u8],
        key: &KeyState,
        plain: &'a mut [u8; MAX_HIDDEN],
    ) -> Result<HiddenBytes<'a>, RevealFault>
        requires short { length bytes.now ≤ MAX_HIDDEN }
        ensures reveals { Reveals key.now bytes.now result }
    {
        let n = key.unseal_to(&HIDE_LABEL, bytes, plain)?;
        let hidden = HiddenBytes::read(plain.split_at(n).0)?;
        Ok(hidden)
    }

    /// A hidden part that was revealed before.
    pub fn of(hidden: &'a Hidden) -> HiddenBytes<'a>
        ensures { result ≡ hidden.now }
    {
        HiddenBytes {
            acct: hidden.acct,
            nonce: hidden.nonce,
            memo: hidden.memo.as_slice(),
        }
    }

    /// The account that pays, 4 bytes wide.
    pub fn acct(&self) -> AcctId
        ensures { result ≡ self.now.acct }
    {
        self.acct
    }

    /// What should be the nonce that the account was enrolled with, 8 bytes wide. Revealing does not test it.
    pub fn nonce(&self) -> u64
        ensures { result ≡ self.now.nonce }
    {
        self.nonce
    }

    // The hidden part that the bytes spell, or the place of the first field that fails.
    #[tactic(auto, unfolding(crate::specs::Reading::hidden_of))]
    fn read(bytes: &'a [u8]) -> Result<HiddenBytes<'a>, Malformed>
        ensures reads { Reads result (hidden_of bytes.now) }
        ensures short { IfOk result (λ h. length h.memo ≤ MAX_MEMO) }
    {
        let mut cut = Cut::new(bytes);
        let acct = cut.u32()?;
        let nonce = cut.u64()?;
        let memo = cut.bytes(MAX_MEMO as u32)?;
        cut.done()?;
        Ok(HiddenBytes {
            acct: AcctId(acct),
            nonce,
            memo,
        })
    }
}
