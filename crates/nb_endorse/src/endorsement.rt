ghost use Rattle.std.specs.Prelude.{◌≡◌, ◌≤◌, ◌+◌, ◌-◌, ◌++◌, length, take, codes, vec_capacity, IfOk, Ok};
ghost use Rattle.nb_units.specs.declared.width.TheConstants.{SEAL};
ghost use Rattle.nb_seal.specs.Seal.{Opens, seal_of};
ghost use Rattle.nb_units.specs.Room.{spare_of};
ghost use Rattle.nb_units.specs.Reads.{Reads};
ghost use Rattle.nb_units.specs.Fields.{◌>>=◌ as ◌and_then◌, bytes_at, raw_at, done_at, or_place};
ghost use Rattle.nb_units.specs.declared.small.TheConstants.{MAX_SMALL};
ghost use Rattle.nb_units.specs.declared.limits.TheConstants.{MAX_MEMO, MAX_ORDER};
ghost use Rattle.nb_endorse.specs.declared.endorsement.TheConstants.{MAX_SEALED};
ghost use Rattle.nb_endorse.specs.Spelling.{IsEndorsement, endorsement_bytes};
ghost use Rattle.nb_endorse.specs.Reading.{endorsement_of};
ghost use Rattle.nb_endorse.specs.Sealed.{ReadsSealed, undigested};
ghost use Rattle.nb_endorse.specs.Tags.{endorsement_digest};

use crate::sealed::SealedFault;
use nb_seal::{KeyState, seal_spare, sha};
use nb_units::width::{ACCOUNT, LENGTH, SEAL, SECRET};
use nb_units::{AcctId, Buffer, Cut, Digest, MAX_MEMO, MAX_ORDER, Malformed, Secret, Small};
use std::marker::Model;

/// The most bytes of an endorsement, sealed: the order behind its length, the merchant's account, the memo behind its length,
/// and the key of the goods.
pub const MAX_SEALED: usize = SEAL + LENGTH + MAX_ORDER + ACCOUNT + LENGTH + MAX_MEMO + SECRET;

// An endorsement is sealed under this label.
const ENDORSE_LABEL: [u8; 4] = *b"endo";

/// A merchant's endorsement of an order: it asks the house for the payment, and hands it the goods' key.
#[derive(Clone, Copy, PartialEq, Eq, Debug)]
pub struct Endorsement {
    /// The order's bytes: at most [`MAX_ORDER`].
    pub order: Small,
    /// The merchant's account, which is paid, 4 bytes wide.
    pub macct: AcctId,
    /// The merchant's own note: at most [`MAX_MEMO`] bytes.
    pub memo: Small,
    /// The key that opens the goods, 32 bytes wide.
    pub key: Secret,
}

/// Appends the endorsement, sealed under the merchant's key and the label "endo". It needs room for [`MAX_SEALED`] bytes,
/// also for a shorter endorsement, and a memo of at most [`MAX_MEMO`] bytes. It takes no memory.
pub fn write_sealed(e: &Endorsement, key: &Secret, out: &mut Vec<u8>)
    requires memo { length e.now.memo ≤ MAX_MEMO }
    requires room { MAX_SEALED ≤ spare_of out.old }
    // The seal of the endorsement's spelling under the key and the label "endo" is appended.
    ensures bytes { out.new.items ≡ out.old.items ++ seal_of key.now (codes "endo") (endorsement_bytes e.now) }
    ensures fits { IsEndorsement e.now }
    ensures spare { spare_of out.old ≤ spare_of out.new + MAX_SEALED }
    ensures room { vec_capacity out.new ≡ vec_capacity out.old }
{
    let plain = spelled(e);
    seal_spare(key, &ENDORSE_LABEL, plain.as_slice(), out);
}

/// The endorsement that at most [`MAX_SEALED`] bytes are the seal of under the merchant's key and the label "endo".
///
/// It answers [`SealedFault::BadSeal`] where the bytes are the seal of no text under that key, and
/// [`SealedFault::Malformed`] where they are the seal of a text that is no endorsement. Its place is that of the first
/// field that fails, in bytes from the front of the text: a field of which bytes are missing, an order or a memo with a
/// length above its limit, told at the place of that length, or the first byte behind the key.
pub fn read_sealed(bytes: &[u8], key: &Secret) -> Result<Endorsement, SealedFault>
    requires short { length bytes.now ≤ MAX_SEALED }
    // What the seal hides, field by field, and the first that fails; or that the bytes are the seal of nothing.
    ensures reads { ReadsSealed endorsement_of key.now (codes "endo") bytes.now result }

    // An endorsement that is read was sealed so, and one that was sealed so is read.
    ensures spelled { IfOk result (λ e. IsEndorsement e × Opens key.now (codes "endo") bytes.now (endorsement_bytes e)) }
    // Where the bytes are the seal of the spelling of one within its limits, that one is read.
    ensures found { (e : Endorsement) → IsEndorsement e → Opens key.now (codes "endo") bytes.now (endorsement_bytes e) → result ≡ Ok e }
{
    opened(bytes, &KeyState::new(key), &mut [0; MAX_SEALED])
}

/// An endorsement that was read, and its digest.
#[derive(Clone, Copy)]
pub struct DigestedEndorsement {
    pub endorsement: Endorsement,
    /// What [`digest_of`] gives of it.
    pub digest: Digest,
}

/// The endorsement that the bytes are the seal of, as [`read_sealed`] gives it, under the key of this state, and its digest:
/// that of the bytes that were read, so that none is spelled again.
pub fn read_sealed_with(bytes: &[u8], key: &KeyState) -> Result<DigestedEndorsement, SealedFault>
    requires short { length bytes.now ≤ MAX_SEALED }
    ensures reads { ReadsSealed endorsement_of key.now (codes "endo") bytes.now (undigested result) }
    // After Ok the digest is that of the endorsement.
    ensures digest { IfOk result (λ read. read.digest ≡ endorsement_digest read.endorsement) }
    // As of `read_sealed`, under the state's key.
    ensures spelled { IfOk result (λ read. IsEndorsement read.endorsement × Opens key.now (codes "endo") bytes.now (endorsement_bytes read.endorsement)) }
{
    let mut plain = [0u8; MAX_SEALED];
    let endorsement = opened(bytes, key, &mut plain)?;
    let digest = sha(plain.split_at(bytes.len() - SEAL).0);
    Ok(DigestedEndorsement {
        endorsement,
        digest,
    })
}

/// An endorsement that was read, and its digest, whose order and memo stay where they were read. It is seen as the [`DigestedEndorsement`] that it is.
#[derive(Drop)]
pub struct EndorsementBytes<'a> {
    order: &'a [u8],
    macct: AcctId,
    memo: &'a [u8],
    key: Secret,
    digest: Digest,
}

impl<'a> Model for EndorsementBytes<'a> {
    ghost use Rattle.nb_endorse.specs.declared.endorsement.DigestedEndorsement.{DigestedEndorsement};

    ghost Value = { DigestedEndorsement };

    ghost view = { λ e. record { endorsement = record { order = e.order.now; macct = e.macct; memo = e.memo.now; key = e.key }; digest = e.digest } };
}

impl<'a> EndorsementBytes<'a> {
    /// What [`read_sealed_with`] gives. The endorsement's bytes are opened to the front of `plain`, and none is copied from there.
    pub fn open(
        bytes: &[u8],
        key: &KeyState,
        plain: &'a mut [u8; MAX_SEALED],
    ) -> Result<EndorsementBytes<'a>, SealedFault>
        requires short { length bytes.now ≤ MAX_SEALED }
        ensures reads { ReadsSealed endorsement_of key.now (codes "endo") bytes.now (undigested result) }
        // After Ok the digest is that of the endorsement.
        ensures digest { IfOk result (λ read. read.digest ≡ endorsement_digest read.endorsement) }
    {
        let n = key.unseal_to(&ENDORSE_LABEL, bytes, plain)?;
        let text = plain.split_at(n).0;
        let parts = EndorsementParts::read(text)?;
        Ok(EndorsementBytes {
            order: parts.order,
            macct: parts.macct,
            memo: parts.memo,
            key: parts.key,
            digest: sha(text),
        })
    }

    /// An endorsement that was read before.
    pub fn of(read: &'a DigestedEndorsement) -> EndorsementBytes<'a>
        ensures { result ≡ read.now }
    {
        EndorsementBytes {
            order: read.endorsement.order.as_slice(),
            macct: read.endorsement.macct,
            memo: read.endorsement.memo.as_slice(),
            key: read.endorsement.key,
            digest: read.digest,
        }
    }

    /// The order's bytes.
    pub fn order(&self) -> &'a [u8]
        ensures { result.now ≡ self.now.endorsement.order }
    {
        self.order
    }

    /// The merchant's account, which is paid, 4 bytes wide.
    pub fn macct(&self) -> AcctId
        ensures { result ≡ self.now.endorsement.macct }
    {
        self.macct
    }

    /// The key that opens the goods, 32 bytes wide.
    pub fn key(&self) -> &Secret
        ensures { result.now ≡ self.now.endorsement.key }
    {
        &self.key
    }

    /// The digest of the endorsement.
    pub fn digest(&self) -> &Digest
        ensures { result.now ≡ self.now.digest }
    {
        &self.digest
    }
}

// The endorsement that the bytes are the seal of. Its bytes are left at the front of `plain`.
fn opened(
    bytes: &[u8],
    key: &KeyState,
    plain: &mut [u8; MAX_SEALED],
) -> Result<Endorsement, SealedFault>
    requires { length bytes.now ≤ MAX_SEALED }
    ensures reads { ReadsSealed endorsement_of key.now (codes "endo") bytes.now result }
    ensures spelled { IfOk result (λ e. IsEndorsement e × Opens key.now (codes "endo") bytes.now (endorsement_bytes e)) }
    ensures long { IfOk result (λ e. SEAL ≤ length bytes.now) }
    ensures text { IfOk result (λ e. take (length bytes.now - SEAL) plain.new ≡ endorsement_bytes e) }
{
    let n = key.unseal_to(&ENDORSE_LABEL, bytes, plain)?;
    let endorsement = read_endorsement(plain.split_at(n).0)?;
    Ok(endorsement)
}

/// The SHA-256 digest (FIPS 180-4) of the endorsement's bytes before they are sealed.
pub fn digest_of(e: &Endorsement) -> Digest
    ensures { result ≡ endorsement_digest e.now }
{
    let plain = spelled(e);
    sha(plain.as_slice())
}

// The endorsement's bytes before they are sealed.
#[tactic(auto, unfolding(crate::specs::Spelling::endorsement_bytes))]
fn spelled(e: &Endorsement) -> Buffer
    ensures bytes { result ≡ endorsement_bytes e.now }
    ensures fits { length e.now.memo ≤ MAX_MEMO → IsEndorsement e.now }
    ensures short { length result ≤ MAX_SMALL + 44 + length e.now.memo }
{
    let mut bytes = Buffer::new();
    bytes.bytes(e.order.as_slice());
    bytes.u32(e.macct.0);
    bytes.bytes(e.memo.as_slice());
    bytes.raw(&e.key);
    bytes
}

// The endorsement that the bytes spell, or the place of the first field that fails.
fn read_endorsement(bytes: &[u8]) -> Result<Endorsement, Malformed>
    ensures reads { Reads result (endorsement_of bytes.now) }
    ensures spelled { IfOk result (λ e. IsEndorsement e × (bytes.now ≡ endorsement_bytes e)) }
{
    read_fields(bytes)
}

fn read_fields(bytes: &[u8]) -> Result<Endorsement, Malformed>
    ensures { Reads result (endorsement_of bytes.now) }
{
    let parts = EndorsementParts::fields(bytes)?;
    Ok(Endorsement {
        order: Small::of(parts.order).unwrap(),
        macct: parts.macct,
        memo: Small::of(parts.memo).unwrap(),
        key: parts.key,
    })
}

// The fields of an endorsement, of which the texts stay where they were read. They are seen as the endorsement.
#[derive(Drop)]
struct EndorsementParts<'a> {
    order: &'a [u8],
    macct: AcctId,
    memo: &'a [u8],
    key: Secret,
}

impl<'a> Model for EndorsementParts<'a> {
    ghost use Rattle.nb_endorse.specs.declared.endorsement.Endorsement.{Endorsement};

    ghost Value = { Endorsement };

    ghost view = { λ e. record { order = e.order.now; macct = e.macct; memo = e.memo.now; key = e.key } };
}

impl<'a> EndorsementParts<'a> {
    // The endorsement that the bytes spell, or the place of the first field that fails.
    fn read(bytes: &'a [u8]) -> Result<EndorsementParts<'a>, Malformed>
        ensures reads { Reads result (endorsement_of bytes.now) }
        ensures spelled { IfOk result (λ e. IsEndorsement e × (bytes.now ≡ endorsement_bytes e)) }
    {
        EndorsementParts::fields(bytes)
    }

    #[tactic(auto, unfolding(crate::specs::Reading::endorsement_of))]
    fn fields(bytes: &'a [u8]) -> Result<EndorsementParts<'a>, Malformed>
        ensures reads { Reads result (endorsement_of bytes.now) }
        ensures order { IfOk result (λ e. length e.order ≤ MAX_ORDER) }
        ensures memo { IfOk result (λ e. length e.memo ≤ MAX_MEMO) }
    {
        let mut cut = Cut::new(bytes);
        let order = cut.bytes(MAX_ORDER as u32)?;
        let macct = cut.u32()?;
        EndorsementParts::behind_account(order, AcctId(macct), cut)
    }

    // Behind the account: the memo, and the key.
    fn behind_account(
        order: &'a [u8],
        macct: AcctId,
        mut cut: Cut<'a>,
    ) -> Result<EndorsementParts<'a>, Malformed>
        requires place { cut.place ≡ 4 + length order.now + 4 }
        requires short { length order.now ≤ MAX_ORDER }
        ensures reads { Reads result (
            or_place (bytes_at MAX_MEMO cut.entry.bytes (4 + length order.now + 4)) and_then λ memo.
            or_place (raw_at 32 cut.entry.bytes (4 + length order.now + 4 + 4 + length memo)) and_then λ key.
            or_place (done_at cut.entry.bytes (4 + length order.now + 4 + 4 + length memo + 32)) and_then λ end.
            Ok (record { order = order.now; macct = macct; memo = memo; key = key })) }
        ensures order { IfOk result (λ e. length e.order ≤ MAX_ORDER) }
        ensures memo { IfOk result (λ e. length e.memo ≤ MAX_MEMO) }
    {
        let memo = cut.bytes(MAX_MEMO as u32)?;
        let key = cut.fixed32()?;
        cut.done()?;
        Ok(EndorsementParts {
            order,
            macct,
            memo,
            key,
        })
    }
}
