ghost use Rattle.std.specs.Prelude.{◌≡◌, ◌≤◌, ◌+◌, length, codes, take, IfOk};
ghost use Rattle.nb_seal.specs.declared.limits.TheConstants.{CODE_BYTES, MAX_TEXT};
ghost use Rattle.nb_seal.specs.Seal.{seal_of, text_in};
ghost use Rattle.nb_endorse.specs.Reading.{signed_of};
ghost use Rattle.nb_endorse.specs.Replies.{ReceiptKeepsRules};
ghost use Rattle.nb_endorse.specs.declared.receipt.TheConstants.{RECEIPT_BYTES};
ghost use Rattle.nb_msgs.specs.Tests.{Unseals, opened};

use crate::node::Reason;
use nb_endorse::{Signed, read_receipt};
use nb_seal::KeyState;
use nb_units::width::SEAL;
use nb_units::{Blob, NoMemory, Secret};
use std::alloc::Global;

/// The receipt that the house sealed under a party's key, or [`Reason::Seal`] where the bytes do not open to one.
#[tactic(auto, unfolding(crate::specs::Tests::opened))]
pub fn open_receipt(key: &Secret, sealed: &[u8]) -> Result<Signed, Reason>
    requires { length sealed.now ≤ RECEIPT_BYTES }
    ensures opened { result ≡ opened signed_of key.now (codes "rcpt") sealed.now }
    ensures lawful { IfOk result (λ s. ReceiptKeepsRules s.receipt) }
{
    match read_receipt(sealed, key) {
        Ok(signed) => Ok(signed),
        Err(_fault) => Err(Reason::Seal),
    }
}

/// The text that the bytes are the seal of under this key and label, to the front of a buffer, and how long it is; [`Reason::Seal`] where they
/// are the seal of none.
pub fn unsealed(
    key: &KeyState,
    label: &[u8; 4],
    bytes: &[u8],
    buffer: &mut [u8],
) -> Result<usize, Reason>
    requires short { length bytes.now ≤ CODE_BYTES + MAX_TEXT }
    requires room { length bytes.now ≤ length buffer.old }
    ensures text { Unseals (text_in key.now label.now bytes.now) buffer.new result }
    ensures within { IfOk result (λ n. n ≤ length bytes.now) }
{
    match key.unseal_to(label, bytes, buffer) {
        Ok(n) => Ok(n),
        Err(_bad) => Err(Reason::Seal),
    }
}

/// The seal of a text under this key and label. Answers [`NoMemory`] where there is none for it.
pub fn sealed(
    alloc: Global,
    key: &KeyState,
    label: &[u8; 4],
    plain: &[u8],
) -> Result<Blob, NoMemory>
    requires short { length plain.now ≤ MAX_TEXT }
    // The seal of the text under the state's key and the label.
    ensures bytes { IfOk result (λ sealed. sealed ≡ seal_of key.now label.now plain.now) }
    // It is 32 bytes longer than the text.
    ensures long { IfOk result (λ sealed. length sealed ≡ 32 + length plain.now) }
{
    let mut bytes = Vec::with_capacity(alloc, SEAL + plain.len())?;
    key.seal_spare(label, plain, &mut bytes);
    Ok(Blob::from_vec(bytes))
}
