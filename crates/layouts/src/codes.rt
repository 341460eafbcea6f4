// Digests, codes, keystreams and seals.

ghost use Rattle.std.specs.Prelude.{◌≤◌, length};
ghost use Rattle.layouts.specs.declared.codes.TheConstants.{MOST};

use crate::telling;
use nb_lines::Told;
use nb_seal::{
    BLOCK_BYTES, CODE_BYTES, MAX_KEYSTREAM, Mac, hmac, same, seal, seal_spare, seal_to, sha,
    stream_xor, unseal, unseal_to,
};
use nb_units::{NoMemory, Secret};
use std::alloc::Global;

// The most bytes of a keystream that are shown, and of a text or a seal.
const MOST: usize = 1000;

// The label that a word spells; zeros where it spells none.
fn label(alloc: Global, word: &str) -> [u8; 4] {
    let bytes = nb_lines::spelled(alloc, word);
    let mut label = [0; 4];
    if bytes.len() == label.len() {
        label.copy_from_slice(&bytes);
    }
    label
}

/// `digest BYTES`: the digest of bytes.
pub fn digest(told: &mut Told, words: &[&str]) -> Result<(), NoMemory> {
    let alloc = told.alloc();
    let [bytes] = words else {
        return told.unclear();
    };
    told.bytes("", &sha(&nb_lines::spelled(alloc, *bytes)))
        .done()
}

/// `code KEY HEAD TAIL`: the code of both under a key of at most 64 bytes, and whether it is the same piece by piece.
pub fn code(told: &mut Told, words: &[&str]) -> Result<(), NoMemory> {
    let alloc = told.alloc();
    let [key, head, tail] = words else {
        return told.unclear();
    };
    let key = nb_lines::spelled(alloc, *key);
    if key.len() > BLOCK_BYTES {
        return told.unclear();
    }
    let head = nb_lines::spelled(alloc, *head);
    let tail = nb_lines::spelled(alloc, *tail);
    let code = hmac(&key, &head, &tail);
    let mut mac = Mac::new(&key);
    mac.push(&head);
    mac.push(&tail);
    let is_same = same(&mac.finish(), &code);
    told.hex("", &code).show("; in pieces: ", &is_same).done()
}

/// `keystream KEY PLACE LENGTH`: so many bytes of the keystream, from a place on that 4 divides.
pub fn keystream(told: &mut Told, words: &[&str]) -> Result<(), NoMemory> {
    let alloc = told.alloc();
    let [key, place, length] = words else {
        return told.unclear();
    };
    let (place, length) = (nb_lines::number(*place), telling::short(*length));
    let length = (length as usize).min(MOST);
    if place % 4 != 0 || place > MAX_KEYSTREAM - length as u64 {
        return told.unclear();
    }
    let mut bytes = vec![in alloc; 0u8; length]?;
    stream_xor(&telling::key(alloc, *key), place, &mut bytes);
    told.bytes("", &bytes).done()
}

/// `seal KEY LABEL TEXT`: the seal of a text, and whether it is the same within the spare of a vector and in a buffer.
pub fn sealed(told: &mut Told, words: &[&str]) -> Result<(), NoMemory> {
    let alloc = told.alloc();
    let [key, label_word, text] = words else {
        return told.unclear();
    };
    let text = nb_lines::spelled(alloc, *text);
    if text.len() > MOST {
        return told.unclear();
    }
    let (key, label) = (telling::key(alloc, *key), label(alloc, *label_word));
    seal_thrice(told, &key, &label, &text)
}

fn seal_thrice(told: &mut Told, key: &Secret, label: &[u8; 4], text: &[u8]) -> Result<(), NoMemory>
    requires { length text.now ≤ MOST }
{
    let mut sealed = Vec::new(told.alloc());
    match seal(key, label, text, &mut sealed) {
        Ok(()) => same_seals(told, key, label, text, &sealed),
        Err(_) => Err(NoMemory),
    }
}

// A seal, and whether it is the same in other places.
fn same_seals(
    told: &mut Told,
    key: &Secret,
    label: &[u8; 4],
    text: &[u8],
    sealed: &[u8],
) -> Result<(), NoMemory>
    requires { length text.now ≤ MOST }
{
    let alloc = told.alloc();
    told.hex("", sealed)
        .show(
            "; the same: ",
            &is_in_spare(alloc, key, label, text, sealed)?,
        )
        .show(", ", &is_in_buffer(alloc, key, label, text, sealed)?)
        .done()
}

// Whether the seal of a text within the spare of a vector is this one.
fn is_in_spare(
    alloc: Global,
    key: &Secret,
    label: &[u8; 4],
    text: &[u8],
    sealed: &[u8],
) -> Result<bool, NoMemory>
    requires { length text.now ≤ MOST }
{
    let mut spare = Vec::with_capacity(alloc, CODE_BYTES + text.len())?;
    seal_spare(key, label, text, &mut spare);
    Ok(spare.as_slice() == sealed)
}

// Whether the seal of a text in a buffer is this one.
fn is_in_buffer(
    alloc: Global,
    key: &Secret,
    label: &[u8; 4],
    text: &[u8],
    sealed: &[u8],
) -> Result<bool, NoMemory>
    requires { length text.now ≤ MOST }
{
    let length = CODE_BYTES + text.len();
    let mut buffer = vec![in alloc; 0u8; length]?;
    let is_all = seal_to(key, label, text, &mut buffer) == length;
    Ok(is_all && buffer.as_slice() == sealed)
}

/// `unseal KEY LABEL BYTES`: the text that the bytes are the seal of, appended to a vector and in a buffer.
pub fn unsealed(told: &mut Told, words: &[&str]) -> Result<(), NoMemory> {
    let alloc = told.alloc();
    let [key, label_word, bytes] = words else {
        return told.unclear();
    };
    let bytes = nb_lines::spelled(alloc, *bytes);
    if bytes.len() > MOST {
        return told.unclear();
    }
    let (key, label) = (telling::key(alloc, *key), label(alloc, *label_word));
    unsealed_behind(told, &key, &label, &bytes)?;
    told.text("; in a buffer: ");
    unsealed_within(told, &key, &label, &bytes)
}

// The text of a seal, appended to a vector.
fn unsealed_behind(
    told: &mut Told,
    key: &Secret,
    label: &[u8; 4],
    bytes: &[u8],
) -> Result<(), NoMemory>
    requires { length bytes.now ≤ MOST }
{
    let mut text = Vec::new(told.alloc());
    match unseal(key, label, bytes, &mut text) {
        Ok(()) => told.bytes("", &text).done(),
        Err(fault) => telling::fault(told, &fault),
    }
}

// The text of a seal, in a buffer.
fn unsealed_within(
    told: &mut Told,
    key: &Secret,
    label: &[u8; 4],
    bytes: &[u8],
) -> Result<(), NoMemory>
    requires { length bytes.now ≤ MOST }
{
    let mut buffer = vec![in told.alloc(); 0u8; bytes.len()]?;
    match unseal_to(key, label, bytes, &mut buffer) {
        Ok(length) => told.bytes("", buffer.as_slice().split_at(length).0).done(),
        Err(fault) => telling::fault(told, &fault),
    }
}
