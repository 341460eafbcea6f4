// What is sealed under a key: endorsements, receipts and hidden parts.

ghost use Rattle.std.specs.Prelude.{◌≤◌, length};
ghost use Rattle.nb_units.specs.declared.limits.TheConstants.{MAX_MEMO};

use crate::signed::lawful;
use crate::telling;
use nb_endorse::{
    DigestedEndorsement, Endorsement, MAX_SEALED, RECEIPT_BYTES, digest_of, read_receipt,
    read_sealed, read_sealed_with, receipt_tag_ok, write_receipt, write_sealed,
};
use nb_epo::{Hidden, account_digest, hide, reveal};
use nb_lines::Told;
use nb_seal::KeyState;
use nb_units::{AcctId, MAX_HIDDEN, MAX_MEMO, NoMemory, Small, room};
use std::alloc::Global;

// The memo that a word spells, as far as one goes.
fn memo(alloc: Global, word: &str) -> Small
    ensures { length result ≤ MAX_MEMO }
{
    let bytes = nb_lines::spelled(alloc, word);
    let (memo, _) = bytes.split_at(bytes.len().min(MAX_MEMO));
    Small::of(memo).unwrap()
}

/// `endorse KEY ORDER ACCOUNT MEMO GOODS`: the digest of an endorsement, and the endorsement, sealed under the merchant's key.
pub fn endorse(told: &mut Told, words: &[&str]) -> Result<(), NoMemory> {
    let alloc = told.alloc();
    let [key, order, account, note, goods] = words else {
        return told.unclear();
    };
    let Some(order) = Small::of(&nb_lines::spelled(alloc, *order)) else {
        return told.unclear();
    };
    let endorsement = Endorsement {
        order,
        macct: AcctId(telling::short(*account)),
        memo: memo(alloc, *note),
        key: telling::key(alloc, *goods),
    };
    let mut sealed = Vec::new(alloc);
    room(&mut sealed, MAX_SEALED)?;
    write_sealed(&endorsement, &telling::key(alloc, *key), &mut sealed);
    told.hex("digest ", &digest_of(&endorsement))
        .hex(", sealed ", &sealed)
        .done()
}

/// `open-endorsement KEY BYTES`: the endorsement that the bytes are the seal of, its digest, and whether both readers give the same.
pub fn open_endorsement(told: &mut Told, words: &[&str]) -> Result<(), NoMemory> {
    let alloc = told.alloc();
    let [key, bytes] = words else {
        return told.unclear();
    };
    let key = telling::key(alloc, *key);
    let bytes = nb_lines::spelled(alloc, *bytes);
    if bytes.len() > MAX_SEALED {
        return told.unclear();
    }
    match read_sealed_with(&bytes, &KeyState::new(&key)) {
        Ok(read) => endorsed(
            told,
            &read,
            read_sealed(&bytes, &key) == Ok(read.endorsement),
        ),
        Err(fault) => telling::fault(told, &fault),
    }
}

fn endorsed(told: &mut Told, read: &DigestedEndorsement, same: bool) -> Result<(), NoMemory> {
    let DigestedEndorsement {
        endorsement,
        digest,
    } = read;
    let (order, memo) = (endorsement.order.as_slice(), endorsement.memo.as_slice());
    let fields = (order, endorsement.macct, memo, endorsement.key);
    told.debug("", &fields)
        .debug("; digest ", digest)
        .show("; both alike: ", &same)
        .done()
}

/// `seal-receipt KEY RECEIPT`: a receipt and its tag, sealed under a party's key.
pub fn seal_receipt(told: &mut Told, words: &[&str]) -> Result<(), NoMemory> {
    let alloc = told.alloc();
    let [key, bytes] = words else {
        return told.unclear();
    };
    match lawful(&nb_lines::spelled(alloc, *bytes)) {
        Ok(signed) => {
            let mut sealed = Vec::new(alloc);
            room(&mut sealed, RECEIPT_BYTES)?;
            write_receipt(&signed, &telling::key(alloc, *key), &mut sealed);
            told.bytes("", &sealed).done()
        }
        Err(_) => told.unclear(),
    }
}

/// `open-receipt KEY HOUSE BYTES`: the receipt that the bytes are the seal of, and whether its tag is the house's.
pub fn open_receipt(told: &mut Told, words: &[&str]) -> Result<(), NoMemory> {
    let alloc = told.alloc();
    let [key, house, bytes] = words else {
        return told.unclear();
    };
    let bytes = nb_lines::spelled(alloc, *bytes);
    if bytes.len() > RECEIPT_BYTES {
        return told.unclear();
    }
    match read_receipt(&bytes, &telling::key(alloc, *key)) {
        Ok(signed) => {
            let stands = receipt_tag_ok(&signed, &telling::key(alloc, *house));
            told.debug("", &signed)
                .show("; its tag stands: ", &stands)
                .done()
        }
        Err(fault) => telling::fault(told, &fault),
    }
}

/// `hide KEY ACCOUNT NONCE MEMO`: a hidden part, sealed under the consumer's key.
pub fn hidden(told: &mut Told, words: &[&str]) -> Result<(), NoMemory> {
    let alloc = told.alloc();
    let [key, account, nonce, note] = words else {
        return told.unclear();
    };
    let hidden = Hidden {
        acct: AcctId(telling::short(*account)),
        nonce: nb_lines::number(*nonce),
        memo: memo(alloc, *note),
    };
    told.bytes("", hide(&hidden, &telling::key(alloc, *key)).as_slice())
        .done()
}

/// `reveal KEY BYTES`: the hidden part that the bytes are the seal of.
pub fn revealed(told: &mut Told, words: &[&str]) -> Result<(), NoMemory> {
    let alloc = told.alloc();
    let [key, bytes] = words else {
        return told.unclear();
    };
    let bytes = nb_lines::spelled(alloc, *bytes);
    if bytes.len() > MAX_HIDDEN {
        return told.unclear();
    }
    match reveal(&bytes, &telling::key(alloc, *key)) {
        Ok(Hidden { acct, nonce, memo }) => {
            let fields = (acct, nonce, memo.as_slice());
            told.debug("", &fields).done()
        }
        Err(fault) => telling::fault(told, &fault),
    }
}

/// `account ACCOUNT NONCE`: the digest that an order shows of them.
pub fn account(told: &mut Told, words: &[&str]) -> Result<(), NoMemory> {
    let [account, nonce] = words else {
        return told.unclear();
    };
    let account = AcctId(telling::short(*account));
    told.bytes("", &account_digest(account, nb_lines::number(*nonce)))
        .done()
}
