// The heads of the journals of wallets and stalls.

use nb_lines::Told;
use nb_stall::Stall;
use nb_units::{HEAD, NoMemory};
use nb_wallet::Wallet;

/// `head wallet HEX`, `head stall HEX`: who the 80 bytes tell of, and in a second line the head of that.
pub(crate) fn head(told: &mut Told, words: &[&str]) -> Result<(), NoMemory> {
    let [owner, text] = words else {
        return told.unclear();
    };
    let bytes = nb_lines::spelled(told.alloc(), *text);
    if bytes.len() != HEAD {
        return told.unclear();
    }
    let mut head = [0u8; HEAD];
    head.copy_from_slice(&bytes);
    match *owner {
        "wallet" => wallet(told, &Wallet::of_head(&head)),
        "stall" => stall(told, &Stall::of_head(&head)),
        _ => told.unclear(),
    }
}

fn wallet(told: &mut Told, wallet: &Wallet) -> Result<(), NoMemory> {
    told.show("wallet ", &wallet.id.0)
        .show(", account ", &wallet.acct.0);
    told.show(", nonce ", &wallet.nonce)
        .bytes(", key ", &wallet.key);
    told.bytes("\n", &wallet.head()).done()
}

fn stall(told: &mut Told, stall: &Stall) -> Result<(), NoMemory> {
    told.show("stall ", &stall.id.0)
        .show(", account ", &stall.acct.0);
    told.bytes(", key ", &stall.key)
        .bytes(", master ", &stall.master);
    told.bytes("\n", &stall.head()).done()
}
