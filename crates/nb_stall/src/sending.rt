ghost use Rattle.std.specs.Prelude.{◌≡◌, ◌≤◌, ◌<◌, ◌+◌, ◌%◌, length, IfOk};
ghost use Rattle.nb_seal.specs.declared.limits.TheConstants.{MAX_TEXT};
ghost use Rattle.nb_seal.specs.Seal.{seal_of};
ghost use Rattle.nb_goods.specs.declared.limits.TheConstants.{PART_BYTES};
ghost use Rattle.nb_goods.specs.Goods.{sealed_goods};
ghost use Rattle.nb_goods.specs.Parts.{parts_of};
ghost use Rattle.nb_stall.specs.Messages as messages;

use crate::stall::Stall;
use nb_body::{GoodsHead, Quote};
use nb_endorse::{Endorsement, MAX_SEALED, write_sealed};
use nb_goods::{Parts, goods_key};
use nb_msgs::{GOODS_HEAD_LABEL, Message, QUOTE_LABEL, sealed};
use nb_seal::KeyState;
use nb_units::width::SEAL;
use nb_units::{Blob, Epoid, NoMemory, Small};
use std::alloc::Global;

/// A price, sealed under the session key. Answers [`NoMemory`] where there is none for it.
pub fn quote_message(alloc: Global, session: &KeyState, quote: &Quote) -> Result<Message, NoMemory>
    ensures { IfOk result (λ message. message ≡ messages.quote_message session.now quote.now) }
{
    let plain = quote.spelled();
    let sealed = sealed(alloc, session, &QUOTE_LABEL, plain.as_slice())?;
    Ok(Message::Quote {
        transaction: quote.transaction,
        sealed,
    })
}

/// The part at a place of these goods, sealed as their parts say, and what is said of it, sealed under the session key. A part begins there: it is a multiple of
/// the bytes of one, below the bytes of all. Answers [`NoMemory`] where there is none for them.
pub fn goods_message(
    alloc: Global,
    session: &KeyState,
    transaction: u64,
    epoid: Epoid,
    parts: &Parts,
    goods: &[u8],
    place: u64,
) -> Result<Message, NoMemory>
    requires same_goods { parts.now ≡ parts_of parts.now.key goods.now }
    requires starts { place % PART_BYTES ≡ 0 }
    requires within { place < parts.now.total }
    // The message with that part, and with what is said of it, sealed under the session key; or there was no memory.
    ensures { IfOk result (λ message. message ≡ messages.goods_message session.now transaction epoid (sealed_goods parts.now.key goods.now) place) }
{
    let head = GoodsHead {
        transaction,
        epoid,
        total: parts.total(),
        place,
        checksum: parts.checksum(),
    };
    let plain = head.spelled();
    let sealed = sealed(alloc, session, &GOODS_HEAD_LABEL, plain.as_slice())?;
    let part = parts.part(alloc, goods, place)?;
    Ok(Message::Goods {
        transaction,
        head: sealed,
        part,
    })
}

/// An order, endorsed with the key of its identifier's serial number and the stall's account, sealed under the stall's key. Answers [`NoMemory`]
/// where there is none for it.
pub fn endorsed_message(
    alloc: Global,
    stall: &Stall,
    epoid: &Epoid,
    order: &Small,
) -> Result<Message, NoMemory>
    ensures { IfOk result (λ message. message ≡ messages.endorsed_message stall.now epoid.now order.now) }
{
    let endorsement = Endorsement {
        order: *order,
        macct: stall.acct,
        memo: Small::of(&[]).unwrap(),
        key: goods_key(&stall.master, stall.id, epoid.serial),
    };
    let mut sealed = Vec::with_capacity(alloc, MAX_SEALED)?;
    write_sealed(&endorsement, &stall.key, &mut sealed);
    Ok(Message::Endorsed {
        merchant: stall.id,
        sealed: Blob::from_vec(sealed),
    })
}
