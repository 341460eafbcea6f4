ghost use Rattle.std.specs.Prelude.{◌≡◌, ◌≤◌, ◌+◌, ◌++◌, length, codes, IfOk};
ghost use Rattle.sha2.specs.Sha256.{sha256};
ghost use Rattle.nb_units.specs.declared.limits.TheConstants.{MAX_HIDDEN, MAX_MEMO, MAX_ORDER};
ghost use Rattle.nb_body.specs.declared.limits.TheConstants.{MAX_REQUEST, MAX_PRICE_REQUEST};
ghost use Rattle.nb_seal.specs.Hmac.{hmac_of};
ghost use Rattle.nb_seal.specs.Seal.{seal_of};
ghost use Rattle.nb_epo.specs.Spelling.{IsOrder, order_bytes};
ghost use Rattle.nb_wallet.specs.Orders as orders;
ghost use Rattle.nb_wallet.specs.Spelling.{StartKeepsRules};

use crate::wallet::{Start, Wallet};
use nb_body::PriceRequest;
use nb_epo::{Hidden, Order, account_digest, hide, sign_order, write_order};
use nb_seal::sha;
use nb_units::{Buffer, Digest, Epoid, MAX_ORDER, NoMemory, Price, Small};
use std::alloc::Global;

/// What a price is asked for, as [`PriceRequest::spelled`] spells it. The request has at most [`MAX_REQUEST`](nb_body::MAX_REQUEST) bytes.
pub fn price_text(start: &Start) -> Buffer
    requires { length start.now.request ≤ MAX_REQUEST }
    ensures text { result ≡ orders.price_request_of_start start.now }
    ensures short { length result ≤ MAX_PRICE_REQUEST }
{
    let request = PriceRequest {
        transaction: start.transaction,
        product: start.product,
        request: start.request,
    };
    request.spelled()
}

/// The SHA-256 digest (FIPS 180-4) of what a price is asked for. The request has at most [`MAX_REQUEST`](nb_body::MAX_REQUEST) bytes.
pub fn request_digest(start: &Start) -> Digest
    requires { length start.now.request ≤ MAX_REQUEST }
    ensures { result ≡ sha256 (orders.price_request_of_start start.now) }
{
    sha(price_text(start).as_slice())
}

/// The order of a purchase at this price, with this identifier and this checksum of the sealed goods, signed with the consumer's key.
pub fn order_for(
    wallet: &Wallet,
    start: &Start,
    price: Price,
    epoid: Epoid,
    checksum: &Digest,
) -> Order
    // Request and memo are not longer than they may be.
    requires { StartKeepsRules start.now }
    ensures order { result ≡ orders.order_for wallet.now start.now price epoid checksum.now }
    ensures hidden { length result.hidden ≤ MAX_HIDDEN }
{
    let hidden = Hidden {
        acct: wallet.acct,
        nonce: wallet.nonce,
        memo: start.memo,
    };
    let mut order = Order {
        consumer: wallet.id,
        merchant: start.merchant,
        product: start.product,
        price,
        epoid,
        checksum: *checksum,
        request: request_digest(start),
        account: account_digest(wallet.acct, wallet.nonce),
        hidden: hide(&hidden, &wallet.key),
        tag: [0; 32],
    };
    sign_order(&mut order, &wallet.key);
    order
}

/// The bytes of an order, whose hidden part has at most [`MAX_HIDDEN`](nb_units::MAX_HIDDEN) bytes. Answers [`NoMemory`] where there is none for them.
pub fn order_text(alloc: Global, order: &Order) -> Result<Small, NoMemory>
    requires { length order.now.hidden ≤ MAX_HIDDEN }
    ensures bytes { IfOk result (λ text. text ≡ order_bytes order.now) }
    ensures fits { IfOk result (λ _. IsOrder order.now) }
    ensures short { IfOk result (λ text. length text ≤ MAX_ORDER) }
{
    let mut bytes = Vec::with_capacity(alloc, MAX_ORDER)?;
    write_order(order, &mut bytes);
    Ok(Small::of(bytes.as_slice()).unwrap())
}
