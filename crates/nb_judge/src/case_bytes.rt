ghost use Rattle.std.specs.Prelude.{◌≡◌, ◌≤◌, length, IfOk, IfSome, Ok, None};
ghost use Rattle.nb_units.specs.Reads.{Reads};
ghost use Rattle.nb_seal.specs.Seal.{iv_shown};
ghost use Rattle.nb_endorse.specs.declared.receipt.Receipt.{Receipt as ReceiptValue};
ghost use Rattle.nb_endorse.specs.declared.receipt.TheConstants.{RECEIPT_BYTES};
ghost use Rattle.nb_endorse.specs.Spelling.{IsReceipt};
ghost use Rattle.nb_goods.specs.declared.limits.TheConstants.{MAX_SEALED};
ghost use Rattle.nb_judge.specs.declared.case.Case.{Case as CaseValue};
ghost use Rattle.nb_judge.specs.Layout.{IsCase, case_bytes, case_of, order_within};
ghost use Rattle.nb_judge.specs.Ruling.{Rules, RulesByReceipt, RulesByFields, RulesByCode, RulesByGoods, RulesByKey, Shows};

use crate::ruling::Ruling;
use nb_endorse::{RECEIPT_BYTES, Receipt, read_receipt, receipt_tag_ok};
use nb_epo::{Order, order_tag_ok, read_order};
use nb_goods::{MAX_SEALED, checksum, opens};
use nb_units::width::{LENGTH, SEAL, SECRET};
use nb_units::{Cut, MAX_ORDER, Malformed, Secret};
use std::marker::Model;

/// The most bytes of a case.
pub const MAX_CASE: usize = 2 * SECRET + 3 * LENGTH + MAX_ORDER + RECEIPT_BYTES + MAX_SEALED;

// Where an order's bytes begin in a case.
const ORDER_PLACE: usize = 2 * SECRET + LENGTH;

/// A case whose receipt and sealed goods stay where they were read. It is seen as the [`Case`](crate::Case) that the bytes spell.
#[derive(Drop)]
pub struct CaseBytes<'a> {
    pub(crate) house: Secret,
    pub(crate) consumer: Secret,
    pub(crate) order: Order,
    pub(crate) receipt: &'a [u8],
    pub(crate) sealed: &'a [u8],
}

impl<'a> Model for CaseBytes<'a> {
    ghost use Rattle.nb_judge.specs.declared.case.Case.{Case};

    ghost Value = { Case };

    ghost view = { λ c. record { house = c.house; consumer = c.consumer; order = c.order; receipt = c.receipt.now; sealed = c.sealed.now } };
}

impl<'a> CaseBytes<'a> {
    /// The case that the bytes spell, or the place of the first field that fails, in bytes from their front: a field of which bytes are missing, one with a
    /// length above its limit, told at the place of that length, a field of the order that is not in its grammar, or the first byte behind
    /// the sealed goods.
    pub fn read(bytes: &'a [u8]) -> Result<CaseBytes<'a>, Malformed>
        // The fields in their order, and the first that fails.
        ensures reads { Reads result (case_of bytes.now) }

        // What is read is spelled so, and within its limits.
        ensures spelled { IfOk result (λ c. IsCase c × (bytes.now ≡ case_bytes c)) }

        // What is spelled so is read.
        ensures found { (c : CaseValue) → IsCase c → bytes.now ≡ case_bytes c → result ≡ Ok c }
    {
        read_fields(bytes)
    }

    /// The ruling. It takes no memory.
    pub fn judge(&self) -> Ruling
        requires receipt { length self.now.receipt ≤ RECEIPT_BYTES }
        requires sealed { length self.now.sealed ≤ MAX_SEALED }
        ensures { Rules self.now result }
    {
        if order_tag_ok(&self.order, &self.consumer) {
            self.rule_by_receipt()
        } else {
            Ruling::NoOrder {
                tag: self.order.tag,
            }
        }
    }

    // The receipt opens under the consumer's key to one with the house's tag.
    fn rule_by_receipt(&self) -> Ruling
        requires receipt { length self.now.receipt ≤ RECEIPT_BYTES }
        requires sealed { length self.now.sealed ≤ MAX_SEALED }
        ensures { RulesByReceipt self.now result }
    {
        match shown(self.receipt, &self.consumer, &self.house) {
            Some(receipt) => self.rule_by_fields(&receipt),
            None => Ruling::NoReceipt {
                iv: front(self.receipt),
            },
        }
    }

    // It is of this order.
    fn rule_by_fields(&self, receipt: &Receipt) -> Ruling
        requires keyed { IsReceipt receipt.now }
        requires sealed { length self.now.sealed ≤ MAX_SEALED }
        ensures { RulesByFields self.now receipt.now result }
    {
        let order = &self.order;
        match receipt.first_difference(
            &order.epoid,
            order.consumer,
            order.merchant,
            order.product,
            order.price,
        ) {
            Some(field) => Ruling::OtherOrder { field },
            None => self.rule_by_code(receipt),
        }
    }

    // It says paid, and has the key.
    fn rule_by_code(&self, receipt: &Receipt) -> Ruling
        requires keyed { IsReceipt receipt.now }
        requires sealed { length self.now.sealed ≤ MAX_SEALED }
        ensures { RulesByCode self.now receipt.now result }
    {
        match &receipt.key {
            Some(key) => self.rule_by_goods(key),
            None => Ruling::NotPaid { code: receipt.code },
        }
    }

    // The goods are those that were ordered.
    fn rule_by_goods(&self, key: &Secret) -> Ruling
        requires sealed { length self.now.sealed ≤ MAX_SEALED }
        ensures { RulesByGoods self.now key.now result }
    {
        let named = self.order.checksum;
        let given = checksum(self.sealed);
        if given == named {
            self.rule_by_key(key)
        } else {
            Ruling::WrongGoods { named, given }
        }
    }

    // The key opens them.
    fn rule_by_key(&self, key: &Secret) -> Ruling
        requires sealed { length self.now.sealed ≤ MAX_SEALED }
        ensures { RulesByKey self.now key.now result }
    {
        if opens(key, self.sealed) {
            Ruling::KeyOpens {
                len: (self.sealed.len() - SEAL) as u64,
            }
        } else {
            Ruling::WrongKey {
                iv: front(self.sealed),
            }
        }
    }
}

#[tactic(auto, unfolding(crate::specs::Layout::case_of))]
fn read_fields(bytes: &[u8]) -> Result<CaseBytes, Malformed>
    ensures { Reads result (case_of bytes.now) }
{
    let mut cut = Cut::new(bytes);
    let house = cut.fixed32()?;
    let consumer = cut.fixed32()?;
    let text = cut.bytes(MAX_ORDER as u32)?;
    let order = read_order_within(text)?;
    let receipt = cut.bytes(RECEIPT_BYTES as u32)?;
    let sealed = cut.bytes(MAX_SEALED as u32)?;
    cut.done()?;
    Ok(CaseBytes {
        house,
        consumer,
        order,
        receipt,
        sealed,
    })
}

// The order of a case. A bad place is counted from the front of the case.
fn read_order_within(text: &[u8]) -> Result<Order, Malformed>
    ensures { Reads result (order_within text.now) }
{
    match read_order(text) {
        Ok(order) => Ok(order),
        Err(Malformed { place }) => Err(Malformed {
            place: ORDER_PLACE + place,
        }),
    }
}

// The receipt that the bytes open to under the consumer's key, where it has the house's tag.
fn shown(bytes: &[u8], consumer: &Secret, house: &Secret) -> Option<Receipt>
    requires { length bytes.now ≤ RECEIPT_BYTES }
    ensures some { IfSome result (λ r. Shows consumer.now house.now bytes.now r) }
    ensures none { result ≡ None → (r : ReceiptValue) → ¬ Shows consumer.now house.now bytes.now r }
{
    match read_receipt(bytes, consumer) {
        Ok(signed) if receipt_tag_ok(&signed, house) => Some(signed.receipt),
        _ => None,
    }
}

// The first 32 bytes, with zeros where there are fewer.
fn front(bytes: &[u8]) -> [u8; SEAL]
    ensures { result ≡ iv_shown bytes.now }
{
    let mut front = [0u8; SEAL];
    let n = bytes.len().min(SEAL);
    front[..n].copy_from_slice(&bytes[..n]);
    front
}
