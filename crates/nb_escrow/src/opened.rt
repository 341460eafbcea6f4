// What an endorsed order holds, opened: in its turn, or before it.

ghost use Rattle.std.specs.Prelude.{◌≡◌, ◌≤◌, length, IfOk, IfErr, Ok, Err};
ghost use Rattle.nb_units.specs.declared.limits.TheConstants.{MAX_HIDDEN};
ghost use Rattle.nb_epo.specs.Reading.{order_of};
ghost use Rattle.nb_epo.specs.Spelling.{order_bytes};
ghost use Rattle.nb_epo.specs.Tags.{order_tag};
ghost use Rattle.nb_endorse.specs.Tags.{endorsement_digest};
ghost use Rattle.nb_endorse.specs.declared.endorsement.TheConstants.{MAX_SEALED};
ghost use Rattle.nb_escrow.specs.Checks.{right_tag};
ghost use Rattle.nb_escrow.specs.Orders as orders;

use nb_body::EndorsedBytes;
use nb_book::{HashedKey, SlotHasher};
use nb_endorse::refusal::{IN_ENDORSEMENT, IN_HIDDEN, IN_ORDER, MALFORMED, NOT_SEALED, WRONG_TAG};
use nb_endorse::{
    DigestedEndorsement, EndorsementBytes, KeptStates, MAX_SEALED, Refusal, SealedFault,
    read_sealed_with,
};
use nb_epo::{Hidden, HiddenBytes, Order, RevealFault, read_order, read_tag_ok, reveal_with};
use nb_seal::KeyState;
use nb_units::{Buffer, MAX_HIDDEN, Malformed, Secret, Small};
use std::marker::Model;

/// What was opened of an endorsed order before its turn, under the keys that were known then: what its sealed endorsement gave, and the
/// tests of the order in it, refusals too, with the order's identifier, hashed. It promises nothing of the request that it was made of: what it holds of its own bytes and keys is
/// its invariant, and what is decided does not depend on it. Where a turn has other bytes, or parties of other keys, the work is done there.
pub struct OpenedOrder {
    endorsement: OpenedEndorsement,
    order: Option<TestedOrder>,
}

impl Drop for OpenedOrder {
    fn drop(self) {
        let Self {
            endorsement: _,
            order: _,
        } = self;
    }
}

impl OpenedOrder {
    /// Opens what a body asks for, with the states of keys that are kept. `None` where the body is no endorsed order, or where no state is kept
    /// for the merchant that it names. The order is tested, and its identifier hashed for the house's book, where its endorsement opened and a state is
    /// kept for its consumer. No clause says so, and nothing decided depends on it.
    pub fn of(body: &[u8], kept: &KeptStates, hasher: &SlotHasher) -> Option<OpenedOrder> {
        let Ok(asked) = EndorsedBytes::read(body) else {
            return None;
        };
        let key = kept.kept_merchant(asked.merchant())?;
        let endorsement = OpenedEndorsement::of(asked.sealed(), key);
        let order = endorsement.tested(kept, hasher);
        Some(OpenedOrder { endorsement, order })
    }

    /// The identifier of the order, hashed, where the order was tested. No clause says so, and nothing decided depends on it.
    pub fn identifier(&self) -> Option<&HashedKey> {
        match &self.order {
            Some(order) => Some(&order.identifier),
            None => None,
        }
    }
}

// What opening these bytes under this key as an endorsement gave.
#[derive(Drop)]
struct OpenedEndorsement {
    sealed: Buffer,
    key: KeyState,
    read: Result<DigestedEndorsement, Refusal>,
}

impl Model for OpenedEndorsement {
    ghost use Rattle.std.specs.Prelude.{ℕ, List};
    ghost use Rattle.nb_escrow.specs.Opened.{ReadsEndorsement};

    ghost Value = { List ℕ };

    ghost view = { λ m. m.sealed };

    ghost invariant = { λ m. ReadsEndorsement m.key m.sealed m.read };
}

impl OpenedEndorsement {
    fn of(bytes: &[u8], key: &KeyState) -> OpenedEndorsement
        requires { length bytes.now ≤ MAX_SEALED }
    {
        let mut sealed = Buffer::new();
        sealed.raw(bytes);
        OpenedEndorsement {
            sealed,
            key: key.copy(),
            read: open_endorsement(bytes, key),
        }
    }

    // The order in it, tested, where it was read and a state is kept for the order's consumer.
    fn tested(&self, kept: &KeptStates, hasher: &SlotHasher) -> Option<TestedOrder> {
        match &self.read {
            Ok(read) => TestedOrder::of(&read.endorsement.order, kept, hasher),
            Err(_) => None,
        }
    }
}

// What testing the tag of the order that these bytes spell, and opening its hidden part, gave under this key; and the order's identifier,
// hashed, of which the invariant says nothing.
#[derive(Drop)]
struct TestedOrder {
    bytes: Small,
    key: KeyState,
    tag: Result<(), Refusal>,
    hidden: Result<Hidden, Refusal>,
    identifier: HashedKey,
}

impl Model for TestedOrder {
    ghost use Rattle.std.specs.Prelude.{ℕ, List};
    ghost use Rattle.nb_escrow.specs.Opened.{TestsOrder};

    ghost Value = { List ℕ };

    ghost view = { λ m. m.bytes };

    ghost invariant = { λ m. TestsOrder m.key m.bytes m.tag m.hidden };
}

impl TestedOrder {
    fn of(bytes: &Small, kept: &KeptStates, hasher: &SlotHasher) -> Option<TestedOrder> {
        let Ok(order) = read_order(bytes.as_slice()) else {
            return None;
        };
        let key = kept.kept_consumer(order.consumer)?;
        Some(TestedOrder {
            bytes: *bytes,
            key: key.copy(),
            tag: check_order_tag(bytes.as_slice(), &order, key),
            hidden: open_hidden(&order.hidden, key),
            identifier: hasher.hash(&order.epoid.write()),
        })
    }
}

// The endorsement that is sealed under the merchant's key: as it was opened before, where that was of these bytes under this key, and else as it
// is opened to `plain`. Its texts stay there.
pub(crate) fn opened_endorsement<'a>(
    opened: Option<&'a OpenedOrder>,
    asked: &EndorsedBytes,
    key: &Secret,
    kept: &mut KeptStates,
    plain: &'a mut [u8; MAX_SEALED],
) -> Result<EndorsementBytes<'a>, Refusal>
    requires { length asked.now.sealed ≤ MAX_SEALED }
    ensures read { IfOk result (λ opened. orders.endorsement_in key.now asked.now.sealed ≡ Ok opened.endorsement) }
    ensures refused { IfErr result (λ refusal. orders.endorsement_in key.now asked.now.sealed ≡ Err refusal) }
    ensures digest { IfOk result (λ opened. opened.digest ≡ endorsement_digest opened.endorsement) }
{
    if let Some(
        OpenedOrder {
            endorsement: memo,
            ..
        },
    ) = opened
    {
        if memo.key.is_of(key) && memo.sealed.as_slice() == asked.sealed() {
            return match &memo.read {
                Ok(read) => Ok(EndorsementBytes::of(read)),
                Err(refusal) => Err(*refusal),
            };
        }
    }
    look_in_endorsement(asked.sealed(), kept.merchant(asked.merchant(), key), plain)
}

// Tests the tag of an order that was read from these bytes: as it was tested before, where that was of these bytes under this key.
pub(crate) fn tested_tag(
    opened: Option<&OpenedOrder>,
    bytes: &[u8],
    order: &Order,
    key: &Secret,
    kept: &mut KeptStates,
) -> Result<(), Refusal>
    requires read { bytes.now ≡ order_bytes order.now }
    requires found { order_of bytes.now ≡ Ok order.now }
    ensures { result ≡ right_tag order.now.tag (order_tag key.now order.now) }
{
    if let Some(
        OpenedOrder {
            order: Some(memo),
            ..
        },
    ) = opened
    {
        if memo.key.is_of(key) && memo.bytes.as_slice() == bytes {
            return memo.tag;
        }
    }
    check_order_tag(bytes, order, kept.consumer(order.consumer, key))
}

// The hidden part, sealed under the consumer's key, of an order that was read from these bytes: as it was opened before, where that was of
// these bytes under this key, and else as it is opened to `plain`. Its memo stays there.
pub(crate) fn opened_hidden<'a>(
    opened: Option<&'a OpenedOrder>,
    bytes: &[u8],
    order: &Order,
    key: &Secret,
    kept: &mut KeptStates,
    plain: &'a mut [u8; MAX_HIDDEN],
) -> Result<HiddenBytes<'a>, Refusal>
    requires short { length order.now.hidden ≤ MAX_HIDDEN }
    requires found { order_of bytes.now ≡ Ok order.now }
    ensures { result ≡ orders.hidden_in key.now order.now.hidden }
{
    if let Some(
        OpenedOrder {
            order: Some(memo),
            ..
        },
    ) = opened
    {
        if memo.key.is_of(key) && memo.bytes.as_slice() == bytes {
            return match &memo.hidden {
                Ok(hidden) => Ok(HiddenBytes::of(hidden)),
                Err(refusal) => Err(*refusal),
            };
        }
    }
    look_in_hidden(&order.hidden, kept.consumer(order.consumer, key), plain)
}

// The endorsement that is sealed under the merchant's key.
#[tactic(auto, unfolding(crate::specs::Orders::endorsement_in))]
fn open_endorsement(sealed: &[u8], key: &KeyState) -> Result<DigestedEndorsement, Refusal>
    requires { length sealed.now ≤ MAX_SEALED }
    ensures read { IfOk result (λ opened. orders.endorsement_in key.now sealed.now ≡ Ok opened.endorsement) }
    ensures refused { IfErr result (λ refusal. orders.endorsement_in key.now sealed.now ≡ Err refusal) }
    ensures digest { IfOk result (λ opened. opened.digest ≡ endorsement_digest opened.endorsement) }
{
    match read_sealed_with(sealed, key) {
        Ok(opened) => Ok(opened),
        Err(fault) => Err(unread_endorsement(fault)),
    }
}

// The same, whose texts stay in `plain`.
#[tactic(auto, unfolding(crate::specs::Orders::endorsement_in))]
fn look_in_endorsement<'a>(
    sealed: &[u8],
    key: &KeyState,
    plain: &'a mut [u8; MAX_SEALED],
) -> Result<EndorsementBytes<'a>, Refusal>
    requires { length sealed.now ≤ MAX_SEALED }
    ensures read { IfOk result (λ opened. orders.endorsement_in key.now sealed.now ≡ Ok opened.endorsement) }
    ensures refused { IfErr result (λ refusal. orders.endorsement_in key.now sealed.now ≡ Err refusal) }
    ensures digest { IfOk result (λ opened. opened.digest ≡ endorsement_digest opened.endorsement) }
{
    match EndorsementBytes::open(sealed, key, plain) {
        Ok(opened) => Ok(opened),
        Err(fault) => Err(unread_endorsement(fault)),
    }
}

// The refusal of an endorsement that was not read.
fn unread_endorsement(fault: SealedFault) -> Refusal
    ensures { result ≡ orders.unread_endorsement fault }
{
    match fault {
        SealedFault::BadSeal { iv } => Refusal::with(NOT_SEALED, &iv),
        SealedFault::Malformed { place } => Refusal::of(MALFORMED, place as u64, IN_ENDORSEMENT),
    }
}

// The refusal of an order that was not read.
pub(crate) fn unread_order(malformed: Malformed) -> Refusal
    ensures { result ≡ orders.unread_order malformed.place }
{
    Refusal::of(MALFORMED, malformed.place as u64, IN_ORDER)
}

// The hidden part that is sealed under the consumer's key.
#[tactic(auto, unfolding(crate::specs::Orders::hidden_in))]
fn open_hidden(sealed: &Small, key: &KeyState) -> Result<Hidden, Refusal>
    requires { length sealed.now ≤ MAX_HIDDEN }
    ensures { result ≡ orders.hidden_in key.now sealed.now }
{
    match reveal_with(sealed.as_slice(), key) {
        Ok(hidden) => Ok(hidden),
        Err(fault) => Err(unread_hidden(fault)),
    }
}

// The same, whose memo stays in `plain`.
#[tactic(auto, unfolding(crate::specs::Orders::hidden_in))]
fn look_in_hidden<'a>(
    sealed: &Small,
    key: &KeyState,
    plain: &'a mut [u8; MAX_HIDDEN],
) -> Result<HiddenBytes<'a>, Refusal>
    requires { length sealed.now ≤ MAX_HIDDEN }
    ensures { result ≡ orders.hidden_in key.now sealed.now }
{
    match HiddenBytes::reveal(sealed.as_slice(), key, plain) {
        Ok(hidden) => Ok(hidden),
        Err(fault) => Err(unread_hidden(fault)),
    }
}

// The refusal of a hidden part that was not read.
fn unread_hidden(fault: RevealFault) -> Refusal
    ensures { result ≡ orders.unread_hidden fault }
{
    match fault {
        RevealFault::BadSeal { iv } => Refusal::with(NOT_SEALED, &iv),
        RevealFault::Malformed { place } => Refusal::of(MALFORMED, place as u64, IN_HIDDEN),
    }
}

#[tactic(auto, unfolding(crate::specs::Checks::right_tag))]
fn check_order_tag(bytes: &[u8], order: &Order, key: &KeyState) -> Result<(), Refusal>
    requires read { bytes.now ≡ order_bytes order.now }
    ensures { result ≡ right_tag order.now.tag (order_tag key.now order.now) }
{
    if read_tag_ok(bytes, order, key) {
        Ok(())
    } else {
        Err(Refusal::with(WRONG_TAG, &order.tag))
    }
}
