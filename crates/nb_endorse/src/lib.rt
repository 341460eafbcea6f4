//! What merchant and house say of an order: the endorsement that asks for the payment, the receipts that answer it, and the
//! house's refusals and replies.
//!
//! An [`Endorsement`] is an order's bytes with the merchant's account, a memo and the key of the goods. It goes to the house
//! sealed under the merchant's key, and is held by its digest. The house looks at it as [`EndorsementBytes`], whose texts stay where
//! they were opened. A [`Receipt`] is what the house says of the order to one of
//! its parties: [`Signed`] with the house's tag, and sealed under the party's key. A [`Refusal`] is a code and what the code
//! shows: two numbers and 32 bytes, of which zeros are what it does not show. A [`Reply`] is what one request is answered,
//! and [`ReplyKeys`] are the keys that it is made with. [`KeptStates`] are the states of keys that a house, or who writes its replies, keeps from one
//! request to the next, each in a [`StateCache`]: what [`StateCache::state`] gives does not depend on what one holds.
//!
//! The layouts stand in `specs/Spelling.antt`, each as a function of the value, and in `specs/Reading.antt`, field by field
//! with the place of each. That they are the two sides of one thing is proved by the functions of [`laws`]: what was
//! spelled is read as that value, and what was read is spelled as those bytes. Writers append the seal of exactly that
//! spelling and keep the vector's capacity. Readers give what is sealed, or tell that the bytes are the seal of nothing,
//! or the place of the first field that fails: `specs/Sealed.antt`. What a refusal that shows numbers or bytes is stands in
//! `specs/Refusals.antt`, and [`laws::limits`] has the lengths of what is sealed, the labels and the codes of receipts. Where the code,
//! the identifier and the key of a receipt stand in its bytes is proved by the functions of [`places`].
//!
//! Left to others: what the order's bytes say and whether it is paid, which code a refused order gets and what its receipt
//! shows to whom, whose keys these are, which refusal a request gets, and how a reply is spelled in bytes. No memory is
//! taken, but by a cache where it is made.
//!
//! Not said: that there is memory for a cache, and that one keeps anything. A state that [`StateCache::state`] gives is that of its key whatever the
//! slots hold; what [`StateCache::kept`] gives is tested where it is used; and what keeping saves is for bench to show.
//!
//! Not said: what the order's bytes in an endorsement say, which `nb_epo` reads; and which code a refused order gets and what its receipt shows
//! to whom, which the decision says.
#![tactic(auto)]

mod cache;
mod endorsement;
pub mod laws;
pub mod places;
mod receipt;
pub mod refusal;
mod reply;
mod sealed;

pub use cache::{ASKER_SLOTS, KeptStates, PARTY_SLOTS, StateCache};
pub use endorsement::{
    DigestedEndorsement, Endorsement, EndorsementBytes, MAX_SEALED, digest_of, read_sealed,
    read_sealed_with, write_sealed,
};
pub use receipt::{
    ABSENT, NO_KEY, PAID_CODE, PRESENT, RECEIPT_BYTES, Receipt, SIGNED_BYTES, Signed, read_receipt,
    read_signed, receipt_tag_ok, seal_receipt, sign_receipt, sign_receipt_with, write_receipt,
    write_receipt_with,
};
pub use refusal::Refusal;
pub use reply::{Reply, ReplyKeys};
pub use sealed::SealedFault;
