ghost use Rattle.std.specs.Prelude.{◌≡◌, ◌≤◌, length, IfOk, IfErr};
ghost use Rattle.nb_endorse.specs.declared.receipt.TheConstants.{RECEIPT_BYTES};
ghost use Rattle.nb_goods.specs.declared.limits.TheConstants.{MAX_SEALED};
ghost use Rattle.nb_judge.specs.Layout.{IsCase, case_bytes, case_of};
ghost use Rattle.nb_judge.specs.Reading.{ReadsCase};
ghost use Rattle.nb_judge.specs.Ruling.{Rules};

use crate::case_bytes::CaseBytes;
use crate::ruling::Ruling;
use nb_epo::Order;
use nb_units::{Blob, Malformed, NoMemory, Secret, Small};
use std::alloc::Global;

/// The evidence of a dispute.
#[derive(Drop)]
pub struct Case {
    /// The house's key, 32 bytes, which the tags of receipts are made with.
    pub house: Secret,
    /// The consumer's key, 32 bytes.
    pub consumer: Secret,
    /// The order that the consumer says it made.
    pub order: Order,
    /// The receipt, sealed for the consumer: at most [`RECEIPT_BYTES`](nb_endorse::RECEIPT_BYTES) bytes.
    pub receipt: Small,
    /// The goods as they came, sealed: at most [`MAX_SEALED`](nb_goods::MAX_SEALED) bytes.
    pub sealed: Blob,
}

/// Why a case was not read.
#[derive(Clone, Copy)]
pub enum CaseFault {
    /// The bytes are not spelled as a case is. The place is that of the first field that fails, in bytes from the front.
    Malformed { place: usize },
    /// There was no memory for the sealed goods.
    NoMemory,
}

impl From<Malformed> for CaseFault {
    ghost use Rattle.std.specs.Prelude.{◌≡◌};
    ghost use Rattle.nb_judge.specs.declared.case.CaseFault.TheVariants as fault;

    // the same place
    ghost from_gives = { λ bad e. e ≡ fault.Malformed bad.place };

    fn from(bad: Malformed) -> CaseFault {
        CaseFault::Malformed { place: bad.place }
    }
}

impl From<NoMemory> for CaseFault {
    ghost use Rattle.std.specs.Prelude.{◌≡◌};
    ghost use Rattle.nb_judge.specs.declared.case.CaseFault.TheVariants as fault;

    ghost from_gives = { λ _ e. e ≡ fault.NoMemory };

    fn from(_fault: NoMemory) -> CaseFault {
        CaseFault::NoMemory
    }
}

/// The case that the bytes spell, with a copy of its sealed goods. The place of a fault is that of [`CaseBytes::read`].
pub fn read_case(alloc: Global, bytes: &[u8]) -> Result<Case, CaseFault>
    ensures reads { ReadsCase result (case_of bytes.now) }
    ensures spelled { IfOk result (λ c. IsCase c × (bytes.now ≡ case_bytes c)) }
{
    let read = CaseBytes::read(bytes)?;
    Ok(Case {
        house: read.house,
        consumer: read.consumer,
        order: read.order,
        receipt: Small::of(read.receipt).unwrap(),
        sealed: Blob::of(alloc, read.sealed)?,
    })
}

/// The ruling on a case. Its receipt has at most [`RECEIPT_BYTES`](nb_endorse::RECEIPT_BYTES) bytes and its sealed goods at most
/// [`MAX_SEALED`](nb_goods::MAX_SEALED), as in a case that was read. It takes no memory.
pub fn judge(c: &Case) -> Ruling
    requires receipt { length c.now.receipt ≤ RECEIPT_BYTES }
    requires sealed { length c.now.sealed ≤ MAX_SEALED }
    ensures { Rules c.now result }
{
    let standing = CaseBytes {
        house: c.house,
        consumer: c.consumer,
        order: c.order,
        receipt: c.receipt.as_slice(),
        sealed: c.sealed.as_slice(),
    };
    standing.judge()
}
