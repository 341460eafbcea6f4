use nb_units::{NoMemory, Price};
use std::alloc::AllocError;
use std::fmt;
use thiserror::Error;

/// Why a shelf was not read.
#[derive(Clone, Copy, Debug, Error)]
pub enum ShelfFault {
    /// The item of this number, from 1 on, is not of the form of items. Those before it are, and their products' numbers differ.
    #[error("shelf item {item} is bad")]
    BadItem { item: u32 },
    /// The item of this number, from 1 on, is of the form of items, and its product's number is that of one before it.
    #[error("product {id} stands twice")]
    Twice { item: u32, id: u32 },
    /// There was no memory for the product and its goods.
    #[error("no memory")]
    NoMemory,
}

impl From<AllocError> for ShelfFault {
    ghost use Rattle.std.specs.Prelude.{◌≡◌};
    ghost use Rattle.nb_price.specs.declared.fault.ShelfFault.TheVariants as fault;

    ghost from_gives = { λ _ e. e ≡ fault.NoMemory };

    fn from(_error: AllocError) -> ShelfFault {
        ShelfFault::NoMemory
    }
}

impl From<NoMemory> for ShelfFault {
    ghost use Rattle.std.specs.Prelude.{◌≡◌};
    ghost use Rattle.nb_price.specs.declared.fault.ShelfFault.TheVariants as fault;

    ghost from_gives = { λ _ e. e ≡ fault.NoMemory };

    fn from(_none: NoMemory) -> ShelfFault {
        ShelfFault::NoMemory
    }
}

/// Why a product was not put into a catalogue.
#[derive(Clone, Copy)]
pub enum PutFault {
    /// The price is not from 1 to [`MAX_PRICE`](crate::MAX_PRICE).
    BadPrice { price: Price },
    /// The goods have `len` bytes, more than 67,108,864.
    TooLong { len: usize },
    /// The catalogue has a product of this number.
    Taken { id: u32 },
    /// There was no memory for one product more.
    NoMemory,
}

impl From<NoMemory> for PutFault {
    ghost use Rattle.std.specs.Prelude.{◌≡◌};
    ghost use Rattle.nb_price.specs.declared.fault.PutFault.TheVariants as fault;

    ghost from_gives = { λ _ e. e ≡ fault.NoMemory };

    fn from(_none: NoMemory) -> PutFault {
        PutFault::NoMemory
    }
}

/// The catalogue has no product of this number.
#[derive(Clone, Copy)]
pub struct NoProduct {
    pub id: u32,
}

impl fmt::Display for NoProduct {
    fn fmt<W: fmt::Write>(&self, f: &mut fmt::Formatter<W>) -> fmt::Result {
        write!(f, "there is no product {}", self.id)
    }
}
