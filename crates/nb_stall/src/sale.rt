ghost use Rattle.std.specs.Prelude.{◌≡◌};
ghost use Rattle.nb_stall.specs.Sales as sales;

use crate::item::Item;
use nb_goods::Parts;
use nb_units::{Digest, Epoid, Price, Small};

/// How far a purchase has come.
#[derive(Clone, Copy, PartialEq, Eq)]
pub enum Stage {
    /// A price was told.
    Quoted,
    /// The goods were sealed.
    Delivered,
    /// The consumer's order was endorsed.
    Endorsed,
    /// The house told the result.
    Settled,
}

/// How far a purchase has come, with what was kept on the way.
#[derive(Clone, Copy)]
pub enum Progress {
    /// A price was told.
    Quoted,
    /// The goods were sealed.
    Delivered {
        /// The identifier that the order must have.
        epoid: Epoid,
    },
    /// The order was endorsed.
    Endorsed {
        epoid: Epoid,
        /// Its bytes.
        order: Small,
    },
    /// The result was told.
    Settled {
        epoid: Epoid,
        order: Small,
        /// The consumer's receipt, sealed for the consumer.
        part: Small,
    },
}

/// What is known of a purchase: what was quoted, and how far it has come.
#[derive(Clone, Copy)]
pub struct Sale {
    /// The merchant's number for the product.
    pub product: u32,
    /// What was told.
    pub price: Price,
    /// The digest of the request for the price.
    pub request: Digest,
    /// How far it has come.
    pub progress: Progress,
}

/// A sale, and what the parts of its goods are made from once they were sealed.
#[derive(Drop)]
pub struct Held {
    pub sale: Sale,
    pub parts: Option<Parts>,
}

impl Progress {
    /// How far that is.
    pub fn stage(&self) -> Stage
        ensures { result ≡ sales.stage_of self.now }
    {
        match self {
            Progress::Quoted => Stage::Quoted,
            Progress::Delivered { .. } => Stage::Delivered,
            Progress::Endorsed { .. } => Stage::Endorsed,
            Progress::Settled { .. } => Stage::Settled,
        }
    }

    /// The identifier that the goods were sealed for.
    pub fn epoid(&self) -> Option<Epoid>
        ensures { result ≡ sales.epoid_in self.now }
    {
        match self {
            Progress::Quoted => None,
            Progress::Delivered { epoid } => Some(*epoid),
            Progress::Endorsed { epoid, .. } => Some(*epoid),
            Progress::Settled { epoid, .. } => Some(*epoid),
        }
    }

    /// How far it has come with an item more of the purchase. One that does not follow changes nothing.
    pub fn with(&self, item: &Item) -> Progress
        ensures { result ≡ sales.progressed self.now item.now }
    {
        match (self, item) {
            (Progress::Quoted, Item::Delivered { epoid, .. }) => {
                Progress::Delivered { epoid: *epoid }
            }
            (Progress::Delivered { epoid }, Item::Endorsed { order, .. }) => Progress::Endorsed {
                epoid: *epoid,
                order: *order,
            },
            (Progress::Endorsed { epoid, order }, Item::Settled { part, .. }) => {
                Progress::Settled {
                    epoid: *epoid,
                    order: *order,
                    part: *part,
                }
            }
            _ => *self,
        }
    }
}
