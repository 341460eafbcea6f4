//! How a run of the program ends.

ghost use Rattle.std.specs.Prelude.{◌≡◌};
ghost use Rattle.nb_commands.specs.Ending.{at_no_place};
ghost use Rattle.nb_commands.specs.Opening.{unopened};
ghost use Rattle.nb_commands.specs.Numbers.{StatusesAre};

use nb_groups::Offers;
use nb_price::Catalogue;
use nb_units::{PartyId, Price, Small};
use nb_vault::VaultFault;

/// All was done.
pub const CLEAN: u8 = 0;

/// The words are none of the program's.
pub const BAD_WORDS: u8 = 2;

/// The source failed.
pub const SOURCE_FAILED: u8 = 3;

/// The sink failed.
pub const SINK_FAILED: u8 = 4;

/// The input ended within a frame, or holds what is no frame; or it is no head of 80 bytes, no journal that can be moved, no case, no script, no shelf, no offers, or no key
/// of 32 bytes, or is longer than one of these, or than a request, may be.
pub const BAD_INPUT: u8 = 5;

/// There was no memory.
pub const OUT_OF_MEMORY: u8 = 6;

/// The disk failed as the journal was opened or made, or as a buyer or a seller kept an item.
pub const DISK_FAILED: u8 = 7;

/// The disk holds no journal, or one that is damaged, or entries that are not legal one after the other or are more than its cap; or, of a buyer, items that are none
/// of a wallet's, and of a seller none of a stall's with this shelf.
pub const NO_JOURNAL: u8 = 8;

/// No journal is made: the disk has one, or its cap is 0 or above 1,000,000.
pub const NOT_MADE: u8 = 9;

/// A purchase is over and no goods were had: it was refused, or it was paid and the key of its receipt does not open the goods. Work alone ends so.
pub const UNPAID: u8 = 10;

/// As many frames were answered as one run answers, 10,000,000.
pub const FRAME_LIMIT: u8 = 11;

/// Nothing more comes over a link with a purchase that is not over, or as many frames were read as are read for one. Work alone ends so.
pub const LINK_FAILED: u8 = 12;

/// A port failed, with links left; or, as one sells, the link to the house failed. Work alone ends so.
pub const PORT_FAILED: u8 = 13;

/// The journal of a buyer or of a seller holds as many items as its cap says, and one more was to be kept. Work alone ends so.
pub const JOURNAL_FULL: u8 = 14;

/// Nobody holds the account whose statement was asked for, and it is not the house's.
pub const NO_ACCOUNT: u8 = 15;

/// The place from which records were asked for is above the number of entries.
pub const NO_PLACE: u8 = 16;

/// A status, and the place that it speaks of: 0 where there is none.
#[derive(Clone, Copy)]
pub struct Ending {
    pub status: u8,
    pub place: u64,
}

impl Ending {
    /// The ending with this status, where it speaks of no place.
    pub fn at_no_place(status: u8) -> Ending
        ensures { result ≡ at_no_place status }
    {
        Ending { status, place: 0 }
    }

    /// How a run ends where the house was not opened. A place is told of damage alone.
    pub fn unopened(fault: VaultFault) -> Ending
        ensures { result ≡ unopened fault }
    {
        match fault {
            VaultFault::Unborn { .. } => Ending::at_no_place(NO_JOURNAL),
            VaultFault::Damaged { place, .. } => Ending {
                status: NO_JOURNAL,
                place,
            },
            VaultFault::BadEntry { .. } => Ending::at_no_place(NO_JOURNAL),
            VaultFault::DiskFault { .. } => Ending::at_no_place(DISK_FAILED),
            VaultFault::NoMemory => Ending::at_no_place(OUT_OF_MEMORY),
        }
    }
}

/// What is left to do over links, which a run does not have. A job may hold memory: it is done once.
#[derive(Drop)]
pub enum Job {
    /// `serve JOURNAL ADDRESS WORKERS SESSIONS`: answer the links of so many workers, so many of each.
    Serve {
        /// From 1 to [`MAX_WORKERS`](nb_words::MAX_WORKERS).
        workers: u32,
        /// The links of each worker, at least 1: over all workers at most [`MAX_LINKS`](nb_words::MAX_LINKS).
        sessions: u32,
    },
    /// `buy WALLET SERVER SELLER MERCHANT PRODUCT LIMIT TID`, or `buywith` with these words: make a purchase over a link to the house and one to the seller.
    Buy {
        /// Who is to sell.
        merchant: PartyId,
        /// The merchant's number for the product.
        product: u32,
        /// The most that it may cost, in the house's smallest unit of money.
        limit: Price,
        /// The consumer's own number of the purchase. One that the wallet knows is gone on with.
        transaction: u64,
        /// What is said to the merchant as the price is asked for, at most [`MAX_REQUEST`](nb_body::MAX_REQUEST) bytes. For `buy` it is empty.
        request: Small,
    },
    /// `sell STALL ADDRESS SERVER LINKS`, or `selloffers` with these words: sell over links of consumers, one after the other, and one to the house.
    Sell {
        /// How many consumers' links.
        links: u32,
        /// What is sold, and at which price.
        shelf: Catalogue,
        /// What is offered to the members of groups. For `sell` it is nothing.
        offers: Option<Offers>,
    },
}

/// What a run of the program came to.
#[derive(Drop)]
pub enum Outcome {
    /// It is over.
    Done(Ending),
    /// A job is left to do, and nothing was touched but the input of one who sells or buys with a request, which was read to its end.
    Work(Job),
}

/// A law: the statuses in numbers.
pub fn statuses()
    ensures { StatusesAre }
{}
