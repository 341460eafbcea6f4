ghost use Rattle.std.specs.Prelude.{◌≡◌};
ghost use Rattle.nb_units.specs.declared.charter.Charter.{Charter};
ghost use Rattle.nb_escrow.specs.Head.{head_of};

use nb_units::{HEAD, Secret};

// The bytes of the house's key, and of the operator's.
const KEY: usize = 32;

/// What a house's journal begins with: its own key, the operator's key, the key of its index, and its version and rate.
#[derive(Clone, Copy)]
pub struct Head {
    /// What receipts are signed with, 32 bytes.
    pub house: Secret,
    /// What enrolments and funds are signed with, 32 bytes.
    pub operator: Secret,
    /// The key of the index of a book that keeps one, 16 bytes.
    pub index: [u8; 16],
    /// The version of the journal, 1 byte wide: [`FIRST_VERSION`](nb_units::FIRST_VERSION) or [`FEE_VERSION`](nb_units::FEE_VERSION).
    pub version: u8,
    /// The rate of the fee in thousandths of the price, 2 bytes wide, at most [`MAX_RATE`](nb_units::MAX_RATE).
    pub rate: u16,
}

impl Head {
    /// The head of a house that was made with these bytes, this version and this rate.
    pub fn read(bytes: &[u8; HEAD], version: u8, rate: u16) -> Head
        ensures { result ≡ head_of (record { head = bytes.now; version = version; rate = rate }) }
    {
        let (house, rest) = bytes.as_slice().split_at(KEY);
        let (operator, rest) = rest.split_at(KEY);
        let mut head = Head {
            house: [0; KEY],
            operator: [0; KEY],
            index: [0; 16],
            version,
            rate,
        };
        head.house.copy_from_slice(house);
        head.operator.copy_from_slice(operator);
        head.index.copy_from_slice(rest);
        head
    }
}
