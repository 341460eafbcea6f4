use crate::PartyId;
use crate::number::{u32_of, u64_of};

/// The identifier of an order, 16 bytes wide. An order is paid or refused at most once under one.
#[derive(Clone, Copy, PartialEq, Eq, Debug)]
pub struct Epoid {
    /// The merchant of the order, 4 bytes wide.
    pub merchant: PartyId,
    /// When the merchant gave the identifier, in seconds since 1970-01-01 00:00 UTC, 8 bytes wide.
    pub moment: u64,
    /// The merchant's number for the order, 4 bytes wide.
    pub serial: u32,
}

#[tactic(auto, unfolding(crate::specs::Epoid::epoid_of, crate::specs::Epoid::epoid_bytes))]
impl Epoid {
    ghost use Rattle.std.specs.Prelude.{◌≡◌};
    ghost use Rattle.nb_units.specs.Epoid.{IsEpoid, epoid_bytes, epoid_of};

    /// The identifier that the bytes spell: the merchant, the moment, the serial number, each big-endian.
    pub fn read(bytes: &[u8; 16]) -> Epoid
        ensures value { result ≡ epoid_of bytes.now }
        // its spelling is these bytes
        ensures spelling { epoid_bytes result ≡ bytes.now }
    {
        let (merchant, rest) = bytes.split_at(4);
        let (moment, serial) = rest.split_at(8);
        Epoid {
            merchant: PartyId(u32_of(merchant)),
            moment: u64_of(moment),
            serial: u32_of(serial),
        }
    }

    /// The bytes that spell the identifier, which [`Epoid::read`] reads.
    pub fn write(&self) -> [u8; 16]
        ensures spelling { result ≡ epoid_bytes self.now }
        // these bytes are read as it
        ensures back { epoid_of result ≡ self.now }
        // each of its parts fits its width
        ensures fits { IsEpoid self.now }
    {
        let Epoid {
            merchant: PartyId(merchant),
            moment,
            serial,
        } = *self;
        let mut bytes = [0u8; 16];
        bytes[..4].copy_from_slice(&merchant.to_be_bytes());
        bytes[4..12].copy_from_slice(&moment.to_be_bytes());
        bytes[12..].copy_from_slice(&serial.to_be_bytes());
        bytes
    }
}
