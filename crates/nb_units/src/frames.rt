//! What a frame of the protocol is. The definitions stand in `specs/Frames.antt`; here are the header's
//! constants, the sixteen kinds, and the laws that make the definitions one reading of a stream.

ghost use Rattle.nb_units.specs.Frames as law;

/// The first byte of a frame, `N`.
pub const FIRST_MAGIC: u8 = 0x4E;

/// The second byte of a frame, `B`.
pub const SECOND_MAGIC: u8 = 0x42;

/// The third byte of a frame: the protocol's version, one byte wide.
pub const VERSION: u8 = 1;

/// The greatest kind of a frame, which is one byte wide; the least is 1.
pub const LAST_KIND: u8 = 0x10;

/// The most bytes that the body of a frame has. Its length stands in 4 bytes.
pub const MAX_BODY: u32 = 1_048_576;

/// The bytes of a frame before its body: two of magic, the version, the kind, and four of length.
pub const HEADER: usize = 8;

/// The kind of a frame by which a consumer asks a merchant for a price.
pub const PRICE_REQUEST: u8 = 0x01;

/// The kind of a reply: the merchant quotes a price.
pub const QUOTE_REPLY: u8 = 0x02;

/// The kind of a frame by which a consumer asks a merchant for goods.
pub const GOODS_REQUEST: u8 = 0x03;

/// The kind of a reply: a part of the goods, enciphered.
pub const GOODS_REPLY: u8 = 0x04;

/// The kind of a frame by which a consumer gives a merchant its order to pay.
pub const PAYMENT_REQUEST: u8 = 0x05;

/// The kind of a frame by which a merchant hands in an order that it endorsed.
pub const ORDER_REQUEST: u8 = 0x06;

/// The kind of a reply: the result of an order.
pub const RESULT_REPLY: u8 = 0x07;

/// The kind of a reply: the merchant passes the result of an order on to the consumer.
pub const PAYMENT_REPLY: u8 = 0x08;

/// The kind of a frame by which a party asks for the status of an order.
pub const STATUS_REQUEST: u8 = 0x09;

/// The kind of a reply: the status of an order.
pub const STATUS_REPLY: u8 = 0x0A;

/// The kind of a frame by which a consumer asks the house for a ticket to a merchant.
pub const TICKET_REQUEST: u8 = 0x0B;

/// The kind of a reply: a ticket is granted.
pub const GRANT_REPLY: u8 = 0x0C;

/// The kind of a frame by which the operator enrols a party.
pub const ENROL_REQUEST: u8 = 0x0D;

/// The kind of a frame by which the operator puts money into an account.
pub const FUND_REQUEST: u8 = 0x0E;

/// The kind of a reply: the house did what was asked.
pub const DONE_REPLY: u8 = 0x0F;

/// The kind of a reply: the house refuses.
pub const REFUSED_REPLY: u8 = 0x10;

/// A law: the layout of a frame in numbers.
pub fn layout()
    ensures { law.FrameLayout }
{}

/// A law: the kinds in numbers.
pub fn kinds()
    ensures { law.FrameKinds }
{}

/// A law: a whole frame at the front of a stream is read as that frame, whatever follows it.
#[tactic(auto, using(crate::proofs::FrameLaws::whole_front))]
pub fn front_is_frame()
    ensures { law.FrontIsFrame }
{}

/// A law: what is read as a frame at the front of a stream is a frame's spelling, within its limits.
pub fn frame_is_front()
    ensures { law.FrameIsFront }
{}

/// A law: a front part of a frame, neither empty nor the whole, is read as `Partial`: neither as a frame nor as bad.
pub fn part_is_partial()
    ensures { law.PartIsPartial }
{}

/// A law: what is read as a part of a frame is one, from its front on, neither empty nor the whole. Only while one, two or three of the four bytes
/// of its length are there, the length may still turn out too long.
pub fn partial_is_part()
    ensures { law.PartialIsPart }
{}

/// A law: only no bytes at all are read as nothing.
pub fn empty_is_nothing()
    ensures { law.EmptyIsNothing }
{}

/// A law: a fault of a header is read exactly where the header has it, and all that stands before it is allowed.
pub fn bad_is_fault()
    ensures { law.BadIsFault }
{}

/// A law: each stream is a list of frames and a rest that begins with none.
pub fn has_reading()
    ensures { law.HasReading }
{}

/// A law: any list of frames that a stream begins with is a front part of the one that splits it, which so is the longest.
pub fn longest_reading()
    ensures { law.LongestReading }
{}

/// A law: a stream has one list of frames, and one rest.
pub fn one_reading()
    ensures { law.OneReading }
{}

/// A law: bytes that no frame begins with stay so, with the same fault, whatever comes behind them.
#[tactic(auto, using(crate::proofs::FrameLaws::bad_stays))]
pub fn bad_stays()
    ensures { law.BadStays }
{}
