ghost use Rattle.std.specs.Prelude.{◌<◌, ◌^◌};
ghost use Rattle.nb_msgs.specs.Bodies.{MessageKeepsRules, IsMessage, IsRefusal};
ghost use Rattle.nb_packets.specs.Parcels.{ContentSo};

use nb_endorse::Refusal;
use nb_msgs::{Message, To};
use nb_units::{Blob, PartyId};
use nb_world::Maker;
use std::marker::Model;

/// What a packet brings: a message that a node sent, which is not spelled, or a kind and a body.
#[derive(Drop)]
pub enum Content {
    /// A message that a node sent.
    Said(Message),
    /// A kind, one of the sixteen, and a body.
    Raw { kind: u8, body: Blob },
}

/// A packet. It is seen as one of `nb_world`, with the spelling of what it brings.
#[derive(Drop)]
pub struct Parcel {
    /// What it brings.
    pub content: Content,
    /// Who made it.
    pub maker: Maker,
    /// Whom it is for.
    pub to: To,
}

impl Model for Parcel {
    ghost use Rattle.nb_world.specs.declared.packet.Packet.{Packet};
    ghost use Rattle.nb_packets.specs.Parcels.{ContentSo, kind_in, body_in};

    ghost Value = { Packet };

    ghost view = { λ p. record { kind = kind_in p.content; body = body_in p.content; maker = p.maker; to = p.to } };

    ghost invariant = { λ p. ContentSo p.content };
}

fn party_fits(id: PartyId)
    ensures { id.0 < 2 ^ 32 }
{
    let _id = id.0;
}

fn refusal_fits(refusal: Refusal)
    ensures { IsRefusal refusal }
{
    let _code = refusal.code;
    let _a = refusal.a;
    let _b = refusal.b;
    let _x = refusal.x;
}

// Each field of a message that can be written is within its limits.
pub(crate) fn fits(m: &Message)
    requires { MessageKeepsRules m.now }
    ensures { IsMessage m.now }
{
    match m {
        Message::PriceAsk { .. } => {}
        Message::Quote { transaction, .. } => {
            let _transaction = *transaction;
        }
        Message::GoodsAsk { .. } => {}
        Message::Goods { transaction, .. } => {
            let _transaction = *transaction;
        }
        Message::Order { .. } => {}
        Message::Endorsed { merchant, .. } => party_fits(*merchant),
        Message::Result { .. } => {}
        Message::Passed { transaction, .. } => {
            let _transaction = *transaction;
        }
        Message::StatusAsk(query) => {
            let _spelled = query.spelled();
        }
        Message::Status { .. } => {}
        Message::TicketAsk(ask) => {
            let _spelled = ask.spelled();
        }
        Message::Grant { .. } => {}
        Message::Enrol(enrolment) => {
            let _spelled = enrolment.spelled();
        }
        Message::Fund(funding) => {
            let _spelled = funding.spelled();
        }
        Message::Done { acct, at, balance } => {
            let _acct = acct.0;
            let _at = *at;
            let _balance = *balance;
        }
        Message::Refusal(refusal) => refusal_fits(*refusal),
    }
}
