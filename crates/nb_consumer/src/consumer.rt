ghost use Rattle.std.specs.Prelude.{◌≡◌, ◌<◌, ◌^◌, length, map, is_some, IfOk};
ghost use Rattle.nb_msgs.specs.Bodies.{MessageKeepsRules};
ghost use Rattle.nb_consumer.specs.Deeds.{Answers};
ghost use Rattle.nb_msgs.specs.Steps.{StepKeepsRules};
ghost use Rattle.nb_consumer.specs.Goods.{goods_in, phase_in, TellsGoods};
ghost use Rattle.nb_consumer.specs.Restart.{Restarts, HasKept};
ghost use Rattle.nb_wallet.specs.Spelling.{StartKeepsRules};
ghost use Rattle.nb_consumer.specs.State.{new_buyer, number_of, purchase_of};
ghost use Rattle.nb_consumer.specs.Table as table;

use crate::knowledge::Knowledge;
use crate::phase::Phase;
use nb_msgs::{Message, RestartFault, Step};
use nb_units::width::SEAL;
use nb_units::{Blob, NoMemory};
use nb_wallet::{Stage, Start, Wallet};
use std::alloc::Global;
use std::marker::Model;

/// A consumer: its wallet, and what its kept items and the places that it was told say of each of its purchases. It is seen as these
/// (`specs/State.antt`).
pub struct Consumer {
    known: Knowledge,
}

impl Drop for Consumer {
    fn drop(self) {
        let Self { known: _ } = self;
    }
}

impl Model for Consumer {
    ghost use Rattle.nb_consumer.specs.Restart.{HasKept};
    ghost use Rattle.nb_consumer.specs.State.{Buyer};

    ghost Value = { Buyer };

    ghost view = { λ c. c.known };

    ghost invariant = { λ c. HasKept c.known };
}

impl Consumer {
    /// A consumer that has kept nothing. It takes no memory now.
    pub fn new(alloc: Global, wallet: Wallet) -> Consumer
        ensures { result ≡ new_buyer wallet }
    {
        Consumer {
            known: Knowledge::new(alloc, wallet),
        }
    }

    /// A consumer that starts again with the items of its journal, fewer than 2^32. It answers [`RestartFault::BadItem`] at the first item that is not
    /// the spelling of one that a row keeps behind the items before it, counted from 0 on; of an order the account digest, the hidden part and the tag
    /// are not tested. What it was told of the house's entries is not kept.
    pub fn restart(alloc: Global, wallet: Wallet, items: &[Blob]) -> Result<Consumer, RestartFault>
        requires { length items.now < 2 ^ 32 }
        ensures { Restarts wallet items.now result }
    {
        let known = Knowledge::restart(alloc, wallet, items)?;
        Ok(Consumer { known })
    }

    /// What this consumer knows is what it kept: there are items with which a [`restart`](Consumer::restart) gives it, but for the places that it was
    /// told. So each law of a consumer that starts again with what it kept holds of it.
    pub fn witness(&self)
        ensures { HasKept self.now }
    {
        let _ = &self.known;
    }

    /// The number of each purchase, in the order in which they were started.
    pub fn numbers(&self) -> &[u64]
        ensures { result.now ≡ map number_of self.now.purchases }
    {
        self.known.numbers()
    }

    /// Whether there is a purchase of this number.
    pub fn knows(&self, transaction: u64) -> bool
        ensures { result ≡ is_some (purchase_of self.now transaction) }
    {
        self.known.purchase_of(transaction).is_some()
    }

    /// Starts a purchase: a ticket is asked for. The request and the memo have at most 64 bytes each. A number that is known is ignored
    /// ([`Reason::State`](nb_msgs::Reason::State)).
    pub fn start(&mut self, start: &Start) -> Result<Step, NoMemory>
        requires { StartKeepsRules start.now }
        // The row of the table; an ignored start changes nothing, and neither does want of memory.
        ensures answers { Answers self.old self.new (table.started self.old start.now) result }

        // A message that is sent can be written.
        ensures lawful { IfOk result StepKeepsRules }
    {
        let deed = self.known.begin(start);
        self.known.answer(deed)
    }

    /// Hears a message. Each of its texts has at most as many bytes as it may have, a role is one of the two, and an amount in its range.
    pub fn on(&mut self, message: &Message) -> Result<Step, NoMemory>
        requires { MessageKeepsRules message.now }
        // The row of the table; an ignored message changes nothing, and neither does want of memory.
        ensures answers { Answers self.old self.new (table.heard self.old message.now) result }

        // A message that is sent can be written.
        ensures lawful { IfOk result StepKeepsRules }
    {
        let deed = self.known.hear(message);
        self.known.answer(deed)
    }

    /// Hears nothing of a purchase for long: where it is known and not over its last message is sent again; an order is not, and the house is asked for its
    /// status instead.
    pub fn quiet(&mut self, transaction: u64) -> Result<Step, NoMemory>
        // The row of the table; nothing changes.
        ensures answers { Answers self.old self.new (table.silent self.old transaction) result }

        // A message that is sent can be written.
        ensures lawful { IfOk result StepKeepsRules }
    {
        let deed = self.known.wait(transaction);
        self.known.answer(deed)
    }

    /// How far the purchase of this number has come, or `None` where there is none. Behind a restart the goods of one that was paid are read for it each time.
    pub fn state(&self, transaction: u64) -> Option<Phase>
        ensures { result ≡ phase_in (purchase_of self.now transaction) }
    {
        let purchase = self.known.purchase_of(transaction)?;
        Some(match purchase.stage() {
            Stage::Ticketing => Phase::Ticketing,
            Stage::Asked { .. } => Phase::Asked,
            Stage::Wanted { .. } => Phase::Wanted,
            Stage::Ordered { .. } => Phase::Ordered,
            Stage::Paid { .. } => Phase::Paid {
                len: purchase.held().len().saturating_sub(SEAL as u64),
            },
            Stage::Refused { code } => Phase::Refused { code },
            Stage::Foul => Phase::Foul,
        })
    }

    /// The goods of the purchase of this number, where it was paid; else `None`. They are opened from the sealed bytes that are held.
    pub fn goods(&self, transaction: u64) -> Result<Option<Blob>, NoMemory>
        // The goods that are known.
        ensures known { IfOk result (λ goods. goods ≡ goods_in (purchase_of self.now transaction)) }

        // A purchase that was paid has goods: those that were sealed to what is held, under the key of its receipt. No other has any.
        ensures exact { IfOk result (TellsGoods (purchase_of self.now transaction)) }
    {
        self.known.goods(transaction)
    }
}
