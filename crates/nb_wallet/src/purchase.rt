ghost use Rattle.std.specs.Prelude.{◌≡◌, ◌≤◌, ℕ, List, length, option_copied, None, IfOk, OnOk, OnErr};
ghost use Rattle.nb_units.specs.declared.limits.TheConstants.{MAX_HIDDEN};
ghost use Rattle.nb_wallet.specs.Stages.{end_of};
ghost use Rattle.nb_wallet.specs.Stages as state;
ghost use Rattle.nb_wallet.specs.Purchases.{fresh, goods_of, unless_paid};
ghost use Rattle.nb_wallet.specs.Changes.{ChangeFits, StageIsSound, changed_to};
ghost use Rattle.nb_wallet.specs.declared.purchase.Change.TheVariants as kinds;

use crate::held::Held;
use crate::item::SessionTicket;
use crate::wallet::Start;
use nb_body::{End, GoodsHead};
use nb_endorse::{PAID_CODE, Receipt};
use nb_epo::Order;
use nb_units::{Blob, NoMemory, Price, Secret};
use std::alloc::Global;
use std::marker::Model;

/// How far a purchase has come, with what the rest of it needs.
#[derive(Clone, Copy)]
pub enum Stage {
    /// A ticket was asked for.
    Ticketing,
    /// A price was asked for.
    Asked {
        /// The ticket and its key.
        pass: SessionTicket,
    },
    /// The goods were asked for.
    Wanted {
        /// The ticket and its key.
        pass: SessionTicket,
        /// The price that was quoted.
        price: Price,
        /// What the merchant said of the last part that is held, if one is.
        head: Option<GoodsHead>,
    },
    /// The order was sent.
    Ordered {
        /// The ticket and its key.
        pass: SessionTicket,
        /// The order, signed.
        order: Order,
        /// The greatest place that the house told of in a status without a receipt, since the consumer started again last; 0 before.
        least: u64,
    },
    /// It was paid.
    Paid {
        /// The key of the receipt, which opens the goods.
        key: Secret,
    },
    /// It was refused.
    Refused {
        /// The code of the receipt, one byte wide.
        code: u8,
    },
    /// It was paid, and the key of the receipt does not open the goods.
    Foul,
}

// How far a purchase has come.
#[derive(Clone, Copy)]
pub enum Reached {
    // To this stage.
    At(Stage),
    // It was paid, and this is the key of the receipt: whether that opens the goods is looked up each time.
    PaidWith(Secret),
}

/// What a consumer knows of one purchase: how it was started, how far it has come, and the sealed goods that came. It is seen as these
/// (`specs/Purchases.antt`). One that ends with what [`end`](Purchase::end) tells stays so; one that is [`closed`](Purchase::close) keeps the key of its
/// receipt, and whether that opens the goods is looked up each time.
#[derive(Drop)]
pub struct Purchase {
    start: Start,
    reached: Reached,
    held: Held,
}

impl Model for Purchase {
    ghost use Rattle.nb_wallet.specs.Purchases as seen;

    ghost Value = { seen.Purchase };

    ghost view = { λ p. record { start = p.start; stage = seen.stage_reached p.reached p.held; held = p.held } };
}

/// What becomes of the parts of a purchase.
#[derive(Drop)]
pub enum Change {
    /// They stay.
    Same,
    /// One comes behind them.
    More(Blob),
    /// They are forgotten.
    Forgotten,
}

impl Purchase {
    /// A purchase that was started so: a ticket is asked for, and nothing came. It takes no memory now.
    pub fn new(alloc: Global, start: Start) -> Purchase
        ensures { result ≡ fresh start }
    {
        Purchase {
            start,
            reached: Reached::At(Stage::Ticketing),
            held: Held::new(alloc),
        }
    }

    /// How it was started.
    pub fn start(&self) -> &Start
        ensures { result.now ≡ self.now.start }
    {
        &self.start
    }

    /// The sealed goods that came.
    pub fn held(&self) -> &Held
        ensures { result.now ≡ self.now.held }
    {
        &self.held
    }

    /// How far it has come. It takes no memory.
    pub fn stage(&self) -> Stage
        ensures { result ≡ self.now.stage }
    {
        match self.reached {
            Reached::At(stage) => stage,
            Reached::PaidWith(key) => {
                if self.held.opens(&key) {
                    Stage::Paid { key }
                } else {
                    Stage::Foul
                }
            }
        }
    }

    /// How far it has come, unless it was paid: whether the key opens the goods or not, it answers `None` then.
    pub fn stage_unless_paid(&self) -> Option<&Stage>
        ensures { option_copied result ≡ unless_paid self.now.stage }
    {
        match &self.reached {
            Reached::At(Stage::Paid { .. } | Stage::Foul) | Reached::PaidWith(_) => None,
            Reached::At(stage) => Some(stage),
        }
    }

    /// The goods, where it was paid and the key of its receipt opens them; else `None`. Answers [`NoMemory`] where it was paid, and there is none for the
    /// goods.
    pub fn goods(&self, alloc: Global) -> Result<Option<Blob>, NoMemory>
        // The goods that the key opens.
        ensures goods { IfOk result (λ goods. goods ≡ goods_of self.now.stage self.now.held) }
        // Memory is wanted for a purchase that was paid alone.
        ensures paid { OnErr result (unless_paid self.now.stage ≡ None) }
    {
        match &self.reached {
            Reached::At(Stage::Paid { key }) | Reached::PaidWith(key) => self.held.open(alloc, key),
            Reached::At(_) => Ok(None),
        }
    }

    /// Ends with a receipt. It takes no memory.
    pub fn close(&mut self, receipt: &Receipt)
        ensures { self.new ≡ changed_to (state.stage_ended receipt.now self.old.held) kinds.Same self.old }
    {
        self.reached = if receipt.code != PAID_CODE {
            Reached::At(Stage::Refused { code: receipt.code })
        } else {
            match receipt.key {
                None => Reached::At(Stage::Foul),
                Some(key) => Reached::PaidWith(key),
            }
        };
    }

    /// Goes on to a stage, and changes the parts, of which there are at most [`MAX_SEALED`](nb_goods::MAX_SEALED) bytes then. Answers [`NoMemory`] where
    /// there is none for a part more, and then all is as before.
    pub fn change(&mut self, stage: Stage, parts: Change) -> Result<(), NoMemory>
        requires { ChangeFits self.old.held parts }
        ensures changed { OnOk result (self.new ≡ changed_to stage parts self.old) }
        ensures err { OnErr result (self.new ≡ self.old) }
    {
        match parts {
            Change::Same => {}
            Change::More(part) => self.held.push(part)?,
            Change::Forgotten => self.held.forget(),
        }
        self.reached = Reached::At(stage);
        Ok(())
    }

    /// How it ends with a receipt. Answers [`NoMemory`] where there is none for the goods.
    pub fn end(&self, alloc: Global, receipt: &Receipt) -> Result<End, NoMemory>
        ensures { IfOk result (λ end. end ≡ end_of receipt.now self.now.held) }
    {
        if receipt.code != PAID_CODE {
            return Ok(End::Refused(receipt.code));
        }
        match receipt.key {
            None => Ok(End::Foul),
            Some(key) => match self.held.open(alloc, &key)? {
                Some(goods) => Ok(End::Paid(goods)),
                None => Ok(End::Foul),
            },
        }
    }
}

/// What is left of a purchase that ended so with a receipt.
pub fn stage_ended(receipt: &Receipt, end: &End) -> Stage
    // What is left of a purchase that ended so.
    ensures stage { (sealed : List ℕ) → end.now ≡ end_of receipt.now sealed → result ≡ state.stage_ended receipt.now sealed }
    ensures sound { StageIsSound result }
{
    if receipt.code != PAID_CODE {
        return Stage::Refused { code: receipt.code };
    }
    match receipt.key {
        None => Stage::Foul,
        Some(key) => match end {
            End::Paid(_) => Stage::Paid { key },
            _ => Stage::Foul,
        },
    }
}

/// The stage behind a quote that was taken, where a price was asked for; any other stage stays.
pub fn wanted_from(stage: &Stage, price: Price) -> Stage
    ensures { result ≡ state.wanted_from stage.now price }
{
    match stage {
        Stage::Asked { pass } => Stage::Wanted {
            pass: *pass,
            price,
            head: None,
        },
        _ => *stage,
    }
}

/// The stage with what was said of the last part that is held, or none, where goods are wanted; any other stage stays.
pub fn with_head(stage: &Stage, head: Option<GoodsHead>) -> Stage
    ensures { result ≡ state.with_head stage.now head }
{
    match stage {
        Stage::Wanted { pass, price, .. } => Stage::Wanted {
            pass: *pass,
            price: *price,
            head,
        },
        _ => *stage,
    }
}

/// The stage behind an order, where goods were wanted; any other stage stays.
pub fn ordered_from(stage: &Stage, order: &Order) -> Stage
    ensures stage { result ≡ state.ordered_from stage.now order.now }
    // It keeps to its limits where the stage before and the order do.
    ensures sound { StageIsSound stage.now → length order.now.hidden ≤ MAX_HIDDEN → StageIsSound result }
{
    match stage {
        Stage::Wanted { pass, .. } => Stage::Ordered {
            pass: *pass,
            order: *order,
            least: 0,
        },
        _ => *stage,
    }
}

/// The stage with the greater of two places, 8 bytes wide, where it was ordered; any other stage stays.
pub fn raised_from(stage: &Stage, place: u64) -> Stage
    ensures { result ≡ state.raised_from stage.now place }
{
    match stage {
        Stage::Ordered { pass, order, least } => Stage::Ordered {
            pass: *pass,
            order: *order,
            least: (*least).max(place),
        },
        _ => *stage,
    }
}
