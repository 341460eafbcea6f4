ghost use Rattle.std.specs.Prelude.{◌≡◌, ◌<◌, ◌≤◌, ◌+◌, ◌^◌};
ghost use Rattle.nb_statement.specs.Movements as moves;

use nb_entry::Entry;
use nb_units::AcctId;

/// The way that money moves on an account.
#[derive(Clone, Copy, PartialEq, Eq, Debug)]
pub enum Way {
    /// It comes in from outside.
    Fund,
    /// It goes out: the account pays a price.
    Out,
    /// It comes in: a price is paid to the account, less the fee of the house.
    In,
    /// It comes into the house's own account: the fee of a payment.
    Fee,
}

/// What one entry moves on an account.
#[derive(Clone, Copy, PartialEq, Eq, Debug)]
pub struct Movement {
    pub way: Way,
    /// The reference of a fund, or the identifier of the order of a payment, 16 bytes wide.
    pub name: [u8; 16],
    /// In the house's smallest unit of money, 8 bytes wide.
    pub amount: u64,
}

/// What an entry moves on an account, if it does.
pub fn movement_of(account: AcctId, entry: &Entry) -> Option<Movement>
    ensures { result ≡ moves.movement_of account entry.now }
{
    if account.0 == 0 {
        kept_of(entry)
    } else {
        moved_of(account, entry)
    }
}

// What an entry moves into the house's own account: a payment its fee, where it says one.
fn kept_of(entry: &Entry) -> Option<Movement>
    ensures { result ≡ moves.kept_of entry.now }
{
    match *entry {
        Entry::Charged { epoid, fee, .. } => Some(Movement {
            way: Way::Fee,
            name: epoid.write(),
            amount: fee,
        }),
        _ => None,
    }
}

// What an entry moves on an account that a party may hold.
fn moved_of(account: AcctId, entry: &Entry) -> Option<Movement>
    ensures { result ≡ moves.moved_of account entry.now }
{
    match *entry {
        Entry::Fund {
            acct,
            amount,
            reference,
        } if acct == account => Some(Movement {
            way: Way::Fund,
            name: reference,
            amount,
        }),
        Entry::Paid {
            epoid,
            price,
            cacct,
            macct,
            ..
        } => Payment {
            name: epoid.write(),
            price: price.0,
            left: price.0,
        }
        .moved_on(account, cacct, macct),
        Entry::Charged {
            epoid,
            price,
            fee,
            cacct,
            macct,
            ..
        } => Payment {
            name: epoid.write(),
            price: price.0,
            left: price.0.saturating_sub(fee),
        }
        .moved_on(account, cacct, macct),
        _ => None,
    }
}

// A payment: the identifier of its order, its price, and what is left of that for the merchant.
#[derive(Clone, Copy)]
struct Payment {
    name: [u8; 16],
    price: u64,
    left: u64,
}

impl Payment {
    // What it moves on an account, from the consumer's to the merchant's.
    fn moved_on(self, account: AcctId, cacct: AcctId, macct: AcctId) -> Option<Movement>
        ensures { result ≡ moves.paid account self.name self.price self.left cacct macct }
    {
        let Payment { name, price, left } = self;
        if cacct == account {
            Some(Movement {
                way: Way::Out,
                name,
                amount: price,
            })
        } else if macct == account {
            Some(Movement {
                way: Way::In,
                name,
                amount: left,
            })
        } else {
            None
        }
    }
}

impl Movement {
    // The balance behind the movement, from that before it.
    pub(crate) fn after(&self, balance: u64) -> u64
        requires fits { balance + moves.came self.now < 2 ^ 64 }
        requires held { moves.went self.now ≤ balance }
        ensures { result ≡ moves.after balance self.now }
    {
        match self.way {
            Way::Fund | Way::In | Way::Fee => balance + self.amount,
            Way::Out => balance - self.amount,
        }
    }
}
