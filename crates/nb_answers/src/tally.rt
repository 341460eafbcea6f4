ghost use Rattle.std.specs.Prelude.{◌≡◌, ◌<◌, ◌+◌, ◌^◌, IfOk, length, string_bytes};
ghost use Rattle.nb_book.specs.Money.{fund, total};
ghost use Rattle.nb_answers.specs.Drill as drills;

use nb_entry::Entry;
use nb_turns::Line;
use nb_units::NoMemory;
use std::alloc::Global;

/// What a drill tells of the entries that it came to: how many pay an order and how many refuse one, and what came in, in the house's
/// smallest unit of money: in a Legal list that is the sum of all balances and of the fees that the house keeps.
#[derive(Clone, Copy)]
pub struct Tally {
    pub paid: u64,
    pub refused: u64,
    pub total: u64,
}

/// The tally of the entries that these lines record.
pub fn tally_of(lines: &[Line]) -> Tally
    requires { total (drills.recorded lines.now) < 2 ^ 64 }
    ensures { result ≡ drills.tally (drills.recorded lines.now) }
{
    let mut tally = Tally {
        paid: 0,
        refused: 0,
        total: 0,
    };
    'telling: for line in lines {
        match line {
            Line::Commit { entry, .. } | Line::Adopted { entry, .. } => {
                tally = and_one(tally, entry);
            }
            Line::Doubt { .. } | Line::Fault { .. } => {}
        }
    }
    tally
}

// The tally with one entry more.
fn and_one(tally: Tally, entry: &Entry) -> Tally
    requires paid { tally.paid + 1 < 2 ^ 64 }
    requires refused { tally.refused + 1 < 2 ^ 64 }
    requires total { tally.total + fund entry.now < 2 ^ 64 }
    ensures { result ≡ drills.and_one tally entry.now }
{
    match *entry {
        Entry::Enrol { .. } => tally,
        Entry::Fund { amount, .. } => Tally {
            total: tally.total + amount,
            ..tally
        },
        Entry::Paid { .. } | Entry::Charged { .. } => Tally {
            paid: tally.paid + 1,
            ..tally
        },
        Entry::Refused { .. } => Tally {
            refused: tally.refused + 1,
            ..tally
        },
    }
}

impl Tally {
    /// The line that tells of so many orders.
    pub fn line(&self, alloc: Global, orders: u32) -> Result<String, NoMemory>
        ensures { IfOk result (λ line. string_bytes line ≡ drills.line_with orders self.now) }
    {
        let Tally {
            paid,
            refused,
            total,
        } = *self;
        let line = format!(in alloc;
            "orders {orders} paid {paid} refused {refused} total {total}\n"
        )?;
        Ok(line)
    }
}
