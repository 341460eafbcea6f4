//! What holds of every Legal list. Each function here does nothing: its contract is the law.

ghost use Rattle.nb_book.specs.Laws as law;

/// The limits, the highest rate of a fee and the roles in numbers.
pub fn limits()
    ensures { law.BookLimitsAre }
{}

/// The codes of refused orders in numbers.
pub fn reasons()
    ensures { law.ReasonCodesAre }
{}

/// No balance is below zero: what was taken from an account is at most what came into it.
pub fn none_overdrawn()
    ensures { law.NoneOverdrawn }
{}

/// No money is made or lost: the balances of all enrolled accounts and the fees sum to the total of the funds.
pub fn balances_make_total()
    ensures { law.BalancesMakeTotal }
{}

/// No account has more than the house took in.
pub fn balances_fit()
    ensures { law.BalancesFit }
{}

/// The total of the funds is at most [`MAX_TOTAL`](crate::MAX_TOTAL), so that it and every balance fit 8 bytes.
pub fn total_fits()
    ensures { law.TotalFits }
{}

/// An account that nobody holds has nothing in it, unless it is the house's.
pub fn unheld_is_empty()
    ensures { law.UnheldIsEmpty }
{}

/// In account 0, which is the house's, are the fees.
pub fn house_has_fees()
    ensures { law.HouseHasFees }
{}

/// Nobody holds account 0.
pub fn house_held_by_nobody()
    ensures { law.HouseHeldByNobody }
{}

/// At a rate of at most [`MAX_RATE`](crate::MAX_RATE) a fee is at most its price, and what it leaves of the price is the rest.
pub fn fee_within_price()
    ensures most { law.FeeWithinPrice }
    ensures rest { law.RestAndFeeArePrice }
{}

/// An entry changes each balance by what it brings to the account and what it takes from it.
pub fn balance_after()
    ensures { law.BalanceAfter }
{}

/// A payment takes its price from the consumer's account, brings it into the merchant's, and leaves all others. With a fee the merchant
/// gets so much less, the house's account has it, and all others are left.
pub fn payment_moves()
    ensures paid { law.PaymentMoves }
    ensures charged { law.ChargeMoves }
{}

/// A list stays Legal when an entry that is legal next comes after it.
pub fn stays_legal()
    ensures { law.StaysLegal }
{}

/// What may come next is what may come next in a journal of some version and some rate.
pub fn legal_under_some()
    ensures { law.LegalUnderSome }
{}

/// A list is Legal under a version and a rate exactly where each of its entries may come after those before it in a journal of these. It stays
/// so when one more such entry comes, and a list of the first version stays so in the second one at any rate.
pub fn legal_under()
    ensures next { law.LegalUnderIsNext }
    ensures stays { law.StaysLegalUnder }
    ensures first { law.FirstStaysLegal }
{
    stays_legal();
}

/// A party is enrolled at most once.
pub fn enrolled_once()
    ensures { law.EnrolledOnce }
{}

/// An account is opened at most once.
pub fn opened_once()
    ensures { law.OpenedOnce }
{}

/// A reference stands in at most one fund.
pub fn funded_once()
    ensures { law.FundedOnce }
{}

/// An order is paid or refused at most once: an identifier stands in at most one of these entries.
pub fn settled_once()
    ensures { law.SettledOnce }
{}

/// An entry that may come next has a role and a code that can be spelled.
pub fn legal_keeps_rules()
    ensures { law.LegalKeepsRules }
{}
