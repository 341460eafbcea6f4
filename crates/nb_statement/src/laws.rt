//! What the text of a statement says of money. Each function here does nothing: its contract is the law.

ghost use Rattle.nb_statement.specs.Laws as law;

/// The line of an entry that moves money on the account stands in the statement, behind the lines of the entries before it, with the number of
/// movements up to it, and with the balance of the list up to this entry.
pub fn each_line_has_its_balance()
    ensures { law.EachLineHasItsBalance }
{}

/// The last line says the balance of the whole list.
pub fn closes_with_the_balance()
    ensures { law.ClosesWithTheBalance }
{}

/// The balance of a Legal list is what its movements make of 0.
pub fn movements_make_the_balance()
    ensures { law.MovementsMakeTheBalance }
{}

/// Two Legal lists that move the same on an account have the same statement of it.
pub fn equal_movements_equal_texts()
    ensures { law.EqualMovementsEqualTexts }
{}
