//! What holds of every script. Each function here does nothing: its contract is the law.

ghost use Rattle.nb_script.specs.Laws as law;

/// What a mark divides bytes into, with the mark between two parts, is these bytes.
pub fn parts_join()
    ensures { law.PartsJoin }
{}

/// A word is read as a number within limits below 2^64 exactly where it is what is written of it in decimal.
pub fn numbers_are_decimal()
    ensures { law.NumbersAreDecimal }
{}

/// No text is two scripts, or a script and a first bad line, or has two first bad lines.
pub fn one_reading()
    ensures { law.OneReading }
{}

/// Each price and length that a script sells is within its limits, all goods together stay within theirs, and no merchant sells two products of one
/// number.
pub fn scripts_have_shelves()
    ensures { law.ScriptsHaveShelves }
{}

/// The limits in numbers, the marks behind a word and a line, and the last kind of a packet.
pub fn limits()
    ensures { law.ScriptLimitsAre }
{}
