//! What holds of all words.

ghost use Rattle.nb_words.specs.Laws.{OneCommand};

/// A law: words are one command at most, with one number at each place.
pub fn one_command()
    ensures { OneCommand }
{}
