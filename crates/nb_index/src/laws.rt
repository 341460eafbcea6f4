//! What holds of every index. Each function here does nothing: its contract is the law.

ghost use Rattle.nb_index.specs.Laws as law;

/// Of a list of puts, as `find` sees an index: where each key was absent when it was put, a number is found under a key exactly where it
/// was put under that key, and none where none was.
pub fn finds_what_was_put()
    ensures { law.FindsWhatWasPut }
{}

/// The most slots in numbers.
pub fn limits()
    ensures { law.IndexLimitsAre }
{}
