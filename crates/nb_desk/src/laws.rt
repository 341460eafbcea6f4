//! What holds of all answers of a desk. Each function here does nothing: its contract is the law.

ghost use Rattle.nb_desk.specs.Laws.{EntriesGrow, PlaceIsCount, KeysStay, ResultsStay};

use nb_port::Disk;

/// What a pass has seen behind an answer begins with what it had seen, and so do the entries of it.
pub fn entries_grow<D: Disk>()
    ensures { EntriesGrow D.tells }
{}

/// The place that one request is told is the number of entries that the pass has seen, less one where this call recorded one.
pub fn place_is_count<D: Disk>()
    ensures { PlaceIsCount D.tells }
{}

/// Of two status queries that were served: a key that one pass was told by an authentic one is told to every pass whose seen list begins with what that
/// one has seen, where its own is authentic and asks for the same order and the same party; each asks for at most as many entries as are held.
pub fn keys_stay<D: Disk>()
    ensures { KeysStay D.tells }
{}

/// Of two turns of an order that were served: the result that one pass was told is told to every such pass that asks with the same body, with the same receipts,
/// under the same keys; and nothing more is recorded.
pub fn results_stay<D: Disk>()
    ensures { ResultsStay D.tells }
{}
