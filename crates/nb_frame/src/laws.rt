//! What holds of every stream in every cut. Each function here does nothing: its contract is the law.

ghost use Rattle.nb_frame.specs.Cuts as law;

/// A law: whatever the pieces are in which a stream is fed, the frames that are given out up to [`More`](crate::Next::More) or
/// [`Bad`](crate::Next::Bad) are the frames of all pieces joined, what waits is their rest, and a fault is that of the rest, at its
/// place in the stream.
pub fn in_any_cut()
    ensures { law.InAnyCut }
{}

/// A law: one stream in two cuts gives the same frames, leaves the same rest, and ends in the same answer.
pub fn same_in_any_cut()
    ensures { law.SameInAnyCut }
{}

/// A law: where one stream in two cuts was fed up to a fault in one, and further in the other, both give the same frames before it and
/// tell the same fault, and what follows waits in the other.
/// Behind a fault nothing is fed, so two cuts of such a stream may be fed different parts of it.
pub fn fault_in_any_cut()
    ensures { law.FaultInAnyCut }
{}

/// A law: a fault is that of the whole stream, whatever follows the pieces that were fed.
pub fn fault_stays()
    ensures { law.FaultStays }
{}

/// A law: the limits in numbers.
pub fn limits()
    ensures { law.FeedLimitsAre }
{}
