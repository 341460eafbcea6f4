//! What holds of all that comes over a link and of all that is sent to it. Each function here does nothing: its contract is the law.

ghost use Rattle.nb_wire.specs.Laws as law;

/// A law: frames that were received, and then some more, are received; and where nothing was done none were.
pub fn received_in_parts()
    ensures { law.ReceivedInParts }
{}

/// A law: what was sent, and then some more behind it, was sent; and where nothing was done nothing was.
pub fn sent_in_parts()
    ensures { law.SentInParts }
{}

/// A law: the frames received, from its first byte on, of a link that tells its bytes to the end are the first of these, whenever one looks: what waits
/// follows them, and then what is left of the link.
pub fn received_first()
    ensures { law.ReceivedFirst }
{}

/// A law: the frames received up to the end of such a link are all whole frames of its bytes, in order, and as many bytes
/// stand behind the last of them as the end tells.
pub fn received_all()
    ensures { law.ReceivedAll }
{}

/// A law: the frames received of such a link up to a bad frame are all whole frames before it, and the fault is the first one of its bytes, at its
/// place among all of them, whatever follows.
pub fn received_up_to_a_fault()
    ensures { law.ReceivedUpToAFault }
{}
