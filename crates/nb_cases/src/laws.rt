//! What joins the decision and the bytes that are written of it. The function does nothing: its contract is the law.

ghost use Rattle.nb_cases.specs.Written.{WrittenGrantsOpen};

/// A law: the body of the frame that the grant of a verdict is written as is opened under the key of the consumer that it names, and the
/// ticket in it under that of the merchant, to the same parties, last second and session key.
pub fn written_grants_open()
    ensures { WrittenGrantsOpen }
{}
