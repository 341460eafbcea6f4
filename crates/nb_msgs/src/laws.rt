//! What holds of every message. Each function here does nothing: its contract is the law.

ghost use Rattle.nb_msgs.specs.Laws as law;
ghost use Rattle.nb_msgs.specs.Places.{StatusReceiptIsRead, StatusReceiptIsSpelled, StatusSpelledIsRead, StatusSealedIsRead};
ghost use Rattle.nb_msgs.specs.ReplyMessages.{ReplyIsMessage, ReplyIsAsLong};

/// A law: what was spelled of a message is read as that message.
pub fn message_reads_back()
    ensures { law.MessageReadsBack }
{}

/// A law: what was read as a message is within its limits, is of the kind that it was read as, and is spelled as those bytes.
pub fn message_spells_back()
    ensures { law.MessageSpellsBack }
{}

/// A law: two messages with one frame are one.
pub fn one_message()
    ensures { law.OneMessage }
{}

/// A law: the frame of a message is one that frames are read as, whatever follows it in a stream.
pub fn message_is_frame()
    ensures { law.MessageIsFrame }
{}

/// A law: what was spelled of a status is read as that status.
pub fn status_reads_back()
    ensures { law.StatusReadsBack }
{}

/// A law: what was read as a status is within its limits, and is spelled as those bytes.
pub fn status_spells_back()
    ensures { law.StatusSpellsBack }
{}

/// A law: two statuses with one spelling are one.
pub fn one_status()
    ensures { law.OneStatus }
{}

/// A law: what is read as a status has the receipt that the bytes from place 25 on are read as, where the byte at place 24 says that there is
/// one, and else none; with no condition on a field.
pub fn status_receipt_is_read()
    ensures { StatusReceiptIsRead }
{}

/// A law: in the spelling of a status its receipt stands from place 25 on, where there is one, and the byte at place 24 says whether.
pub fn status_receipt_is_spelled()
    ensures { StatusReceiptIsSpelled }
{}

/// A law: what is read of the spelling of a status, and what is read of the seal of that, has a receipt exactly where the status has one, with
/// its code, the identifier that its identifier's bytes spell, and its key, where that has 32 bytes.
pub fn status_is_told()
    ensures spelled { StatusSpelledIsRead }
    ensures sealed { StatusSealedIsRead }
{}

/// A law: a reply whose fields are within their limits is a message within its limits, and its frame is that message's.
pub fn reply_is_message()
    ensures { ReplyIsMessage }
{}

/// A law: how many bytes the frame of each reply has.
pub fn reply_is_as_long()
    ensures { ReplyIsAsLong }
{}

/// A law: how many bytes a status has before it is sealed.
pub fn status_is_as_long()
    ensures { law.StatusIsAsLong }
{}

/// A law: the limits of messages in numbers.
pub fn message_limits()
    ensures { law.MessageLimitsAre }
{}

/// A law: the labels under which parts of messages are sealed, as texts.
pub fn labels()
    ensures { law.LabelsAre }
{}
