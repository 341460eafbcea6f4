//! What holds of every record and acknowledgement, of a standby in every list of events, and of [`follow`](crate::follow). Each function here does
//! nothing: its contract is the law.

ghost use Rattle.nb_standby.specs.Laws as law;

use nb_port::Disk;

/// What was spelled of a record is read as that record.
pub fn shipped_reads_back()
    ensures { law.ShippedReadsBack }
{}

/// What was read as a record is spelled as those bytes, and is within its limits.
pub fn shipped_spells_back()
    ensures { law.ShippedSpellsBack }
{}

/// What was spelled of an acknowledgement is read as that one.
pub fn acknowledged_reads_back()
    ensures { law.AcknowledgedReadsBack }
{}

/// What was read as an acknowledgement is spelled as those bytes, and is within its limits.
pub fn acknowledged_spells_back()
    ensures { law.AcknowledgedSpellsBack }
{}

/// Over every list of events the standby's list is a front of the primary's, and so it is with what is in doubt, also behind a stop, where it began so, with
/// nothing in doubt and what was shipped the primary's.
pub fn stays_front()
    ensures { law.StaysFront }
{}

/// No event takes away an entry that stands, and no stop does.
pub fn entries_stay()
    ensures { law.EntriesStay }
{}

/// Where a record is taken in at a number of entries each later stop leaves at least so many.
pub fn taken_stays()
    ensures { law.TakenStays }
{}

/// What `follow` does with a record that a primary of the same house shipped is a delivery in each world that has shipped it and whose standby is in the state of
/// the vault.
pub fn follow_is_step<D: Disk>()
    ensures { law.FollowIsStep D.tells }
{}

/// A whole run of `follow`, over frames each of which spells a record that the world has shipped, or none of its house, is a run of that world: each
/// of the first is the delivery of its record, told by its code, and the others are passed over.
pub fn follow_is_deliveries()
    ensures { law.FollowIsDeliveries }
{}

/// Each state of such a run is a front of the primary's list, also with what is in doubt, where it began so, with nothing in doubt and what was shipped the primary's.
pub fn followed_stays_front()
    ensures { law.FollowedStaysFront }
{}

/// What a standby answers is a function of its state and of the frames, where nothing is in doubt at first and the disk never fails.
pub fn one_acknowledging()
    ensures { law.OneAcknowledging }
{}

/// Where nothing is in doubt at first, the disk never fails, and a standby is not worn and may have the entries behind its own and has room for them, the
/// frames that a house ships of these are all taken in.
pub fn takes_all()
    ensures { law.TakesAll }
{}

/// A vault that is opened over what a stop left of a standby is that standby behind the world's stop.
pub fn stop_is_step<D: Disk>()
    ensures { law.StopIsStep D.tells }
{}

/// One that is opened over what a stop within `follow` left is the standby before the call, behind the world's stop, or the one after it.
pub fn stop_in_follow_is_step<D: Disk>()
    ensures { law.StopInFollowIsStep D.tells }
{}

/// The kinds of frames, the limits and the codes in numbers, and the labels in texts.
pub fn limits()
    ensures { law.StandbyLimitsAre }
{}
