//! What holds of each batch. Each function here does nothing: its contract is the law.

ghost use Rattle.nb_batch.specs.Acknowledged.{AcknowledgedStays, OpeningStays, StopInRunIsStep, ToldStays};

use nb_port::Disk;

/// A law: the entries that a batch begins with, of a house or of a standby, stand in what every stop since opening leaves.
pub fn opening_stays<D: Disk>()
    ensures { OpeningStays D.tells }
{}

/// A law: the entry of a request that was answered stands, at the place that was told, in what every stop since leaves, and so does
/// each entry that was held then.
pub fn acknowledged_stays<D: Disk>()
    ensures { AcknowledgedStays D.tells }
{}

/// A law: the entries that a standby's acknowledgement counts, whatever its code is, stand in what every stop since leaves; where it tells that the record is
/// taken in, or stood there, that record is one of them, at its place. The cap is below 2^64, and has room for the entries at the start, also with those in doubt.
pub fn told_stays<D: Disk>()
    ensures { ToldStays D.tells }
{}

/// A law: a vault that is opened over what a stop at any moment of a batch left is one of the states of its run, behind a stop as `nb_standby` has it.
pub fn stop_in_run_is_step<D: Disk>()
    ensures { StopInRunIsStep D.tells }
{}
