//! What holds of every image of a disk and of every turn. Each function here does nothing: its contract is the law.

ghost use Rattle.nb_vault.specs.Gates.{OneGate};
ghost use Rattle.nb_vault.specs.Holdings.{OneList};
ghost use Rattle.nb_vault.specs.Opens.{ItemRoomIs, WholeIsGood};
ghost use Rattle.nb_vault.specs.Paying.{PayableIsPaid};
ghost use Rattle.nb_vault.specs.Rules.{HousesAreLawful, HousesRecordOf};
ghost use Rattle.nb_vault.specs.Vaults.{LinesFit};

use nb_port::Disk;

/// An image stands for at most one list of entries, with one charter and one cap.
pub fn one_list()
    ensures { OneList }
{}

/// An image that stands for a list begins with a magic, is not damaged and has no bad entry.
pub fn whole_is_good()
    ensures { WholeIsGood }
{}

/// Each order of a turn that is payable is paid, over the entries that the turn was decided over and those that the requests before it
/// record, and both its receipts say so: where the vault is not worn and the count of the disk does not rise.
pub fn payable_is_paid<D: Disk>()
    ensures { PayableIsPaid D.tells }
{}

/// Of a house whose version is one of the two and whose rate is at most 1,000: what it records may come next in its list, there is room
/// for it, and a journal of this version and this rate may have it. The house of each vault is one, and so the laws of nb_turns on Legal lists and
/// lines hold of it.
pub fn houses_are_lawful()
    ensures lawful { HousesAreLawful }
    ensures rate { HousesRecordOf }
{}

/// A vault has at most one line for each entry of its cap and 33,000 more: 1,000 turns may fail, with a line for each of the 32 entries
/// that are in doubt then and one for the fault.
pub fn lines_fit<D: Disk>()
    ensures { LinesFit D.tells }
{}

/// The most bytes of an item that a vault keeps: 32 entries of at most 125 bytes.
pub fn item_room()
    ensures { ItemRoomIs }
{}

/// One gate opens all entries of a turn, or none of them: each image that a stop leaves at any moment of it stands for the entries
/// from before, without what was in doubt or with it, or for those that the turn was decided over with all that it records. Since an image stands for
/// one list ([`one_list`]), it stands for no part of them.
pub fn one_gate<D: Disk>()
    ensures { OneGate D.tells }
{}
