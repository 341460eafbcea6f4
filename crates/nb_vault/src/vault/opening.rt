ghost use Rattle.std.specs.Prelude.{◌≤◌, IfOk, vec_capacity};
ghost use Rattle.nb_turns.specs.declared.limits.TheConstants.{MAX_REQUESTS};
ghost use Rattle.nb_units.specs.declared.limits.TheConstants.{MAX_CAP};
ghost use Rattle.nb_journal.specs.Time.{Unwritten};
ghost use Rattle.nb_vault.specs.Opens.{VaultOpenGives, WholeOpens, disk_in, IsOpened, IsRoomFor, IsRoomForTurn, RestoreGives};

use crate::parts::{MOST_LINES, Parts};
use crate::records::{ROOM, Records};
use crate::restore::{ItemsRead, restore};
use crate::vault::Vault;
use nb_book::Book;
use nb_endorse::KeptStates;
use nb_entry::{Entry, MAX_ITEM_ENTRIES};
use nb_escrow::Head;
use nb_journal::{Journal, MAGIC_BYTES, OpenFault, Opened};
use nb_msgs::Draft;
use nb_port::Disk;
use nb_turns::{Line, MAX_REQUESTS};
use nb_units::{Charter, NoMemory};
use std::alloc::Global;
use std::fmt;

/// Why no vault was opened.
#[derive(Clone, Copy)]
pub enum VaultFault {
    /// The content is no journal: it begins with this, where missing bytes count as zeros.
    Unborn { found: [u8; MAGIC_BYTES] },
    /// The content is a journal that breaks the layout first at the item of this number, from 0, whose gate is at this place in
    /// bytes from the front; they are 0 and 8 where the front is short or bad.
    Damaged { item: u32, place: u64 },
    /// The content is a whole journal, and this is its first item, from 0, that does not spell 1 to 32 entries which are legal
    /// next and within the cap.
    BadEntry { item: u32 },
    /// The disk failed between these two counts of its faults.
    DiskFault { before: u64, after: u64 },
    /// There was no memory.
    NoMemory,
}

impl fmt::Display for VaultFault {
    fn fmt<W: fmt::Write>(&self, f: &mut fmt::Formatter<W>) -> fmt::Result {
        match self {
            VaultFault::Unborn { .. } => write!(f, "there is no journal"),
            VaultFault::Damaged { item, place } => {
                write!(f, "the journal is damaged at byte {place}, in item {item}")
            }
            VaultFault::BadEntry { item } => {
                write!(
                    f,
                    "item {item} of the journal has an entry that is not legal there"
                )
            }
            VaultFault::DiskFault { before, after } => {
                write!(
                    f,
                    "the disk failed: its count of faults went from {before} to {after}"
                )
            }
            VaultFault::NoMemory => write!(f, "out of memory"),
        }
    }
}

impl<D: Disk> Vault<D> {
    /// Opens the vault on a disk: all that was written is made to stay, and its entries are read. Nothing is written. All memory of
    /// the vault is taken here: for as many entries as its cap says, for the lines of all turns that may come, for the drafts of a turn, and for the states of keys that are kept.
    pub fn open(alloc: Global, disk: D) -> Result<Vault<D>, (VaultFault, D)>
        // After Ok there is no line; the count of faults in `origin` is the disk's before the call; the content before the call stands for the entries
        // of `origin`, Legal under its version and rate; nothing is in doubt, and each image that a stop leaves stands for them alone. `Unborn`,
        // `Damaged`: as `Journal::open` tells them. `BadEntry`: the content is a whole journal, the items before this one spell a list that is Legal and
        // within the cap, and this one does not spell 1 to 32 entries with which the list stays so. `DiskFault`: the count rose between these two.
        // `NoMemory` is free.
        ensures gives { VaultOpenGives D.tells disk result }
        ensures whole { WholeOpens (D.tells.content disk) result }
        ensures nothing { Unwritten D.tells disk (disk_in result) }
        ensures count { D.tells.faults disk ≤ D.tells.faults (disk_in result) }
    {
        let count = disk.fault_count();
        match Journal::open(alloc, disk, ROOM) {
            Ok(opened) => match restored(alloc, opened, count) {
                Ok((parts, replies)) => Ok(Vault {
                    parts,
                    kept: replies.kept,
                    drafts: replies.drafts,
                }),
                Err((fault, disk)) => Err((fault, disk)),
            },
            Err((OpenFault::Unborn { found }, disk)) => Err((VaultFault::Unborn { found }, disk)),
            Err((OpenFault::Damaged { item, place }, disk)) => {
                Err((VaultFault::Damaged { item, place }, disk))
            }
            Err((OpenFault::DiskFault { before, after }, disk)) => {
                Err((VaultFault::DiskFault { before, after }, disk))
            }
            Err((OpenFault::NoMemory, disk)) => Err((VaultFault::NoMemory, disk)),
        }
    }
}

// A vault over a journal that was opened. `count` is the disk's count of faults before it was.
fn restored<D: Disk>(
    alloc: Global,
    opened: Opened<D>,
    count: u64,
) -> Result<(Parts<D>, ReplyRoom), (VaultFault, D)>
    requires opened { IsOpened D.tells opened }
    requires count { count ≤ D.tells.faults opened.journal.disk }
    ensures gives { RestoreGives D.tells opened count result }
{
    let Opened {
        journal,
        head,
        version,
        rate,
        cap,
        items,
    } = opened;
    let charter = Charter {
        head,
        version,
        rate,
    };
    let keys = Head::read(&head, version, rate);
    let mut room = match Room::new(alloc, cap, &keys.index) {
        Ok(room) => room,
        Err(_) => return Err((VaultFault::NoMemory, journal.into_disk())),
    };
    match restore(&mut room.book, &charter, items.as_slice()) {
        ItemsRead::Whole => {}
        ItemsRead::Bad { item } => {
            drop(room);
            return Err((VaultFault::BadEntry { item }, journal.into_disk()));
        }
    }
    let opening = room.book.len();
    let parts = Parts {
        records: Records {
            book: room.book,
            journal,
            charter,
            group: room.turn.group,
            item: room.turn.item,
            places: room.turn.places,
            base: 0,
        },
        head: keys,
        opening,
        count,
        lines: room.lines,
        faults: 0,
    };
    Ok((parts, room.replies))
}

// The memory of a turn.
#[derive(Drop)]
struct TurnRoom {
    group: Vec<Entry>,
    item: Vec<u8>,
    places: Vec<u64>,
}

impl TurnRoom {
    fn new(alloc: Global) -> Result<TurnRoom, NoMemory>
        ensures { IfOk result IsRoomForTurn }
    {
        Ok(TurnRoom {
            group: Vec::with_capacity(alloc, MAX_ITEM_ENTRIES)?,
            item: Vec::with_capacity(alloc, ROOM as usize)?,
            places: Vec::with_capacity(alloc, MAX_REQUESTS)?,
        })
    }
}

// The memory of replies: the states of keys that are kept from one turn to the next, and the drafts of a turn.
#[derive(Drop)]
struct ReplyRoom {
    kept: KeptStates,
    drafts: Vec<Draft>,
}

impl ReplyRoom {
    fn new(alloc: Global) -> Result<ReplyRoom, NoMemory>
        ensures { IfOk result (λ replies. MAX_REQUESTS ≤ vec_capacity replies.drafts) }
    {
        Ok(ReplyRoom {
            kept: KeptStates::new(alloc)?,
            drafts: Vec::with_capacity(alloc, MAX_REQUESTS)?,
        })
    }
}

// All memory of a vault, taken at once.
#[derive(Drop)]
struct Room {
    book: Book,
    turn: TurnRoom,
    replies: ReplyRoom,
    lines: Vec<Line>,
}

impl Room {
    // Room for so many entries and for the lines of all turns that may fail, and for a turn.
    fn new(alloc: Global, cap: u32, key: &[u8; 16]) -> Result<Room, NoMemory>
        requires some { 1 ≤ cap }
        requires most { cap ≤ MAX_CAP }
        ensures { IfOk result (IsRoomFor cap) }
    {
        let lines = Vec::with_capacity(alloc, cap as usize + MOST_LINES)?;
        let turn = TurnRoom::new(alloc)?;
        let replies = ReplyRoom::new(alloc)?;
        match Book::new(alloc, cap, key) {
            Ok(book) => Ok(Room {
                book,
                turn,
                replies,
                lines,
            }),
            Err(NoMemory) => {
                drop(replies);
                Err(NoMemory)
            }
        }
    }
}
