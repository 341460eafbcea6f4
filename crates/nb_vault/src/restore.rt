// The entries of a journal's items, into a book.

ghost use Rattle.std.specs.Prelude.{◌≡◌, ◌≤◌, [], length};
ghost use Rattle.std.specs.List.{AllByRecursion};
ghost use Rattle.nb_units.specs.Charter.{MayRule};
ghost use Rattle.nb_units.specs.declared.limits.TheConstants.{MAX_CAP};
ghost use Rattle.nb_book.specs.Legal.{IsOfRate};
ghost use Rattle.nb_vault.specs.Restoring.{ItemGives, ItemsRestore, IsList};

use nb_book::Book;
use nb_entry::{MAX_ITEM_ENTRIES, read_entry};
use nb_units::{Blob, Charter, Cut};

// How the entries of one item went into the book.
#[derive(Clone, Copy)]
pub(crate) enum ItemRead {
    Whole,
    Bad,
}

// How those of all items went. `item` is the number of the first that is bad, from 0.
#[derive(Clone, Copy)]
pub(crate) enum ItemsRead {
    Whole,
    Bad { item: u32 },
}

// Applies the entries of the items, up to the first item that does not spell entries which may come next in a journal of this
// charter.
pub(crate) fn restore(book: &mut Book, charter: &Charter, items: &[Blob]) -> ItemsRead
    requires empty { book.old.entries ≡ [] }
    requires ruled { MayRule charter.now.version charter.now.rate }
    requires few { length items.now ≤ MAX_CAP }
    ensures gives { ItemsRestore charter.now book.old.cap items.now book.new.entries result }
    ensures cap { book.new.cap ≡ book.old.cap }
{
    for (i, item) in items.iter().enumerate() {
        match restore_item(book, charter, item.as_slice()) {
            ItemRead::Whole => {}
            ItemRead::Bad => return ItemsRead::Bad { item: i as u32 },
        }
    }
    ItemsRead::Whole
}

// Applies the entries of one item. Of every book it is told what its list is.
fn restore_item(book: &mut Book, charter: &Charter, item: &[u8]) -> ItemRead
    requires ruled { MayRule charter.now.version charter.now.rate }
    requires each { AllByRecursion (IsOfRate charter.now.version charter.now.rate) book.old.entries }
    ensures gives { ItemGives charter.now book.old.cap item.now book.old.entries book.new.entries result }
    ensures list { IsList charter.now book.old.cap book.old.entries }
    ensures cap { book.new.cap ≡ book.old.cap }
{
    let room = (book.cap() - book.len()) as usize;
    let mut cut = Cut::new(item);
    for n in 0..MAX_ITEM_ENTRIES {
        if n >= room {
            return ItemRead::Bad;
        }
        let entry = match read_entry(&mut cut) {
            Ok(entry) => entry,
            Err(_) => return ItemRead::Bad,
        };
        if !book.legal(&entry, charter.version, charter.rate) {
            return ItemRead::Bad;
        }
        book.apply(&entry);
        if cut.rest().is_empty() {
            return ItemRead::Whole;
        }
    }
    ItemRead::Bad
}
