use crate::indexes::Slotted;
use crate::quiet::QuietDisk;
use nb_book::Book;
use std::alloc::Global;

/// What the next line is about, and what came of those before it.
#[derive(Drop)]
pub struct Trial {
    pub alloc: Global,
    // The content of the next disk, and those of its calls that fail.
    pub content: Vec<u8>,
    pub fails: Vec<u64>,
    pub book: Option<Book>,
    // The rate of the book's journal, where it has fees.
    pub rate: Option<u16>,
    pub index: Option<Slotted>,
    // The last disk that went through steps of its own.
    pub disk: Option<QuietDisk>,
}

impl Trial {
    /// A trial of nothing.
    pub fn new(alloc: Global) -> Trial {
        Trial {
            alloc,
            content: Vec::new(alloc),
            fails: Vec::new(alloc),
            book: None,
            rate: None,
            index: None,
            disk: None,
        }
    }
}
