// Requests and entries, by the names that they have in the lines.

use nb_entry::{Entry, read_entry};
use nb_units::{Cut, NoMemory};
use std::alloc::Global;

/// A request, and the moment at which it is asked.
#[derive(Drop)]
pub struct Request {
    name: String,
    pub moment: u64,
    frame: Vec<u8>,
}

impl Request {
    /// The kind of its frame, which stands behind the magic and the version, or 0.
    pub fn kind(&self) -> u8 {
        self.frame.get(3).copied().unwrap_or(0)
    }

    /// What stands behind the header, which has 8 bytes.
    pub fn body(&self) -> &[u8] {
        self.frame.as_slice().split_at(self.frame.len().min(8)).1
    }
}

#[derive(Drop)]
struct NamedEntry {
    name: String,
    entry: Entry,
}

/// All that has a name.
#[derive(Drop)]
pub struct Names {
    requests: Vec<Request>,
    entries: Vec<NamedEntry>,
}

impl Names {
    /// Nothing has a name.
    pub fn new(alloc: Global) -> Names {
        Names {
            requests: Vec::new(alloc),
            entries: Vec::new(alloc),
        }
    }

    /// A request has this name, if none had it before.
    pub fn add_request(
        &mut self,
        alloc: Global,
        name: &str,
        moment: u64,
        text: &str,
    ) -> Result<(), NoMemory> {
        let request = Request {
            name: name.to_string(alloc)?,
            moment,
            frame: nb_lines::spelled(alloc, text),
        };
        self.requests.push(request)?;
        Ok(())
    }

    /// An entry has this name, and whether the text spells one.
    pub fn add_entry(&mut self, alloc: Global, name: &str, text: &str) -> Result<bool, NoMemory> {
        let bytes = nb_lines::spelled(alloc, text);
        let mut cut = Cut::new(bytes.as_slice());
        let Ok(entry) = read_entry(&mut cut) else {
            return Ok(false);
        };
        let name = name.to_string(alloc)?;
        self.entries.push(NamedEntry { name, entry })?;
        Ok(true)
    }

    /// The request of this name.
    pub fn request(&self, name: &str) -> Option<&Request> {
        for request in &self.requests {
            if request.name.as_str() == name {
                return Some(request);
            }
        }
        None
    }

    /// The name of an entry.
    pub fn of_entry(&self, entry: &Entry) -> &str {
        for named in &self.entries {
            if named.entry == *entry {
                return named.name.as_str();
            }
        }
        "another"
    }
}
