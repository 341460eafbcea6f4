use nb_system::{FileDisk, StdFile};
use std::fs::{File, OpenOptions, Permissions};
use std::os::unix::fs::{OpenOptionsExt, PermissionsExt};
use std::path::Path;
use std::{fs, io};

// A journal is made for its owner alone: it holds every key.
const OWNER_ALONE: u32 = 0o600;

/// Opens the journal's file for this process alone, and its folder. Where there is no file it is made, if that is asked for. One that is there
/// keeps its bytes, and where a journal is to be made in it, it becomes its owner's alone. A file that was made stays, also where no journal
/// comes to stand in it.
///
/// It is an error where the file or its folder cannot be opened, where another process holds the file, and where it cannot be made its owner's.
pub fn open_journal(rt: &HostRuntime, name: &str, make: bool) -> io::Result<FileDisk<StdFile>> {
    let file = OpenOptions::new()
        .read(true)
        .write(true)
        .create(make)
        .mode(OWNER_ALONE)
        .open(rt, name)?;
    file.try_lock()?;
    // a device is nobody's alone
    if make && file.metadata()?.is_file() {
        file.set_permissions(Permissions::from_mode(OWNER_ALONE))?;
    }
    Ok(FileDisk::over(file, open_folder(rt, name)?))
}

// Opens the folder of the file that the name leads to.
fn open_folder(rt: &HostRuntime, name: &str) -> io::Result<File> {
    if fs::symlink_metadata(rt, name)?.is_symlink() {
        return File::open(rt, folder_of(fs::canonicalize(rt, name)?.as_path()));
    }
    File::open(rt, folder_of(Path::new(name)))
}

// The folder that a path names: that which the process is in, for a bare name.
fn folder_of(path: Path<'_>) -> Path<'_> {
    match path.parent() {
        Some(folder) if !folder.as_os_str().is_empty() => folder,
        _ => Path::new("."),
    }
}
