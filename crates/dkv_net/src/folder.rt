// Folders of the system.
use std::fs::{self, File};
use std::io;
use std::path::Path;

// The folder that something stands in.
fn folder_of(path: &str) -> Path<'_> {
    match Path::new(path).parent() {
        Some(folder) if folder == Path::new("") => Path::new("."),
        Some(folder) => folder,
        None => Path::new("/"),
    }
}

/// After Ok, a crash leaves the name in its folder.
pub(crate) fn sync_folder_of(rt: HostRuntime, path: &str) -> io::Result<()> {
    File::open(&rt, folder_of(path))?.sync_all()
}

/// Makes the folder at a path, where the folder above it stands. One that stands already is fine. What the system refuses is
/// passed over: it shows where a file in the folder is made. Takes no memory.
pub fn create_folder(rt: &HostRuntime, path: &str) {
    if fs::create_dir(rt, path).is_ok() {
        let _ = sync_folder_of(*rt, path);
    }
}
