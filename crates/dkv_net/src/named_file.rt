// A file of the system, by its path.
ghost use Rattle.std.specs.Prelude.{◌<◌, ◌≤◌, ◌^◌, length, IfOk, IsErr};

use crate::folder::sync_folder_of;
use crate::placed::read_placed;
use std::fs::{File, TryLockError};
use std::io::{self, ErrorKind};
use std::os::unix::fs::FileExt;

// No file has a byte at this place, or above it.
const NO_PLACE: u64 = 1 << 63;

// What the first call found at the path.
#[derive(Drop)]
enum Found {
    Unasked,
    Nothing,
    File(File),
}

/// A file by its path, which the first call opens and locks. Where there was none, the first write makes it.
#[derive(Drop)]
pub(crate) struct NamedFile {
    rt: HostRuntime,
    path: String,
    found: Found,
    // whether a crash leaves the file's name in its folder
    is_listed: bool,
    // whether a sync failed: the system may have dropped what was written, and a later sync wouldn't tell
    is_lost: bool,
}

// A file that no other process has locked.
fn kept(file: File, lock: Result<(), TryLockError>) -> io::Result<File>
    ensures { IsErr lock → IsErr result }
{
    match lock {
        Ok(()) => Ok(file),
        Err(error) => Err(error.into()),
    }
}

// Takes the lock that keeps other processes away for as long as the file is open.
fn locked(file: File) -> io::Result<File> {
    let lock = file.try_lock();
    kept(file, lock)
}

// The file at a path, where there is one.
fn open_locked(rt: HostRuntime, path: &str) -> io::Result<Found> {
    match File::options().read(true).write(true).open(&rt, path) {
        Ok(file) => Ok(Found::File(locked(file)?)),
        Err(error) if error.kind() == ErrorKind::NotFound => Ok(Found::Nothing),
        Err(error) => Err(error),
    }
}

impl NamedFile {
    /// Nothing was asked of the system yet.
    pub(crate) fn new(rt: HostRuntime, path: String) -> NamedFile {
        NamedFile {
            rt,
            path,
            found: Found::Unasked,
            is_listed: false,
            is_lost: false,
        }
    }

    // The file, where there is one.
    fn open(&mut self) -> io::Result<Option<&File>> {
        if let Found::Unasked = self.found {
            self.found = open_locked(self.rt, self.path.as_str())?;
        }
        match &self.found {
            Found::File(file) => Ok(Some(file)),
            Found::Unasked | Found::Nothing => Ok(None),
        }
    }

    // Makes the file where there is none. One that another process made meanwhile is an error.
    fn make(&mut self) -> io::Result<()> {
        if self.open()?.is_none() {
            let file = File::create_new(&self.rt, self.path.as_str())?;
            self.found = Found::File(locked(file)?);
        }
        Ok(())
    }

    /// Its length in bytes, below 2^63.
    pub(crate) fn len(&mut self) -> io::Result<u64>
        ensures { IfOk result (λ n. n < 2 ^ 63) }
    {
        let Some(file) = self.open()? else {
            return Ok(0);
        };
        let len = file.metadata()?.len();
        if len >= NO_PLACE {
            return Err(ErrorKind::FileTooLarge.into());
        }
        Ok(len)
    }

    /// Reads as many bytes as there are from a place on, up to the buffer's length.
    pub(crate) fn read(&mut self, at: u64, into: &mut [u8]) -> io::Result<usize>
        ensures { IfOk result (λ n. n ≤ length into.new) }
    {
        match self.open()? {
            Some(file) if at < NO_PLACE => read_placed(file, at, into),
            _ => Ok(0),
        }
    }

    /// Writes all the bytes from a place on.
    pub(crate) fn write_at(&mut self, at: u64, bytes: &[u8]) -> io::Result<()> {
        self.make()?;
        match self.open()? {
            Some(file) => file.write_all_at(bytes, at),
            None => Err(ErrorKind::NotFound.into()),
        }
    }

    /// Cuts it to a length. A file that isn't there has length 0.
    pub(crate) fn cut(&mut self, len: u64) -> io::Result<()> {
        match self.open()? {
            Some(file) => file.set_len(len),
            None if len == 0 => Ok(()),
            None => Err(ErrorKind::NotFound.into()),
        }
    }

    /// Hands all to the disk. The first time, also the name in its folder, since it may be new. After one that failed, each fails.
    pub(crate) fn sync(&mut self) -> io::Result<()> {
        let Some(file) = self.open()? else {
            return Ok(());
        };
        let synced = file.sync_data();
        if self.is_lost || synced.is_err() {
            self.is_lost = true;
            return Err(ErrorKind::Other.into());
        }
        if !self.is_listed {
            sync_folder_of(self.rt, self.path.as_str())?;
            self.is_listed = true;
        }
        Ok(())
    }
}
