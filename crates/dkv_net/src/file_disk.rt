// A disk over a file of the system.
ghost use Rattle.std.specs.Prelude.{◌≡◌, ◌<◌, ◌≤◌, ◌^◌, ⊤, None, Ok, length, IfOk};
ghost use Rattle.dkv_io.specs.Causes.{CountsErr, HasCause};
ghost use Rattle.dkv_io.specs.Disks.{Follows, Torn, HalfCut};

use crate::named_file::NamedFile;
use dkv_io::{Disk, Failed, raised};
use std::io;

/// A file of the system, which it opens at the first call and then keeps locked, so that no other process takes it. It tells
/// nothing of what the file holds. A file that isn't there has length 0, and is made at the first write.
#[derive(Drop)]
pub struct FileDisk {
    file: NamedFile,
    /// How often it failed. Stands still at the last `u64`.
    pub faults: u64,
}

// Each error is a fault, and is counted.
fn counted<T: Drop>(faults: &mut u64, outcome: io::Result<T>) -> Result<T, Failed>
    ensures value { IfOk result (λ value. outcome ≡ Ok value) }
    ensures cause { HasCause faults.old faults.new result }
    ensures count { CountsErr faults.old faults.new result }
{
    match outcome {
        Ok(value) => Ok(value),
        Err(_) => {
            *faults = raised(*faults);
            Err(Failed)
        }
    }
}

impl FileDisk {
    /// Asks nothing of the system yet. Takes no memory.
    pub fn new(rt: &HostRuntime, path: String) -> FileDisk
        ensures { ⟦<FileDisk as Disk>⟧.faults result ≡ 0 }
    {
        FileDisk {
            file: NamedFile::new(*rt, path),
            faults: 0,
        }
    }
}

/// Each error is a fault, and raises the count. A crash may leave anything, as far as a contract knows.
impl Disk for FileDisk {
    ghost seen = { λ _. None };

    ghost may_leave = { λ _ _. ⊤ };

    ghost moment = { λ _. 0 };

    ghost left_since = { λ _ _ _. ⊤ };

    ghost faults = { λ d. d.faults };

    ghost reads_as = { λ _ _ _. tt };

    ghost short = { λ _. tt };

    ghost counts_now = { λ _ _ _ _ _. tt };

    ghost only_now = { λ _ _ _. tt };

    fn len(&mut self) -> Result<u64, Failed>
        ensures short { IfOk result (λ n. n < 2 ^ 63) }
        ensures cause { HasCause self.old.faults self.new.faults result }
        ensures count { CountsErr self.old.faults self.new.faults result }
    {
        counted(&mut self.faults, self.file.len())
    }

    fn read(&mut self, at: u64, into: &mut [u8]) -> Result<usize, Failed>
        ensures room { IfOk result (λ n. n ≤ length into.new) }
        ensures cause { HasCause self.old.faults self.new.faults result }
        ensures count { CountsErr self.old.faults self.new.faults result }
    {
        counted(&mut self.faults, self.file.read(at, into))
    }

    fn write_at(&mut self, at: u64, bytes: &[u8]) -> Result<(), Failed>
        ensures crash { Follows (Torn at (length bytes.now)) (λ _. ⊤) (λ _. ⊤) }
        ensures cause { HasCause self.old.faults self.new.faults result }
        ensures count { CountsErr self.old.faults self.new.faults result }
    {
        counted(&mut self.faults, self.file.write_at(at, bytes))
    }

    fn cut(&mut self, len: u64) -> Result<(), Failed>
        ensures crash { Follows (HalfCut len) (λ _. ⊤) (λ _. ⊤) }
        ensures cause { HasCause self.old.faults self.new.faults result }
        ensures count { CountsErr self.old.faults self.new.faults result }
    {
        counted(&mut self.faults, self.file.cut(len))
    }

    fn sync(&mut self) -> Result<(), Failed>
        ensures cause { HasCause self.old.faults self.new.faults result }
        ensures count { CountsErr self.old.faults self.new.faults result }
    {
        counted(&mut self.faults, self.file.sync())
    }
}
