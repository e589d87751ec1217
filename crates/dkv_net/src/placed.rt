// Reading at a place.
ghost use Rattle.std.specs.Prelude.{ℕ, List, ◌<◌, ◌≤◌, ◌^◌, None, length, IfOk};
ghost use Rattle.std.specs.declared.option.Option.{Option};
ghost use Rattle.dkv_io.specs.Disks.{ReadAt};
ghost use Rattle.dkv_net.specs.Places.{IsFront, EndsThere};

use std::fs::File;
use std::io::{self, ErrorKind};
use std::os::unix::fs::FileExt;

/// What has bytes at places. A file of the system doesn't tell them.
pub(crate) trait Placed {
    /// The bytes, where they are told.
    ghost content: { Self → Option (List ℕ) };

    /// Puts some of the bytes from a place on to the front of the buffer, and says how many: none only where there are none,
    /// or no room.
    fn read_some(&self, at: u64, into: &mut [u8]) -> io::Result<usize>
        ensures room { IfOk result (λ n. n ≤ length into.new) }
        ensures front { IfOk result (λ n. IsFront (content self.now) at into.new n) }
        ensures end { IfOk result (λ n. EndsThere (content self.now) at into.new n) };
}

impl Placed for File {
    ghost content = { λ _. None };

    fn read_some(&self, at: u64, into: &mut [u8]) -> io::Result<usize>
        ensures { IfOk result (λ n. n ≤ length into.new) }
    {
        self.read_at(into, at)
    }
}

/// Reads from a place on until the buffer is full or nothing is left. A read that was interrupted is tried again.
pub(crate) fn read_placed<F: Placed>(file: &F, at: u64, into: &mut [u8]) -> io::Result<usize>
    requires { at < 2 ^ 63 }
    ensures bytes { IfOk result (λ n. ReadAt (F.content file.now) at into.new n) }
    ensures room { IfOk result (λ n. n ≤ length into.new) }
{
    let mut n = 0;
    for _ in 0..u64::MAX {
        if n >= into.len() {
            return Ok(n);
        }
        match file.read_some(at + n as u64, &mut into[n..]) {
            Ok(0) => return Ok(n),
            Ok(more) => n += more,
            Err(error) => {
                if error.kind() != ErrorKind::Interrupted {
                    return Err(error);
                }
            }
        }
    }
    Err(ErrorKind::Interrupted.into())
}
