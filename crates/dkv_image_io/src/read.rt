// An image is read.
ghost use Rattle.std.specs.Prelude.{◌≡◌, ◌+◌, ◌≤◌, List, ℕ, slice_range, Err, Some};
ghost use Rattle.dkv_io.specs.Causes.{Rose};
ghost use Rattle.dkv_image_io.specs.Reading.{narrow, IsReadImage, OnlyReads};
ghost use Rattle.dkv_image_io.specs.declared.refusal.ImageRefusal.TheVariants as refusal;

use crate::ImageRefusal;
use crate::rows::{read_end, read_row};
use crate::window::Window;
use dkv_base::{Entry, Message, Run};
use dkv_io::Disk;
use std::alloc::Global;

/// Reads the image that has `len` bytes from a place of the file on, made after commit `n` at the moment `now`, in milliseconds
/// since 1970. `Damaged` comes exactly where these bytes, or those of them that there are, are no such image. Writes nothing.
/// Takes memory for the entries and messages, and for pieces of the file.
pub fn read_image<D: Disk>(
    alloc: Global,
    disk: &mut D,
    at: u64,
    len: u64,
    n: u64,
    now: u64,
) -> Result<(Run<Entry>, Run<Message>), ImageRefusal>
    ensures read { (file : List ℕ) → D.seen disk.old ≡ Some file
        → IsReadImage (narrow n now) at (slice_range file at (at + len)) result }
    ensures reads { OnlyReads D.seen D.may_leave D.moment D.left_since disk.old disk.new }
    ensures later { D.faults disk.old ≤ D.faults disk.new }
    ensures cause { result ≡ Err refusal.DiskFault
        → Rose (D.faults disk.old) (D.faults disk.new) }
{
    let mut window = Window::over(alloc, at, len);
    let entries = match read_row::<Entry, D>(alloc, disk, &mut window, n, now) {
        Ok(entries) => entries,
        Err(refusal) => return Err(refusal),
    };
    let messages = match read_row::<Message, D>(alloc, disk, &mut window, n, now) {
        Ok(messages) => messages,
        Err(refusal) => return Err(refusal),
    };
    match read_end(alloc, disk, &mut window) {
        Ok(()) => Ok((entries, messages)),
        Err(refusal) => Err(refusal),
    }
}
