// An image is written.
ghost use Rattle.std.specs.Prelude.{◌≡◌, ◌-◌, ◌^◌, ◌≤◌, ◌==◌, ◌&&◌, ℕ, [], min, length, IfOk, OnOk, Err};
ghost use Rattle.dkv_io.specs.Causes.{Rose};
ghost use Rattle.dkv_io.specs.Disks.{WithinTold, Told, AnyBytes, Holds, LeavesFrom};
ghost use Rattle.dkv_queue.specs.Rows.{messages_of};
ghost use Rattle.dkv_image.specs.Image.{image};
ghost use Rattle.dkv_image_io.specs.Sizes.{HasImage};
ghost use Rattle.dkv_image_io.specs.Writing.{KeepsFront};
ghost use Rattle.dkv_image_io.specs.declared.refusal.ImageRefusal.TheVariants as refusal;

use crate::pieces::Pieces;
use crate::put::{put_queue, put_table};
use crate::{ImageRefusal, image_len};
use dkv_io::Disk;
use dkv_queue::Queue;
use dkv_table::Table;
use std::alloc::Global;

/// Writes the image of a table and a queue from a place of the file on, in pieces of `PIECE_BYTES`, and gives its length as
/// `image_len` does. It doesn't sync. Takes memory for a piece and the longest entry or message, and none for an empty image.
pub fn write_image<T: Table, D: Disk>(
    alloc: Global,
    table: &T,
    queue: &Queue,
    disk: &mut D,
    at: u64,
) -> Result<u64, ImageRefusal>
    requires image { HasImage (T.content table.now) (messages_of queue.now.rows) }
    requires within { WithinTold (D.seen disk.old) at }
    ensures written { OnOk result (Told
        (Holds at (image (T.content table.now) (messages_of queue.now.rows)))
        (D.seen disk.old) (D.seen disk.new)) }
    ensures length { IfOk result (λ len. len ≡ min (2 ^ 64 - 1)
        (length (image (T.content table.now) (messages_of queue.now.rows)))) }
    // Behind the first byte each image at each moment has the first byte of one of the start.
    ensures leaves { 1 ≤ at → LeavesFrom
        D.may_leave D.moment D.left_since disk.old disk.new KeepsFront }
    ensures told { Told AnyBytes (D.seen disk.old) (D.seen disk.new) }
    ensures later { D.faults disk.old ≤ D.faults disk.new }
    ensures cause { result ≡ Err refusal.DiskFault
        → Rose (D.faults disk.old) (D.faults disk.new) }
    ensures sound { (place : ℕ) → result ≡ Err (refusal.Damaged place) → ⊥ }
    ensures empty { T.content table.now ≡ [] → messages_of queue.now.rows ≡ []
        → result ≡ Err refusal.NoMemory → ⊥ }
{
    if is_empty(table, queue) {
        write_nothing(disk, at)
    } else {
        write_items(alloc, table, queue, disk, at)
    }
}

// Whether there is neither an entry nor a message.
fn is_empty<T: Table>(table: &T, queue: &Queue) -> bool
    ensures { result ≡ (length (T.content table.now) == 0 && length queue.now.rows == 0) }
{
    table.len() == 0 && queue.len() == 0
}

// Writes the empty image.
fn write_nothing<D: Disk>(disk: &mut D, at: u64) -> Result<u64, ImageRefusal>
    requires within { WithinTold (D.seen disk.old) at }
    ensures written { OnOk result (Told (Holds at (image [] []))
        (D.seen disk.old) (D.seen disk.new)) }
    ensures length { IfOk result (λ len. len ≡ 16) }
    ensures leaves { 1 ≤ at → LeavesFrom
        D.may_leave D.moment D.left_since disk.old disk.new KeepsFront }
    ensures told { Told AnyBytes (D.seen disk.old) (D.seen disk.new) }
    ensures later { D.faults disk.old ≤ D.faults disk.new }
    ensures cause { result ≡ Err refusal.DiskFault
        → Rose (D.faults disk.old) (D.faults disk.new) }
    ensures sound { (place : ℕ) → result ≡ Err (refusal.Damaged place) → ⊥ }
    ensures memory { result ≡ Err refusal.NoMemory → ⊥ }
{
    match disk.write_at(at, &[0; 16]) {
        Ok(()) => Ok(16),
        Err(_) => Err(ImageRefusal::DiskFault),
    }
}

// Writes an image in pieces.
fn write_items<T: Table, D: Disk>(
    alloc: Global,
    table: &T,
    queue: &Queue,
    disk: &mut D,
    at: u64,
) -> Result<u64, ImageRefusal>
    requires image { HasImage (T.content table.now) (messages_of queue.now.rows) }
    requires within { WithinTold (D.seen disk.old) at }
    ensures written { OnOk result (Told
        (Holds at (image (T.content table.now) (messages_of queue.now.rows)))
        (D.seen disk.old) (D.seen disk.new)) }
    ensures length { IfOk result (λ len. len ≡ min (2 ^ 64 - 1)
        (length (image (T.content table.now) (messages_of queue.now.rows)))) }
    ensures leaves { 1 ≤ at → LeavesFrom
        D.may_leave D.moment D.left_since disk.old disk.new KeepsFront }
    ensures told { Told AnyBytes (D.seen disk.old) (D.seen disk.new) }
    ensures later { D.faults disk.old ≤ D.faults disk.new }
    ensures cause { result ≡ Err refusal.DiskFault
        → Rose (D.faults disk.old) (D.faults disk.new) }
    ensures sound { (place : ℕ) → result ≡ Err (refusal.Damaged place) → ⊥ }
{
    let mut pieces = Pieces::at(alloc, at);
    match put_table(&mut pieces, disk, table) {
        Ok(()) => {}
        Err(refusal) => return Err(refusal),
    }
    match put_queue(&mut pieces, disk, queue) {
        Ok(()) => {}
        Err(refusal) => return Err(refusal),
    }
    match pieces.write_held(disk) {
        Ok(()) => Ok(image_len(table, queue)),
        Err(refusal) => Err(refusal),
    }
}
