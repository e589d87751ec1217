// A cleared file is filled: its header, its image and a closed gate, all behind its own closed gate.
ghost use Rattle.std.specs.Prelude.{◌≡◌, ◌≤◌, ◌+◌, ◌-◌, ◌^◌, ◌∷◌, ◌++◌, [], IsTrue, min, length, take, drop, OnOk, IfOk, Err};
ghost use Rattle.dkv_io.specs.Causes.{HasCause, Rose};
ghost use Rattle.dkv_io.specs.Disks.{WithinTold, LeavesOnly, LeavesFrom, AtRest, Told, AnyBytes};
ghost use Rattle.dkv_queue.specs.Rows.{messages_of};
ghost use Rattle.dkv_image.specs.Image.{image, is_image};
ghost use Rattle.dkv_image_io.specs.Reading.{narrow};
ghost use Rattle.dkv_image_io.specs.Sizes.{HasImage};
ghost use Rattle.dkv_image_io.specs.Writing.{KeepsFront};
ghost use Rattle.dkv_journal.specs.declared.gates.TheConstants.{CLOSED_GATE};
ghost use Rattle.dkv_journal.specs.Crashes.{WhereTold, EachImage};
ghost use Rattle.dkv_journal.specs.Records.{first_layout};
ghost use Rattle.dkv_files.specs.Crashes.{FillLeaves, IsHead, cleared};
ghost use Rattle.dkv_files.specs.Files.{filled};
ghost use Rattle.dkv_files.specs.Filling.{behind_gate};
ghost use Rattle.dkv_files.specs.declared.filling.CheckpointRefusal.TheVariants as refusal;

use crate::head::{FileHead, spell_head};
use dkv_image_io::{ImageRefusal, image_len, write_image};
use dkv_io::{Disk, Failed};
use dkv_journal::CLOSED_GATE;
use dkv_queue::Queue;
use dkv_table::Table;
use std::alloc::Global;
use thiserror::Error;

/// Why no whole file was written.
#[derive(Clone, Copy, Debug, PartialEq, Eq, Error)]
pub enum CheckpointRefusal {
    /// A disk failed.
    #[error("a disk failed")]
    DiskFault,
    /// The allocator had no room.
    #[error("no memory")]
    NoMemory,
}

/// Fills a cleared file: writes the header of the first format, the image of a table and a queue, and a closed gate, syncs, and gives
/// the place of that gate. A crash leaves the file's own gate closed. Takes memory for the header, a piece and the longest entry
/// or message.
pub fn fill<T: Table, D: Disk>(
    alloc: Global,
    disk: &mut D,
    head: &FileHead,
    table: &T,
    queue: &Queue,
) -> Result<u64, CheckpointRefusal>
    requires numbers { IsHead head.now }
    requires image { IsTrue (is_image (narrow head.now.n head.now.now)
        (T.content table.now) (messages_of queue.now.rows)) }
    requires cleared { EachImage (D.seen disk.old) (D.may_leave disk.old) (λ x. x ≡ cleared) }
    ensures leaves { WhereTold (D.seen disk.old) (λ _. LeavesOnly
        D.moment D.left_since disk.old disk.new FillLeaves) }
    ensures done { WhereTold (D.seen disk.old) (λ _. OnOk result (AtRest
        (D.seen disk.new) (D.may_leave disk.new) (filled first_layout
        head.entry.now (T.content table.now) (messages_of queue.now.rows)))) }
    // Where the disk tells its file, that is below 2^63.
    ensures place { IfOk result (λ place. place ≡ min (2 ^ 64 - 1)
        (96 + length (image (T.content table.now) (messages_of queue.now.rows)))) }
    ensures told { Told AnyBytes (D.seen disk.old) (D.seen disk.new) }
    ensures later { D.faults disk.old ≤ D.faults disk.new }
    ensures cause { result ≡ Err refusal.DiskFault
        → Rose (D.faults disk.old) (D.faults disk.new) }
{
    let Ok(front) = spell_head(alloc, *head, image_len(table, queue)) else {
        return Err(CheckpointRefusal::NoMemory);
    };
    fill_behind(alloc, disk, &front, table, queue)
}

// The same of a header that is spelled. Of an empty table and queue it takes no memory.
pub(crate) fn fill_behind<T: Table, D: Disk>(
    alloc: Global,
    disk: &mut D,
    front: &[u8],
    table: &T,
    queue: &Queue,
) -> Result<u64, CheckpointRefusal>
    requires long { length front.now ≡ 95 }
    requires image { HasImage (T.content table.now) (messages_of queue.now.rows) }
    requires cleared { EachImage (D.seen disk.old) (D.may_leave disk.old) (λ x. x ≡ cleared) }
    ensures leaves { WhereTold (D.seen disk.old) (λ _. LeavesOnly
        D.moment D.left_since disk.old disk.new FillLeaves) }
    ensures done { WhereTold (D.seen disk.old) (λ _. OnOk result (AtRest
        (D.seen disk.new) (D.may_leave disk.new) (CLOSED_GATE ∷ behind_gate
        front.now (T.content table.now) (messages_of queue.now.rows)))) }
    ensures place { IfOk result (λ place. place ≡ min (2 ^ 64 - 1)
        (96 + length (image (T.content table.now) (messages_of queue.now.rows)))) }
    ensures told { Told AnyBytes (D.seen disk.old) (D.seen disk.new) }
    ensures later { D.faults disk.old ≤ D.faults disk.new }
    ensures cause { result ≡ Err refusal.DiskFault
        → Rose (D.faults disk.old) (D.faults disk.new) }
    ensures empty { T.content table.now ≡ [] → messages_of queue.now.rows ≡ []
        → result ≡ Err refusal.NoMemory → ⊥ }
{
    match disk.write_at(1, front) {
        Ok(()) => {}
        Err(_) => return Err(CheckpointRefusal::DiskFault),
    }
    let len = match write_image(alloc, table, queue, disk, 96) {
        Ok(len) => len,
        Err(ImageRefusal::DiskFault) => return Err(CheckpointRefusal::DiskFault),
        Err(ImageRefusal::NoMemory) => return Err(CheckpointRefusal::NoMemory),
        // It doesn't come.
        Err(ImageRefusal::Damaged { .. }) => return Err(CheckpointRefusal::NoMemory),
    };
    let place = 96u64.saturating_add(len);
    match close_behind(disk, place) {
        Ok(()) => Ok(place),
        Err(_) => Err(CheckpointRefusal::DiskFault),
    }
}

// Writes a closed gate, and syncs.
fn close_behind<D: Disk>(disk: &mut D, place: u64) -> Result<(), Failed>
    requires { WithinTold (D.seen disk.old) place }
    ensures leaves { 1 ≤ place → LeavesFrom
        D.may_leave D.moment D.left_since disk.old disk.new KeepsFront }
    ensures done { WhereTold (D.seen disk.old) (λ file. OnOk result (AtRest
        (D.seen disk.new) (D.may_leave disk.new)
        (take place file ++ (CLOSED_GATE ∷ []) ++ drop (place + 1) file))) }
    ensures told { Told AnyBytes (D.seen disk.old) (D.seen disk.new) }
    ensures cause { HasCause (D.faults disk.old) (D.faults disk.new) result }
{
    disk.write_at(place, &[CLOSED_GATE])?;
    disk.sync()
}
