// A whole file is written: it is cleared, filled, and its gate is opened.
ghost use Rattle.std.specs.Prelude.{◌≡◌, ◌≤◌, ◌+◌, ◌-◌, ◌^◌, ◌∷◌, [], IsTrue, min, length, OnOk, IfOk, Err};
ghost use Rattle.dkv_io.specs.Causes.{Rose};
ghost use Rattle.dkv_io.specs.Disks.{LeavesOnly, AtRest, Told, AnyBytes};
ghost use Rattle.dkv_queue.specs.Rows.{messages_of};
ghost use Rattle.dkv_image.specs.Image.{image, is_image};
ghost use Rattle.dkv_image_io.specs.Reading.{narrow};
ghost use Rattle.dkv_image_io.specs.Sizes.{HasImage};
ghost use Rattle.dkv_journal.specs.declared.gates.TheConstants.{OPEN_GATE};
ghost use Rattle.dkv_journal.specs.Crashes.{WhereTold};
ghost use Rattle.dkv_files.specs.Crashes.{IsHead, WholeLeaves};
ghost use Rattle.dkv_files.specs.Filling.{behind_gate, whole_file};
ghost use Rattle.dkv_files.specs.declared.filling.CheckpointRefusal.TheVariants as refusal;

use crate::files::clear;
use crate::filling::{CheckpointRefusal, fill_behind};
use crate::gate::open_gate;
use crate::head::{FileHead, spell_head};
use dkv_image_io::image_len;
use dkv_io::Disk;
use dkv_queue::Queue;
use dkv_table::Table;
use std::alloc::Global;

/// Writes a whole file of the first format, of a table and a queue: clears it, fills it and opens its gate. Gives the place of the
/// closed gate behind the image. A crash leaves what was there, a file that isn't open, or the whole file. Takes memory as `fill`
/// does; for the header before anything is written.
pub fn write_whole<T: Table, D: Disk>(
    alloc: Global,
    disk: &mut D,
    head: &FileHead,
    table: &T,
    queue: &Queue,
) -> Result<u64, CheckpointRefusal>
    requires numbers { IsHead head.now }
    requires image { IsTrue (is_image (narrow head.now.n head.now.now)
        (T.content table.now) (messages_of queue.now.rows)) }
    ensures leaves { WhereTold (D.seen disk.old) (λ _. LeavesOnly
        D.moment D.left_since disk.old disk.new (WholeLeaves (D.may_leave disk.old)
        (whole_file head.entry.now (T.content table.now) (messages_of queue.now.rows)))) }
    ensures done { WhereTold (D.seen disk.old) (λ _. OnOk result (AtRest
        (D.seen disk.new) (D.may_leave disk.new)
        (whole_file head.entry.now (T.content table.now) (messages_of queue.now.rows)))) }
    ensures sized { (length head.entry.now.id ≡ 16) × (length head.entry.now.secret ≡ 32) }
    // Where the disk tells its file, that is below 2^63.
    ensures place { IfOk result (λ place. place ≡ min (2 ^ 64 - 1)
        (96 + length (image (T.content table.now) (messages_of queue.now.rows)))) }
    ensures told { Told AnyBytes (D.seen disk.old) (D.seen disk.new) }
    ensures later { D.faults disk.old ≤ D.faults disk.new }
    ensures cause { result ≡ Err refusal.DiskFault
        → Rose (D.faults disk.old) (D.faults disk.new) }
{
    let Ok(front) = spell_head(alloc, *head, image_len(table, queue)) else {
        return Err(CheckpointRefusal::NoMemory);
    };
    write_spelled(alloc, disk, &front, table, queue)
}

// The same of a header that is spelled. Of an empty table and queue it takes no memory.
pub(crate) fn write_spelled<T: Table, D: Disk>(
    alloc: Global,
    disk: &mut D,
    front: &[u8],
    table: &T,
    queue: &Queue,
) -> Result<u64, CheckpointRefusal>
    requires long { length front.now ≡ 95 }
    requires image { HasImage (T.content table.now) (messages_of queue.now.rows) }
    ensures leaves { WhereTold (D.seen disk.old) (λ _. LeavesOnly
        D.moment D.left_since disk.old disk.new (WholeLeaves (D.may_leave disk.old)
        (OPEN_GATE ∷ behind_gate
        front.now (T.content table.now) (messages_of queue.now.rows)))) }
    ensures done { WhereTold (D.seen disk.old) (λ _. OnOk result (AtRest
        (D.seen disk.new) (D.may_leave disk.new) (OPEN_GATE ∷ behind_gate
        front.now (T.content table.now) (messages_of queue.now.rows)))) }
    ensures place { IfOk result (λ place. place ≡ min (2 ^ 64 - 1)
        (96 + length (image (T.content table.now) (messages_of queue.now.rows)))) }
    ensures told { Told AnyBytes (D.seen disk.old) (D.seen disk.new) }
    ensures later { D.faults disk.old ≤ D.faults disk.new }
    ensures cause { result ≡ Err refusal.DiskFault
        → Rose (D.faults disk.old) (D.faults disk.new) }
    ensures empty { T.content table.now ≡ [] → messages_of queue.now.rows ≡ []
        → result ≡ Err refusal.NoMemory → ⊥ }
{
    match clear(disk) {
        Ok(()) => {}
        Err(_) => return Err(CheckpointRefusal::DiskFault),
    }
    let place = match fill_behind(alloc, disk, front, table, queue) {
        Ok(place) => place,
        Err(refusal) => return Err(refusal),
    };
    match open_gate(disk) {
        Ok(()) => Ok(place),
        Err(_) => Err(CheckpointRefusal::DiskFault),
    }
}
