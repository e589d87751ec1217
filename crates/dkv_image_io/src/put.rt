// Entries and messages are spelled, and written piece by piece.
ghost use Rattle.std.specs.Prelude.{◌≡◌, ◌<◌, ◌≤◌, ◌++◌, List, ℕ, length, OnOk, Err, flat_map, IsTrue};
ghost use Rattle.std.specs.Int.{w64, to_le_bytes};
ghost use Rattle.std.specs.List.{AllByRecursion};
ghost use Rattle.dkv_base.specs.State.{is_in_id_order};
ghost use Rattle.dkv_io.specs.Causes.{Rose};
ghost use Rattle.dkv_io.specs.Disks.{WithinTold};
ghost use Rattle.dkv_queue.specs.Rows.{messages_of};
ghost use Rattle.dkv_image.specs.Image.{entry_bytes, message_bytes};
ghost use Rattle.dkv_image_io.specs.Sizes.{FitsLengths, FitsCounts, HasImage};
ghost use Rattle.dkv_image_io.specs.Writing.{Writes, IsUnderWay};
ghost use Rattle.dkv_image_io.specs.declared.refusal.ImageRefusal.TheVariants as refusal;

use crate::ImageRefusal;
use crate::pieces::Pieces;
use crate::spell::{add_entry, add_message};
use crate::walk::Walk;
use dkv_base::{Entry, Message};
use dkv_io::Disk;
use dkv_queue::Queue;
use dkv_table::{Cursor, Table};

// Spells an entry behind what is held, and writes each whole piece.
fn put_entry<D: Disk>(pieces: &mut Pieces, disk: &mut D, entry: &Entry) -> Result<(), ImageRefusal>
    requires fits { FitsLengths entry.now }
    requires within { WithinTold (D.seen disk.old) pieces.old.place }
    ensures way { (start : ℕ) (file spelled : List ℕ) → IsUnderWay
        start file spelled (D.seen disk.old) pieces.old.place pieces.old.held.items
        → OnOk result (IsUnderWay start file (spelled ++ entry_bytes entry.now)
        (D.seen disk.new) pieces.new.place pieces.new.held.items) }
    ensures within { OnOk result (WithinTold (D.seen disk.new) pieces.new.place) }
    ensures onward { pieces.old.place ≤ pieces.new.place }
    ensures writes { Writes D.seen D.may_leave D.moment D.left_since D.faults
        pieces.old.place disk.old disk.new }
    ensures cause { result ≡ Err refusal.DiskFault
        → Rose (D.faults disk.old) (D.faults disk.new) }
    ensures stands { (at : ℕ) → result ≡ Err (refusal.Damaged at) → ⊥ }
{
    match add_entry(&mut pieces.held, entry) {
        Ok(()) => pieces.write_full(disk),
        Err(_) => Err(ImageRefusal::NoMemory),
    }
}

// The same with a message.
fn put_message<D: Disk>(
    pieces: &mut Pieces,
    disk: &mut D,
    message: &Message,
) -> Result<(), ImageRefusal>
    requires fits { FitsCounts message.now }
    requires within { WithinTold (D.seen disk.old) pieces.old.place }
    ensures way { (start : ℕ) (file spelled : List ℕ) → IsUnderWay
        start file spelled (D.seen disk.old) pieces.old.place pieces.old.held.items
        → OnOk result (IsUnderWay start file (spelled ++ message_bytes message.now)
        (D.seen disk.new) pieces.new.place pieces.new.held.items) }
    ensures within { OnOk result (WithinTold (D.seen disk.new) pieces.new.place) }
    ensures onward { pieces.old.place ≤ pieces.new.place }
    ensures writes { Writes D.seen D.may_leave D.moment D.left_since D.faults
        pieces.old.place disk.old disk.new }
    ensures cause { result ≡ Err refusal.DiskFault
        → Rose (D.faults disk.old) (D.faults disk.new) }
    ensures stands { (at : ℕ) → result ≡ Err (refusal.Damaged at) → ⊥ }
{
    match add_message(&mut pieces.held, message) {
        Ok(()) => pieces.write_full(disk),
        Err(_) => Err(ImageRefusal::NoMemory),
    }
}

// Spells entries behind what is held, and writes each whole piece.
pub(crate) fn put_entries<D: Disk>(
    pieces: &mut Pieces,
    disk: &mut D,
    mut entries: Cursor<'_>,
) -> Result<(), ImageRefusal>
    requires fit { AllByRecursion FitsLengths entries }
    requires within { WithinTold (D.seen disk.old) pieces.old.place }
    ensures way { (start : ℕ) (file spelled : List ℕ) → IsUnderWay
        start file spelled (D.seen disk.old) pieces.old.place pieces.old.held.items
        → OnOk result (IsUnderWay start file (spelled ++ flat_map entry_bytes entries.entry)
        (D.seen disk.new) pieces.new.place pieces.new.held.items) }
    ensures within { OnOk result (WithinTold (D.seen disk.new) pieces.new.place) }
    ensures onward { pieces.old.place ≤ pieces.new.place }
    ensures writes { Writes D.seen D.may_leave D.moment D.left_since D.faults
        pieces.old.place disk.old disk.new }
    ensures cause { result ≡ Err refusal.DiskFault
        → Rose (D.faults disk.old) (D.faults disk.new) }
    ensures stands { (at : ℕ) → result ≡ Err (refusal.Damaged at) → ⊥ }
{
    while let Some(entry) = entries.next() {
        match put_entry(pieces, disk, entry) {
            Ok(()) => {}
            Err(refusal) => return Err(refusal),
        }
    }
    Ok(())
}

// The same with messages.
pub(crate) fn put_messages<D: Disk>(
    pieces: &mut Pieces,
    disk: &mut D,
    mut messages: Walk<'_>,
) -> Result<(), ImageRefusal>
    requires fit { AllByRecursion FitsCounts messages }
    requires within { WithinTold (D.seen disk.old) pieces.old.place }
    ensures way { (start : ℕ) (file spelled : List ℕ) → IsUnderWay
        start file spelled (D.seen disk.old) pieces.old.place pieces.old.held.items
        → OnOk result (IsUnderWay start file (spelled ++ flat_map message_bytes messages.entry)
        (D.seen disk.new) pieces.new.place pieces.new.held.items) }
    ensures within { OnOk result (WithinTold (D.seen disk.new) pieces.new.place) }
    ensures onward { pieces.old.place ≤ pieces.new.place }
    ensures writes { Writes D.seen D.may_leave D.moment D.left_since D.faults
        pieces.old.place disk.old disk.new }
    ensures cause { result ≡ Err refusal.DiskFault
        → Rose (D.faults disk.old) (D.faults disk.new) }
    ensures stands { (at : ℕ) → result ≡ Err (refusal.Damaged at) → ⊥ }
{
    while let Some(message) = messages.next() {
        match put_message(pieces, disk, message) {
            Ok(()) => {}
            Err(refusal) => return Err(refusal),
        }
    }
    Ok(())
}

// Spells the entries of a table behind what is held, with their number before them, and writes each whole piece.
pub(crate) fn put_table<T: Table, D: Disk>(
    pieces: &mut Pieces,
    disk: &mut D,
    table: &T,
) -> Result<(), ImageRefusal>
    requires fit { AllByRecursion FitsLengths (T.content table.now) }
    requires within { WithinTold (D.seen disk.old) pieces.old.place }
    ensures way { (start : ℕ) (file spelled : List ℕ) → IsUnderWay
        start file spelled (D.seen disk.old) pieces.old.place pieces.old.held.items
        → OnOk result (IsUnderWay start file (spelled
        ++ to_le_bytes w64 (length (T.content table.now))
        ++ flat_map entry_bytes (T.content table.now))
        (D.seen disk.new) pieces.new.place pieces.new.held.items) }
    ensures within { OnOk result (WithinTold (D.seen disk.new) pieces.new.place) }
    ensures onward { pieces.old.place ≤ pieces.new.place }
    ensures writes { Writes D.seen D.may_leave D.moment D.left_since D.faults
        pieces.old.place disk.old disk.new }
    ensures cause { result ≡ Err refusal.DiskFault
        → Rose (D.faults disk.old) (D.faults disk.new) }
    ensures stands { (at : ℕ) → result ≡ Err (refusal.Damaged at) → ⊥ }
{
    match pieces
        .held
        .extend_from_slice(&(table.len() as u64).to_le_bytes())
    {
        Ok(()) => put_entries(pieces, disk, table.all()),
        Err(_) => Err(ImageRefusal::NoMemory),
    }
}

// The same with the messages of a queue.
pub(crate) fn put_queue<D: Disk>(
    pieces: &mut Pieces,
    disk: &mut D,
    queue: &Queue,
) -> Result<(), ImageRefusal>
    requires order { IsTrue (is_in_id_order (messages_of queue.now.rows)) }
    requires fit { AllByRecursion FitsCounts (messages_of queue.now.rows) }
    requires within { WithinTold (D.seen disk.old) pieces.old.place }
    ensures way { (start : ℕ) (file spelled : List ℕ) → IsUnderWay
        start file spelled (D.seen disk.old) pieces.old.place pieces.old.held.items
        → OnOk result (IsUnderWay start file (spelled
        ++ to_le_bytes w64 (length (messages_of queue.now.rows))
        ++ flat_map message_bytes (messages_of queue.now.rows))
        (D.seen disk.new) pieces.new.place pieces.new.held.items) }
    ensures within { OnOk result (WithinTold (D.seen disk.new) pieces.new.place) }
    ensures onward { pieces.old.place ≤ pieces.new.place }
    ensures writes { Writes D.seen D.may_leave D.moment D.left_since D.faults
        pieces.old.place disk.old disk.new }
    ensures cause { result ≡ Err refusal.DiskFault
        → Rose (D.faults disk.old) (D.faults disk.new) }
    ensures stands { (at : ℕ) → result ≡ Err (refusal.Damaged at) → ⊥ }
{
    match pieces
        .held
        .extend_from_slice(&(queue.len() as u64).to_le_bytes())
    {
        Ok(()) => put_messages(pieces, disk, Walk::over(queue)),
        Err(_) => Err(ImageRefusal::NoMemory),
    }
}
